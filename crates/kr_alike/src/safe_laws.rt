//! Laws of tables that are alike where one is safe. Each function does nothing, and its contract is a law.
ghost use Rattle.kr_model.specs.Protocol.{Protocol, IsLawful};
ghost use Rattle.kr_model.specs.Safe.{IsSafe};
ghost use Rattle.kr_model.specs.Serial.{RunsAreSerial};
ghost use Rattle.kr_alike.specs.Coming.{HasClosedSet, AlikeOnMaps};

/// Two lawful protocols, of which the first is safe, give the same replies in every schedule, of any number of keys,
/// transactions and steps, where some set of the modes that two transactions can hold on one name is closed under the requests
/// that may come under the first, and both offer updates or neither does. The second need not be safe.
pub fn closed_is_alike_if_safe()
    ensures { (p q : Protocol) → IsLawful p → IsLawful q → IsSafe p → HasClosedSet p q → AlikeOnMaps p q }
{}

/// Every run under a table that is alike with a safe one is serializable in commit order: also where the other fails cases,
/// or isn't safe.
pub fn alike_if_safe_are_serial()
    ensures { (p q : Protocol) → IsLawful p → IsSafe p → AlikeOnMaps p q → RunsAreSerial q }
{}
