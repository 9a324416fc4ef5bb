//! Laws of tables that are alike. Each function does nothing, and its contract is a law.
ghost use Rattle.kr_model.specs.Protocol.{Protocol, IsLawful};
ghost use Rattle.kr_model.specs.Serial.{RunsAreSerial};
ghost use Rattle.kr_alike.specs.Alike.{Alike};
ghost use Rattle.kr_alike.specs.Closed.{HasClosedSet};

/// Two lawful protocols give the same replies in every schedule, of any number of keys, transactions and steps, where some
/// set of the modes that two transactions can hold on one name is closed, and both offer updates or neither does.
pub fn closed_is_alike()
    ensures { (p q : Protocol) → IsLawful p → IsLawful q → HasClosedSet p q → Alike p q }
{}

/// If every run under one of two such protocols is serializable in commit order, so is every run under the other: also where
/// the other fails cases, or isn't safe.
pub fn alike_are_serial()
    ensures { (p q : Protocol) → Alike p q → RunsAreSerial p → RunsAreSerial q }
{}
