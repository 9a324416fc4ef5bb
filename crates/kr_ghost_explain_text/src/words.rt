//! The words of rules, and what a lock has to protect.
ghost use Rattle.std.specs.Prelude.{◌≡◌};
ghost use Rattle.kr_ghost_explain_text.specs.Words.{access_side, row_words, rule_number, side_words};

use kr_ghost::{Access, Cover, FailedCase, Rule};

/// The number of a group of cases, from 1.
pub(crate) fn rule_number(rule: Rule) -> u8
    ensures { result ≡ rule_number rule }
{
    match rule {
        Rule::Conversion => 1,
        Rule::FetchHit => 2,
        Rule::FetchMiss => 3,
        Rule::ScanName => 4,
        Rule::ScanStop => 5,
        Rule::Insert => 6,
        Rule::Split => 7,
        Rule::Delete => 8,
        Rule::Update => 9,
        Rule::Revive => 10,
        Rule::Heir => 11,
        Rule::InsertHit => 12,
        Rule::DeleteMiss => 13,
        Rule::UpdateMiss => 14,
    }
}

/// The row of a rule.
pub(crate) fn row_words(rule: Rule) -> &'static str
    ensures { result.now ≡ row_words rule }
{
    match rule {
        Rule::Conversion => "conversion",
        Rule::FetchHit => "fetch-hit",
        Rule::FetchMiss => "fetch-miss",
        Rule::ScanName => "scan-key",
        Rule::ScanStop => "scan-stop",
        Rule::Insert | Rule::Split => "insert",
        Rule::Delete => "delete",
        Rule::Update => "update",
        Rule::Revive => "revive",
        Rule::Heir => "purge",
        Rule::InsertHit => "insert-hit",
        Rule::DeleteMiss => "delete-miss",
        Rule::UpdateMiss => "update-miss",
    }
}

/// What the row of a rule requests its lock on.
pub(crate) fn side_words(rule: Rule) -> &'static str
    ensures { result.now ≡ side_words rule }
{
    match rule {
        Rule::FetchMiss | Rule::ScanStop | Rule::Heir => "the next name",
        Rule::DeleteMiss | Rule::UpdateMiss => "the next name",
        Rule::Insert | Rule::Split => "its new key",
        _ => "its key",
    }
}

/// What an access requests its lock on.
pub(crate) fn access_side(access: Access) -> &'static str
    ensures { result.now ≡ access_side access }
{
    match access {
        Access::Insert => "the next name",
        _ => "its key",
    }
}

/// After what a transaction has to protect something.
pub(crate) fn step_words(rule: Rule) -> &'static str {
    match rule {
        Rule::Conversion => "a conversion",
        Rule::FetchHit => "`fetch-hit`",
        Rule::FetchMiss => "`fetch-miss`",
        Rule::ScanName => "`scan-key`",
        Rule::ScanStop => "`scan-stop`",
        Rule::Insert => "`insert`",
        Rule::Split => "an `insert` into a gap that it read",
        Rule::Delete => "`delete`",
        Rule::Update => "`update`",
        Rule::Revive => "`revive`",
        Rule::Heir => "the purge of a ghost that it has locked",
        Rule::InsertHit => "`insert-hit`",
        Rule::DeleteMiss => "`delete-miss`",
        Rule::UpdateMiss => "`update-miss`",
    }
}

/// What a transaction has to protect then.
pub(crate) fn protected_words(case: &FailedCase) -> &'static str {
    match (case.case, case.cover) {
        (Rule::Split, _) => "the part of the gap below its new key",
        (Rule::Heir, _) => "the gap below the next name",
        (_, Cover::ReadKey) => "a key that it read, present or not",
        (_, Cover::ReadGap) => "a gap that it read",
        (_, Cover::ChangedKey) => "a key that it changed",
    }
}

/// What a transaction can do whose request is granted.
pub(crate) fn deed_words(access: Access) -> &'static str {
    match access {
        Access::Fetch => "fetch that key",
        Access::Scan => "scan that key",
        Access::Delete => "delete that key",
        Access::Update => "update that key",
        Access::Revive => "insert that key again",
        Access::Insert => "insert a key into the gap below that name",
        Access::InsertHit => "find that key by an insert",
    }
}
