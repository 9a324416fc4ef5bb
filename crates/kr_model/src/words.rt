//! The words, codes and numbers of rows, sides, durations, groups of cases, covers and refusals, as tables and reports have them.
ghost use Rattle.std.specs.Prelude.{◌≡◌, ◌<◌};
ghost use Rattle.kr_model.specs.Difference.{refusal_number};
ghost use Rattle.kr_model.specs.Words.{row_number, row_word, side_number, side_word, span_word, rule_code, rule_number, cover_code};

use crate::{Cover, Refusal, Row, Rule, Side, Span};

/// A row, as tables name it.
pub fn row_word(row: Row) -> &'static str
    ensures { result.now ≡ row_word row }
{
    match row {
        Row::FetchHit => "fetch-hit",
        Row::FetchMiss => "fetch-miss",
        Row::ScanKey => "scan-key",
        Row::ScanStop => "scan-stop",
        Row::Insert => "insert",
        Row::Delete => "delete",
        Row::Update => "update",
    }
}

/// A side, as tables name it.
pub fn side_word(side: Side) -> &'static str
    ensures { result.now ≡ side_word side }
{
    match side {
        Side::Current => "current",
        Side::Next => "next",
    }
}

/// The place of a row in its order, from 0 and below 7.
pub fn row_number(row: Row) -> usize
    ensures value { result ≡ row_number row }
    ensures within { result < 7 }
{
    match row {
        Row::FetchHit => 0,
        Row::FetchMiss => 1,
        Row::ScanKey => 2,
        Row::ScanStop => 3,
        Row::Insert => 4,
        Row::Delete => 5,
        Row::Update => 6,
    }
}

/// The place of a side in its order, from 0 and below 2.
pub fn side_number(side: Side) -> usize
    ensures value { result ≡ side_number side }
    ensures within { result < 2 }
{
    match side {
        Side::Current => 0,
        Side::Next => 1,
    }
}

/// A duration, as tables name it.
pub fn span_word(span: Span) -> &'static str
    ensures { result.now ≡ span_word span }
{
    match span {
        Span::Instant => "instant",
        Span::Commit => "commit",
    }
}

/// The code of a group of cases.
pub fn rule_code(rule: Rule) -> &'static str
    ensures { result.now ≡ rule_code rule }
{
    match rule {
        Rule::Conversion => "G1",
        Rule::FetchHit => "G2",
        Rule::FetchMiss => "G3",
        Rule::ScanKey => "G4",
        Rule::ScanStop => "G5",
        Rule::Insert => "G6",
        Rule::Split => "G7",
        Rule::Delete => "G8",
        Rule::Update => "G9",
    }
}

/// The number of a group of cases.
pub fn rule_number(rule: Rule) -> u8
    ensures { result ≡ rule_number rule }
{
    match rule {
        Rule::Conversion => 1,
        Rule::FetchHit => 2,
        Rule::FetchMiss => 3,
        Rule::ScanKey => 4,
        Rule::ScanStop => 5,
        Rule::Insert => 6,
        Rule::Split => 7,
        Rule::Delete => 8,
        Rule::Update => 9,
    }
}

/// The code of a cover.
pub fn cover_code(cover: Cover) -> &'static str
    ensures { result.now ≡ cover_code cover }
{
    match cover {
        Cover::ReadKey => "RK",
        Cover::ReadGap => "RG",
        Cover::InsertedKey => "IK",
        Cover::DeletedGap => "DG",
        Cover::UpdatedKey => "UK",
    }
}

/// The number of a refusal, from 1, in the order of `Refusal`.
pub fn refusal_number(refusal: Refusal) -> u8
    ensures { result ≡ refusal_number refusal }
{
    match refusal {
        Refusal::Ended => 1,
        Refusal::Busy => 2,
        Refusal::NoScan => 3,
        Refusal::BadRange => 4,
        Refusal::Full => 5,
        Refusal::Memory => 6,
        Refusal::NoUpdate => 7,
        Refusal::RollingBack => 8,
        Refusal::NothingLeft => 9,
    }
}
