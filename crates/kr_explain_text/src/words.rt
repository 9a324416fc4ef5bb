//! What the parts of a protocol table mean, in words.
ghost use Rattle.std.specs.Prelude.{◌≡◌};
ghost use Rattle.kr_model.specs.declared.Row.TheVariants as rows;
ghost use Rattle.kr_explain_text.specs.Words.{cover_words, deed_words, side_words};

use kr_model::{Cover, Row, Rule, Side};

/// A side, seen from the row.
pub fn side_words(side: Side) -> &'static str
    ensures { result.now ≡ side_words side }
{
    match side {
        Side::Current => "its key",
        Side::Next => "the next key",
    }
}

/// The step after which the cases of a group require their cover.
pub fn rule_step(rule: Rule) -> &'static str {
    match rule {
        Rule::Conversion => "a conversion",
        Rule::FetchHit => "`fetch-hit`",
        Rule::FetchMiss => "`fetch-miss`",
        Rule::ScanKey => "`scan-key`",
        Rule::ScanStop => "`scan-stop`",
        Rule::Insert | Rule::Split => "`insert`",
        Rule::Delete => "`delete`",
        Rule::Update => "`update`",
    }
}

/// What a transaction must protect by a lock with a cover.
pub fn cover_words(cover: Cover) -> &'static str
    ensures { result.now ≡ cover_words cover }
{
    match cover {
        Cover::ReadKey => "a key that it read",
        Cover::ReadGap => "a gap that it read",
        Cover::InsertedKey => "a key that it inserted",
        Cover::DeletedGap => "a gap in which it deleted a key",
        Cover::UpdatedKey => "a key that it updated",
    }
}

/// What a transaction does whose request for a row at a side is granted on a key.
pub fn deed_words(row: Row, side: Side) -> &'static str
    ensures { result.now ≡ deed_words row side }
{
    match row {
        Row::FetchHit => "fetch that key",
        Row::FetchMiss => "fetch in the gap below that key and find nothing",
        Row::ScanKey => "scan that key",
        Row::ScanStop => "end a scan in the gap below that key",
        Row::Insert => insert_words(side),
        Row::Delete => delete_words(side),
        Row::Update => "update that key",
    }
}

/// What a transaction does whose request for an insert at a side is granted on a key.
fn insert_words(side: Side) -> &'static str
    ensures { result.now ≡ deed_words rows.Insert side }
{
    match side {
        Side::Current => "insert that key",
        Side::Next => "insert a key into the gap below that key",
    }
}

/// What a transaction does whose request for a delete at a side is granted on a key.
fn delete_words(side: Side) -> &'static str
    ensures { result.now ≡ deed_words rows.Delete side }
{
    match side {
        Side::Current => "delete that key",
        Side::Next => "delete the key before that key",
    }
}
