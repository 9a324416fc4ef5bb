//! Operations, answers and modes that a case is taken at, as the text has them.
ghost use Rattle.std.specs.Prelude.{◌≡◌, IfOk, string_bytes};
ghost use Rattle.kr_explain_text.specs.Spoken.{name_words, op_words, pairs_words, reply_words, rows_words, txns_words};

use kr_cases::Memory;
use kr_model::{FailedCase, Mode, Name, Op, Origin, Reply, Txn};
use kr_protocol::{Protocol, name_or_empty};
use std::alloc::Global;

/// An operation, by its word and its numbers.
pub fn op_text(alloc: Global, op: Op) -> Result<String, Memory>
    ensures { IfOk result (λ text. string_bytes text ≡ op_words op) }
{
    match op {
        Op::Fetch(key) => format!(in alloc; "fetch {key}"),
        Op::Scan(lo, hi) => format!(in alloc; "scan {lo} {hi}"),
        Op::Go => String::from_str(alloc, "go"),
        Op::Insert(key, value) => format!(in alloc; "insert {key} {value}"),
        Op::Delete(key) => format!(in alloc; "delete {key}"),
        Op::Update(key, value) => format!(in alloc; "update {key} {value}"),
        Op::Commit => String::from_str(alloc, "commit"),
        Op::Abort => String::from_str(alloc, "abort"),
        Op::Back => String::from_str(alloc, "back"),
    }
}

/// An answer, by its word and its numbers.
pub fn answer_text(alloc: Global, reply: &Reply) -> Result<String, Memory>
    ensures { IfOk result (λ text. string_bytes text ≡ reply_words reply.now) }
{
    match reply {
        Reply::Found(value) => format!(in alloc; "found {value}"),
        Reply::None => String::from_str(alloc, "none"),
        Reply::Going(key) => format!(in alloc; "going {key}"),
        Reply::Rows(rows) => rows_text(alloc, rows.as_slice()),
        Reply::Done => String::from_str(alloc, "done"),
        Reply::Duplicate => String::from_str(alloc, "duplicate"),
        Reply::Deleted(value) => format!(in alloc; "deleted {value}"),
        Reply::Absent => String::from_str(alloc, "absent"),
        Reply::Updated(value) => format!(in alloc; "updated {value}"),
        Reply::Committed => String::from_str(alloc, "committed"),
        Reply::Aborted => String::from_str(alloc, "aborted"),
        Reply::Undone(left) => format!(in alloc; "undone {left}"),
        Reply::Blocked(_) => String::from_str(alloc, "blocked"),
        Reply::Refused(_) => String::from_str(alloc, "refused"),
    }
}

/// The rows of a scan.
pub fn rows_text(alloc: Global, rows: &[(u64, u64)]) -> Result<String, Memory>
    ensures { IfOk result (λ text. string_bytes text ≡ rows_words rows.now) }
{
    if rows.is_empty() {
        return String::from_str(alloc, "rows (none)");
    }
    let mut out = String::from_str(alloc, "rows")?;
    for (key, value) in rows {
        write!(out, " {key}:{value}")?;
    }
    Ok(out)
}

/// Pairs of a key and its value, with commas between.
pub fn pairs_text(alloc: Global, pairs: &[(u64, u64)]) -> Result<String, Memory>
    ensures { IfOk result (λ text. string_bytes text ≡ pairs_words pairs.now) }
{
    let Some(((key, value), others)) = pairs.split_first() else {
        return Ok(String::new(alloc));
    };
    let mut out = format!(in alloc; "{key}:{value}")?;
    for (key, value) in others {
        write!(out, ", {key}:{value}")?;
    }
    Ok(out)
}

/// Transactions in an order, with commas between.
pub fn txns_text(alloc: Global, txns: &[Txn]) -> Result<String, Memory>
    ensures { IfOk result (λ text. string_bytes text ≡ txns_words txns.now) }
{
    let Some((txn, others)) = txns.split_first() else {
        return Ok(String::new(alloc));
    };
    let mut out = format!(in alloc; "T{txn}")?;
    for other in others {
        write!(out, ", T{other}")?;
    }
    Ok(out)
}

/// A lock name.
pub fn lock_name(alloc: Global, name: Name) -> Result<String, Memory>
    ensures { IfOk result (λ text. string_bytes text ≡ name_words name) }
{
    match name {
        Name::Key(key) => format!(in alloc; "{key}"),
        Name::End => String::from_str(alloc, "End"),
    }
}

/// The modes that a case is taken at.
pub fn origin_text<P: Protocol>(
    alloc: Global,
    protocol: &P,
    case: &FailedCase,
) -> Result<String, Memory> {
    match case.from {
        Origin::Own(own) => {
            let own = name_or_empty(protocol, own);
            format!(in alloc; "own mode {own}")
        }
        Origin::Conversion { held, asked } => {
            let held = name_or_empty(protocol, held);
            let requested = name_or_empty(protocol, asked);
            format!(in alloc; "{held} held and {requested} requested")
        }
        Origin::Insert { own_next, own } => {
            let own_next = name_or_empty(protocol, own_next);
            let own = name_or_empty(protocol, own);
            format!(in alloc; "own modes {own_next} on the next key and {own} on the key")
        }
    }
}
