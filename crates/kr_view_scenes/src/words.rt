//! Operations, replies and refusals in words.
ghost use Rattle.std.specs.Prelude.{◌≡◌, ◌++◌, ◌∷◌, ◌≤◌, OnOk, codes, decimal, drop, flat_map, length, map};
ghost use Rattle.kr_view_scenes.specs.Escape.{escaped};
ghost use Rattle.kr_view_scenes.specs.Words.{op_words, commas, pair_words, shown_pairs, pairs_words, reason_words, reply_words, kind_word};

use crate::{Html, Part};
use kr_model::{Name, Op, Refusal, Reply};
use std::alloc::AllocError;

/// How many pairs of a list are shown, the last ones.
pub const PAIRS_SHOWN: usize = 60;

/// Writes a number behind words.
fn write_numbered(out: &mut Html, words: &str, number: u64) -> Result<(), AllocError>
    ensures { OnOk result (out.new ≡ out.old ++ escaped words.now ++ decimal number) }
{
    out.put(&[Part::Text(words), Part::Number(number)])
}

/// Writes two numbers, each behind words.
fn write_both(
    out: &mut Html,
    words: &str,
    first: u64,
    between: &str,
    second: u64,
) -> Result<(), AllocError>
    ensures { OnOk result (out.new ≡ out.old ++ escaped words.now ++ decimal first ++ escaped between.now ++ decimal second) }
{
    write_numbered(out, words, first)?;
    write_numbered(out, between, second)
}

/// Writes what an operation does.
pub fn write_op(out: &mut Html, op: Op) -> Result<(), AllocError>
    ensures { OnOk result (out.new ≡ out.old ++ op_words op) }
{
    match op {
        Op::Fetch(key) => write_numbered(out, "fetch ", key),
        Op::Scan(lo, hi) => write_both(out, "scan ", lo, " to ", hi),
        Op::Go => out.text("go on with the scan"),
        Op::Insert(key, value) => write_both(out, "insert ", key, " with ", value),
        Op::Delete(key) => write_numbered(out, "delete ", key),
        Op::Update(key, value) => write_both(out, "update ", key, " to ", value),
        Op::Commit => out.text("commit"),
        Op::Abort => out.text("abort"),
        Op::Back => out.text("take the newest change back"),
    }
}

/// The letter of an operation in the lanes.
pub fn letter_of(op: Op) -> &'static str {
    match op {
        Op::Fetch(_) => "F",
        Op::Scan(_, _) => "S",
        Op::Go => "G",
        Op::Insert(_, _) => "I",
        Op::Delete(_) => "D",
        Op::Update(_, _) => "U",
        Op::Commit => "C",
        Op::Abort => "A",
        Op::Back => "B",
    }
}

/// Writes a lock name.
pub fn write_name(out: &mut Html, name: Name) -> Result<(), AllocError> {
    match name {
        Name::Key(key) => out.number(key),
        Name::End => out.text("the end"),
    }
}

/// Writes pairs of a key and its value, of many the last ones.
pub fn write_pairs(out: &mut Html, pairs: &[(u64, u64)]) -> Result<(), AllocError>
    ensures { OnOk result (out.new ≡ out.old ++ pairs_words pairs.now) }
{
    if pairs.is_empty() {
        return out.text("nothing");
    }
    let hidden = pairs.len().saturating_sub(PAIRS_SHOWN);
    if hidden > 0 {
        out.put(&[Part::Number(hidden as u64), Part::Text(" more, and then ")])?;
    }
    write_each(out, &pairs[hidden..])
}

/// Writes pairs with a comma between them.
fn write_each(out: &mut Html, pairs: &[(u64, u64)]) -> Result<(), AllocError>
    ensures { OnOk result (out.new ≡ out.old ++ commas (map pair_words pairs.now)) }
{
    let Some((first, rest)) = pairs.split_first() else {
        return Ok(());
    };
    write_both(out, "", first.0, "=", first.1)?;
    for pair in rest {
        write_both(out, ", ", pair.0, "=", pair.1)?;
    }
    Ok(())
}

/// Writes the numbers of transactions, as `1, 2`.
pub fn write_numbers(out: &mut Html, numbers: &[u32]) -> Result<(), AllocError>
    ensures { OnOk result (out.new ≡ out.old ++ commas (map decimal numbers.now)) }
{
    let Some((first, rest)) = numbers.split_first() else {
        return Ok(());
    };
    out.number(u64::from(*first))?;
    for number in rest {
        write_numbered(out, ", ", u64::from(*number))?;
    }
    Ok(())
}

/// Why a step was refused.
fn reason_of(refusal: Refusal) -> &'static str
    ensures { escaped result.now ≡ reason_words refusal }
{
    match refusal {
        Refusal::Ended => "the transaction has ended",
        Refusal::Busy => "a scan is in progress",
        Refusal::NoScan => "no scan is in progress",
        Refusal::BadRange => "the range is upside down",
        Refusal::Full => "64 transactions are active",
        Refusal::Memory => "out of memory",
        Refusal::NoUpdate => "the table offers no updates",
        Refusal::RollingBack => "the transaction rolls back",
        Refusal::NothingLeft => "no change is left",
    }
}

/// Writes what a reply says.
pub fn write_reply(out: &mut Html, reply: &Reply) -> Result<(), AllocError>
    ensures { OnOk result (out.new ≡ out.old ++ reply_words reply.now) }
{
    match reply {
        Reply::Found(value) => write_numbered(out, "found ", *value),
        Reply::None => out.text("none there"),
        Reply::Going(key) => {
            write_numbered(out, "read ", *key)?;
            out.text(", goes on")
        }
        Reply::Rows(rows) => {
            out.text("rows: ")?;
            write_pairs(out, rows.as_slice())
        }
        Reply::Done => out.text("done"),
        Reply::Duplicate => out.text("there already"),
        Reply::Deleted(value) => write_numbered(out, "deleted, was ", *value),
        Reply::Absent => out.text("not there"),
        Reply::Updated(value) => write_numbered(out, "updated, was ", *value),
        Reply::Committed => out.text("committed"),
        Reply::Aborted => out.text("aborted"),
        Reply::Undone(left) => out.put(&[
            Part::Text("taken back, "),
            Part::Number(*left),
            Part::Text(" left"),
        ]),
        Reply::Blocked(txns) => {
            out.text("blocked by ")?;
            write_numbers(out, txns.as_slice())
        }
        Reply::Refused(refusal) => {
            out.put(&[Part::Text("refused: "), Part::Text(reason_of(*refusal))])
        }
    }
}

/// The word for the kind of a reply, as a class of the page.
pub fn kind_of(reply: &Reply) -> &'static str
    ensures { result.now ≡ kind_word reply.now }
{
    match reply {
        Reply::Blocked(_) => "blocked",
        Reply::Refused(_) => "refused",
        Reply::Committed => "committed",
        Reply::Aborted => "aborted",
        Reply::Found(_)
        | Reply::None
        | Reply::Going(_)
        | Reply::Rows(_)
        | Reply::Done
        | Reply::Duplicate
        | Reply::Deleted(_)
        | Reply::Absent
        | Reply::Updated(_)
        | Reply::Undone(_) => "granted",
    }
}
