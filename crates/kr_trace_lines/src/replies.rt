//! What a reply in a trace is.
ghost use Rattle.std.specs.Prelude.{◌≡◌, IfOk, map, string_bytes};
ghost use Rattle.std.specs.Option.{option_map};
ghost use Rattle.serde_json.specs.Find.{as_str};
ghost use Rattle.serde_json.specs.View.{items_view, view};
ghost use Rattle.kr_script.specs.Faults.{pair_of};
ghost use Rattle.kr_trace_lines.specs.Replies as spec;
ghost use Rattle.kr_trace_lines.specs.Replies.{each_of};

use crate::Observed;
use kr_model::{Items, Op, Pairs, Txn, Txns};
use kr_script::{length_of, number_at, pair_of, word_at};
use serde_json::Value;
use std::alloc::{AllocError, Global};

/// The pairs that the elements are, where each is one.
fn pairs_in(alloc: Global, list: &[Value]) -> Result<Option<Pairs>, AllocError>
    ensures { IfOk result (λ pairs. pairs ≡ each_of pair_of (items_view list.now)) }
{
    let mut pairs = Vec::with_capacity(alloc, list.len())?;
    for item in list {
        let Some(pair) = pair_of(item) else {
            return Ok(None);
        };
        pairs.push(pair)?;
    }
    Ok(Some(Items::from_vec(pairs)))
}

/// The number of a transaction.
fn txn_of(value: &Value) -> Option<Txn>
    ensures { result ≡ spec.txn_of (view value.now) }
{
    let number = value.as_u64()?;
    u32::try_from(number).ok()
}

/// The transactions that the elements are, where each is one.
pub fn txns_in(alloc: Global, list: &[Value]) -> Result<Option<Txns>, AllocError>
    ensures { IfOk result (λ txns. txns ≡ each_of spec.txn_of (items_view list.now)) }
{
    let mut txns = Vec::with_capacity(alloc, list.len())?;
    for item in list {
        let Some(txn) = txn_of(item) else {
            return Ok(None);
        };
        txns.push(txn)?;
    }
    Ok(Some(Items::from_vec(txns)))
}

/// The texts that the elements are, where each is one.
pub fn texts_in(alloc: Global, list: &[Value]) -> Result<Option<Vec<String>>, AllocError>
    ensures { IfOk result (λ texts. option_map (λ ts. map string_bytes ts.items) texts ≡ each_of as_str (items_view list.now)) }
{
    let mut texts = Vec::with_capacity(alloc, list.len())?;
    for item in list {
        let Some(text) = item.as_str() else {
            return Ok(None);
        };
        let text = String::from_str(alloc, text)?;
        texts.push(text)?;
    }
    Ok(Some(texts))
}

fn bare(len: usize, observed: Observed) -> Option<Observed>
    ensures { result ≡ spec.bare len observed }
{
    if len == 1 { Some(observed) } else { None }
}

fn number_behind(value: &Value, len: usize) -> Option<u64>
    ensures { result ≡ spec.number_behind len (view value.now) }
{
    if len == 2 { number_at(value, 1) } else { None }
}

fn number_if_told(value: &Value, len: usize) -> Option<Option<u64>>
    ensures { result ≡ spec.number_if_told len (view value.now) }
{
    if len == 1 {
        return Some(None);
    }
    let number = number_behind(value, len)?;
    Some(Some(number))
}

fn list_behind(value: &Value, len: usize) -> Option<&[Value]>
    ensures { option_map (λ s. items_view s.now) result ≡ spec.list_behind len (view value.now) }
{
    if len != 2 {
        return None;
    }
    match value.get(1).and_then(Value::as_array) {
        Some(list) => Some(list.as_slice()),
        None => None,
    }
}

/// The pairs behind the word.
fn rows_behind(alloc: Global, value: &Value, len: usize) -> Result<Option<Pairs>, AllocError>
    ensures { IfOk result (λ rows. rows ≡ spec.rows_behind len (view value.now)) }
{
    match list_behind(value, len) {
        Some(list) => pairs_in(alloc, list),
        None => Ok(None),
    }
}

/// The transactions behind the word, which may be left out.
fn txns_if_told(alloc: Global, value: &Value, len: usize) -> Result<Option<Txns>, AllocError>
    ensures { IfOk result (λ txns. txns ≡ spec.txns_if_told len (view value.now)) }
{
    if len == 1 {
        return Ok(Some(Items::from_vec(Vec::new(alloc))));
    }
    match list_behind(value, len) {
        Some(list) => txns_in(alloc, list),
        None => Ok(None),
    }
}

fn fetch_reply(word: &str, value: &Value, len: usize) -> Option<Observed>
    ensures { result ≡ spec.fetch_reply word.now len (view value.now) }
{
    match word {
        "found" => number_behind(value, len).map(Observed::Found),
        "none" => bare(len, Observed::None),
        _ => None,
    }
}

fn scan_reply(
    alloc: Global,
    word: &str,
    value: &Value,
    len: usize,
) -> Result<Option<Observed>, AllocError>
    ensures { IfOk result (λ reply. reply ≡ spec.scan_reply word.now len (view value.now)) }
{
    match word {
        "going" => Ok(number_behind(value, len).map(Observed::Going)),
        "rows" => {
            let rows = rows_behind(alloc, value, len)?;
            Ok(rows.map(Observed::Rows))
        }
        _ => Ok(None),
    }
}

fn insert_reply(word: &str, len: usize) -> Option<Observed>
    ensures { result ≡ spec.insert_reply word.now len }
{
    match word {
        "done" => bare(len, Observed::Done),
        "duplicate" => bare(len, Observed::Duplicate),
        _ => None,
    }
}

fn delete_reply(word: &str, value: &Value, len: usize) -> Option<Observed>
    ensures { result ≡ spec.delete_reply word.now len (view value.now) }
{
    match word {
        "deleted" => number_if_told(value, len).map(Observed::Deleted),
        "absent" => bare(len, Observed::Absent),
        _ => None,
    }
}

fn update_reply(word: &str, value: &Value, len: usize) -> Option<Observed>
    ensures { result ≡ spec.update_reply word.now len (view value.now) }
{
    match word {
        "updated" => number_if_told(value, len).map(Observed::Updated),
        "absent" => bare(len, Observed::Absent),
        _ => None,
    }
}

fn commit_reply(word: &str, len: usize) -> Option<Observed>
    ensures { result ≡ spec.commit_reply word.now len }
{
    if word == "committed" {
        bare(len, Observed::Committed)
    } else {
        None
    }
}

fn back_reply(word: &str, value: &Value, len: usize) -> Option<Observed>
    ensures { result ≡ spec.back_reply word.now len (view value.now) }
{
    if word == "undone" {
        number_if_told(value, len).map(Observed::Undone)
    } else {
        None
    }
}

/// The reply of a step that did its operation.
fn answer_of(
    alloc: Global,
    op: Op,
    word: &str,
    value: &Value,
    len: usize,
) -> Result<Option<Observed>, AllocError>
    ensures { IfOk result (λ reply. reply ≡ spec.answer_of op word.now len (view value.now)) }
{
    match op {
        Op::Fetch(_) => Ok(fetch_reply(word, value, len)),
        Op::Scan(_, _) | Op::Go => scan_reply(alloc, word, value, len),
        Op::Insert(_, _) => Ok(insert_reply(word, len)),
        Op::Delete(_) => Ok(delete_reply(word, value, len)),
        Op::Update(_, _) => Ok(update_reply(word, value, len)),
        Op::Commit => Ok(commit_reply(word, len)),
        Op::Abort => Ok(None),
        Op::Back => Ok(back_reply(word, value, len)),
    }
}

/// Whether a step of the operation may be blocked.
fn may_block(op: Op) -> bool
    ensures { result ≡ spec.may_block op }
{
    match op {
        Op::Fetch(_) | Op::Scan(_, _) | Op::Go => true,
        Op::Insert(_, _) | Op::Delete(_) | Op::Update(_, _) => true,
        Op::Commit | Op::Abort | Op::Back => false,
    }
}

/// The reply with this word and so many elements.
fn reply_with(
    alloc: Global,
    op: Op,
    word: &str,
    value: &Value,
    len: usize,
) -> Result<Option<Observed>, AllocError>
    ensures { IfOk result (λ reply. reply ≡ spec.reply_with op word.now len (view value.now)) }
{
    if word == "aborted" {
        return Ok(bare(len, Observed::Aborted));
    }
    if word == "blocked" && may_block(op) {
        let txns = txns_if_told(alloc, value, len)?;
        return Ok(txns.map(Observed::Blocked));
    }
    answer_of(alloc, op, word, value, len)
}

/// The reply that a value is, where a step of this operation can have it.
pub fn reply_in(alloc: Global, op: Op, value: &Value) -> Result<Option<Observed>, AllocError>
    ensures { IfOk result (λ reply. reply ≡ spec.reply_in op (view value.now)) }
{
    let Some(len) = length_of(value) else {
        return Ok(None);
    };
    match word_at(value, 0) {
        Some(word) => reply_with(alloc, op, word, value, len),
        None => Ok(None),
    }
}
