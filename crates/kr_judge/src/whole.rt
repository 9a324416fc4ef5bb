//! Whole operations on a map.
ghost use Rattle.std.specs.Prelude.{◌≡◌, ℕ, None, true, false, IfOk, IfSome, OnOk, IsTrue};
ghost use Rattle.kr_model.specs.Map.{Map, IsMap, get, set, without, pairs_between};
ghost use Rattle.kr_model.specs.Serial.{found_or_none, whole_insert, whole_delete, whole_update, whole};
ghost use Rattle.kr_model.specs.Difference.{same_pairs, same_reply};

use kr_model::{Op, Pairs, Refusal, Reply};
use std::alloc::{AllocError, Global};
use std::collections::BTreeMap;

/// A map of the pairs, whose keys rise strictly.
pub fn map_of(alloc: Global, pairs: &[(u64, u64)]) -> Result<BTreeMap<u64, u64>, AllocError>
    requires { IsMap pairs.now }
    ensures { IfOk result (λ map. map.entries ≡ pairs.now) }
{
    pairs.iter().copied().collect(alloc)
}

/// Whether this is the answer of the operation run whole. Rows are compared in place.
pub fn is_answer(map: &BTreeMap<u64, u64>, op: Op, given: &Reply) -> bool
    requires { IsMap map.now.entries }
    ensures { result ≡ same_reply given.now (whole map.now.entries op).0 }
{
    match op {
        Op::Fetch(key) => is_fetched(given, map.get(&key).copied()),
        Op::Scan(lo, hi) => match given {
            Reply::Rows(rows) => are_between(map, lo, hi, rows.as_slice()),
            _ => false,
        },
        Op::Insert(key, _) => is_inserted(given, map.get(&key).copied()),
        Op::Delete(key) => is_deleted(given, map.get(&key).copied()),
        Op::Update(key, _) => is_updated(given, map.get(&key).copied()),
        Op::Go => matches!(given, Reply::Refused(Refusal::NoScan)),
        Op::Commit => matches!(given, Reply::Committed),
        Op::Abort => matches!(given, Reply::Aborted),
        Op::Back => matches!(given, Reply::Refused(Refusal::NothingLeft)),
    }
}

/// Whether this is the answer of a fetch, by what stands at the key.
pub(crate) fn is_fetched(given: &Reply, value: Option<u64>) -> bool
    ensures { result ≡ same_reply given.now (found_or_none value) }
{
    match value {
        Some(value) => matches!(given, Reply::Found(found) if *found == value),
        None => matches!(given, Reply::None),
    }
}

/// Whether this is the answer of an insert, by what stands at the key.
pub(crate) fn is_inserted(given: &Reply, value: Option<u64>) -> bool
    ensures { (m : Map) (k v : ℕ) → result ≡ same_reply given.now (whole_insert m k v value).0 }
{
    match value {
        Some(_) => matches!(given, Reply::Duplicate),
        None => matches!(given, Reply::Done),
    }
}

/// Whether this is the answer of a delete, by what stands at the key.
pub(crate) fn is_deleted(given: &Reply, value: Option<u64>) -> bool
    ensures { (m : Map) (k : ℕ) → result ≡ same_reply given.now (whole_delete m k value).0 }
{
    match value {
        Some(value) => matches!(given, Reply::Deleted(deleted) if *deleted == value),
        None => matches!(given, Reply::Absent),
    }
}

/// Whether this is the answer of an update, by what stands at the key.
pub(crate) fn is_updated(given: &Reply, value: Option<u64>) -> bool
    ensures { (m : Map) (k v : ℕ) → result ≡ same_reply given.now (whole_update m k v value).0 }
{
    match value {
        Some(value) => matches!(given, Reply::Updated(updated) if *updated == value),
        None => matches!(given, Reply::Absent),
    }
}

/// Whether the rows are the pairs of the map with keys from `lo` to `hi`. Looks at no more pairs than there are rows, and
/// one.
fn are_between(map: &BTreeMap<u64, u64>, lo: u64, hi: u64, rows: &[(u64, u64)]) -> bool
    requires { IsMap map.now.entries }
    ensures { result ≡ same_pairs rows.now (pairs_between map.now.entries lo hi) }
{
    let mut i = 0;
    for (key, value) in map.range(lo..) {
        if *key > hi {
            return i == rows.len();
        }
        if i == rows.len() || rows[i] != (*key, *value) {
            return false;
        }
        i += 1;
    }
    i == rows.len()
}

/// The pairs of the map with keys from `lo` to `hi`.
fn between(alloc: Global, map: &BTreeMap<u64, u64>, lo: u64, hi: u64) -> Result<Pairs, AllocError>
    requires { IsMap map.now.entries }
    ensures { IfOk result (λ pairs. pairs ≡ pairs_between map.now.entries lo hi) }
{
    let mut list = Vec::new(alloc);
    for (key, value) in map.range(lo..) {
        if *key > hi {
            return Ok(Pairs::from_vec(list));
        }
        list.push((*key, *value))?;
    }
    Ok(Pairs::from_vec(list))
}

/// The answer of the operation run whole.
pub fn answer(alloc: Global, map: &BTreeMap<u64, u64>, op: Op) -> Result<Reply, AllocError>
    requires { IsMap map.now.entries }
    ensures { IfOk result (λ reply. reply ≡ (whole map.now.entries op).0) }
{
    match op {
        Op::Fetch(key) => Ok(found(map.get(&key).copied())),
        Op::Scan(lo, hi) => Ok(Reply::Rows(between(alloc, map, lo, hi)?)),
        Op::Insert(key, _) => Ok(inserted(map.get(&key).copied())),
        Op::Delete(key) => Ok(deleted(map.get(&key).copied())),
        Op::Update(key, _) => Ok(updated(map.get(&key).copied())),
        Op::Go => Ok(Reply::Refused(Refusal::NoScan)),
        Op::Commit => Ok(Reply::Committed),
        Op::Abort => Ok(Reply::Aborted),
        Op::Back => Ok(Reply::Refused(Refusal::NothingLeft)),
    }
}

/// The answer of a fetch, by the value at the key.
pub(crate) fn found(value: Option<u64>) -> Reply
    ensures { result ≡ found_or_none value }
{
    match value {
        Some(value) => Reply::Found(value),
        None => Reply::None,
    }
}

/// The answer of an insert, by what stands at the key.
pub(crate) fn inserted(value: Option<u64>) -> Reply
    ensures { (m : Map) (k v : ℕ) → result ≡ (whole_insert m k v value).0 }
{
    match value {
        Some(_) => Reply::Duplicate,
        None => Reply::Done,
    }
}

/// The answer of a delete, by what stands at the key.
pub(crate) fn deleted(value: Option<u64>) -> Reply
    ensures { (m : Map) (k : ℕ) → result ≡ (whole_delete m k value).0 }
{
    match value {
        Some(value) => Reply::Deleted(value),
        None => Reply::Absent,
    }
}

/// The answer of an update, by what stands at the key.
pub(crate) fn updated(value: Option<u64>) -> Reply
    ensures { (m : Map) (k v : ℕ) → result ≡ (whole_update m k v value).0 }
{
    match value {
        Some(value) => Reply::Updated(value),
        None => Reply::Absent,
    }
}

/// Puts a value at a key, and returns the one before. At an error a growth was refused, and the map's keys still rise.
pub(crate) fn put(
    map: &mut BTreeMap<u64, u64>,
    key: u64,
    value: u64,
) -> Result<Option<u64>, AllocError>
    requires { IsMap map.old.entries }
    ensures is_map { IsMap map.new.entries }
    ensures before { IfOk result (λ before. before ≡ get map.old.entries key) }
    ensures map { OnOk result (map.new.entries ≡ set map.old.entries key value) }
{
    Ok(map.insert(key, value)?)
}

/// Takes a key away, and returns its value.
pub(crate) fn take(map: &mut BTreeMap<u64, u64>, key: u64) -> Option<u64>
    requires { IsMap map.old.entries }
    ensures is_map { IsMap map.new.entries }
    ensures before { result ≡ get map.old.entries key }
    ensures map { map.new.entries ≡ without map.old.entries key }
{
    map.remove(&key)
}

/// The operation's own answer, where it isn't the one given.
fn unlike(
    alloc: Global,
    map: &BTreeMap<u64, u64>,
    op: Op,
    given: &Reply,
) -> Result<Option<Reply>, AllocError>
    requires { IsMap map.now.entries }
    ensures alike { IfOk result (λ own. own ≡ None → same_reply given.now (whole map.now.entries op).0 ≡ true) }
    ensures unlike { IfOk result (λ own. IfSome own (λ _. same_reply given.now (whole map.now.entries op).0 ≡ false)) }
    ensures own { IfOk result (λ own. IfSome own (λ serial. serial ≡ (whole map.now.entries op).0)) }
{
    if is_answer(map, op, given) {
        return Ok(None);
    }
    Ok(Some(answer(alloc, map, op)?))
}

/// Does an operation whole on the map, and answers with its own answer, where that isn't the one given. A change that was
/// answered so takes one look at the map. Where the answers differ the map may be another one; its keys still rise, as they do
/// at an error, where a growth was refused.
pub(crate) fn differs(
    alloc: Global,
    map: &mut BTreeMap<u64, u64>,
    op: Op,
    given: &Reply,
) -> Result<Option<Reply>, AllocError>
    requires { IsMap map.old.entries }
    ensures is_map { IsMap map.new.entries }
    ensures alike { IfOk result (λ own. own ≡ None → same_reply given.now (whole map.old.entries op).0 ≡ true) }
    ensures unlike { IfOk result (λ own. IfSome own (λ _. same_reply given.now (whole map.old.entries op).0 ≡ false)) }
    ensures own { IfOk result (λ own. IfSome own (λ serial. serial ≡ (whole map.old.entries op).0)) }
    ensures map { IfOk result (λ own. own ≡ None → map.new.entries ≡ (whole map.old.entries op).1) }
{
    match (op, given) {
        (Op::Insert(key, value), Reply::Done) => match put(map, key, value)? {
            None => Ok(None),
            Some(_) => Ok(Some(Reply::Duplicate)),
        },
        (Op::Update(key, value), Reply::Updated(old)) => match put(map, key, value)? {
            Some(before) if before == *old => Ok(None),
            before => Ok(Some(updated(before))),
        },
        (Op::Delete(key), Reply::Deleted(old)) => match take(map, key) {
            Some(before) if before == *old => Ok(None),
            before => Ok(Some(deleted(before))),
        },
        _ => {
            if let Some(own) = unlike(alloc, map, op, given)? {
                return Ok(Some(own));
            }
            follow(map, op, given)?;
            Ok(None)
        }
    }
}

/// Does on the map what the operation does, run whole, where the answer given is the one that it then has. At an error a
/// growth was refused, and the map's keys still rise.
pub fn follow(map: &mut BTreeMap<u64, u64>, op: Op, given: &Reply) -> Result<(), AllocError>
    requires is_map { IsMap map.old.entries }
    requires given { IsTrue (same_reply given.now (whole map.old.entries op).0) }
    ensures is_map { IsMap map.new.entries }
    ensures map { OnOk result (map.new.entries ≡ (whole map.old.entries op).1) }
{
    match op {
        Op::Insert(key, value) => match given {
            Reply::Done => {
                put(map, key, value)?;
                Ok(())
            }
            _ => Ok(()),
        },
        Op::Delete(key) => match given {
            Reply::Deleted(_) => {
                let _ = take(map, key);
                Ok(())
            }
            _ => Ok(()),
        },
        Op::Update(key, value) => match given {
            Reply::Updated(_) => {
                put(map, key, value)?;
                Ok(())
            }
            _ => Ok(()),
        },
        Op::Fetch(_) | Op::Scan(_, _) | Op::Go | Op::Commit | Op::Abort | Op::Back => Ok(()),
    }
}
