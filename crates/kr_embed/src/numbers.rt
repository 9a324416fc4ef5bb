//! Operations, replies and lists in numbers, as C has them.
ghost use Rattle.std.specs.Prelude.{◌≡◌, ◌<◌, IfOk, IfSome, IfNone, map};
ghost use Rattle.kr_embed.specs.Numbers.{IsOperation, plain, pair_of, lock_of};

use kr_model::{Mode, Name, Op, Reply, Txn, refusal_number};
use std::alloc::{AllocError, Global};

/// A reply in numbers.
#[repr(C)]
#[derive(Clone, Copy)]
pub struct PlainReply {
    /// Its kind, from 0, in the order of `Reply`.
    pub kind: u32,
    /// The number of the refusal, from 1, in the order of `Refusal`; 0 where nothing is refused.
    pub refusal: u32,
    /// The value that was found, deleted or updated, the key that a scan read, or how many changes are left. Else 0.
    pub value: u64,
    /// How many pairs a scan ended with, or how many transactions block the step. Else 0.
    pub count: u64,
}

/// A key and its value.
#[repr(C)]
#[derive(Clone, Copy)]
pub struct Pair {
    pub key: u64,
    pub value: u64,
}

/// A lock: its name, its holder and its mode.
#[repr(C)]
#[derive(Clone, Copy)]
pub struct Lock {
    /// The key, or 0 where the name is infinity.
    pub key: u64,
    /// 1 where the name is infinity, else 0.
    pub is_end: u32,
    /// The transaction that holds it.
    pub txn: u32,
    /// The number of its mode.
    pub mode: u32,
    /// Always 0.
    pub unused: u32,
}

/// The operation of this kind, a number from 0 in the order of `Op`, with its operands, of which those that it has none of are
/// not looked at; or `None` where the kind is above 8.
pub fn operation(kind: u32, first: u64, second: u64) -> Option<Op>
    ensures some { IfSome result (IsOperation kind first second) }
    ensures none { IfNone result (8 < kind) }
{
    match kind {
        0 => Some(Op::Fetch(first)),
        1 => Some(Op::Scan(first, second)),
        2 => Some(Op::Go),
        3 => Some(Op::Insert(first, second)),
        4 => Some(Op::Delete(first)),
        5 => Some(Op::Update(first, second)),
        6 => Some(Op::Commit),
        7 => Some(Op::Abort),
        8 => Some(Op::Back),
        _ => None,
    }
}

/// A reply of this kind with a value.
fn valued(kind: u32, value: u64) -> PlainReply
    ensures { result ≡ record { kind = kind; refusal = 0; value = value; count = 0 } }
{
    PlainReply {
        kind,
        refusal: 0,
        value,
        count: 0,
    }
}

/// A reply of this kind with a list of this length.
fn counted(kind: u32, count: usize) -> PlainReply
    ensures { result ≡ record { kind = kind; refusal = 0; value = 0; count = count } }
{
    PlainReply {
        kind,
        refusal: 0,
        value: 0,
        count: count as u64,
    }
}

/// A reply in numbers. Of a list it has the length alone.
pub fn plain(reply: &Reply) -> PlainReply
    ensures { result ≡ plain reply.now }
{
    match reply {
        Reply::Found(value) => valued(0, *value),
        Reply::None => valued(1, 0),
        Reply::Going(key) => valued(2, *key),
        Reply::Rows(rows) => counted(3, rows.as_slice().len()),
        Reply::Done => valued(4, 0),
        Reply::Duplicate => valued(5, 0),
        Reply::Deleted(value) => valued(6, *value),
        Reply::Absent => valued(7, 0),
        Reply::Updated(value) => valued(8, *value),
        Reply::Committed => valued(9, 0),
        Reply::Aborted => valued(10, 0),
        Reply::Undone(left) => valued(11, *left),
        Reply::Blocked(txns) => counted(12, txns.as_slice().len()),
        Reply::Refused(refusal) => PlainReply {
            kind: 13,
            refusal: u32::from(refusal_number(*refusal)),
            value: 0,
            count: 0,
        },
    }
}

/// The pairs, in their order.
pub fn pairs_of(alloc: Global, pairs: &[(u64, u64)]) -> Result<Vec<Pair>, AllocError>
    ensures { IfOk result (λ list. list.items ≡ map pair_of pairs.now) }
{
    let mut list = Vec::new(alloc);
    for pair in pairs {
        list.push(Pair {
            key: pair.0,
            value: pair.1,
        })?;
    }
    Ok(list)
}

/// A lock in numbers.
fn lock_of(name: Name, txn: Txn, mode: Mode) -> Lock
    ensures { result ≡ lock_of ((name, txn), mode) }
{
    let (key, is_end) = match name {
        Name::Key(key) => (key, 0),
        Name::End => (0, 1),
    };
    Lock {
        key,
        is_end,
        txn,
        mode: u32::from(mode),
        unused: 0,
    }
}

/// The locks, in their order.
pub fn locks_of(alloc: Global, locks: &[((Name, Txn), Mode)]) -> Result<Vec<Lock>, AllocError>
    ensures { IfOk result (λ list. list.items ≡ map lock_of locks.now) }
{
    let mut list = Vec::new(alloc);
    for lock in locks {
        list.push(lock_of(lock.0.0, lock.0.1, lock.1))?;
    }
    Ok(list)
}
