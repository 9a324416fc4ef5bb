//! Answers as they stand in rows.

use kr_model::{Refusal, Reply, Txn};

/// The answer to a step or to an operation.
#[derive(Clone, Copy)]
pub enum Answer<'a> {
    /// The value of the fetched key.
    Found(u64),
    /// The fetched key is absent.
    None,
    /// The scan read this key and goes on.
    Going(u64),
    /// The scan ended with these pairs.
    Rows(&'a [(u64, u64)]),
    /// The key was inserted.
    Done,
    /// The key to insert is present already.
    Duplicate,
    /// The value of the deleted key.
    Deleted(u64),
    /// The key to delete or to update is absent.
    Absent,
    /// The value that the updated key had before.
    Updated(u64),
    Committed,
    Aborted,
    /// The newest change was undone, and so many changes are left.
    Undone(u64),
    /// This transaction, and no other, holds locks that refuse the step.
    BlockedBy(Txn),
    Refused(Refusal),
}

impl Answer<'_> {
    /// Whether a reply is this answer.
    pub fn is(self, reply: &Reply) -> bool {
        match self {
            Answer::Found(value) => matches!(reply, Reply::Found(told) if *told == value),
            Answer::None => matches!(reply, Reply::None),
            Answer::Going(key) => matches!(reply, Reply::Going(told) if *told == key),
            Answer::Rows(pairs) => matches!(reply, Reply::Rows(told) if told.as_slice() == pairs),
            Answer::Done => matches!(reply, Reply::Done),
            Answer::Duplicate => matches!(reply, Reply::Duplicate),
            Answer::Deleted(value) => matches!(reply, Reply::Deleted(told) if *told == value),
            Answer::Absent => matches!(reply, Reply::Absent),
            Answer::Updated(value) => matches!(reply, Reply::Updated(told) if *told == value),
            Answer::Committed => matches!(reply, Reply::Committed),
            Answer::Aborted => matches!(reply, Reply::Aborted),
            Answer::Undone(left) => matches!(reply, Reply::Undone(told) if *told == left),
            Answer::BlockedBy(txn) => is_blocked_by(reply, txn),
            Answer::Refused(why) => matches!(reply, Reply::Refused(told) if *told == why),
        }
    }
}

/// Whether a reply is that this transaction alone blocks the step.
fn is_blocked_by(reply: &Reply, txn: Txn) -> bool {
    match reply {
        Reply::Blocked(told) => told.as_slice() == [txn].as_slice(),
        _ => false,
    }
}
