//! Observed replies as they stand in rows.
use kr_model::{Pairs, Txn, Txns};
use kr_trace_lines::Observed;
use std::alloc::{AllocError, Global};

/// An observed reply.
#[derive(Clone, Copy, Debug)]
pub enum Given<'a> {
    Found(u64),
    None,
    Going(u64),
    Rows(&'a [(u64, u64)]),
    Done,
    Duplicate,
    Deleted(Option<u64>),
    Absent,
    Updated(Option<u64>),
    Undone(Option<u64>),
    Committed,
    Aborted,
    Blocked(&'a [Txn]),
}

impl Given<'_> {
    /// The observed reply of a row.
    pub fn observed(self, alloc: Global) -> Result<Observed, AllocError> {
        match self {
            Given::Found(value) => Ok(Observed::Found(value)),
            Given::None => Ok(Observed::None),
            Given::Going(key) => Ok(Observed::Going(key)),
            Given::Rows(pairs) => Ok(Observed::Rows(Pairs::from_vec(Vec::from_slice(
                alloc, pairs,
            )?))),
            Given::Done => Ok(Observed::Done),
            Given::Duplicate => Ok(Observed::Duplicate),
            Given::Deleted(value) => Ok(Observed::Deleted(value)),
            Given::Absent => Ok(Observed::Absent),
            Given::Updated(value) => Ok(Observed::Updated(value)),
            Given::Undone(left) => Ok(Observed::Undone(left)),
            Given::Committed => Ok(Observed::Committed),
            Given::Aborted => Ok(Observed::Aborted),
            Given::Blocked(txns) => {
                Ok(Observed::Blocked(Txns::from_vec(Vec::from_slice(alloc, txns)?)))
            }
        }
    }
}
