//! The steps of a run with what came of them.

use crate::columns::key_of;
use kr_locks::Memory;
use kr_model::{Event, Reply, Txn};
use std::alloc::Global;

/// A step of a run: an operation that a transaction attempted, or a purge, which is of no transaction.
#[derive(Drop)]
pub enum Act {
    /// An operation, with the reply.
    Attempt(Event, Reply),
    /// A purge of the ghost at this key, and whether it took the ghost away.
    Purge(u64, bool),
}

impl Act {
    /// The transaction whose step it is.
    pub fn txn(&self) -> Option<Txn> {
        match self {
            Act::Attempt(event, _) => Some(event.txn),
            Act::Purge(_, _) => None,
        }
    }

    /// The key that it names.
    pub fn key(&self) -> Option<u64> {
        match self {
            Act::Attempt(event, reply) => key_named(*event, reply),
            Act::Purge(key, _) => Some(*key),
        }
    }
}

/// The key that a step names which was answered so.
pub(crate) fn key_named(event: Event, reply: &Reply) -> Option<u64> {
    match reply {
        Reply::Going(key) => Some(*key),
        _ => key_of(event.op),
    }
}

/// Steps with the replies to them, in order. The only error is that a growth was refused.
pub(crate) fn acts_of(
    alloc: Global,
    steps: &[Event],
    replies: Vec<Reply>,
) -> Result<Vec<Act>, Memory> {
    let mut acts = Vec::with_capacity(alloc, replies.len())?;
    let mut left = steps.iter();
    for reply in replies {
        if let Some(event) = left.next() {
            acts.push(Act::Attempt(*event, reply))?;
        }
    }
    Ok(acts)
}
