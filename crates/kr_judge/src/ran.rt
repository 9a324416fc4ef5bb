//! What a run leaves.

use crate::Index;
use kr_model::{Items, Mode, Name, Pairs, Programs, Reply, Txn, Txns};

/// Replies to steps.
pub type Replies = Items<Reply>;

/// Locks as triples of a name, its holder and the mode.
pub type Triples = Items<((Name, Txn), Mode)>;

/// A run at its end.
#[derive(Debug, Drop)]
pub struct Ran {
    /// The index before the first step, keys rising.
    pub opening: Index,
    /// The reply to each step, in the order of the steps.
    pub replies: Replies,
    /// What each transaction that committed did, in commit order.
    pub programs: Programs,
    /// The index after the last step, keys rising.
    pub index: Index,
    /// The locks that are held after the last step: holders rise by name, then by transaction.
    pub locks: Triples,
    /// The transactions that are active after the last step, rising.
    pub unfinished: Txns,
}

/// A run at its end, without what its transactions did.
#[derive(Debug, Drop)]
pub struct Played {
    /// The reply to each step, in the order of the steps.
    pub replies: Replies,
    /// The index after the last step, keys rising.
    pub index: Pairs,
    /// The locks that are held after the last step: holders rise by name, then by transaction.
    pub locks: Triples,
    /// The transactions that are active after the last step, rising.
    pub unfinished: Txns,
}
