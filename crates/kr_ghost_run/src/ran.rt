//! What a run leaves.

use kr_judge::Triples;
use kr_model::{Items, Pairs, Programs, Reply, Txns};

/// The answer to a move.
#[derive(Debug, Drop)]
pub enum Answer {
    /// The reply to a step.
    Step(Reply),
    /// Whether a purge took its ghost away.
    Purge(bool),
}

/// A run at its end.
#[derive(Debug, Drop)]
pub struct GhostRan {
    /// The answer to each move, in the order of the moves.
    pub answers: Items<Answer>,
    /// What each transaction that committed did, in commit order.
    pub programs: Programs,
    /// The index after the last move, keys rising.
    pub index: Pairs,
    /// The ghosts after the last move, rising.
    pub ghosts: Items<u64>,
    /// The locks that are held after the last move: holders rise by name, then by transaction.
    pub locks: Triples,
    /// The transactions that are active after the last move, rising.
    pub unfinished: Txns,
}

/// A run at its end, without what its transactions did.
#[derive(Debug, Drop)]
pub struct GhostPlayed {
    /// The answer to each move, in the order of the moves.
    pub answers: Items<Answer>,
    /// The index after the last move, keys rising.
    pub index: Pairs,
    /// The ghosts after the last move, rising.
    pub ghosts: Items<u64>,
    /// The locks that are held after the last move: holders rise by name, then by transaction.
    pub locks: Triples,
    /// The transactions that are active after the last move, rising.
    pub unfinished: Txns,
}
