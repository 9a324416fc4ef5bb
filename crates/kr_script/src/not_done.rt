//! The steps of a script that a run in several threads left out.

use kr_model::{Op, Reply, Txn, Txns};

/// Why a step wasn't done.
#[derive(Debug, Drop)]
pub enum WhyNotDone {
    /// A cycle of waiting transactions, the step's own first: each waits for the next, the last for the first.
    Deadlock(Txns),
    /// The machine refused it, with this reply.
    Refused(Reply),
}

/// A step that wasn't done.
#[derive(Debug, Drop)]
pub struct StepFault {
    /// Whose step it is.
    pub txn: Txn,
    /// Its number among the transaction's own steps, from 1.
    pub step: u64,
    /// What it would have done.
    pub op: Op,
    /// Why it wasn't done.
    pub cause: WhyNotDone,
}
