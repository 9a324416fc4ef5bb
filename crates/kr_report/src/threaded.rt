//! What a run of a script in several threads did.

use crate::StepFault;
use kr_judge::Ran;
use kr_model::{Event, Pairs, Reply, Txns};

/// A step that was done, and its reply.
#[derive(Drop)]
pub struct Answered {
    /// The step.
    pub event: Event,
    /// What it was answered.
    pub reply: Reply,
}

/// A run of a script in several threads. Nothing here says that its parts belong to one run: it is a plain record.
#[derive(Drop)]
pub struct Threaded {
    /// The steps that were done, with their replies, in the order of their places in the run's history.
    pub history: Vec<Answered>,
    /// The run of these steps, in the same order.
    pub ran: Ran,
    /// The steps that weren't done, rising by transaction, then by number.
    pub faults: Vec<StepFault>,
}

/// What the report of a run of a script in several threads shows of it. It is a plain record too.
#[derive(Drop)]
pub struct ThreadsShown {
    /// The steps that were done, with their replies, in the order of their places in the run's history.
    pub history: Vec<Answered>,
    /// The steps that weren't done, rising by transaction, then by number.
    pub faults: Vec<StepFault>,
    /// The index after the last step, keys rising.
    pub index: Pairs,
    /// The transactions that are active after the last step, rising.
    pub unfinished: Txns,
}
