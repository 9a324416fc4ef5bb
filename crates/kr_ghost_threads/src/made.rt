//! What a run in several threads did.

use kr_ghost::Move;
use kr_ghost_run::Answer;
use kr_model::{Items, Pairs};
use kr_workers::StepFault;

/// A move that was made: a step that was granted, or a purge that took a ghost away.
#[derive(Drop)]
pub struct Made {
    /// The move.
    pub next: Move,
    /// The answer to it.
    pub answer: Answer,
}

/// A run of a script in several threads at its end, where no transaction is active. Nothing here says that its parts belong to
/// one run: it is a plain record.
#[derive(Drop)]
pub struct GhostThreaded {
    /// The moves that were made, in their order.
    pub history: Vec<Made>,
    /// The steps that weren't done, rising by transaction, then by number.
    pub faults: Vec<StepFault>,
    /// The index after the last move, keys rising.
    pub index: Pairs,
    /// The ghosts after the last move, rising.
    pub ghosts: Items<u64>,
}
