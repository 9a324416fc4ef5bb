//! The steps among moves.
ghost use Rattle.std.specs.Prelude.{◌≡◌, IfOk};
ghost use Rattle.kr_ghost_threads.specs.Histories.{steps_in, steps_of};

use crate::Made;
use kr_ghost::Move;
use kr_model::Event;
use std::alloc::{AllocError, Global};

/// The steps of a script's moves.
pub(crate) fn steps_in(alloc: Global, moves: &[Move]) -> Result<Vec<Event>, AllocError>
    ensures { IfOk result (λ steps. steps.items ≡ steps_in moves.now) }
{
    let mut steps = Vec::with_capacity(alloc, moves.len())?;
    for next in moves {
        if let Move::Attempt(event) = next {
            steps.push(*event)?;
        }
    }
    Ok(steps)
}

/// The steps of a history.
pub(crate) fn steps_of(alloc: Global, history: &[Made]) -> Result<Vec<Event>, AllocError>
    ensures { IfOk result (λ steps. steps.items ≡ steps_of history.now) }
{
    let mut steps = Vec::with_capacity(alloc, history.len())?;
    for made in history {
        if let Move::Attempt(event) = made.next {
            steps.push(event)?;
        }
    }
    Ok(steps)
}
