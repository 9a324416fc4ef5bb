//! Random walks of a table's machine: each has the steps that were granted, and the purges that took a ghost away.

use crate::dice::Dice;
use crate::draft::{Draft, key_of};
use crate::judging::is_granted;
use crate::plans::plan;
use kr_ghost::Move;
use kr_ghost_index::GhostIndex;
use kr_ghost_machine::GhostStepper;
use kr_ghost_protocol::GhostProtocol;
use kr_judge::is_map;
use kr_locks::{Buckets, Holdings};
use kr_model::Memory;
use std::alloc::Global;

/// A walk.
pub(crate) fn walk<P: GhostProtocol>(
    alloc: Global,
    protocol: &P,
    dice: &mut Dice,
) -> Result<Draft, Memory> {
    let keys = dice.below(3).saturating_add(2);
    let opening = opening(alloc, keys, dice)?;
    let plan = plan(alloc, keys, dice)?;
    let moves = granted(alloc, protocol, &opening, &plan)?;
    Ok(Draft { opening, moves })
}

/// An opening map with some of the keys.
fn opening(alloc: Global, keys: u64, dice: &mut Dice) -> Result<Vec<(u64, u64)>, Memory> {
    let mut pairs = Vec::new(alloc);
    for at in 0..keys {
        if dice.one_in(2) {
            let number = at.saturating_add(1);
            pairs.push((key_of(number), number))?;
        }
    }
    Ok(pairs)
}

/// Those of the moves that are granted, attempted one after another from an opening map.
fn granted<P: GhostProtocol>(
    alloc: Global,
    protocol: &P,
    opening: &[(u64, u64)],
    plan: &[Move],
) -> Result<Vec<Move>, Memory> {
    let mut moves = Vec::new(alloc);
    if is_map(opening) {
        let index = GhostIndex::from_pairs(alloc, opening)?;
        let mut stepper = GhostStepper::new(alloc, protocol, index, Buckets::new(alloc));
        attempt_all(&mut stepper, &mut moves, plan)?;
    }
    Ok(moves)
}

/// Attempts moves, and notes those that are granted.
fn attempt_all<P: GhostProtocol, L: Holdings>(
    stepper: &mut GhostStepper<P, L>,
    moves: &mut Vec<Move>,
    plan: &[Move],
) -> Result<(), Memory> {
    for next in plan {
        let is_done = match next {
            Move::Attempt(event) => is_granted(&stepper.step(event.txn, event.op)?),
            Move::Purge(key) => stepper.purge(*key)?,
        };
        if is_done {
            moves.push(*next)?;
        }
    }
    Ok(())
}
