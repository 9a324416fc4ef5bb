//! The scripts that lead to states, and the maps that they open with.

use crate::keys::{A, K, P, Y, one_up};
use crate::moves::Move;
use crate::reached::{Last, MOST_STATES, Reached, World};
use crate::step::{Actor, Step};
use kr_model::Op;
use std::alloc::{AllocError, Global};

/// The moves that lead from a world to a state, whose moves before the last lead to states of the list: last first.
fn chain(alloc: Global, reached: &[Reached], to: Option<Last>) -> Result<Vec<Move>, AllocError> {
    let mut chain = Vec::new(alloc);
    let mut end = to;
    for _ in 0..MOST_STATES {
        let Some(last) = end else {
            return Ok(chain);
        };
        chain.push(last.by)?;
        end = reached.get(last.before).and_then(|reached| reached.last);
    }
    Ok(chain)
}

/// Puts the steps of the moves, which are given last first, behind those so far.
fn play(chain: &[Move], steps: &mut Vec<Step>) -> Result<(), AllocError> {
    for made in chain.iter().rev() {
        match *made {
            Move::Own(op) => steps.push(Step::own(op))?,
            Move::PutAndTake(key) => {
                steps.push(Step::own(Op::Insert(key, 0)))?;
                steps.push(Step::own(Op::Delete(key)))?;
            }
            Move::Other(op) => {
                let by = Actor::BesideHolder(steps.len());
                steps.push(Step { by, op })?;
                steps.push(Step { by, op: Op::Commit })?;
            }
        }
    }
    Ok(())
}

/// The script that leads to a state, whose moves before the last lead to states of the list.
pub(crate) fn script_to(
    alloc: Global,
    reached: &[Reached],
    to: Reached,
) -> Result<Vec<Step>, AllocError> {
    let mut steps = Vec::new(alloc);
    if let Some(above) = to.world.above.and_then(|above| reached.get(above)) {
        play(&chain(alloc, reached, above.last)?, &mut steps)?;
        for step in steps.iter_mut() {
            *step = step.one_name_up();
        }
    }
    play(&chain(alloc, reached, to.last)?, &mut steps)?;
    Ok(steps)
}

/// The opening map of a world, keys rising: its values are 1, 2 and so on.
pub(crate) fn opening_of(
    alloc: Global,
    reached: &[Reached],
    world: World,
) -> Result<Vec<(u64, u64)>, AllocError> {
    opening_with(alloc, &keys_of(reached, world))
}

/// The opening map of the holder's world, in which an intruder's script is put that begins in another. Where none of the
/// holder's keys is moved up, Y and the keys above it stand as the intruder's script has them.
pub(crate) fn opening_beside(
    alloc: Global,
    reached: &[Reached],
    holders: World,
    intruders: World,
) -> Result<Vec<(u64, u64)>, AllocError> {
    let mut keys = keys_of(reached, holders);
    if holders.above.is_none() {
        let other = keys_of(reached, intruders);
        keys[5] = other[5];
        keys[6] = other[6];
    }
    opening_with(alloc, &keys)
}

/// The keys that may stand in the opening map of a world, rising, and whether they do.
fn keys_of(reached: &[Reached], world: World) -> [(u64, bool); 7] {
    let mut keys = [
        (K, true),
        (P, world.p),
        (A, world.a),
        (one_up(K), false),
        (one_up(P), false),
        (Y, true),
        (one_up(Y), false),
    ];
    if let Some(before) = world.above.and_then(|above| reached.get(above)) {
        keys[3].1 = !before.state.k;
        keys[4].1 = before.world.p;
        keys[5].1 = before.world.a;
        keys[6].1 = true;
    }
    keys
}

/// The opening map of the keys that stand, with the values 1, 2 and so on.
fn opening_with(alloc: Global, keys: &[(u64, bool)]) -> Result<Vec<(u64, u64)>, AllocError> {
    let mut opening = Vec::new(alloc);
    let mut value: u64 = 1;
    for (key, stands) in keys {
        if *stands {
            opening.push((*key, value))?;
            value = value.saturating_add(1);
        }
    }
    Ok(opening)
}
