//! The script that leads to a scene.

use crate::draft::Draft;
use crate::keys::{A, K, P, Y};
use crate::request::{Spot, TAKE};
use crate::scene::Scene;
use crate::step::{Actor, Step};
use crate::turns::Turn;
use std::alloc::{AllocError, Global};

/// The keys that are deleted above P, and below it, in this order.
const ABOVE_P: [u64; 2] = [18, 16];

const BELOW_P: [u64; 4] = [14, 13, 12, 11];

/// A free point above all of them.
const ABOVE_ALL: u64 = 19;

/// The greatest value of an opening map, below those that steps give.
const MOST_VALUE: u64 = 4;

/// Which keys below A are deleted on the way to a scene, and which free point there is read.
#[derive(Drop)]
struct Below {
    /// The keys that are deleted, in the order of their deletes.
    taken: Vec<u64>,
    free: u64,
}

impl Below {
    /// None is deleted yet: where the holder's delete of P is what the script is about, all are read above the keys that are
    /// deleted, and else P.
    fn new(alloc: Global, is_of_deleted: bool) -> Below {
        Below {
            taken: Vec::new(alloc),
            free: if is_of_deleted { ABOVE_ALL } else { P },
        }
    }

    /// The keys of the deletes on a way: where it is about them, the first that the holder deletes is P. `None` where there are
    /// too many, or the holder deletes none.
    fn of(
        alloc: Global,
        way: &[(Scene, Turn)],
        is_second: bool,
        is_of_deleted: bool,
    ) -> Result<Option<Below>, AllocError> {
        let mut below = Below::new(alloc, is_of_deleted);
        let mut is_below_p = !is_of_deleted;
        let mut place: usize = 0;
        for (_, turn) in way {
            if turn.request == TAKE {
                if !is_below_p && turn.by_second == is_second {
                    is_below_p = true;
                    place = 0;
                    below.taken.push(P)?;
                } else {
                    let Some(key) = key_taken(is_below_p, place) else {
                        return Ok(None);
                    };
                    place = place.saturating_add(1);
                    below.taken.push(key)?;
                }
            }
        }
        Ok(if is_below_p { Some(below) } else { None })
    }
}

/// The key of this place, from 0, of those below P or above it.
fn key_taken(is_below_p: bool, place: usize) -> Option<u64> {
    if is_below_p {
        BELOW_P.get(place).copied()
    } else {
        ABOVE_P.get(place).copied()
    }
}

/// The script of a way to a scene, in which one is the holder: `None` where too many keys are deleted. Where the holder's
/// delete in the gap below A is what it is about, the key that it deletes first is P.
pub(crate) fn staged(
    alloc: Global,
    way: &[(Scene, Turn)],
    stood: bool,
    is_second: bool,
    is_of_deleted: bool,
) -> Result<Option<Draft>, AllocError> {
    let Some(below) = Below::of(alloc, way, is_second, is_of_deleted)? else {
        return Ok(None);
    };
    let mut steps = Vec::new(alloc);
    let mut weak: usize = 0;
    let mut taken: usize = 0;
    for (from, turn) in way {
        let is_own = turn.by_second == is_second;
        if is_own && !turn.on_y {
            weak = steps.len();
        }
        let before = below.taken.get(taken).copied().unwrap_or(K);
        let spot = if turn.on_y {
            Spot::at_y(from.has_a(), below.free, before)
        } else {
            Spot::at_a(below.free, before)
        };
        if turn.request == TAKE {
            taken = taken.saturating_add(1);
        }
        let by = if is_own {
            Actor::Holder
        } else {
            Actor::Intruder
        };
        let op = spot.step(turn.request);
        steps.push(Step { by, op })?;
    }
    let opening = opening(alloc, &below.taken, stood)?;
    Ok(Some(Draft {
        opening,
        steps,
        weak,
    }))
}

/// The opening map: K, Y, the keys that are deleted, and A if wanted. No value is above 4.
fn opening(alloc: Global, taken: &[u64], stood: bool) -> Result<Vec<(u64, u64)>, AllocError> {
    let mut keys = taken.to_vec(alloc)?;
    keys.push(K)?;
    keys.push(Y)?;
    if stood {
        keys.push(A)?;
    }
    keys.sort()?;
    let mut opening = Vec::new(alloc);
    let mut value: u64 = 1;
    for key in keys.iter() {
        opening.push((*key, value))?;
        value = value.saturating_add(1).min(MOST_VALUE);
    }
    Ok(opening)
}
