//! The keys that a page draws.

use kr_ghost::Move;
use kr_ghost_machine::GhostStepper;
use kr_ghost_protocol::GhostProtocol;
use kr_locks::Holdings;
use kr_model::Memory;
use kr_view_scenes::{Columns, key_of};
use std::alloc::Global;
use std::collections::BTreeSet;

/// The columns of moves that come next on a machine: of the keys that are names, and of those that the moves name.
pub(crate) fn columns_at<P: GhostProtocol, L: Holdings>(
    alloc: Global,
    stepper: &GhostStepper<P, L>,
    next: &[Move],
) -> Result<Columns, Memory> {
    let pairs = stepper.index()?;
    let ghosts = stepper.ghosts()?;
    let mut keys = BTreeSet::new(alloc);
    for (key, _) in pairs.as_slice() {
        keys.insert(*key)?;
    }
    for key in ghosts.as_slice() {
        keys.insert(*key)?;
    }
    add_named(&mut keys, next)?;
    Columns::new(alloc, &keys)
}

/// Adds the keys that moves name.
fn add_named(keys: &mut BTreeSet<u64>, moves: &[Move]) -> Result<(), Memory> {
    for next in moves {
        let named = match next {
            Move::Attempt(event) => key_of(event.op),
            Move::Purge(key) => Some(*key),
        };
        if let Some(key) = named {
            keys.insert(key)?;
        }
    }
    Ok(())
}
