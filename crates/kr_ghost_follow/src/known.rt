//! States that are told apart. Which are is a matter of search alone.

use crate::stand::Stand;
use kr_ghost_protocol::GhostProtocol;
use kr_model::{Items, Memory};
use kr_trace_follow::conflict::Lock;
use kr_trace_follow::scans::Progress;
use std::alloc::Global;

/// What tells a state from others beside the same lines.
#[derive(Drop)]
pub(crate) struct Known {
    ghosts: Items<u64>,
    locks: Vec<Lock>,
    scans: Vec<Progress>,
    waiting: Vec<Lock>,
}

impl Known {
    /// What tells a state from others. It looks at all names.
    pub(crate) fn of<P: GhostProtocol>(alloc: Global, stand: &Stand<P>) -> Result<Known, Memory> {
        Ok(Known {
            ghosts: stand.stepper.ghosts()?,
            locks: stand.stepper.locks()?,
            scans: Vec::from_slice(alloc, &stand.scans)?,
            waiting: Vec::from_slice(alloc, &stand.waiting)?,
        })
    }

    /// Whether nothing tells a state from another.
    fn is_same(&self, other: &Known) -> bool {
        self.ghosts.as_slice() == other.ghosts.as_slice()
            && self.locks.as_slice() == other.locks.as_slice()
            && self.scans.as_slice() == other.scans.as_slice()
            && self.waiting.as_slice() == other.waiting.as_slice()
    }

    /// Whether it is among those that are known.
    pub(crate) fn is_in(&self, known: &[Known]) -> bool {
        for i in 0..known.len() {
            if self.is_same(&known[i]) {
                return true;
            }
        }
        false
    }
}
