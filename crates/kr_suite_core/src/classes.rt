//! The parts of a suite, and what becomes of each change.
ghost use Rattle.std.specs.Prelude.{◌≡◌, ◌↔◌, IsTrue, []};

use crate::tested::Tested;
use kr_change::Change;

/// The tests for a table of either kind. Each table that differs in one entry is exactly one of: told apart by a part that names
/// it, alike, or left. Those that are alike, and those that are left, come in the order of `index_changes_of`.
#[derive(Drop)]
pub struct Suite {
    /// The scripts; those that take changes back come last.
    pub parts: Vec<Tested>,
    /// The changes with which each step of every schedule has the same reply, with the same blockers.
    pub alike: Vec<Change>,
    /// The changes that no part names, and that aren't known to be alike.
    pub left: Vec<Change>,
}

impl Suite {
    /// Whether none is left.
    pub fn is_complete(&self) -> bool
        ensures { IsTrue result ↔ (self.now.left.items ≡ []) }
    {
        self.left.is_empty()
    }
}
