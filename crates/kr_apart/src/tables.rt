//! Two tables that differ in one entry.

use crate::flat::Flat;
use kr_change::Change;

/// A table, and the same table with one entry changed.
#[derive(Clone, Copy)]
pub(crate) struct Tables {
    pub one: Flat,
    pub other: Flat,
}

impl Tables {
    /// The table twice.
    pub(crate) fn new(flat: &Flat) -> Tables {
        Tables {
            one: *flat,
            other: *flat,
        }
    }

    /// Makes the other table the first with this change.
    pub(crate) fn change(&mut self, change: Change) {
        self.other = self.one;
        self.other.change(change);
    }
}
