//! What comes next in a schedule.

use kr_model::Event;

/// What comes next in a schedule of an index with ghosts: an operation that a transaction attempts, or a purge, which is of no
/// transaction.
#[derive(Clone, Copy, Debug, PartialEq, Eq)]
pub enum Move {
    /// An operation of a transaction.
    Attempt(Event),
    /// A purge of the ghost at this key; where it may not be purged, nothing happens.
    Purge(u64),
}
