//! A table in memory that answers as a protocol of either kind of index does, with the same names of its modes.
#![tactic(auto)]

mod copying;
mod draft;
mod draft_ghosts;
mod same;
mod same_ghosts;

pub use copying::{Copy, copy_of};
