//! An index in which a deleted key stays as a ghost until it is purged.
#![tactic(auto)]

mod index;
mod slots;

pub use index::{GhostIndex, Look};
pub use kr_model::{Memory, Name};
