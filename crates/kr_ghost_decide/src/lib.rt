//! Whether a protocol whose deletes leave ghosts is safe, decided exactly.
#![tactic(auto)]

mod ask;
mod decision;
mod every;
mod found;
mod heir;
mod hold;
mod way;

pub use ask::{Ask, asks, may_ask};
pub use decision::{Hole, find_hole, is_safe_ghost};
pub use every::pairs_of;
pub use hold::{Hold, KeyUse, Pair, is_changed};
