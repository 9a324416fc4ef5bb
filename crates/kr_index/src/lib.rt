//! Ordered indexes: maps from keys to values, with pins that keep places for keys.
#![tactic(auto)]

mod firsts;
mod slots;
mod sorted;
mod stretches;
mod tree;
mod values;
mod walks;

pub use kr_model::{Memory, Name};
pub use kr_parts::Ordered;
pub use sorted::Sorted;
pub use tree::Tree;
