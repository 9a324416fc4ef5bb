//! `kr trace`: its words, and what is printed of each part of a trace that is read line by line.
#![tactic(auto)]

mod ghosts;
mod one_ghost_part;
mod one_part;
mod program;
mod texts;
mod words;

pub use program::trace;
pub use words::{Asked, read_words};
