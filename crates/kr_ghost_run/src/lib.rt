//! Runs of an index with ghosts: moves done one after another, and the verdict on what the transactions did.
#![tactic(auto)]

mod noted;
mod played;
mod ran;
mod runs;

pub use kr_judge::{Triples, Verdict};
pub use played::play_moves;
pub use ran::{Answer, GhostPlayed, GhostRan};
pub use runs::{judge_moves, run_moves};
