//! The report of a run with ghosts, as JSON on one line; and the writing of its parts.
#![tactic(auto)]

mod answers;
mod reports;

pub use answers::{write_answer, write_ghosts};
pub use reports::{report_ghost_played, report_ghost_run};
