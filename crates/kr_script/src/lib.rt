//! Scripts of transactions' steps, without purges and with them: read from JSON, and those without written as a line that reads
//! back; replies, written as reports have them; and steps that a run left out.
#![tactic(auto)]

mod faults;
mod ghost_plain;
mod ghost_reading;
mod ghost_script;
mod line;
mod moves;
mod not_done;
mod parts;
mod plain;
pub mod reading;
mod replies;
mod script;
mod steps;
mod writing;

pub use faults::ScriptFault;
pub use ghost_reading::read_ghost_script;
pub use ghost_script::GhostScript;
pub use line::{lemma_event_fits, lemma_pairs_fit, write_script};
pub use moves::move_of;
pub use not_done::{StepFault, WhyNotDone};
pub use parts::{length_of, number_at, word_at};
pub use reading::{MAX_ELEMENTS, pair_of, pairs_of, read_script};
pub use replies::{quoted, write_name, write_numbers, write_reply, write_with_numbers};
pub use script::Script;
pub use steps::{event_of, one_step_for_each_event};
pub use writing::{separator, write_number, write_pairs, write_step, write_with_number};
