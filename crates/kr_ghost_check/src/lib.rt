//! The check of a table with ghosts: all its cases that don't hold, each with the first requester that gets through.
#![tactic(auto)]

mod checker;
mod open;
mod requests;
mod rules;

pub use checker::{cases, failed_cases};
pub use open::first_open;
