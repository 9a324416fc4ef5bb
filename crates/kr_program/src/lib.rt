//! The program: what it answers to its words, whichever command they name.
#![tactic(auto)]

mod answering;
mod commands;
mod manual;
mod program;
mod questions;

pub use commands::Command;
pub use manual::{LISTING, VERSION, print_page, print_version};
pub use program::execute;
pub use questions::{Question, question_in};
