//! What is explained of a table with ghosts, as a text: the verdict, what is to blame, and a schedule that goes wrong.
#![tactic(auto)]

mod body;
mod held;
mod rows;
mod run;
mod text;
mod titles;
mod verdict;
mod words;

pub use text::ghost_text;
