//! The text of a suite: a trace with a table's replies, and the changes of the table that no script tells apart.
#![tactic(auto)]

mod either;
mod habits;
mod left;
mod parts;
mod scripts;
mod whole;

pub use left::left_text;
pub use whole::suite_text;
