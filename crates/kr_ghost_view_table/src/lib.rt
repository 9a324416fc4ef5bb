//! A table with ghosts as a page of HTML that stands alone: its verdict, its matrices and rules, what becomes of locks on ghosts, what
//! its modes protect, and the cases that fail.
#![tactic(auto)]

mod cases;
mod covers;
mod ghosts;
mod page;
mod verdict;

pub use kr_model::Memory;
pub use page::ghost_table_page;
