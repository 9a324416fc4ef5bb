//! A protocol table as a page of HTML that stands alone: its verdict, its matrices and rules, what its modes protect, and
//! what is to blame where cases fail.
#![tactic(auto)]

mod badges;
mod causes;
mod covers;
mod frame;
mod matrices;
mod page;
mod rules;
mod schedule;
mod told;

pub use covers::{open_cell, whole_cell};
pub use frame::framed;
pub use kr_model::Memory;
pub use matrices::{Matrix, matrix_text};
pub use page::table_page;
pub use rules::{request, rules_text};
