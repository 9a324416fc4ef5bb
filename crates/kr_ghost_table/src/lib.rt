//! Lock tables of format 3 as text: tables of indexes in which a deleted key stays as a ghost until it is purged. A table is read from
//! TOML, with the first of all faults where the text is no such table, and written as TOML.
#![tactic(auto)]

mod faults;
mod heirs;
mod members;
mod reading;
mod shape;
mod table;
mod vain;
mod writing;

pub use faults::GhostTableFault;
pub use reading::{has_ghosts, read};
pub use table::GhostTable;
pub use writing::write;
