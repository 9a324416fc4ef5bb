//! Lock tables as text: read from TOML, with the first of all faults where the text is no table, and written as TOML. And the modes
//! of a table that is made while the program runs: their names, which of them are compatible, and how they combine.
#![tactic(auto)]

pub mod bundled;
mod faults;
pub mod making;
mod modes;
mod reading;
mod rows;
mod table;
pub mod walk;
pub mod writing;

pub use faults::TableFault;
pub use kr_model::Mode;
pub use modes::Modes;
pub use reading::read;
pub use rows::Rows;
pub use table::{Parts, Table};
pub use writing::{WriteFault, write};
