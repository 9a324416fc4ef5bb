//! What the commands share: the words that name tables, scripts and files, without ghosts and with them; and how a program ends.
#![tactic(auto)]

mod endings;
mod faults;
mod files;
mod ghost_scripts;
mod ghost_tables;
mod laws;
mod lines;
mod named;
mod reading;
mod tables;
mod telling;
mod words;

pub use endings::Ending;
pub use files::{
    Disk, FileFault, Files, SCRIPT_BYTES, at_fault, read_file, script_at, unreadable, whole,
};
pub use ghost_scripts::ghost_script_at;
pub use ghost_tables::AnyGhostTable;
pub use laws::lemma_lawful;
pub use named::{Named, at_ghost_fault, named_at};
pub use reading::first_bytes;
pub use tables::{AnyTable, TABLE_BYTES, at_table_fault, table_at};
pub use telling::finish;
pub use words::{is_no_file, is_plain, number_of, words_given};
