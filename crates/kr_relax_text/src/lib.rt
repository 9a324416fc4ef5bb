//! The relaxations of a table as a text: each with its edit of the table's file, and with a script that shows it; the entries that
//! no schedule comes to; and what each change of an entry does.
#![tactic(auto)]

mod because;
mod reasons;
mod replies;
mod scripts;
mod steps;
mod unused;
mod whole;

pub use because::reasons_text;
pub use reasons::{Reason, changes_of_entry, one_relaxes, reasons_for};
pub use scripts::{Relaxation, Shown, with_scripts};
pub use unused::unused_text;
pub use whole::relaxed_text;
