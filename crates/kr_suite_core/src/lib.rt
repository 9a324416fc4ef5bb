//! The tests that an engine has to pass to follow a table: a small set of scripts with the table's replies, such that each
//! table which differs in one entry answers one of them otherwise, unless it gives the same replies in every schedule, or is
//! told as left.
#![tactic(auto)]

mod again;
mod classes;
mod equal;
mod judged;
mod laws;
mod left;
mod making;
mod tested;

pub use classes::Suite;
pub use kr_change::Change;
pub use kr_model::{Event, Memory, Reply};
pub use laws::{who_differs_fails, who_follows_passes};
pub use making::suite;
pub use tested::Tested;
