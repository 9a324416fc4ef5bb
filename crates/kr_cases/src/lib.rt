//! The case checker: accepts a locking protocol of which every case holds, and lists all cases that fail of any other.
#![tactic(auto)]

mod checker;
mod finder;
mod holes;
mod rules;

pub use checker::{Checked, Rejected, WhyRejected, cases, check};
pub use holes::{first_open, must_conflict};
pub use kr_model::{FailedCase, Memory};
pub use rules::all_covers;
