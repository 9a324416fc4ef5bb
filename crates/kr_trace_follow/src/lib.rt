//! What an engine logged beside a protocol table: whether each reply is the one that the table gives, and whether the
//! answers of the committed transactions are serializable in commit order.
#![tactic(auto)]

mod attempts;
pub mod conflict;
mod follower;
mod judge;
pub mod kinds;
mod laws;
mod lines;
mod present;
pub mod scans;
pub mod since;
pub mod steps;
pub mod waits;

pub use follower::Follower;
pub use judge::{Difference, Judge};
pub use laws::{
    conforming_is_serial, differences_are_first, lines_are_followed, locks_are_held_since_lines,
    programs_are_judged,
};
