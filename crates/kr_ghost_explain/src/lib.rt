//! Why cases of a table with ghosts fail, and what mends them; whether it is safe all the same, and a schedule that goes wrong under it.
#![tactic(auto)]

mod blame;
mod causes;
mod dice;
mod draft;
mod explaining;
mod explanation;
mod judging;
mod mends;
mod naming;
mod plans;
mod requests;
mod schedule;
mod search;
mod shorter;
mod trials;
mod walks;

pub use blame::GhostBlame;
pub use causes::{GhostCause, ghost_causes};
pub use explaining::explain_ghosts;
pub use explanation::{GhostExplanation, GhostFailures, MendedCause};
pub use judging::goes_wrong;
pub use mends::ghost_mends;
pub use requests::{request_of, requested};
pub use schedule::GhostSchedule;
