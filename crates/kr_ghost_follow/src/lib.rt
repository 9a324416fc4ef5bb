//! What an engine logged beside a table whose deletes leave ghosts: the engine's purges aren't in its trace, so each state that
//! may stand is followed.
#![tactic(auto)]

mod downwards;
mod follower;
mod known;
mod laws;
mod line;
mod near;
mod report;
mod requests;
mod since;
mod spread;
mod stand;
mod steps;
mod tries;

pub use follower::Follower;
pub use laws::{agreeing_fits, lines_are_run, standing_is_serial};
pub use report::write_ghost_part;
pub use spread::MOST;
