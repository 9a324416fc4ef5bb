//! A script's transactions run by several threads over one index with ghosts, which are purged between their steps.
#![tactic(auto)]

mod fault;
mod hands;
mod kernel;
mod made;
mod name;
mod report;
mod run;
mod steps;
mod work;

pub use fault::GhostRunFault;
pub use made::{GhostThreaded, Made};
pub use name::GhostRunName;
pub use report::report_ghost_threads;
pub use run::run_ghost_threads;
