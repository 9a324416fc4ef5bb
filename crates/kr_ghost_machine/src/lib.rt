//! A machine: an index with ghosts on which transactions do steps under a locking protocol, and from which ghosts are purged.
#![tactic(auto)]

mod asked;
mod attempts;
mod copies;
mod deeds;
mod endings;
mod ends;
mod grants;
mod heirs;
mod purges;
mod requests;
mod scans;
mod sights;
mod standings;
mod stepper;

pub use kr_model::{Memory, Mode, Name, Txn};
pub use stepper::GhostStepper;
