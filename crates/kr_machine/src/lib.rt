//! A machine: an ordered index on which transactions do steps under a locking protocol.
//!
//! A step is done at once, or in two parts: `ready` takes all memory that it needs and tells its reply, and `finish`
//! does it or `cancel` gives it up, neither of which can fail.
#![tactic(auto)]

mod accepted;
mod asked;
mod at_once;
mod at_place;
mod grants;
mod machine;
mod noting;
mod pending;
mod plans;
mod reserve;
mod stepper;

pub use accepted::NotDone;
pub use kr_model::{Mode, Name, Txn};
pub use kr_plan::{holds, refusals, room};
pub use machine::Machine;
pub use pending::Ready;
pub use stepper::Stepper;
