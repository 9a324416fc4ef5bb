//! What a run of a script by several workers needs, whatever the engine: steps dealt to their transactions, turns, a gate around
//! each call, what was left out and where, and whether the history follows the script.
#![tactic(auto)]

mod dealt;
mod following;
mod gate;
mod left_out;
mod placing;
mod turn;
mod undoing;
mod wanted;

pub use dealt::Dealt;
pub use following::follows;
pub use gate::{Gate, Passage};
pub use kr_script::{StepFault, WhyNotDone};
pub use left_out::{LeftOut, faults_of};
pub use placing::are_placed;
pub use turn::{MOST_CALLS, Turn};
