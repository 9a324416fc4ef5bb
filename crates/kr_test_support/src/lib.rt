//! What the tests of several crates share.
#![tactic(auto)]

mod answer;
mod plain;
mod scarce;

pub use answer::Answer;
pub use plain::Plain;
pub use scarce::{Countdown, ScarceIndex, ScarceLocks};
