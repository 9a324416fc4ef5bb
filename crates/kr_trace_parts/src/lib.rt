//! The parts of a trace, read line by line: what is asked of each, and what is printed of it.
#![tactic(auto)]

mod asking;
mod faults;
mod follow;
mod lines;
mod orders;
mod programs;
mod serial;
mod source;
mod tales;
mod trace;

pub use asking::{Asks, Part};
pub use follow::{Against, Followed, is_well};
pub use lines::ReadLines;
pub use orders::{InSomeOrder, Kept};
pub use programs::Committed;
pub use serial::{InCommitOrder, Judging, verdict_of};
pub use source::{LINE_BYTES, Lines, LinesFault, Traces};
pub use tales::{Answered, Tale};
pub use trace::read_trace;
