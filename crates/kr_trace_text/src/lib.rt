//! A part of a trace as a text: its steps, as `kr explain` writes those of a run; how it differs from what a table answers, in
//! a sentence; and whether its answers are serializable, in another.
#![tactic(auto)]

mod answered;
mod deviation;
mod steps;
mod verdict;
mod whole;

pub use steps::LoggedStep;
pub use verdict::verdict_text;
pub use whole::part_text;
