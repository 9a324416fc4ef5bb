//! Judging the runs of many scripts on several threads.
#![tactic(auto)]

mod judging;
mod named;

pub use judging::judge_all;
pub use named::{JudgeFault, TextFault, Texts, judge_texts};
