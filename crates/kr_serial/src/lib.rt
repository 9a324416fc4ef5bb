//! Runs: lists of events attempted one after another on a machine, and the verdicts on them.
#![tactic(auto)]

mod covered;
mod judged;
mod logged;
mod played;
mod runs;
mod steps;

pub use covered::run;
pub use judged::judge_run;
pub use kr_judge::{
    Index, Played, Ran, Replies, Triples, Verdict, answer, follow, is_map, judge, judge_programs,
    map_of, note,
};
pub use kr_model::{Items, Mode, Name, Pairs, Program, Programs, Reply, Txn, Txns};
pub use played::play;
pub use runs::run_any;
pub use steps::replay;
