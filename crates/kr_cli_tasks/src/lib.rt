//! `kr check`, `run`, `judge` and `threads`: their words, and their reports on sinks, from bytes and under the tables that words name,
//! without ghosts or with them.
#![tactic(auto)]

mod asked;
mod checks;
mod faults;
mod forms;
mod ghost_runs;
mod ghost_threads;
mod judges;
mod named_tasks;
mod program;
mod runs;
mod scripts;
mod threads;
mod with_ghosts;
mod without_ghosts;
mod words;

pub use asked::{Asked, Form, Task, Workers};
pub use checks::{check_ghosts, check_over, write_check};
pub use faults::ReportFault;
pub use ghost_runs::{judge_ghosts, run_ghosts};
pub use judges::{LinesFault, judge_over};
pub use named_tasks::task_at;
pub use program::task;
pub use runs::run_script;
pub use scripts::judge_scripts;
pub use with_ghosts::under_ghosts;
pub use without_ghosts::under;
pub use words::read_words;
