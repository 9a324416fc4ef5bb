//! The reports of checks, runs, verdicts and runs in several threads, as JSON on one line.
#![tactic(auto)]

mod check_reports;
mod ghost_reports;
mod replies;
mod reports;
mod threaded;
mod threads_reports;
mod values;
mod writing;

pub use check_reports::report_check;
pub use ghost_reports::report_ghost_check;
pub use kr_script::{StepFault, WhyNotDone};
pub use replies::write_verdict;
pub use reports::{report_played, report_run, report_verdict};
pub use threaded::{Answered, Threaded, ThreadsShown};
pub use threads_reports::{report_threads, report_threads_shown, write_faults};
pub use writing::write_locks;
