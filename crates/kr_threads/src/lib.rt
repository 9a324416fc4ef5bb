//! A script's transactions run by several threads over one engine; and what its workers did, compared with the script: the closed
//! history, the steps that were left out, and what is shown of both.
#![tactic(auto)]

mod calls;
mod comparing;
mod fault;
mod gathering;
mod history;
mod left_out;
mod report;
mod run;
mod work;

pub use comparing::{Worked, compared, shown_of, threaded_of};
pub use fault::{RunFault, failure};
pub use gathering::{finished, gather};
pub use kr_workers::{Gate, Passage};
pub use left_out::settle;
pub use report::Report;
pub use run::{run_threads, show_threads};
