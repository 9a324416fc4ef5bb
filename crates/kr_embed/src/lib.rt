//! kr for programs in other languages: tables and scripts from bytes, with ghosts and without, sessions behind a handle, and
//! replies as numbers. `kr_c` exports this to C.
#![tactic(auto)]

mod checks;
mod explanations;
mod faults;
mod gone;
mod handle;
mod leaving;
mod modes;
mod noting;
mod numbers;
mod parts;
mod runs;
mod scripts;
mod session;
mod tables;

pub use checks::{check_bytes, decide_bytes};
pub use explanations::{explain_bytes, script_of_cause};
pub use faults::Fault;
pub use handle::Handle;
pub use modes::mode_in;
pub use numbers::{Lock, Pair, PlainReply, locks_of, operation, pairs_of, plain};
pub use runs::run_bytes;
pub use scripts::{ghost_script_in, script_in};
pub use session::{Session, open_bytes};
pub use tables::table_in;
