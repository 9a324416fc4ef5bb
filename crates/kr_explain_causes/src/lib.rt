//! What is to blame for the failed cases of a protocol, and which changes of a single entry mend it.
#![tactic(auto)]

mod blame;
mod cause;
mod mend;
mod reasons;
mod trials;

pub use blame::Blame;
pub use cause::{Cause, causes};
pub use kr_cases::{Memory, must_conflict};
pub use kr_model::{FailedCase, Mode, Row, Side, Span};
pub use mend::{MOST_MENDED, Mend, Verdict, mends};
pub use reasons::own_next;
