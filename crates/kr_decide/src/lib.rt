//! The decision: whether a locking protocol is safe. It finds all pairs of lock states that two transactions can have on one
//! name, and whether each one's lock blocks what it has to keep out. Every run under a safe protocol is serializable in
//! commit order. And whether a protocol is ordered: then, if it isn't safe, some run isn't serializable.
#![tactic(auto)]

mod absent;
mod decision;
mod every;
mod finding;
mod met;
mod moves;
mod numbers;
mod opening;
mod ordered;
mod pair;
mod safe;
mod survey;

pub use decision::{Decision, decide};
pub use every::pairs_of;
pub use kr_model::{Cover, GapUse, KeyUse, LockState, Memory, Mode, Row, Side};
pub use moves::{FREE, after, given, is_blocked, keeps_out, may_ask, may_beside};
pub use numbers::{STATES, state_number};
pub use opening::protects;
pub use ordered::{is_at_least, is_ordered};
pub use pair::{Hole, Pair, Way};
pub use safe::{Rejected, Safe, WhyRejected};
pub use survey::Survey;
