//! Locking protocols of indexes in which a deleted key stays as a ghost until it is purged: what one is, and the three that come
//! with the checker.
#![tactic(auto)]

mod next_key_ghost;
mod parts;
mod protocol;
mod range_ghost;
mod record_gap;

pub use kr_ghost::Vain;
pub use kr_protocol::{Mode, Protocol, Row, Side, Span};
pub use next_key_ghost::NextKeyGhost;
pub use protocol::{GhostProtocol, vain_request};
pub use range_ghost::RangeGhost;
pub use record_gap::RecordGap;
