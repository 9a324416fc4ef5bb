//! Locking protocols of ordered indexes: what one is, which ones are covered, and the four that
//! come with the checker.
#![tactic(auto)]

mod asking;
mod im;
mod kvl;
mod kvl_update;
mod parts;
mod protocol;
mod range_key;
mod request;

pub use asking::{asked, converted, is_open, mode_after, name_or_empty};
pub use im::Im;
pub use kr_model::{Mode, Row, Side, Span};
pub use kvl::Kvl;
pub use kvl_update::KvlUpdate;
pub use protocol::{Covered, Protocol, SafeProtocol};
pub use range_key::RangeKey;
