//! What a machine asks of an ordered index and of a lock table.
#![tactic(auto)]

mod holdings;
mod ordered;

pub use holdings::Holdings;
pub use kr_model::{Memory, Mode, Name, Txn};
pub use ordered::Ordered;
