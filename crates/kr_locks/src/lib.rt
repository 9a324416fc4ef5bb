//! Lock tables: the locks that transactions hold on names, by name or in a sorted list.
#![tactic(auto)]

mod bucket;
mod buckets;
mod holders;
mod list;
mod names;

pub use buckets::Buckets;
pub use kr_model::{Memory, Mode, Name, Txn};
pub use kr_parts::Holdings;
pub use list::List;
