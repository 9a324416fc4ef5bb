//! What a run leaves, and judging whether it is serializable in commit order: whether each answer of the programs that committed
//! is the one of the serial run. A run comes from a machine, and no machine is needed here.
#![tactic(auto)]

mod changed;
mod current;
mod index;
mod judging;
mod keys;
mod noting;
mod own;
mod ran;
mod verdict;
mod whole;

pub use index::Index;
pub use judging::{judge, judge_programs};
pub use keys::is_map;
pub use kr_model::{Items, Mode, Name, Pairs, Program, Programs, Reply, Txn, Txns};
pub use noting::note;
pub use ran::{Played, Ran, Replies, Triples};
pub use verdict::Verdict;
pub use whole::{answer, follow, map_of};
