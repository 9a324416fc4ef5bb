//! How transactions stand: those that are active, and the numbers of those that have ended.
#![tactic(auto)]

ghost use Rattle.std.specs.Prelude.{map, ◌≡◌, ◌≢◌, ℕ, ◌+◌, ◌<◌, ◌≤◌, [], Some, None, IfSome, IfNone, IfOk, OnOk, OnErr, not, ◌==◌, length, vec_len, vec_capacity, filter};
ghost use Rattle.std.specs.Option.{option_map};
ghost use Rattle.std.specs.Ordering.{nat_cmp};
ghost use Rattle.std.specs.FinMap.{find, put};
ghost use Rattle.kr_model.specs.State.{idle};
ghost use Rattle.kr_txn.specs.Numbered.{IsPosition, IsPlace, AreOthers, without_txn};
ghost use Rattle.kr_txn.specs.Standings.{number_of, active_of, entries, IsInOrder};

mod ended;
mod log;
mod logging;
mod numbered;
mod rising;
mod unfinished;

pub use ended::Ended;
use kr_model::Txns;
pub use kr_model::{Memory, Txn};
pub use log::Log;
use numbered::place;
pub use numbered::{Numbered, position};
pub use rising::put_once;
use std::alloc::Global;

/// A scan in progress.
#[derive(Drop)]
pub struct Scan {
    /// The least key of the range.
    pub lo: u64,
    /// The greatest key of the range, which is in it.
    pub hi: u64,
    /// The pairs that it has read, keys rising.
    pub rows: Vec<(u64, u64)>,
}

/// An active transaction.
#[derive(Drop)]
pub struct Standing {
    /// Its number.
    pub txn: Txn,
    /// Its scan in progress, if there is one.
    pub scan: Option<Scan>,
    /// Its changes left, oldest first: each a key, and the value that stood there before, or nothing.
    pub changes: Vec<(u64, Option<u64>)>,
    /// Whether it rolls back: a change of it was undone.
    pub rolling: bool,
}

impl Standing {
    /// A transaction that has done nothing. Takes no memory.
    pub fn new(alloc: Global, txn: Txn) -> Standing
        ensures txn { result.txn ≡ txn }
        ensures idle { active_of result ≡ idle }
    {
        Standing {
            txn,
            scan: None,
            changes: Vec::new(alloc),
            rolling: false,
        }
    }
}

impl Numbered for Standing {
    ghost number = { number_of };

    fn number(&self) -> Txn {
        self.txn
    }
}

/// The numbers of the transactions, in the order of the list, or `Memory` where a growth is refused.
pub fn numbers(alloc: Global, list: &[Standing]) -> Result<Txns, Memory>
    ensures { IfOk result (λ txns. txns ≡ map (λ a. a.0) (entries list.now)) }
{
    let mut numbers = Vec::new(alloc);
    for standing in list {
        numbers.push(standing.txn)?;
    }
    Ok(Txns::from_vec(numbers))
}

/// Takes a transaction out of the list, which rises by number, and gives it back; `None` where it isn't there, and then
/// the list stays. The others keep their order, and the list keeps its memory.
pub fn take_out(list: &mut Vec<Standing>, txn: Txn) -> Option<Standing>
    requires { IsInOrder list.old.items }
    ensures found { option_map active_of result ≡ find nat_cmp txn (entries list.old.items) }
    ensures txn { IfSome result (λ s. s.txn ≡ txn) }
    ensures rest { entries list.new.items ≡ without_txn txn (entries list.old.items) }
    ensures some { IfSome result (λ s. vec_len list.new + 1 ≡ vec_len list.old) }
    ensures same { IfNone result (entries list.new.items ≡ entries list.old.items) }
    ensures none { IfNone result (vec_len list.new ≡ vec_len list.old) }
    ensures capacity { vec_capacity list.new ≡ vec_capacity list.old }
{
    match position(list, txn) {
        Some(i) => Some(list.remove(i)),
        None => None,
    }
}

/// Puts a transaction that isn't in the list before the first with a greater number. The list has room, so it takes no
/// memory.
pub fn put_in(list: &mut Vec<Standing>, standing: Standing)
    requires others { find nat_cmp standing.txn (entries list.old.items) ≡ None }
    requires room { vec_len list.old < vec_capacity list.old }
    ensures items { entries list.new.items ≡ put nat_cmp standing.txn (active_of standing) (entries list.old.items) }
    ensures len { vec_len list.new ≡ vec_len list.old + 1 }
    ensures capacity { vec_capacity list.old ≤ vec_capacity list.new }
{
    let i = place(list, standing.txn);
    let _ = list.insert(i, standing);
}
