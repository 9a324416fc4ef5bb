//! Rising lists of transactions.
ghost use Rattle.std.specs.Prelude.{◌≡◌, ◌+◌, ◌<◌, ◌≤◌, IsOk, OnOk, OnErr, vec_len, vec_capacity};
ghost use Rattle.std.specs.List.Sorted.{IsStrictlyIncreasing};
ghost use Rattle.kr_model.specs.Locks.{add_once};

use kr_model::Txn;
use std::alloc::AllocError;

/// Puts a transaction into its place in a rising list, once: a list that has it stays. Only a list that is full takes
/// memory; where that growth is refused, the list stays and the call returns an error.
pub fn put_once(txns: &mut Vec<Txn>, txn: Txn) -> Result<(), AllocError>
    requires { IsStrictlyIncreasing txns.old.items }
    ensures items { OnOk result (txns.new.items ≡ add_once txn txns.old.items) }
    ensures err { OnErr result (txns.new.items ≡ txns.old.items) }
    ensures has_room { vec_len txns.old < vec_capacity txns.old → IsOk result }
    ensures len { vec_len txns.new ≤ vec_len txns.old + 1 }
    ensures capacity { vec_capacity txns.old ≤ vec_capacity txns.new }
{
    if let Err(place) = txns.binary_search(&txn) {
        txns.insert(place, txn)?;
    }
    Ok(())
}
