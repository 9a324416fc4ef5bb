//! The operations that wait, as a list: at most one of each transaction.
ghost use Rattle.std.specs.List.{list_any};
ghost use Rattle.std.specs.Prelude.{◌≡◌, ◌==◌, ◌||◌, ◌≤◌, ◌∷◌, ◌++◌, [], IfOk, OnOk, OnErr, vec_len, vec_capacity};
ghost use Rattle.kr_records.specs.Cores.{without};
ghost use Rattle.kr_records.specs.Waits.{AreTxnsOf};

use kr_model::{Event, Txn};
use kr_txn::put_once;
use std::alloc::{AllocError, Global};

/// The transactions of operations, rising.
pub fn txns_of(alloc: Global, events: &[Event]) -> Result<Vec<Txn>, AllocError>
    ensures { IfOk result (λ txns. AreTxnsOf txns.items events.now) }
{
    let mut txns = Vec::new(alloc);
    for event in events {
        put_once(&mut txns, event.txn)?;
    }
    Ok(txns)
}

/// Whether one of those that block a transaction is it, or has a noted operation. Else there is no cycle.
pub fn may_close(txn: Txn, own: &[Txn], noted: &[Event]) -> bool
    ensures { result ≡ list_any (λ u. (u == txn) || list_any (λ e. e.txn == u) noted.now) own.now }
{
    for &blocker in own {
        if blocker == txn || is_noted(noted, blocker) {
            return true;
        }
    }
    false
}

/// Whether one of these operations is of the transaction.
fn is_noted(noted: &[Event], txn: Txn) -> bool
    ensures { result ≡ list_any (λ e. e.txn == txn) noted.now }
{
    for event in noted {
        if event.txn == txn {
            return true;
        }
    }
    false
}

/// Notes an operation in place of one of its transaction.
pub fn note(waiting: &mut Vec<Event>, event: Event) -> Result<(), AllocError>
    ensures ok { OnOk result (waiting.new.items ≡ without event.txn waiting.old.items ++ event ∷ []) }
    ensures err { OnErr result (waiting.new.items ≡ waiting.old.items) }
{
    waiting.reserve(1)?;
    forget(waiting, event.txn);
    waiting.push_reserved(event);
    Ok(())
}

/// Takes a transaction's operation out.
pub fn forget(waiting: &mut Vec<Event>, txn: Txn)
    ensures items { waiting.new.items ≡ without txn waiting.old.items }
    ensures bound { vec_len waiting.new ≤ vec_len waiting.old }
    ensures capacity { vec_capacity waiting.new ≡ vec_capacity waiting.old }
{
    waiting.retain(|event| event.txn != txn);
}
