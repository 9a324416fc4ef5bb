//! The lists of ended and active transactions, and room in them.
ghost use Rattle.std.specs.Prelude.{◌≡◌, ◌+◌, ◌<◌, ◌≤◌, None, OnOk, IsTrue, vec_len, vec_capacity, if◌then◌else◌, unwrap_or, false, option_map, option_copied};
ghost use Rattle.std.specs.Ordering.{nat_cmp};
ghost use Rattle.std.specs.FinMap.{find, put};
ghost use Rattle.kr_model.specs.Locks.{add_once, release};
ghost use Rattle.kr_model.specs.State.{idle};
ghost use Rattle.kr_txn.specs.Standings.{active_of, scan_of, entries};

use kr_model::Txn;
use kr_parts::Holdings;
use kr_txn::{Ended, Memory, Scan, Standing, position, put_in};

/// The scan in progress of a transaction, if there is one.
pub fn scan_of(active: &[Standing], txn: Txn) -> Option<&Scan>
    ensures { option_map scan_of (option_copied result) ≡ (unwrap_or (find nat_cmp txn (entries active.now)) idle).scan }
{
    match position(active, txn) {
        Some(i) => active[i].scan.as_ref(),
        None => None,
    }
}

/// Takes room for a transaction among the active ones, now, and among the ended ones, later.
pub fn make_room(ended: &mut Ended, active: &mut Vec<Standing>) -> Result<(), Memory>
    requires { vec_len active.old ≤ ended.old.room }
    ensures ended { ended.new.numbers ≡ ended.old.numbers }
    ensures active { active.new.items ≡ active.old.items }
    ensures room { vec_len active.new ≤ ended.new.room }
    ensures ok { OnOk result (vec_len active.new + 1 ≤ ended.new.room) }
    ensures one_more { OnOk result (vec_len active.new < vec_capacity active.new) }
{
    let more = active.len() + 1;
    ended.make_room(more)?;
    active.reserve(1)?;
    Ok(())
}

/// Puts a transaction back that was active.
pub fn put_down(active: &mut Vec<Standing>, txn: Txn, standing: Standing, was_active: bool)
    requires itself { standing.txn ≡ txn }
    requires others { find nat_cmp txn (entries active.old.items) ≡ None }
    requires room { IsTrue was_active → vec_len active.old < vec_capacity active.old }
    ensures items { entries active.new.items ≡ (if was_active then put nat_cmp txn (active_of standing) (entries active.old.items) else entries active.old.items) }
    ensures len { vec_len active.new ≤ vec_len active.old + 1 }
    ensures some { IsTrue was_active → vec_len active.new ≡ vec_len active.old + 1 }
    ensures same { was_active ≡ false → vec_len active.new ≡ vec_len active.old }
{
    if was_active {
        put_in(active, standing);
    }
}

/// Lets a transaction go: it holds no lock any more, and has ended. Takes no memory.
pub fn leave<L: Holdings>(locks: &mut L, ended: &mut Ended, txn: Txn)
    requires { 0 < ended.old.room }
    ensures locks { L.locks locks.new ≡ release (L.locks locks.old) txn }
    ensures ended { ended.new.numbers ≡ add_once txn ended.old.numbers }
    ensures room { ended.old.room ≤ ended.new.room + 1 }
{
    locks.release(txn);
    ended.add(txn);
}
