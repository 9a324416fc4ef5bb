//! A transaction taken out of the list of the active ones for a step, and put back.
ghost use Rattle.std.specs.Prelude.{◌≡◌, ℕ, ◌+◌, ◌<◌, ◌≤◌, None, IsTrue, false, if◌then◌else◌, unwrap_or, vec_len, vec_capacity};
ghost use Rattle.std.specs.Ordering.{nat_cmp};
ghost use Rattle.std.specs.FinMap.{find, put};
ghost use Rattle.kr_model.specs.State.{idle};
ghost use Rattle.kr_txn.specs.Numbered.{without_txn};
ghost use Rattle.kr_txn.specs.Standings.{IsInOrder, active_of, entries};
ghost use Rattle.kr_touch.specs.Pins.{all_changes_of, changes_of};

use kr_model::Txn;
use kr_txn::{Standing, put_in, take_out};

/// Takes a transaction out of the list, or makes a new one, and tells whether it was there. Takes no memory.
pub(crate) fn stand(active: &mut Vec<Standing>, txn: Txn) -> (Standing, bool)
    requires { IsInOrder active.old.items }
    ensures rest { entries active.new.items ≡ without_txn txn (entries active.old.items) }
    ensures txn { result.0.txn ≡ txn }
    ensures found { active_of result.0 ≡ unwrap_or (find nat_cmp txn (entries active.old.items)) idle }
    ensures back { (if result.1 then put nat_cmp txn (active_of result.0) (entries active.new.items) else entries active.new.items) ≡ entries active.old.items }
    ensures noted { (q : ℕ) → all_changes_of (entries active.old.items) q ≡ all_changes_of (entries active.new.items) q + changes_of (active_of result.0).changes q }
    ensures some { IsTrue result.1 → vec_len active.new + 1 ≡ vec_len active.old }
    ensures none { result.1 ≡ false → vec_len active.new ≡ vec_len active.old }
    ensures len { vec_len active.new ≤ vec_len active.old }
    ensures capacity { vec_capacity active.new ≡ vec_capacity active.old }
{
    match take_out(active, txn) {
        Some(standing) => (standing, true),
        None => (Standing::new(*active.allocator(), txn), false),
    }
}

/// Puts a transaction back that was active, as it was. Takes no memory.
pub(crate) fn put_back(active: &mut Vec<Standing>, standing: Standing, was_active: bool)
    requires others { find nat_cmp standing.txn (entries active.old.items) ≡ None }
    requires room { IsTrue was_active → vec_len active.old < vec_capacity active.old }
    ensures items { entries active.new.items ≡ (if was_active then put nat_cmp standing.txn (active_of standing) (entries active.old.items) else entries active.old.items) }
    ensures some { IsTrue was_active → vec_len active.new ≡ vec_len active.old + 1 }
    ensures none { was_active ≡ false → vec_len active.new ≡ vec_len active.old }
{
    if was_active {
        put_in(active, standing);
    }
}
