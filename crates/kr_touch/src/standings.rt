//! A transaction taken out of the list of the active ones for a step, with room for what the step adds to it.
ghost use Rattle.std.specs.Prelude.{◌≡◌, ℕ, ◌+◌, ◌<◌, ◌≤◌, None, OnOk, OnErr, IfOk, IsTrue, vec_len, vec_capacity, if◌then◌else◌, unwrap_or};
ghost use Rattle.std.specs.Ordering.{nat_cmp};
ghost use Rattle.std.specs.FinMap.{find, put};
ghost use Rattle.kr_model.specs.State.{idle, Active};
ghost use Rattle.kr_txn.specs.Standings.{active_of, entries, IsInOrder};
ghost use Rattle.kr_touch.specs.Parts.{op_of_touch};
ghost use Rattle.kr_touch.specs.Pins.{changes_of, all_changes_of};
ghost use Rattle.kr_touch.specs.Room.{HasRoomIn};

use crate::parts::{KeyTouch, Touch};
use kr_model::Txn;
use kr_txn::{Memory, Standing, put_in, take_out};

/// Takes room for what is added to a transaction: a row of the scan in progress, or a change.
pub fn make_room_in(standing: &mut Standing, touch: Touch) -> Result<(), Memory>
    ensures txn { standing.new.txn ≡ standing.old.txn }
    ensures same { active_of standing.new ≡ active_of standing.old }
    ensures ok { OnOk result (HasRoomIn standing.new (op_of_touch touch)) }
{
    match touch {
        Touch::Scan(_, _) | Touch::Key(KeyTouch::Fetch(_)) => {}
        Touch::Go => {
            if let Some(scan) = &mut standing.scan {
                scan.rows.reserve(1)?;
            }
        }
        Touch::Key(KeyTouch::Insert(_, _) | KeyTouch::Delete(_) | KeyTouch::Update(_, _)) => {
            standing.changes.reserve(1)?;
        }
    }
    Ok(())
}

/// Takes a transaction out of the list, or makes a new one, with room for what is added to it; and tells whether
/// it was there.
pub fn stand(active: &mut Vec<Standing>, txn: Txn, touch: Touch) -> Result<(Standing, bool), Memory>
    requires order { IsInOrder active.old.items }
    requires room { vec_len active.old < vec_capacity active.old }
    ensures apart { OnOk result (find nat_cmp txn (entries active.new.items) ≡ None) }
    ensures over { OnOk result ((x : Active) → put nat_cmp txn x (entries active.new.items) ≡ put nat_cmp txn x (entries active.old.items)) }
    ensures back { IfOk result (λ s. (if s.1 then put nat_cmp txn (active_of s.0) (entries active.new.items) else entries active.new.items) ≡ entries active.old.items) }
    ensures order { OnOk result (IsInOrder active.new.items) }
    ensures room { OnOk result (vec_len active.new < vec_capacity active.new) }
    ensures len { OnOk result (vec_len active.new ≤ vec_len active.old) }
    ensures was_active { IfOk result (λ s. IsTrue s.1 → vec_len active.new + 1 ≡ vec_len active.old) }
    ensures txn { IfOk result (λ s. s.0.txn ≡ txn) }
    ensures fresh { IfOk result (λ s. active_of s.0 ≡ unwrap_or (find nat_cmp txn (entries active.old.items)) idle) }
    ensures noted { IfOk result (λ s. (q : ℕ) → all_changes_of (entries active.old.items) q ≡ all_changes_of (entries active.new.items) q + changes_of (active_of s.0).changes q) }
    ensures change { IfOk result (λ s. HasRoomIn s.0 (op_of_touch touch)) }
    ensures err { OnErr result (entries active.new.items ≡ entries active.old.items) }
    ensures err_len { OnErr result (vec_len active.new ≡ vec_len active.old) }
{
    match take_out(active, txn) {
        Some(standing) => {
            let mut standing = standing;
            match make_room_in(&mut standing, touch) {
                Ok(()) => Ok((standing, true)),
                Err(refused) => {
                    put_in(active, standing);
                    Err(refused)
                }
            }
        }
        None => {
            let mut standing = Standing::new(*active.allocator(), txn);
            make_room_in(&mut standing, touch)?;
            Ok((standing, false))
        }
    }
}
