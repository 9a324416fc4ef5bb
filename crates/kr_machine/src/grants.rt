//! The pin and the locks of a granted step.
ghost use Rattle.std.specs.Prelude.{◌≡◌, ℕ, ◌+◌, IfOk, OnErr, OnOk};
ghost use Rattle.kr_model.specs.Locks.{kept, HasNoNone, AreWithin, IsLocks};
ghost use Rattle.kr_model.specs.Plan.{requests};
ghost use Rattle.kr_plan.specs.Modes.{ArePlanModes};
ghost use Rattle.kr_plan.specs.Holds.{put_back, HoldsSide};
ghost use Rattle.kr_touch.specs.Pins.{taken_pins};

use kr_model::{Mode, Op, Plan, Row, Txn};
use kr_parts::{Holdings, Memory, Ordered};
use kr_plan::holds::hold_both;
use kr_protocol::Protocol;
use kr_touch::change;

/// Takes the pin of the key that a granted operation changes, by the row of its attempt, and keeps the modes of both sides'
/// requests; answers the modes before. Where a growth is refused, no pin and no lock changes.
pub(crate) fn pin_and_hold<P: Protocol, I: Ordered, L: Holdings>(
    protocol: &P,
    index: &mut I,
    locks: &mut L,
    txn: Txn,
    op: Op,
    row: Row,
    plan: Plan,
) -> Result<(Mode, Mode), Memory>
    requires within { AreWithin (P.table protocol.now).count (L.locks locks.old) }
    requires no_none { HasNoNone (L.locks locks.old) }
    requires in_order { IsLocks (L.locks locks.old) }
    requires asked { ArePlanModes (P.table protocol.now).count plan }
    ensures map { I.map index.new ≡ I.map index.old }
    ensures pins { OnOk result ((q : ℕ) → I.pins index.new q ≡ I.pins index.old q + taken_pins op row q) }
    ensures same_pins { OnErr result ((q : ℕ) → I.pins index.new q ≡ I.pins index.old q) }
    ensures ok { OnOk result (L.locks locks.new ≡ kept (P.table protocol.now) (L.locks locks.old) txn (requests plan)) }
    ensures was { IfOk result (λ was. put_back (put_back (L.locks locks.new) txn plan.next was.1) txn plan.current was.0 ≡ L.locks locks.old) }
    ensures next_held { OnOk result (HoldsSide (L.locks locks.new) txn plan.next) }
    ensures current_held { IfOk result (λ was. HoldsSide (put_back (L.locks locks.new) txn plan.next was.1) txn plan.current) }
    ensures err { OnErr result (L.locks locks.new ≡ L.locks locks.old) }
    ensures within { AreWithin (P.table protocol.now).count (L.locks locks.new) }
    ensures no_none { HasNoNone (L.locks locks.new) }
    ensures in_order { IsLocks (L.locks locks.new) }
{
    change::pin_change(index, op, row)?;
    match hold_both(protocol, locks, txn, plan) {
        Ok(was) => Ok(was),
        Err(refused) => {
            change::unpin_change(index, op, row);
            Err(refused)
        }
    }
}
