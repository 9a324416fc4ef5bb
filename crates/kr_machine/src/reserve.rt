//! All memory of a granted step.
ghost use Rattle.std.specs.Prelude.{None, Some, ◌≡◌, ◌≢◌, ℕ, ◌+◌, ◌<◌, ◌≤◌, [], IfOk, IfErr, IsOk, OnErr, OnOk, true, false, unwrap_or, IfSome, ◌-◌, vec_len, option_map};
ghost use Rattle.std.specs.Ordering.{nat_cmp};
ghost use Rattle.std.specs.FinMap.{find};
ghost use Rattle.kr_model.specs.Locks.{blockers, AreWithin};
ghost use Rattle.kr_model.specs.Plan.{requests, plan_of};
ghost use Rattle.kr_model.specs.State.{idle};
ghost use Rattle.kr_model.specs.Step.{refusal_of, step};
ghost use Rattle.kr_model.specs.declared.Op.TheVariants as op_is;
ghost use Rattle.kr_model.specs.declared.Reply.TheVariants as reply_is;
ghost use Rattle.kr_plan.specs.Modes.{ArePlanModes};
ghost use Rattle.kr_txn.specs.Standings.{entries};
ghost use Rattle.kr_touch.specs.Parts.{ended_by, op_of_touch};
ghost use Rattle.kr_plan.specs.Holds.{HoldsSide, put_back};
ghost use Rattle.kr_machine.specs.Pending.{IsMachine, put_back_both, shown, shown_locks, shown_active};
ghost use Rattle.kr_touch.specs.Attempts.{attempt_of};
ghost use Rattle.kr_touch.specs.Pins.{taken_pins};

use crate::grants::pin_and_hold;
use crate::pending::{Pending, PendingPart};
use kr_model::{Event, Op, Plan, Txn};
use kr_parts::{Holdings, Memory, Ordered};
use kr_plan::{holds, room};
use kr_protocol::Protocol;
use kr_touch::granted::GrantedTouch;
use kr_touch::parts::{Ending, Touch};
use kr_touch::{change, scans, standings};
use kr_txn::{Ended, Standing, take_out};

/// Takes the memory of a granted attempt, keeps its locks, and takes its transaction out of the list. Where a growth is
/// refused, index, locks and transactions are as before.
pub(crate) fn reserve<P: Protocol, I: Ordered, L: Holdings>(
    protocol: &P,
    index: &mut I,
    locks: &mut L,
    ended: &mut Ended,
    active: &mut Vec<Standing>,
    txn: Txn,
    touch: Touch,
    plan: Plan,
) -> Result<Pending, Memory>
    requires at_rest { IsMachine (P.table protocol.now) (I.map index.old) (I.pins index.old) (L.locks locks.old) ended.old active.old None }
    requires allowed { refusal_of (P.table protocol.now) (shown None (I.map index.old) (L.locks locks.old) ended.old.numbers (entries active.old.items)) txn (op_of_touch touch) ≡ None }
    requires plan { Some plan ≡ option_map (plan_of (P.table protocol.now) (I.map index.old) (L.locks locks.old) txn) (attempt_of (I.map index.old) (unwrap_or (find nat_cmp txn (entries active.old.items)) idle).scan (op_of_touch touch)) }
    requires modes { ArePlanModes (P.table protocol.now).count plan }
    requires granted { blockers (P.table protocol.now) (L.locks locks.old) txn (requests plan) ≡ [] }
    ensures map { I.map index.new ≡ I.map index.old }
    ensures ended { ended.new.numbers ≡ ended.old.numbers }
    ensures event { IfOk result (λ p. p.event ≡ record { txn = txn; op = op_of_touch touch }) }
    ensures seen_locks { IfOk result (λ p. shown_locks (Some p) (L.locks locks.new) ≡ L.locks locks.old) }
    ensures seen_active { IfOk result (λ p. shown_active (Some p) (entries active.new.items) ≡ entries active.old.items) }
    ensures ok { IfOk result (λ p. IsMachine (P.table protocol.now) (I.map index.new) (I.pins index.new) (L.locks locks.new) ended.new active.new (Some p)) }
    ensures locks { OnErr result (L.locks locks.new ≡ L.locks locks.old) }
    ensures active { OnErr result (entries active.new.items ≡ entries active.old.items) }
    ensures err { OnErr result (IsMachine (P.table protocol.now) (I.map index.new) (I.pins index.new) (L.locks locks.new) ended.new active.new None) }
{
    room::make_room(ended, active)?;
    let op = touch.op();
    let first_rows = scans::first_rows(*active.allocator(), touch)?;
    let (standing, was_active) = standings::stand(active, txn, touch)?;
    match pin_and_hold(protocol, index, locks, txn, op, plan.row, plan) {
        Ok((current_was, next_was)) => Ok(Pending {
            event: Event { txn, op },
            standing,
            was_active,
            part: PendingPart::Touch(GrantedTouch {
                touch,
                plan,
                current_was,
                next_was,
                first_rows,
            }),
        }),
        Err(refused) => {
            room::put_down(active, txn, standing, was_active);
            Err(refused)
        }
    }
}

/// Gives up what was granted: the pin of the key that it would change, and the modes that it keeps. Takes no memory.
pub(crate) fn give_up<I: Ordered, L: Holdings>(
    index: &mut I,
    locks: &mut L,
    txn: Txn,
    granted: GrantedTouch,
)
    requires pins { (q : ℕ) → taken_pins (op_of_touch granted.touch) granted.plan.row q ≤ I.pins index.old q }
    requires next_held { HoldsSide (L.locks locks.old) txn granted.plan.next }
    requires current_held { HoldsSide (put_back (L.locks locks.old) txn granted.plan.next granted.next_was) txn granted.plan.current }
    ensures map { I.map index.new ≡ I.map index.old }
    ensures pins { (q : ℕ) → I.pins index.new q + taken_pins (op_of_touch granted.touch) granted.plan.row q ≡ I.pins index.old q }
    ensures locks { L.locks locks.new ≡ put_back_both (L.locks locks.old) txn granted }
{
    let GrantedTouch {
        touch,
        plan,
        current_was,
        next_was,
        first_rows: _,
    } = granted;
    change::unpin_change(index, touch.op(), plan.row);
    holds::give_back(locks, txn, plan.next, next_was);
    holds::give_back(locks, txn, plan.current, current_was);
}

/// Takes the memory of a commit or an abort, which is none where the transaction is active, and takes it out of the list.
pub(crate) fn reserve_end<P: Protocol, I: Ordered, L: Holdings>(
    protocol: &P,
    index: &I,
    locks: &L,
    ended: &mut Ended,
    active: &mut Vec<Standing>,
    txn: Txn,
    ending: Ending,
) -> Result<Pending, Memory>
    requires at_rest { IsMachine (P.table protocol.now) (I.map index.now) (I.pins index.now) (L.locks locks.now) ended.old active.old None }
    requires allowed { refusal_of (P.table protocol.now) (shown None (I.map index.now) (L.locks locks.now) ended.old.numbers (entries active.old.items)) txn (ended_by ending) ≡ None }
    ensures ended { ended.new.numbers ≡ ended.old.numbers }
    ensures event { IfOk result (λ p. p.event ≡ record { txn = txn; op = ended_by ending }) }
    ensures seen_locks { IfOk result (λ p. shown_locks (Some p) (L.locks locks.now) ≡ L.locks locks.now) }
    ensures seen_active { IfOk result (λ p. shown_active (Some p) (entries active.new.items) ≡ entries active.old.items) }
    ensures ok { IfOk result (λ p. IsMachine (P.table protocol.now) (I.map index.now) (I.pins index.now) (L.locks locks.now) ended.new active.new (Some p)) }
    ensures active { OnErr result (entries active.new.items ≡ entries active.old.items) }
    ensures err { OnErr result (IsMachine (P.table protocol.now) (I.map index.now) (I.pins index.now) (L.locks locks.now) ended.new active.new None) }
    ensures active_ends { find nat_cmp txn (entries active.old.items) ≢ None → IsOk result }
{
    let op = ending.op();
    let event = Event { txn, op };
    let part = PendingPart::End(ending);
    match take_out(active, txn) {
        Some(standing) => Ok(Pending {
            event,
            standing,
            was_active: true,
            part,
        }),
        None => {
            let more = active.len() + 1;
            ended.make_room(more)?;
            let standing = Standing::new(*active.allocator(), txn);
            Ok(Pending {
                event,
                standing,
                was_active: false,
                part,
            })
        }
    }
}

/// Takes an active transaction out of the list of which a change is to be undone; `None` where it isn't there. Takes no
/// memory.
pub(crate) fn reserve_back<P: Protocol, I: Ordered, L: Holdings>(
    protocol: &P,
    index: &I,
    locks: &L,
    ended: &Ended,
    active: &mut Vec<Standing>,
    txn: Txn,
) -> Option<Pending>
    requires at_rest { IsMachine (P.table protocol.now) (I.map index.now) (I.pins index.now) (L.locks locks.now) ended.now active.old None }
    requires allowed { refusal_of (P.table protocol.now) (shown None (I.map index.now) (L.locks locks.now) ended.now.numbers (entries active.old.items)) txn op_is.Back ≡ None }
    ensures event { IfSome result (λ p. p.event ≡ record { txn = txn; op = op_is.Back }) }
    ensures seen_locks { IfSome result (λ p. shown_locks (Some p) (L.locks locks.now) ≡ L.locks locks.now) }
    ensures seen_active { IfSome result (λ p. shown_active (Some p) (entries active.new.items) ≡ entries active.old.items) }
    ensures ok { IfSome result (λ p. IsMachine (P.table protocol.now) (I.map index.now) (I.pins index.now) (L.locks locks.now) ended.now active.new (Some p)) }
    ensures reply { IfSome result (λ p. (step (P.table protocol.now) (shown None (I.map index.now) (L.locks locks.now) ended.now.numbers (entries active.old.items)) txn op_is.Back).0 ≡ reply_is.Undone (vec_len p.standing.changes - 1)) }
    ensures some { IfSome result (λ p. 0 < vec_len p.standing.changes) }
    ensures there { result ≡ None → ⊥ }
{
    match take_out(active, txn) {
        Some(standing) => Some(Pending {
            event: Event { txn, op: Op::Back },
            standing,
            was_active: true,
            part: PendingPart::Back,
        }),
        None => None,
    }
}
