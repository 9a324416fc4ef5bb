//! A step at once of a transaction that is active, done where it stands in the list.
ghost use Rattle.std.specs.Prelude.{◌≡◌, ◌⊎◌, ℕ, ◌<◌, true, None, Some, Ok, Err, IfOk, IfErr, OnOk, OnErr, unwrap_or};
ghost use Rattle.std.specs.Fn.{FnOnceReturnsAt};
ghost use Rattle.std.specs.Ordering.{nat_cmp};
ghost use Rattle.std.specs.FinMap.{find, put};
ghost use Rattle.kr_model.specs.Locks.{AreWithin, blockers, kept};
ghost use Rattle.kr_model.specs.Plan.{requests};
ghost use Rattle.kr_model.specs.State.{idle};
ghost use Rattle.kr_model.specs.Run.{is_granted};
ghost use Rattle.kr_model.specs.Step.{refusal_of, step};
ghost use Rattle.kr_model.specs.declared.Reply.TheVariants as reply_is;
ghost use Rattle.kr_model.specs.declared.Refusal.TheVariants as refusal_is;
ghost use Rattle.kr_plan.specs.Modes.{ArePlanModes};
ghost use Rattle.kr_txn.specs.Numbered.{IsPosition};
ghost use Rattle.kr_txn.specs.Standings.{entries, number_of};
ghost use Rattle.kr_machine.specs.Accepted.{LacksMemoryOr, TellsWhy};
ghost use Rattle.kr_touch.specs.Parts.{op_of_touch};
ghost use Rattle.kr_machine.specs.Pending.{IsMachine, shown};
ghost use Rattle.kr_touch.specs.Attempts.{attempt_of};
ghost use Rattle.kr_touch.specs.Effects.{effect_of};
ghost use Rattle.kr_touch.specs.Sights.{IsSight};

use crate::accepted::NotDone;
use crate::{grants, plans};
use kr_model::{Plan, Refusal, Reply, Txn, Txns};
use kr_parts::{Holdings, Ordered};
use kr_plan::{holds, refusals};
use kr_protocol::Protocol;
use kr_touch::parts::Touch;
use kr_touch::sights::{Sight, sight_of};
use kr_touch::{change, effects, replies, scans};
use kr_txn::{Ended, Standing};
use std::alloc::Global;

/// Attempts what requests locks, for the active transaction at this place of the list, and does it if `accept` takes its
/// reply. Where nothing is done, index, locks and transactions are as before.
pub(crate) fn touch_at<
    P: Protocol,
    I: Ordered,
    L: Holdings,
    T,
    E,
    F: FnOnce(&Reply) -> Result<T, E>,
>(
    protocol: &P,
    index: &mut I,
    locks: &mut L,
    ended: &Ended,
    active: &mut Vec<Standing>,
    place: usize,
    txn: Txn,
    touch: Touch,
    accept: F,
) -> Result<(Reply, T), NotDone<E>>
    requires at_rest { IsMachine (P.table protocol.now) (I.map index.old) (I.pins index.old) (L.locks locks.old) ended.now active.old None }
    requires place { IsPosition number_of txn active.old.items place }
    requires callable { F.IsAlwaysCallable accept }
    ensures step { IfOk result (λ d. step (P.table protocol.now) (shown None (I.map index.old) (L.locks locks.old) ended.now.numbers (entries active.old.items)) txn (op_of_touch touch) ≡ (d.0, shown None (I.map index.new) (L.locks locks.new) ended.now.numbers (entries active.new.items))) }
    ensures accepted { IfOk result (λ d. (is_granted d.0 ≡ true) × FnOnceReturnsAt F.FnOnce accept d.0 (Ok d.1)) }
    ensures not_done { IfErr result (λ n. TellsWhy (P.table protocol.now) (shown None (I.map index.old) (L.locks locks.old) ended.now.numbers (entries active.old.items)) txn (op_of_touch touch) (λ e. FnOnceReturnsAt F.FnOnce accept (step (P.table protocol.now) (shown None (I.map index.old) (L.locks locks.old) ended.now.numbers (entries active.old.items)) txn (op_of_touch touch)).0 (Err e)) n) }
    ensures same_map { OnErr result (I.map index.new ≡ I.map index.old) }
    ensures same_locks { OnErr result (L.locks locks.new ≡ L.locks locks.old) }
    ensures same_active { OnErr result (entries active.new.items ≡ entries active.old.items) }
    ensures at_rest { IsMachine (P.table protocol.now) (I.map index.new) (I.pins index.new) (L.locks locks.new) ended.now active.new None }
{
    let refusal = refusals::refusal_at(protocol, ended, active, place, txn, touch.op());
    if let Some(refusal) = refusal {
        return Err(NotDone::NotGranted(Reply::Refused(refusal)));
    }
    attempt_at(
        protocol, index, locks, ended, active, place, txn, touch, accept,
    )
}

/// The same where no refusal applies.
fn attempt_at<P: Protocol, I: Ordered, L: Holdings, T, E, F: FnOnce(&Reply) -> Result<T, E>>(
    protocol: &P,
    index: &mut I,
    locks: &mut L,
    ended: &Ended,
    active: &mut Vec<Standing>,
    place: usize,
    txn: Txn,
    touch: Touch,
    accept: F,
) -> Result<(Reply, T), NotDone<E>>
    requires at_rest { IsMachine (P.table protocol.now) (I.map index.old) (I.pins index.old) (L.locks locks.old) ended.now active.old None }
    requires place { IsPosition number_of txn active.old.items place }
    requires callable { F.IsAlwaysCallable accept }
    requires allowed { refusal_of (P.table protocol.now) (shown None (I.map index.old) (L.locks locks.old) ended.now.numbers (entries active.old.items)) txn (op_of_touch touch) ≡ None }
    ensures step { IfOk result (λ d. step (P.table protocol.now) (shown None (I.map index.old) (L.locks locks.old) ended.now.numbers (entries active.old.items)) txn (op_of_touch touch) ≡ (d.0, shown None (I.map index.new) (L.locks locks.new) ended.now.numbers (entries active.new.items))) }
    ensures accepted { IfOk result (λ d. (is_granted d.0 ≡ true) × FnOnceReturnsAt F.FnOnce accept d.0 (Ok d.1)) }
    ensures not_done { IfErr result (λ n. TellsWhy (P.table protocol.now) (shown None (I.map index.old) (L.locks locks.old) ended.now.numbers (entries active.old.items)) txn (op_of_touch touch) (λ e. FnOnceReturnsAt F.FnOnce accept (step (P.table protocol.now) (shown None (I.map index.old) (L.locks locks.old) ended.now.numbers (entries active.old.items)) txn (op_of_touch touch)).0 (Err e)) n) }
    ensures same_map { OnErr result (I.map index.new ≡ I.map index.old) }
    ensures same_locks { OnErr result (L.locks locks.new ≡ L.locks locks.old) }
    ensures same_active { OnErr result (entries active.new.items ≡ entries active.old.items) }
    ensures at_rest { IsMachine (P.table protocol.now) (I.map index.new) (I.pins index.new) (L.locks locks.new) ended.now active.new None }
{
    let alloc = *active.allocator();
    let scan = active[place].scan.as_ref();
    let Some(sight) = sight_of(index, scan, touch) else {
        return Err(NotDone::NotGranted(Reply::Refused(Refusal::NoScan)));
    };
    let plan = plans::plan(protocol, locks, txn, &sight);
    if !kr_plan::granted(protocol, locks, txn, &plan) {
        return Err(NotDone::NotGranted(blocked(alloc, protocol, locks, txn, &plan)));
    }
    let reply = replies::reply_at(alloc, scan, sight.attempt, sight.value)?;
    match do_at(
        protocol, index, locks, ended, active, place, txn, touch, sight, plan, &reply, accept,
    ) {
        Ok(accepted) => Ok((reply, accepted)),
        Err(why) => Err(why),
    }
}

/// What an attempt answers that is blocked.
pub(crate) fn blocked<P: Protocol, L: Holdings>(
    alloc: Global,
    protocol: &P,
    locks: &L,
    txn: Txn,
    plan: &Plan,
) -> Reply
    requires held { AreWithin (P.table protocol.now).count (L.locks locks.now) }
    requires asked { ArePlanModes (P.table protocol.now).count plan.now }
    ensures { (result ≡ reply_is.Blocked (blockers (P.table protocol.now) (L.locks locks.now) txn (requests plan.now))) ⊎ (result ≡ reply_is.Refused refusal_is.Memory) }
{
    match kr_plan::blockers(alloc, protocol, locks, txn, plan) {
        Ok(list) => Reply::Blocked(Txns::from_vec(list)),
        Err(_) => Reply::Refused(Refusal::Memory),
    }
}

/// Takes the memory of a granted attempt, keeps its locks, and does it if `accept` takes its reply. Where it doesn't, or a
/// growth is refused, index, locks and transactions are as before.
fn do_at<P: Protocol, I: Ordered, L: Holdings, T, E, F: FnOnce(&Reply) -> Result<T, E>>(
    protocol: &P,
    index: &mut I,
    locks: &mut L,
    ended: &Ended,
    active: &mut Vec<Standing>,
    place: usize,
    txn: Txn,
    touch: Touch,
    sight: Sight,
    plan: Plan,
    reply: &Reply,
    accept: F,
) -> Result<T, NotDone<E>>
    requires at_rest { IsMachine (P.table protocol.now) (I.map index.old) (I.pins index.old) (L.locks locks.old) ended.now active.old None }
    requires place { IsPosition number_of txn active.old.items place }
    requires attempt { attempt_of (I.map index.old) (unwrap_or (find nat_cmp txn (entries active.old.items)) idle).scan (op_of_touch touch) ≡ Some sight.attempt }
    requires sight { IsSight (I.map index.old) sight }
    requires modes { ArePlanModes (P.table protocol.now).count plan }
    requires callable { F.IsAlwaysCallable accept }
    ensures accepted { IfOk result (λ t. FnOnceReturnsAt F.FnOnce accept reply.now (Ok t)) }
    ensures not_done { IfErr result (λ n. LacksMemoryOr (λ e. FnOnceReturnsAt F.FnOnce accept reply.now (Err e)) n) }
    ensures map { OnOk result (I.map index.new ≡ (effect_of (I.map index.old) (unwrap_or (find nat_cmp txn (entries active.old.items)) idle) (op_of_touch touch)).map) }
    ensures locks { OnOk result (L.locks locks.new ≡ kept (P.table protocol.now) (L.locks locks.old) txn (requests plan)) }
    ensures active { OnOk result (entries active.new.items ≡ put nat_cmp txn (effect_of (I.map index.old) (unwrap_or (find nat_cmp txn (entries active.old.items)) idle) (op_of_touch touch)).standing (entries active.old.items)) }
    ensures at_rest { IsMachine (P.table protocol.now) (I.map index.new) (I.pins index.new) (L.locks locks.new) ended.now active.new None }
    ensures same_map { OnErr result (I.map index.new ≡ I.map index.old) }
    ensures same_locks { OnErr result (L.locks locks.new ≡ L.locks locks.old) }
    ensures same_active { OnErr result (entries active.new.items ≡ entries active.old.items) }
{
    let first_rows = scans::first_rows(*active.allocator(), touch)?;
    effects::make_room_at(active, place, touch)?;
    let op = touch.op();
    let (current_was, next_was) = grants::pin_and_hold(
        protocol, index, locks, txn, op, sight.row, plan,
    )?;
    match accept(reply) {
        Ok(accepted) => {
            effects::perform_at(index, active, place, txn, touch, sight, first_rows);
            Ok(accepted)
        }
        Err(declined) => {
            change::unpin_change(index, op, sight.row);
            holds::give_back(locks, txn, plan.next, next_was);
            holds::give_back(locks, txn, plan.current, current_was);
            Err(NotDone::Declined(declined))
        }
    }
}
