//! What a granted attempt does to the index, the locks and its transaction.
ghost use Rattle.std.specs.Prelude.{◌≡◌, ℕ, ◌+◌, IfOk, OnErr, OnOk};
ghost use Rattle.kr_model.specs.Locks.{kept};
ghost use Rattle.kr_model.specs.Plan.{requests};
ghost use Rattle.kr_model.proofs.Requests.{AreLocks};
ghost use Rattle.kr_plan.specs.Modes.{ArePlanModes};
ghost use Rattle.kr_txn.specs.Standings.{active_of};
ghost use Rattle.kr_touch.specs.Pins.{changes_of};
ghost use Rattle.kr_ghost_index.specs.Index.{changes};
ghost use Rattle.kr_ghost_machine.specs.Deeds.{IsDeed, change_effect, effect_of, ghosts_after};
ghost use Rattle.kr_ghost.specs.State.{ghosts_with};

use crate::deeds::{Change, Deed};
use crate::scans;
use kr_ghost_index::GhostIndex;
use kr_locks::{Holdings, Memory};
use kr_model::{Plan, Reply};
use kr_plan::holds::{give_back, hold_both};
use kr_protocol::Protocol;
use kr_txn::Standing;

/// Keeps the locks of a change that is granted, does it, and notes what stood at its key. Where a growth is refused, locks,
/// index and changes are as before.
fn change<P: Protocol, L: Holdings>(
    protocol: &P,
    index: &mut GhostIndex,
    locks: &mut L,
    standing: &mut Standing,
    plan: Plan,
    change: Change,
) -> Result<Reply, Memory>
    requires locks { AreLocks (P.table protocol.now) (L.locks locks.old) }
    requires modes { ArePlanModes (P.table protocol.now).count plan }
    ensures reply { IfOk result (λ r. r ≡ (change_effect change index.old.map (active_of standing.old)).reply) }
    ensures map { OnOk result (index.new.map ≡ (change_effect change index.old.map (active_of standing.old)).map) }
    ensures ghosts { OnOk result (index.new.ghosts ≡ ghosts_with index.old.ghosts change.key change.value) }
    ensures standing { OnOk result (active_of standing.new ≡ (change_effect change index.old.map (active_of standing.old)).standing) }
    ensures kept { OnOk result (L.locks locks.new ≡ kept (P.table protocol.now) (L.locks locks.old) standing.old.txn (requests plan)) }
    ensures locks { AreLocks (P.table protocol.now) (L.locks locks.new) }
    ensures noted { (q : ℕ) → changes index.new q + changes_of (active_of standing.old).changes q ≡ changes index.old q + changes_of (active_of standing.new).changes q }
    ensures txn { standing.new.txn ≡ standing.old.txn }
    ensures err_index { OnErr result (index.new ≡ index.old) }
    ensures err_locks { OnErr result (L.locks locks.new ≡ L.locks locks.old) }
    ensures err_standing { OnErr result (active_of standing.new ≡ active_of standing.old) }
{
    let txn = standing.txn;
    standing.changes.reserve(1)?;
    let (current_was, next_was) = hold_both(protocol, locks, txn, plan)?;
    match index.change(change.key, change.value) {
        Ok(()) => {
            standing.changes.push_reserved((change.key, change.before));
            Ok(change.reply())
        }
        Err(refused) => {
            give_back(locks, txn, plan.next, next_was);
            give_back(locks, txn, plan.current, current_was);
            Err(refused)
        }
    }
}

/// Keeps the locks of an attempt that is granted, and does it. Where a growth is refused, locks, index and transaction are as
/// before.
pub(crate) fn perform<P: Protocol, L: Holdings>(
    protocol: &P,
    index: &mut GhostIndex,
    locks: &mut L,
    standing: &mut Standing,
    plan: Plan,
    deed: Deed,
) -> Result<Reply, Memory>
    requires locks { AreLocks (P.table protocol.now) (L.locks locks.old) }
    requires modes { ArePlanModes (P.table protocol.now).count plan }
    requires deed { IsDeed index.old.map deed }
    ensures reply { IfOk result (λ r. r ≡ (effect_of deed index.old.map (active_of standing.old)).reply) }
    ensures map { OnOk result (index.new.map ≡ (effect_of deed index.old.map (active_of standing.old)).map) }
    ensures ghosts { OnOk result (index.new.ghosts ≡ ghosts_after deed index.old.ghosts) }
    ensures standing { OnOk result (active_of standing.new ≡ (effect_of deed index.old.map (active_of standing.old)).standing) }
    ensures kept { OnOk result (L.locks locks.new ≡ kept (P.table protocol.now) (L.locks locks.old) standing.old.txn (requests plan)) }
    ensures locks { AreLocks (P.table protocol.now) (L.locks locks.new) }
    ensures noted { (q : ℕ) → changes index.new q + changes_of (active_of standing.old).changes q ≡ changes index.old q + changes_of (active_of standing.new).changes q }
    ensures txn { standing.new.txn ≡ standing.old.txn }
    ensures err_index { OnErr result (index.new ≡ index.old) }
    ensures err_locks { OnErr result (L.locks locks.new ≡ L.locks locks.old) }
    ensures err_standing { OnErr result (active_of standing.new ≡ active_of standing.old) }
{
    match deed {
        Deed::Answer(reply) => {
            hold_both(protocol, locks, standing.txn, plan)?;
            Ok(reply)
        }
        Deed::Change(made) => change(protocol, index, locks, standing, plan, made),
        Deed::Look(glance) => scans::look(protocol, locks, standing, plan, glance),
    }
}
