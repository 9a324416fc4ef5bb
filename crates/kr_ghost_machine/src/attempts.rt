//! An attempt: it is blocked, or it is granted and done.
ghost use Rattle.std.specs.Prelude.{◌≡◌, IfOk, OnErr};
ghost use Rattle.kr_model.specs.Plan.{requests};
ghost use Rattle.kr_model.specs.State.{standing};
ghost use Rattle.kr_txn.specs.Standings.{entries};
ghost use Rattle.kr_ghost.specs.Step.{after_effect};
ghost use Rattle.kr_ghost_machine.specs.Deeds.{effect_of, ghosts_after};
ghost use Rattle.kr_ghost_machine.specs.Machine.{IsGhostMachine, shown};
ghost use Rattle.kr_ghost_machine.specs.Sights.{IsSight, attempt_of};

use crate::endings::{Endings, make_room};
use crate::sights::Sight;
use crate::{grants, standings};
use kr_ghost_index::GhostIndex;
use kr_ghost_protocol::GhostProtocol;
use kr_locks::{Holdings, Memory};
use kr_model::{Reply, Txn, Txns};
use kr_txn::{Standing, put_in};

/// Takes the memory of a granted attempt, and does it. Where a growth is refused, nothing changes.
fn grant<P: GhostProtocol, L: Holdings>(
    protocol: &P,
    index: &mut GhostIndex,
    locks: &mut L,
    ended: &mut Endings,
    active: &mut Vec<Standing>,
    txn: Txn,
    sight: Sight,
) -> Result<Reply, Memory>
    requires at_rest { IsGhostMachine (P.table protocol.now) index.old (L.locks locks.old) ended.old active.old }
    requires sight { IsSight (P.table protocol.now).count index.old.map sight }
    ensures step { IfOk result (λ r. after_effect (P.ghosts protocol.now) (shown index.old (L.locks locks.old) ended.old.numbers (entries active.old.items)) txn (requests sight.plan) (effect_of sight.deed index.old.map (standing (shown index.old (L.locks locks.old) ended.old.numbers (entries active.old.items)).state txn)) (ghosts_after sight.deed index.old.ghosts) ≡ (r, shown index.new (L.locks locks.new) ended.new.numbers (entries active.new.items))) }
    ensures err { OnErr result (shown index.new (L.locks locks.new) ended.new.numbers (entries active.new.items) ≡ shown index.old (L.locks locks.old) ended.old.numbers (entries active.old.items)) }
    ensures at_rest { IsGhostMachine (P.table protocol.now) index.new (L.locks locks.new) ended.new active.new }
{
    make_room(ended, active)?;
    let (taken, was_active) = standings::stand(active, txn);
    let mut standing = taken;
    match grants::perform(
        protocol,
        index,
        locks,
        &mut standing,
        sight.plan,
        sight.deed,
    ) {
        Ok(reply) => {
            put_in(active, standing);
            Ok(reply)
        }
        Err(refused) => {
            standings::put_back(active, standing, was_active);
            Err(refused)
        }
    }
}

/// Attempts what requests locks: its reply names the blockers, or it is done. Where a growth is refused, nothing changes.
pub(crate) fn attempt<P: GhostProtocol, L: Holdings>(
    protocol: &P,
    index: &mut GhostIndex,
    locks: &mut L,
    ended: &mut Endings,
    active: &mut Vec<Standing>,
    txn: Txn,
    sight: Sight,
) -> Result<Reply, Memory>
    requires at_rest { IsGhostMachine (P.table protocol.now) index.old (L.locks locks.old) ended.old active.old }
    requires sight { IsSight (P.table protocol.now).count index.old.map sight }
    ensures step { IfOk result (λ r. attempt_of (P.ghosts protocol.now) (shown index.old (L.locks locks.old) ended.old.numbers (entries active.old.items)) txn sight ≡ (r, shown index.new (L.locks locks.new) ended.new.numbers (entries active.new.items))) }
    ensures err { OnErr result (shown index.new (L.locks locks.new) ended.new.numbers (entries active.new.items) ≡ shown index.old (L.locks locks.old) ended.old.numbers (entries active.old.items)) }
    ensures at_rest { IsGhostMachine (P.table protocol.now) index.new (L.locks locks.new) ended.new active.new }
{
    if !kr_plan::granted(protocol, locks, txn, &sight.plan) {
        let alloc = *active.allocator();
        let blockers = kr_plan::blockers(alloc, protocol, locks, txn, &sight.plan)?;
        return Ok(Reply::Blocked(Txns::from_vec(blockers)));
    }
    grant(protocol, index, locks, ended, active, txn, sight)
}
