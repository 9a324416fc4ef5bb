//! The machine.
ghost use Rattle.std.specs.Prelude.{◌≡◌, ◌≤◌, ◌&&◌, ℕ, All, IfOk, IsErr, IsTrue, OnOk, OnErr, [], false, if◌then◌else◌, is_some, map};
ghost use Rattle.kr_model.specs.State.{active_of, start};
ghost use Rattle.kr_model.specs.Step.{may_lack_memory, takes_no_memory};
ghost use Rattle.kr_model.specs.declared.Op.TheVariants as op_is;
ghost use Rattle.kr_ghost.specs.Step.{may_purge, performed, purged, step};
ghost use Rattle.kr_ghost_index.specs.Index.{changes};
ghost use Rattle.kr_ghost_machine.specs.Memory.{purge_may_lack_memory};

use crate::attempts::attempt;
use crate::copies;
use crate::endings::Endings;
use crate::ends::{back, end};
use crate::purges::purge;
use crate::sights::{Part, part_of};
use kr_ghost_index::GhostIndex;
use kr_ghost_protocol::GhostProtocol;
use kr_locks::{Buckets, Holdings};
use kr_model::{Items, Memory, Mode, Name, Op, Pairs, Refusal, Reply, Txn, Txns};
use kr_plan::refusals::refusal;
use kr_txn::Standing;
use std::alloc::Global;
use std::marker::Model;

/// An index with ghosts under a locking protocol, with the locks of its transactions and how each stands.
///
/// Contracts see its protocol, and its state between two moves.
pub struct GhostStepper<P: GhostProtocol, L: Holdings> {
    pub(crate) protocol: P,
    pub(crate) index: GhostIndex,
    pub(crate) locks: L,
    pub(crate) ended: Endings,
    pub(crate) active: Vec<Standing>,
}

impl<P: GhostProtocol, L: Holdings> Model for GhostStepper<P, L> {
    ghost use Rattle.kr_txn.specs.Standings.{entries};
    ghost use Rattle.kr_ghost_machine.specs.Machine.{GhostSteps, IsGhostMachine, shown};

    ghost Value = { GhostSteps P };

    ghost view = { λ m. record { protocol = m.protocol; state = shown m.index (L.locks m.locks) m.ended.numbers (entries m.active.items) } };

    ghost invariant = { λ m. IsGhostMachine (P.table m.protocol) m.index (L.locks m.locks) m.ended m.active };
}

impl<P: GhostProtocol, L: Holdings> GhostStepper<P, L> {
    /// A machine that has done no step, over an index of which no change is left, with no locks. Takes no memory.
    pub fn new(alloc: Global, protocol: P, index: GhostIndex, locks: L) -> Self
        requires unlocked { L.locks locks ≡ [] }
        requires unchanged { (q : ℕ) → changes index q ≡ 0 }
        ensures protocol { result.protocol ≡ protocol }
        ensures state { result.state ≡ record { state = start index.map; ghosts = index.ghosts } }
    {
        GhostStepper {
            protocol,
            index,
            locks,
            ended: Endings::new(alloc),
            active: Vec::new(alloc),
        }
    }

    /// Attempts one operation of a transaction, and answers the reply. At an error a growth was refused, and nothing has
    /// changed. That comes in place of no refusal, and the end of an active transaction takes no memory, nor does a change
    /// undone.
    pub fn step(&mut self, txn: Txn, op: Op) -> Result<Reply, Memory>
        ensures step { IfOk result (λ reply. step (P.ghosts self.old.protocol) self.old.state txn op ≡ (reply, self.new.state)) }
        ensures err { OnErr result (self.new ≡ self.old) }
        ensures memory { IsErr result → IsTrue (may_lack_memory (P.ghosts self.old.protocol).table self.old.state.state txn op) }
        ensures protocol { self.new.protocol ≡ self.old.protocol }
    {
        let refusal = refusal(&self.protocol, self.ended.ended(), &self.active, txn, op);
        if let Some(refusal) = refusal {
            return Ok(Reply::Refused(refusal));
        }
        self.perform(txn, op)
    }

    /// The same, where no refusal applies.
    fn perform(&mut self, txn: Txn, op: Op) -> Result<Reply, Memory>
        ensures step { IfOk result (λ reply. performed (P.ghosts self.old.protocol) self.old.state txn op ≡ (reply, self.new.state)) }
        ensures err { OnErr result (self.new ≡ self.old) }
        ensures memory { IsErr result → (takes_no_memory op && is_some (active_of self.old.state.state txn)) ≡ false }
        ensures protocol { self.new.protocol ≡ self.old.protocol }
    {
        let part = part_of(
            &self.protocol,
            &self.index,
            &self.locks,
            &self.active,
            txn,
            op,
        );
        match part {
            Part::Attempt(sight) => attempt(
                &self.protocol,
                &mut self.index,
                &mut self.locks,
                &mut self.ended,
                &mut self.active,
                txn,
                sight,
            ),
            Part::Commit => self.end(txn, false),
            Part::Abort => self.end(txn, true),
            Part::Back => Ok(back(
                &mut self.index,
                &self.locks,
                &self.ended,
                &mut self.active,
                txn,
            )),
            Part::NoScan => Ok(Reply::Refused(Refusal::NoScan)),
        }
    }

    /// Ends a transaction, whose changes are undone where it aborts.
    fn end(&mut self, txn: Txn, aborts: bool) -> Result<Reply, Memory>
        ensures step { IfOk result (λ reply. performed (P.ghosts self.old.protocol) self.old.state txn (if aborts then op_is.Abort else op_is.Commit) ≡ (reply, self.new.state)) }
        ensures err { OnErr result (self.new ≡ self.old) }
        ensures memory { IsErr result → is_some (active_of self.old.state.state txn) ≡ false }
        ensures protocol { self.new.protocol ≡ self.old.protocol }
    {
        end(
            &mut self.index,
            &mut self.locks,
            &mut self.ended,
            &mut self.active,
            txn,
            aborts,
        )
    }

    /// Purges a ghost, and answers whether it did: not where the key is no ghost, where an active transaction can still undo
    /// a change of it, or where it is locked and the protocol doesn't let locks be inherited. At an error a growth was refused,
    /// and nothing has changed. Only the purge of a ghost with a lock that is inherited takes memory.
    pub fn purge(&mut self, key: u64) -> Result<bool, Memory>
        ensures purged { IfOk result (λ is_purged. is_purged ≡ may_purge (P.ghosts self.old.protocol) self.old.state key) }
        ensures state { OnOk result (self.new.state ≡ purged (P.ghosts self.old.protocol) self.old.state key) }
        ensures err { OnErr result (self.new ≡ self.old) }
        ensures memory { IsErr result → IsTrue (purge_may_lack_memory (P.ghosts self.old.protocol) self.old.state key) }
        ensures protocol { self.new.protocol ≡ self.old.protocol }
    {
        purge(
            &self.protocol,
            &mut self.index,
            &mut self.locks,
            &self.active,
            key,
        )
    }

    /// The pairs of the present keys, keys rising, or `Memory` where a growth is refused.
    pub fn index(&self) -> Result<Pairs, Memory>
        ensures { IfOk result (λ pairs. pairs ≡ self.now.state.state.map) }
    {
        self.index.pairs(*self.active.allocator())
    }

    /// The ghosts, rising, or `Memory` where a growth is refused.
    pub fn ghosts(&self) -> Result<Items<u64>, Memory>
        ensures { IfOk result (λ ghosts. ghosts ≡ self.now.state.ghosts) }
    {
        self.index.ghosts(*self.active.allocator())
    }

    /// The locks that are held, by name, the end last, and then by transaction; or `Memory` where a growth is refused.
    pub fn locks(&self) -> Result<Vec<((Name, Txn), Mode)>, Memory>
        ensures locks { IfOk result (λ locks. locks.items ≡ self.now.state.state.locks) }
        ensures modes { IfOk result (λ locks. All (λ l. l.1 ≤ (P.ghosts self.now.protocol).table.count) locks.items) }
    {
        self.locks.copy(*self.active.allocator())
    }

    /// The active transactions, rising, or `Memory` where a growth is refused.
    pub fn unfinished(&self) -> Result<Txns, Memory>
        ensures { IfOk result (λ txns. txns ≡ map (λ a. a.0) self.now.state.state.active) }
    {
        kr_txn::numbers(*self.active.allocator(), &self.active)
    }
}

/// By hand, so that crates above call it by its contract and don't prove a destructor of their own.
impl<P: GhostProtocol, L: Holdings> Drop for GhostStepper<P, L> {
    fn drop(self) {
        let GhostStepper {
            protocol: _,
            index: _,
            locks: _,
            ended: _,
            active: _,
        } = self;
    }
}

impl<P: GhostProtocol + Copy, L: Holdings> GhostStepper<P, L> {
    /// A second machine in the same state, over the same protocol; or `Memory` where a growth is refused. Its time is linear in
    /// the number of names, locks and transactions, also of those that have ended.
    pub fn try_copy(&self) -> Result<GhostStepper<P, Buckets>, Memory>
        ensures { IfOk result (λ copy. copy ≡ self.now) }
    {
        let alloc = *self.active.allocator();
        let active = copies::active(alloc, &self.active)?;
        let ended = self.ended.try_copy()?;
        let index = self.index.try_copy(alloc)?;
        let locks = copies::locks(alloc, &self.locks)?;
        Ok(GhostStepper {
            protocol: self.protocol,
            index,
            locks,
            ended,
            active,
        })
    }
}
