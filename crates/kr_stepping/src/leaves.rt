//! The machine over an index whose deleted keys stay as ghosts.
ghost use Rattle.std.specs.Prelude.{◌≡◌, ℕ, []};
ghost use Rattle.kr_model.specs.State.{start};
ghost use Rattle.kr_ghost_index.specs.Index.{changes};
ghost use Rattle.kr_kinds.specs.Kinds as kind;

use kr_ghost_index::GhostIndex;
use kr_ghost_machine::GhostStepper;
use kr_ghost_protocol::GhostProtocol;
use kr_kinds::Stepping;
use kr_model::{Items, Memory, Mode, Name, Op, Pairs, Reply, Txn, Txns};
use kr_parts::Holdings;
use std::alloc::Global;
use std::marker::Model;

/// A machine over an index whose deleted keys stay as ghosts.
///
/// Contracts see its protocol, and its state between two moves.
#[derive(Drop)]
pub struct LeavingStepper<P: GhostProtocol, L: Holdings> {
    stepper: GhostStepper<P, L>,
}

impl<P: GhostProtocol, L: Holdings> Model for LeavingStepper<P, L> {
    ghost use Rattle.kr_ghost_machine.specs.Machine.{GhostSteps};

    ghost Value = { GhostSteps P };

    ghost view = { λ m. m.stepper };
}

impl<P: GhostProtocol, L: Holdings> LeavingStepper<P, L> {
    /// A machine that has done no step, over an index of which no change is left, with no locks. It takes no memory, and can't
    /// fail.
    pub fn new(alloc: Global, protocol: P, index: GhostIndex, locks: L) -> Self
        requires unlocked { L.locks locks ≡ [] }
        requires unchanged { (q : ℕ) → changes index q ≡ 0 }
        ensures protocol { result.protocol ≡ protocol }
        ensures state { result.state ≡ record { state = start index.map; ghosts = index.ghosts } }
    {
        LeavingStepper {
            stepper: GhostStepper::new(alloc, protocol, index, locks),
        }
    }
}

impl<P: GhostProtocol, L: Holdings> Stepping for LeavingStepper<P, L> {
    ghost index = { λ m. kind.Leaves (P.ghosts m.protocol) };

    ghost state = { λ m. m.state };

    fn step(&mut self, txn: Txn, op: Op) -> Result<Reply, Memory> {
        self.stepper.step(txn, op)
    }

    fn purge(&mut self, key: u64) -> Result<bool, Memory> {
        self.stepper.purge(key)
    }

    fn pairs(&self) -> Result<Pairs, Memory> {
        self.stepper.index()
    }

    fn ghosts(&self) -> Result<Items<u64>, Memory> {
        self.stepper.ghosts()
    }

    fn locks(&self) -> Result<Vec<((Name, Txn), Mode)>, Memory> {
        self.stepper.locks()
    }

    fn unfinished(&self) -> Result<Txns, Memory> {
        self.stepper.unfinished()
    }

    fn own(&self, txn: Txn, name: Name) -> Mode {
        self.stepper.own(txn, name)
    }
}
