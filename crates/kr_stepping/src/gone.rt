//! The machine over an index whose deleted keys go at once.
ghost use Rattle.std.specs.Prelude.{◌≡◌, ℕ, []};
ghost use Rattle.kr_model.specs.State.{start};
ghost use Rattle.kr_kinds.specs.Kinds as kind;

use kr_kinds::Stepping;
use kr_machine::Stepper;
use kr_model::{Items, Memory, Mode, Name, Op, Pairs, Refusal, Reply, Txn, Txns};
use kr_parts::{Holdings, Ordered};
use kr_protocol::Protocol;
use std::alloc::{AllocError, Global};
use std::marker::Model;

/// A machine at rest, over an index whose deleted keys go at once.
///
/// Contracts see its protocol, and its state between two moves, which has no ghosts.
#[derive(Drop)]
pub struct GoneStepper<P: Protocol, I: Ordered, L: Holdings> {
    stepper: Stepper<P, I, L>,
}

impl<P: Protocol, I: Ordered, L: Holdings> Model for GoneStepper<P, I, L> {
    ghost use Rattle.std.specs.Prelude.{◌≡◌, None, []};
    ghost use Rattle.kr_ghost_machine.specs.Machine.{GhostSteps};

    ghost Value = { GhostSteps P };

    ghost view = { λ m. record { protocol = m.stepper.protocol; state = record { state = m.stepper.state; ghosts = [] } } };

    ghost invariant = { λ m. m.stepper.pending ≡ None };
}

impl<P: Protocol, I: Ordered, L: Holdings> GoneStepper<P, I, L> {
    /// A machine with this opening index and no transactions. The index has no pins, and no locks are held. It takes no memory,
    /// and can't fail.
    pub fn new(alloc: Global, protocol: P, index: I, locks: L) -> Self
        requires no_pins { (q : ℕ) → I.pins index q ≡ 0 }
        requires no_locks { L.locks locks ≡ [] }
        ensures { result ≡ record { protocol = protocol; state = record { state = start (I.map index); ghosts = [] } } }
    {
        GoneStepper {
            stepper: Stepper::new(alloc, protocol, index, locks),
        }
    }
}

impl<P: Protocol, I: Ordered, L: Holdings> Stepping for GoneStepper<P, I, L> {
    ghost index = { λ m. kind.Gone (P.table m.protocol) };

    ghost state = { λ m. m.state };

    fn step(&mut self, txn: Txn, op: Op) -> Result<Reply, Memory> {
        match self.stepper.step(txn, op) {
            Reply::Refused(Refusal::Memory) => Err(AllocError),
            reply => Ok(reply),
        }
    }

    fn purge(&mut self, _key: u64) -> Result<bool, Memory> {
        Ok(false)
    }

    fn pairs(&self) -> Result<Pairs, Memory> {
        self.stepper.index()
    }

    fn ghosts(&self) -> Result<Items<u64>, Memory> {
        Ok(Items::from_vec(Vec::new(self.stepper.alloc())))
    }

    fn locks(&self) -> Result<Vec<((Name, Txn), Mode)>, Memory> {
        self.stepper.locks()
    }

    fn unfinished(&self) -> Result<Txns, Memory> {
        self.stepper.unfinished()
    }

    fn own(&self, txn: Txn, name: Name) -> Mode {
        self.stepper.own(txn, name)
    }
}
