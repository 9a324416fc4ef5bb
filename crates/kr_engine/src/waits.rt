//! Waiting: an operation is noted, unless it closes a cycle of waiting transactions.
ghost use Rattle.std.specs.Prelude.{◌≡◌, ◌∷◌, ◌++◌, [], ℕ, List, true, None, IfOk, IfErr, IfSome, IfNone, OnOk, OnErr};
ghost use Rattle.kr_deadlock.specs.Waits.{blockers_of, IsCycle};
ghost use Rattle.kr_records.specs.Faults.{is_of_wait};
ghost use Rattle.kr_records.specs.Histories.{event};
ghost use Rattle.kr_records.specs.Cores.{without};
ghost use Rattle.kr_records.specs.Waits.{in_the_way, blockers_now, IsWaitCycle, TellsCycle, AreTxnsOf};

use crate::kernel::Core;
use kr_deadlock::{Waiting, find_cycle};
use kr_index::Tree;
use kr_locks::Buckets;
use kr_machine::Stepper;
use kr_model::{Event, Op, Txn, Txns};
use kr_protocol::Covered;
use kr_records::{EngineFault, EngineName, may_close, note, txns_of};
use std::alloc::{AllocError, Global};

impl<P: Covered, K: EngineName> Core<P, K> {
    /// Notes the operation as waiting until the transaction's next attempt, in place of one that was noted; or tells a
    /// deadlock and notes nothing: a cycle of distinct transactions, the requester first, each with an operation that is
    /// blocked by the next now, the last by the requester. `Memory` where a growth was refused; then nothing has changed.
    /// Machine and history stay. An operation that isn't blocked is noted too.
    pub fn wait(&mut self, txn: Txn, op: Op) -> Result<(), EngineFault>
        ensures cycle { IfErr result (λ f. TellsCycle f (IsCycle (blockers_now (in_the_way (P.table self.old.protocol) self.old.state) (event txn op ∷ self.old.waiting)) txn)) }
        ensures no_cycle { OnOk result ((cycle : List ℕ) → IsCycle (blockers_now (in_the_way (P.table self.old.protocol) self.old.state) (event txn op ∷ self.old.waiting)) txn cycle → ⊥) }
        ensures deadlock { IfErr result (λ f. TellsCycle f (IsWaitCycle (P.table self.old.protocol) self.old.state (event txn op ∷ self.old.waiting) txn)) }
        ensures no_deadlock { OnOk result ((cycle : List ℕ) → IsWaitCycle (P.table self.old.protocol) self.old.state (event txn op ∷ self.old.waiting) txn cycle → ⊥) }
        ensures noted { OnOk result (self.new ≡ record self.old { waiting = without txn self.old.waiting ++ event txn op ∷ [] }) }
        ensures err { OnErr result (self.new ≡ self.old) }
        ensures faults { IfErr result (λ f. is_of_wait f ≡ true) }
    {
        let found = match cycle_of(self.alloc, &self.machine, &self.waiting, txn, op) {
            Ok(found) => found,
            Err(_) => return Err(EngineFault::Memory),
        };
        match found {
            Some(cycle) => Err(EngineFault::Deadlock(cycle)),
            None => match note(&mut self.waiting, Event { txn, op }) {
                Ok(()) => Ok(()),
                Err(_) => Err(EngineFault::Memory),
            },
        }
    }

    /// The transactions whose operations are noted as waiting, rising, or an error where a growth is refused.
    pub fn waiting(&self) -> Result<Txns, AllocError>
        ensures { IfOk result (λ txns. AreTxnsOf txns self.now.waiting) }
    {
        let txns = txns_of(self.alloc, &self.waiting)?;
        Ok(Txns::from_vec(txns))
    }
}

/// A cycle of waiting transactions in which this one is first, by its operation and by those noted.
fn cycle_of<P: Covered>(
    alloc: Global,
    machine: &Stepper<P, Tree, Buckets>,
    noted: &[Event],
    txn: Txn,
    op: Op,
) -> Result<Option<Txns>, AllocError>
    requires { machine.now.pending ≡ None }
    ensures cycle { IfOk result (λ found. IfSome found (IsCycle (blockers_now (in_the_way (P.table machine.now.protocol) machine.now.state) (event txn op ∷ noted.now)) txn)) }
    ensures none { IfOk result (λ found. IfNone found ((cycle : List ℕ) → IsCycle (blockers_now (in_the_way (P.table machine.now.protocol) machine.now.state) (event txn op ∷ noted.now)) txn cycle → ⊥)) }
{
    let own = machine.blockers(txn, op)?;
    if !may_close(txn, &own, noted) {
        return Ok(None);
    }
    let waits = entries(alloc, machine, Event { txn, op }, own, noted)?;
    match find_cycle(alloc, &waits, txn)? {
        Some(cycle) => Ok(Some(Txns::from_vec(cycle))),
        None => Ok(None),
    }
}

/// An entry for the requester, whom these block, and then one for each noted operation.
fn entries<P: Covered>(
    alloc: Global,
    machine: &Stepper<P, Tree, Buckets>,
    event: Event,
    own: Vec<Txn>,
    noted: &[Event],
) -> Result<Vec<Waiting>, AllocError>
    requires at_rest { machine.now.pending ≡ None }
    requires own { own.items ≡ in_the_way (P.table machine.now.protocol) machine.now.state event }
    ensures { IfOk result (λ waits. (t : ℕ) → blockers_of waits.items t ≡ blockers_now (in_the_way (P.table machine.now.protocol) machine.now.state) (event ∷ noted.now) t) }
{
    let mut waits = Vec::new(alloc);
    waits.push(Waiting {
        txn: event.txn,
        blockers: own,
    })?;
    for &other in noted {
        waits.push(Waiting {
            txn: other.txn,
            blockers: machine.blockers(other.txn, other.op)?,
        })?;
    }
    Ok(waits)
}
