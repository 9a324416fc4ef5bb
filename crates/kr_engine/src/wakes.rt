//! Whom a step may let go on, and who may be in a deadlock after it.
ghost use Rattle.std.specs.Prelude.{◌≡◌, ◌≢◌, ◌==◌, ℕ, List, [], true, All, None, IfOk};
ghost use Rattle.std.specs.List.{AllZip, Contains, list_any};
ghost use Rattle.kr_deadlock.specs.Waits.{IsCycle};
ghost use Rattle.kr_records.specs.Waits.{in_the_way, blockers_now, IsEntry, AreDeadlocked};

use crate::kernel::Core;
use kr_deadlock::Waiting;
use kr_index::Tree;
use kr_locks::Buckets;
use kr_machine::Stepper;
use kr_model::{Event, Txn};
use kr_protocol::Covered;
use kr_records::{EngineName, shed_all};
use std::alloc::{AllocError, Global};

impl<P: Covered, K: EngineName> Core<P, K> {
    /// Whether no operation is noted as waiting.
    pub(crate) fn has_no_waiter(&self) -> bool
        ensures { result ≡ true → self.now.waiting ≡ [] }
    {
        self.waiting.is_empty()
    }

    /// The transaction of the first noted operation that isn't blocked now. Takes no memory.
    pub(crate) fn first_free(&self) -> Option<Txn>
        ensures { result ≡ None → All (λ e. in_the_way (P.table self.now.protocol) self.now.state e ≢ []) self.now.waiting }
    {
        first_free(&self.machine, &self.waiting)
    }

    /// The noted operations that are deadlocked, since they wait for one another, or for such: of each set of them in which
    /// each is blocked by another, all, so each member of a cycle of waiting transactions. An error where a growth is
    /// refused.
    pub(crate) fn deadlocked(&self) -> Result<Vec<Waiting>, AllocError>
        ensures all { IfOk result (λ waits. (txns : List ℕ) → AreDeadlocked (blockers_now (in_the_way (P.table self.now.protocol) self.now.state) self.now.waiting) txns → (t : ℕ) → Contains txns t → list_any (λ w. w.txn == t) waits.items ≡ true) }
        ensures cycles { IfOk result (λ waits. (txn : ℕ) (cycle : List ℕ) → IsCycle (blockers_now (in_the_way (P.table self.now.protocol) self.now.state) self.now.waiting) txn cycle → (t : ℕ) → Contains cycle t → list_any (λ w. w.txn == t) waits.items ≡ true) }
    {
        deadlocked(self.alloc, &self.machine, &self.waiting)
    }
}

/// The first of these operations that isn't blocked now. Takes no memory.
fn first_free<P: Covered>(machine: &Stepper<P, Tree, Buckets>, noted: &[Event]) -> Option<Txn>
    requires { machine.now.pending ≡ None }
    ensures { result ≡ None → All (λ e. in_the_way (P.table machine.now.protocol) machine.now.state e ≢ []) noted.now }
{
    for event in noted {
        if !machine.is_blocked(event.txn, event.op) {
            return Some(event.txn);
        }
    }
    None
}

/// Each of these operations with who blocks it now.
fn all_blockers<P: Covered>(
    alloc: Global,
    machine: &Stepper<P, Tree, Buckets>,
    noted: &[Event],
) -> Result<Vec<Waiting>, AllocError>
    requires { machine.now.pending ≡ None }
    ensures { IfOk result (λ waits. AllZip (IsEntry (in_the_way (P.table machine.now.protocol) machine.now.state)) noted.now waits.items) }
{
    let mut waits = Vec::new(alloc);
    for &event in noted {
        waits.push(Waiting {
            txn: event.txn,
            blockers: machine.blockers(event.txn, event.op)?,
        })?;
    }
    Ok(waits)
}

/// Those of these operations that are deadlocked: they wait for one another, or for such.
fn deadlocked<P: Covered>(
    alloc: Global,
    machine: &Stepper<P, Tree, Buckets>,
    noted: &[Event],
) -> Result<Vec<Waiting>, AllocError>
    requires { machine.now.pending ≡ None }
    ensures all { IfOk result (λ waits. (txns : List ℕ) → AreDeadlocked (blockers_now (in_the_way (P.table machine.now.protocol) machine.now.state) noted.now) txns → (t : ℕ) → Contains txns t → list_any (λ w. w.txn == t) waits.items ≡ true) }
    ensures cycles { IfOk result (λ waits. (txn : ℕ) (cycle : List ℕ) → IsCycle (blockers_now (in_the_way (P.table machine.now.protocol) machine.now.state) noted.now) txn cycle → (t : ℕ) → Contains cycle t → list_any (λ w. w.txn == t) waits.items ≡ true) }
{
    let waits = all_blockers(alloc, machine, noted)?;
    Ok(shed_all(waits))
}
