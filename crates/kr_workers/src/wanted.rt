//! What each transaction of a script is to do in a run in several threads.
ghost use Rattle.std.specs.Prelude.{◌≡◌, ◌≢◌, AllPairs, ℕ, OnOk, IfOk};
ghost use Rattle.kr_workers.specs.Follows.{AreRising, is_before, is_of, stays_active, closed, done_from};
ghost use Rattle.kr_workers.specs.Dealt.{AreWanted, hand_in};
ghost use Rattle.kr_workers.specs.Fates.{fate_of, IsPlace};

use crate::following::is_before;
use kr_model::{Op, Txn, is_end};
use kr_script::{StepFault, WhyNotDone};
use std::alloc::{AllocError, Global};
use std::collections::BTreeMap;

/// Puts what each of these transactions is to do in place of its operations: those without a fault, up to its first
/// deadlock, and its abort where it stays active. Answers an error where a growth is refused.
pub(crate) fn want_all(
    alloc: Global,
    hands: &mut BTreeMap<Txn, Vec<Op>>,
    txns: &[Txn],
    faults: &[StepFault],
) -> Result<(), AllocError>
    requires { AreRising faults.now }
    ensures { OnOk result (AllPairs (λ t u. t ≢ u) txns.now → AreWanted faults.now txns.now hands.old hands.new) }
{
    for txn in txns {
        want_of(alloc, hands, *txn, faults)?;
    }
    Ok(())
}

/// Puts what one transaction is to do in place of its operations.
fn want_of(
    alloc: Global,
    hands: &mut BTreeMap<Txn, Vec<Op>>,
    txn: Txn,
    faults: &[StepFault],
) -> Result<(), AllocError>
    requires { AreRising faults.now }
    ensures own { OnOk result (hand_in hands.new txn ≡ closed (done_from faults.now txn 1 (hand_in hands.old txn))) }
    ensures others { OnOk result ((t : ℕ) → t ≢ txn → hand_in hands.new t ≡ hand_in hands.old t) }
{
    if let Some(ops) = hands.get_mut(&txn) {
        want(alloc, txn, ops, faults)?;
    }
    Ok(())
}

/// Puts what a transaction with these operations is to do in their place.
fn want(alloc: Global, txn: Txn, ops: &mut Vec<Op>, faults: &[StepFault]) -> Result<(), AllocError>
    requires { AreRising faults.now }
    ensures { OnOk result (ops.new.items ≡ closed (done_from faults.now txn 1 ops.old.items)) }
{
    leave_out(alloc, txn, ops, faults)?;
    if stays_active(ops.as_slice()) {
        ops.push(Op::Abort)?;
    }
    Ok(())
}

/// Puts a transaction's operations without those that have a fault, up to its first deadlock, in their place.
fn leave_out(
    alloc: Global,
    txn: Txn,
    ops: &mut Vec<Op>,
    faults: &[StepFault],
) -> Result<(), AllocError>
    requires { AreRising faults.now }
    ensures { OnOk result (ops.new.items ≡ done_from faults.now txn 1 ops.old.items) }
{
    if faults.is_empty() {
        return Ok(());
    }
    *ops = not_missed(alloc, txn, ops.as_slice(), faults)?;
    Ok(())
}

/// A transaction's operations without those that have a fault, up to its first deadlock.
fn not_missed(
    alloc: Global,
    txn: Txn,
    ops: &[Op],
    faults: &[StepFault],
) -> Result<Vec<Op>, AllocError>
    requires { AreRising faults.now }
    ensures { IfOk result (λ list. list.items ≡ done_from faults.now txn 1 ops.now) }
{
    let mut list = Vec::new(alloc);
    for i in 0..ops.len() {
        match fate_at(faults, txn, i as u64 + 1) {
            Fate::Done => list.push(ops[i])?,
            Fate::Missed => {}
            Fate::Stuck => return Ok(list),
        }
    }
    Ok(list)
}

/// Whether a transaction that has done these is active.
fn stays_active(ops: &[Op]) -> bool
    ensures { result ≡ stays_active ops.now }
{
    match ops.last() {
        Some(op) => !is_end(*op),
        None => false,
    }
}

/// What became of a step that its transaction came to.
#[derive(Clone, Copy)]
enum Fate {
    Done,
    /// It has a fault, which isn't a deadlock.
    Missed,
    /// It met a deadlock.
    Stuck,
}

/// Whether a fault is of this step of this transaction.
fn is_of(txn: Txn, step: u64, fault: &StepFault) -> bool
    ensures { result ≡ is_of txn step fault.now }
{
    fault.txn == txn && fault.step == step
}

/// Where the faults before this step of this transaction end. Found by bisection.
fn place_of(faults: &[StepFault], txn: Txn, step: u64) -> usize
    requires { AreRising faults.now }
    ensures { IsPlace faults.now txn step result }
{
    faults.partition_point(
        |fault: &StepFault| -> bool
            ensures { result ≡ is_before txn step fault.now }
        { is_before(txn, step, fault) },
    )
}

/// What became of a step of a transaction, by its number from 1.
fn fate_at(faults: &[StepFault], txn: Txn, step: u64) -> Fate
    requires { AreRising faults.now }
    ensures { result ≡ fate_of faults.now txn step }
{
    let place = place_of(faults, txn, step);
    if place == faults.len() {
        return Fate::Done;
    }
    let fault = &faults[place];
    if !is_of(txn, step, fault) {
        return Fate::Done;
    }
    match fault.cause {
        WhyNotDone::Deadlock(_) => Fate::Stuck,
        WhyNotDone::Refused(_) => Fate::Missed,
    }
}
