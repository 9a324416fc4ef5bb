//! Whether a history follows a script.
ghost use Rattle.std.specs.Prelude.{◌≡◌, List, Decides, IfOk, All};
ghost use Rattle.kr_model.specs.declared.Event.{Event};
ghost use Rattle.kr_workers.specs.Follows.{Follows, AreRising, is_before};
ghost use Rattle.kr_workers.specs.Dealt.{AreDealt, IsAsked};

use crate::dealt::Dealt;
use crate::undoing::{are_empty, undo};
use crate::wanted::want_all;
use kr_model::{Event, Txn};
use kr_script::StepFault;
use std::alloc::{AllocError, Global};

/// Whether the events follow the steps of a script, which are given as they were dealt, with these faults: each
/// transaction does its own steps in order, without those that have a fault, up to its first deadlock, and then aborts
/// where it is still active; each fault's operation is the one at its number of its transaction's own steps; and the faults
/// rise by transaction, and then by number.
///
/// What each transaction is to do is made of what was dealt to it, in place; then the events are taken off it, from the
/// last to the first, and nothing may be left. It takes O(n log n), where n counts the steps, the faults and the events, in
/// one look for each run of events of one transaction, and answers an error where a growth is refused.
pub fn follows(
    alloc: Global,
    script: Dealt,
    faults: &[StepFault],
    events: &[Event],
) -> Result<bool, AllocError>
    ensures { IfOk result (λ yes. (steps : List Event) → AreDealt steps script → Decides yes (Follows steps faults.now events.now)) }
{
    if !are_rising(faults) {
        return Ok(false);
    }
    if !are_asked(&script, faults) {
        return Ok(false);
    }
    let (txns, mut hands) = script.into_parts();
    want_all(alloc, &mut hands, txns.as_slice(), faults)?;
    if !undo(&mut hands, events) {
        return Ok(false);
    }
    Ok(are_empty(&hands, txns.as_slice()))
}

/// Whether each fault comes before all later ones.
fn are_rising(faults: &[StepFault]) -> bool
    ensures { Decides result (AreRising faults.now) }
{
    for i in 1..faults.len() {
        let fault = &faults[i];
        if !is_before(fault.txn, fault.step, &faults[i - 1]) {
            return false;
        }
    }
    true
}

/// Whether a fault comes before this step of this transaction: by transaction, and then by number.
pub(crate) fn is_before(txn: Txn, step: u64, fault: &StepFault) -> bool
    ensures { result ≡ is_before txn step fault.now }
{
    fault.txn < txn || (fault.txn == txn && fault.step < step)
}

/// Whether each fault's operation is the one at its number of its transaction's own.
fn are_asked(script: &Dealt, faults: &[StepFault]) -> bool
    ensures { Decides result (All (IsAsked script.now) faults.now) }
{
    for fault in faults {
        if !is_asked(script, fault) {
            return false;
        }
    }
    true
}

/// Whether a fault's operation is the one at its number of its transaction's own.
fn is_asked(script: &Dealt, fault: &StepFault) -> bool
    ensures { Decides result (IsAsked script.now fault.now) }
{
    if fault.step == 0 {
        return false;
    }
    match script.ops(fault.txn).get((fault.step - 1) as usize) {
        Some(op) => *op == fault.op,
        None => false,
    }
}
