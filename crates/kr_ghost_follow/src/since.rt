//! The lines since which locks are held in their modes. What is noted is only told.
ghost use Rattle.std.specs.Prelude.{◌≡◌};

use kr_ghost_machine::GhostStepper;
use kr_ghost_protocol::GhostProtocol;
use kr_locks::Holdings;
use kr_model::{Memory, Mode, Name, Op, Reply, Span, Txn};
use kr_trace_follow::conflict::Lock;
use kr_trace_follow::since::{Notes, add, forget};
use kr_trace_follow::steps::has_ended;
use std::alloc::Global;

/// A name with the mode that a transaction has there.
type OwnAt = Option<(Name, Mode)>;

/// The name of a request, with the mode that the transaction has there.
fn own_at<P: GhostProtocol, L: Holdings>(
    stepper: &GhostStepper<P, L>,
    txn: Txn,
    request: Option<(Name, Mode, Span)>,
) -> OwnAt {
    match request {
        Some((name, _, _)) => Some((name, stepper.own(txn, name))),
        None => None,
    }
}

/// The names that a step requests locks on, each with the mode that the transaction has there. It takes no memory.
pub(crate) fn own_before<P: GhostProtocol, L: Holdings>(
    stepper: &GhostStepper<P, L>,
    txn: Txn,
    op: Op,
) -> (OwnAt, OwnAt) {
    match stepper.plan(txn, op) {
        Some(plan) => (
            own_at(stepper, txn, plan.current),
            own_at(stepper, txn, plan.next),
        ),
        None => (None, None),
    }
}

/// Notes a line for a name, where the transaction has another mode there than before.
fn note_change<P: GhostProtocol, L: Holdings>(
    alloc: Global,
    stepper: &GhostStepper<P, L>,
    notes: &mut Notes,
    line: u64,
    txn: Txn,
    before: OwnAt,
) -> Result<(), Memory> {
    if let Some((name, was)) = before {
        if stepper.own(txn, name) != was {
            add(alloc, notes, txn, name, line)?;
        }
    }
    Ok(())
}

/// Notes the line of a step with this reply for the names on which its transaction has another mode than before. Where it
/// has ended nothing is noted of it.
pub(crate) fn note_locks<P: GhostProtocol, L: Holdings>(
    alloc: Global,
    stepper: &GhostStepper<P, L>,
    notes: &mut Notes,
    line: u64,
    txn: Txn,
    before: (OwnAt, OwnAt),
    reply: &Reply,
) -> Result<(), Memory> {
    if has_ended(reply) {
        forget(notes, txn);
        return Ok(());
    }
    note_change(alloc, stepper, notes, line, txn, before.0)?;
    note_change(alloc, stepper, notes, line, txn, before.1)
}

/// Notes the line before which a purge came for the locks that weren't held before it, or in another mode.
pub(crate) fn note_inherited(
    alloc: Global,
    notes: &mut Notes,
    line: u64,
    before: &[Lock],
    after: &[Lock],
) -> Result<(), Memory> {
    for lock in after {
        if !before.contains(lock) {
            let ((name, txn), _) = *lock;
            add(alloc, notes, txn, name, line)?;
        }
    }
    Ok(())
}
