//! A step that is attempted, and what comes of it.
ghost use Rattle.std.specs.Prelude.{◌≡◌, ◌≤◌, All, IfOk, OnOk};
ghost use Rattle.kr_ghost.specs.Step.{step};
ghost use Rattle.kr_trace_follow.specs.Scans.{noted_after};
ghost use Rattle.kr_ghost_follow.specs.Points.{tried};
ghost use Rattle.kr_ghost_follow.specs.Tries.{moment, tried_so};

use crate::line::Logged;
use crate::requests::ahead_now;
use crate::since::{note_locks, own_before};
use kr_ghost_machine::GhostStepper;
use kr_ghost_protocol::GhostProtocol;
use kr_locks::Holdings;
use kr_model::{Memory, Op, Reply, Txn};
use kr_trace_follow::conflict::Lock;
use kr_trace_follow::scans::{Progress, note};
use kr_trace_follow::since::Notes;
use std::alloc::Global;

/// What comes of a step.
#[derive(Drop)]
pub(crate) struct Outcome {
    /// What was attempted.
    pub(crate) op: Op,
    /// Who waits ahead of it.
    pub(crate) ahead: Vec<Txn>,
    /// The table's reply.
    pub(crate) reply: Reply,
}

/// Attempts a step of this line, and notes how far scans are after it, and since which lines locks are held.
fn attempt<P: GhostProtocol, L: Holdings>(
    alloc: Global,
    stepper: &mut GhostStepper<P, L>,
    scans: &mut Vec<Progress>,
    notes: &mut Notes,
    line: u64,
    txn: Txn,
    op: Op,
) -> Result<Reply, Memory>
    ensures protocol { stepper.new.protocol ≡ stepper.old.protocol }
    ensures step { IfOk result (λ r. step (P.ghosts stepper.old.protocol) stepper.old.state txn op ≡ (r, stepper.new.state)) }
    ensures scans { IfOk result (λ r. scans.new.items ≡ noted_after scans.old.items txn op r) }
{
    let before = own_before(stepper, txn, op);
    let reply = stepper.step(txn, op)?;
    note(scans, txn, op, &reply)?;
    note_locks(alloc, stepper, notes, line, txn, before, &reply)?;
    Ok(reply)
}

/// The reply that a step has if it is done, which is tried on a copy.
fn look_at<P: GhostProtocol + Copy, L: Holdings>(
    stepper: &GhostStepper<P, L>,
    txn: Txn,
    op: Op,
) -> Result<Reply, Memory>
    ensures { IfOk result (λ r. r ≡ (step (P.ghosts stepper.now.protocol) stepper.now.state txn op).0) }
{
    let mut copy = stepper.try_copy()?;
    copy.step(txn, op)
}

/// Attempts a step, unless somebody waits ahead of it: then it isn't done.
pub(crate) fn try_step<P: GhostProtocol + Copy, L: Holdings>(
    alloc: Global,
    stepper: &mut GhostStepper<P, L>,
    scans: &mut Vec<Progress>,
    notes: &mut Notes,
    queue: &[Lock],
    line: Logged,
    op: Op,
) -> Result<Outcome, Memory>
    requires modes { All (λ l. l.1 ≤ (P.table stepper.old.protocol).count) queue.now }
    ensures protocol { stepper.new.protocol ≡ stepper.old.protocol }
    ensures tried { IfOk result (λ y. tried_so y (moment stepper.new.state scans.new.items) ≡ tried (P.ghosts stepper.old.protocol) queue.now line.entry.event.txn (moment stepper.old.state scans.old.items) op) }
{
    let txn = line.event.txn;
    let ahead = ahead_now(alloc, stepper, queue, txn, op)?;
    if ahead.is_empty() {
        let reply = attempt(alloc, stepper, scans, notes, line.number, txn, op)?;
        return Ok(Outcome { op, ahead, reply });
    }
    let reply = look_at(stepper, txn, op)?;
    Ok(Outcome { op, ahead, reply })
}
