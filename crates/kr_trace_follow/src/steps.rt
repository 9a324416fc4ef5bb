//! The steps that a line stands for.
ghost use Rattle.std.specs.Prelude.{ℕ, Option, ◌≡◌, ◌≤◌, ◌↔◌, All, None, IfOk, OnOk, IsTrue};
ghost use Rattle.kr_model.specs.declared.Refusal.TheVariants as refusal_is;
ghost use Rattle.kr_model.specs.declared.Reply.TheVariants as reply_is;
ghost use Rattle.kr_model.specs.State.{Scan, State};
ghost use Rattle.kr_model.specs.Step.{step};
ghost use Rattle.kr_model.specs.WellFormed.{IsState};
ghost use Rattle.kr_trace_follow.specs.Conflicts.{ahead_of};
ghost use Rattle.kr_trace_follow.specs.Scans.{AreAt, AreNoted};
ghost use Rattle.kr_trace_follow.specs.Since.{IsSince, has_ended, last_noted, since_after, since_along, with_changes};
ghost use Rattle.kr_trace_follow.specs.Steps.{taken, is_same_scan, first_op, more_steps, is_going, attempt_at, in_turn, last_step, all_steps};

use crate::conflict::Lock;
use crate::present::ahead_now;
use crate::scans::{Progress, note, noted_of};
use crate::since::{Notes, forget, note_change, own_before};
use kr_index::{Memory, Ordered};
use kr_locks::Holdings;
use kr_machine::Stepper;
use kr_model::{Event, Mode, Name, Op, Refusal, Reply, Txn};
use kr_protocol::Protocol;
use kr_trace_lines::Observed;
use std::alloc::AllocError;

/// What the engine did: an abort, where it aborted the transaction in place of the operation.
pub fn taken(op: Op, observed: &Observed) -> Op
    ensures { result ≡ taken op observed.now }
{
    match observed {
        Observed::Aborted => Op::Abort,
        _ => op,
    }
}

/// Whether an operation is the scan in progress, from its lower to its upper end.
fn is_same_scan(progress: Option<Progress>, op: Op) -> bool
    ensures { (scan : Option Scan) → AreAt scan progress → result ≡ is_same_scan scan op }
{
    match (progress, op) {
        (Some(progress), Op::Scan(lo, hi)) => progress.lo == lo && progress.hi == hi,
        (_, _) => false,
    }
}

/// The first step of a line: a scan that is in progress already, as one that was blocked on its way, goes on.
pub(crate) fn first_op(scans: &[Progress], event: Event, observed: &Observed) -> Op
    ensures { (s : State) (n : ℕ) → AreNoted s scans.now → result ≡ first_op s (record { number = n; event = event; observed = observed.now }) }
{
    let op = taken(event.op, observed);
    let progress = noted_of(scans, event.txn);
    if is_same_scan(progress, op) {
        return Op::Go;
    }
    op
}

/// How many steps a line may take after its first.
pub fn more_steps(op: Op, observed: &Observed) -> u64
    ensures { result ≡ more_steps op observed.now }
{
    match (op, observed) {
        (Op::Scan(lo, hi), Observed::Rows(_) | Observed::Blocked(_)) => hi.saturating_sub(lo),
        (_, _) => 0,
    }
}

/// Whether a reply is the refusal `Memory`.
fn lacks_memory(reply: &Reply) -> bool
    ensures { IsTrue result ↔ (reply.now ≡ reply_is.Refused refusal_is.Memory) }
{
    match reply {
        Reply::Refused(Refusal::Memory) => true,
        _ => false,
    }
}

/// Whether a scan goes on after this reply.
pub fn is_going(reply: &Reply) -> bool
    ensures { result ≡ is_going reply.now }
{
    match reply {
        Reply::Going(_) => true,
        _ => false,
    }
}

/// Whether a reply ends its transaction.
pub fn has_ended(reply: &Reply) -> bool
    ensures { result ≡ has_ended reply.now }
{
    match reply {
        Reply::Committed | Reply::Aborted => true,
        _ => false,
    }
}

/// Notes the line of a step with this reply for the names on which its transaction has another mode than before. Where it
/// has ended nothing is noted of it.
fn note_locks<P: Protocol, I: Ordered, L: Holdings>(
    stepper: &Stepper<P, I, L>,
    notes: &mut Notes,
    line: u64,
    txn: Txn,
    before: (Option<(Name, Mode)>, Option<(Name, Mode)>),
    reply: &Reply,
) -> Result<(), Memory>
    requires { stepper.now.pending ≡ None }
    ensures { OnOk result (last_noted notes.new ≡ with_changes line stepper.now.state.locks txn before (has_ended reply.now) (last_noted notes.old)) }
{
    if has_ended(reply) {
        forget(notes, txn);
        return Ok(());
    }
    note_change(stepper, notes, line, txn, before.0)?;
    note_change(stepper, notes, line, txn, before.1)
}

/// Attempts a step of this line, and notes how far scans are after it, and since which lines locks are held.
fn attempt<P: Protocol, I: Ordered, L: Holdings>(
    stepper: &mut Stepper<P, I, L>,
    scans: &mut Vec<Progress>,
    notes: &mut Notes,
    line: u64,
    txn: Txn,
    op: Op,
) -> Result<Reply, Memory>
    requires at_rest { stepper.old.pending ≡ None }
    requires noted { AreNoted stepper.old.state scans.old.items }
    requires since { IsSince stepper.old.state.locks (last_noted notes.old) }
    requires well_formed { IsState (P.table stepper.old.protocol) stepper.old.state }
    ensures at_rest { stepper.new.pending ≡ None }
    ensures protocol { stepper.new.protocol ≡ stepper.old.protocol }
    ensures well_formed { IsState (P.table stepper.old.protocol) stepper.new.state }
    ensures noted { OnOk result (AreNoted stepper.new.state scans.new.items) }
    ensures reply { IfOk result (λ r. r ≡ (step (P.table stepper.old.protocol) stepper.old.state txn op).0) }
    ensures state { OnOk result (stepper.new.state ≡ (step (P.table stepper.old.protocol) stepper.old.state txn op).1) }
    ensures since { OnOk result (last_noted notes.new ≡ since_after line stepper.old.state.locks stepper.new.state.locks (last_noted notes.old)) }
{
    let before = own_before(stepper, txn, op);
    let reply = stepper.step(txn, op);
    if lacks_memory(&reply) {
        return Err(AllocError);
    }
    note(scans, txn, op, &reply)?;
    note_locks(stepper, notes, line, txn, before, &reply)?;
    Ok(reply)
}

/// The reply that a step has if it is done. It isn't done.
fn look_at<P: Protocol, I: Ordered, L: Holdings>(
    stepper: &mut Stepper<P, I, L>,
    txn: Txn,
    op: Op,
) -> Result<Reply, Memory>
    requires { stepper.old.pending ≡ None }
    ensures reply { IfOk result (λ r. r ≡ (step (P.table stepper.old.protocol) stepper.old.state txn op).0) }
    ensures same { stepper.new ≡ stepper.old }
{
    let alloc = stepper.alloc();
    match stepper.ready(txn, op) {
        Ok(ready) => {
            let reply = ready.reply().try_copy(alloc);
            stepper.cancel(ready);
            reply
        }
        Err(reply) => {
            if lacks_memory(&reply) {
                return Err(AllocError);
            }
            Ok(reply)
        }
    }
}

/// Attempts a step, unless somebody waits ahead of it: then it isn't done. It answers who waits ahead, and the reply.
fn attempt_in_turn<P: Protocol, Q: Protocol, I: Ordered, L: Holdings>(
    protocol: &P,
    stepper: &mut Stepper<Q, I, L>,
    scans: &mut Vec<Progress>,
    notes: &mut Notes,
    line: u64,
    queue: &[Lock],
    txn: Txn,
    op: Op,
) -> Result<(Vec<Txn>, Reply), Memory>
    requires at_rest { stepper.old.pending ≡ None }
    requires same { Q.table stepper.old.protocol ≡ P.table protocol.now }
    requires noted { AreNoted stepper.old.state scans.old.items }
    requires since { IsSince stepper.old.state.locks (last_noted notes.old) }
    requires well_formed { IsState (P.table protocol.now) stepper.old.state }
    requires modes { All (λ l. l.1 ≤ (P.table protocol.now).count) queue.now }
    ensures at_rest { stepper.new.pending ≡ None }
    ensures protocol { stepper.new.protocol ≡ stepper.old.protocol }
    ensures well_formed { IsState (P.table protocol.now) stepper.new.state }
    ensures noted { OnOk result (AreNoted stepper.new.state scans.new.items) }
    ensures ahead { IfOk result (λ r. r.0.items ≡ ahead_of (P.table protocol.now) queue.now txn (attempt_at stepper.old.state op)) }
    ensures reply { IfOk result (λ r. r.1 ≡ (in_turn (P.table protocol.now) queue.now txn (attempt_at stepper.old.state op)).0) }
    ensures state { OnOk result (stepper.new.state ≡ (in_turn (P.table protocol.now) queue.now txn (attempt_at stepper.old.state op)).1) }
    ensures since { OnOk result (last_noted notes.new ≡ since_along (P.table protocol.now) line stepper.old.state (all_steps (P.table protocol.now) queue.now txn 0 (attempt_at stepper.old.state op)) (last_noted notes.old)) }
    ensures is_since { OnOk result (IsSince stepper.new.state.locks (last_noted notes.new)) }
{
    let ahead = ahead_now(protocol, stepper, queue, txn, op)?;
    if ahead.is_empty() {
        let reply = attempt(stepper, scans, notes, line, txn, op)?;
        return Ok((ahead, reply));
    }
    let reply = look_at(stepper, txn, op)?;
    Ok((ahead, reply))
}

/// The last step of a line.
#[derive(Drop)]
pub(crate) struct Last {
    /// What was attempted.
    pub(crate) op: Op,
    /// Who waits ahead of it.
    pub(crate) ahead: Vec<Txn>,
    /// The table's reply.
    pub(crate) reply: Reply,
}

/// Attempts an operation of a transaction, and goes on with its scan for at most so many steps, up to one ahead of which
/// somebody waits. It answers the last step.
pub(crate) fn attempt_all<P: Protocol, Q: Protocol, I: Ordered, L: Holdings>(
    protocol: &P,
    stepper: &mut Stepper<Q, I, L>,
    scans: &mut Vec<Progress>,
    notes: &mut Notes,
    line: u64,
    queue: &[Lock],
    txn: Txn,
    first: Op,
    more: u64,
) -> Result<Last, Memory>
    requires at_rest { stepper.old.pending ≡ None }
    requires same { Q.table stepper.old.protocol ≡ P.table protocol.now }
    requires noted { AreNoted stepper.old.state scans.old.items }
    requires since { IsSince stepper.old.state.locks (last_noted notes.old) }
    requires well_formed { IsState (P.table protocol.now) stepper.old.state }
    requires modes { All (λ l. l.1 ≤ (P.table protocol.now).count) queue.now }
    ensures at_rest { stepper.new.pending ≡ None }
    ensures protocol { stepper.new.protocol ≡ stepper.old.protocol }
    ensures well_formed { IsState (P.table protocol.now) stepper.new.state }
    ensures noted { OnOk result (AreNoted stepper.new.state scans.new.items) }
    ensures op { IfOk result (λ r. let last = last_step (P.table protocol.now) queue.now txn more (attempt_at stepper.old.state first) in r.op ≡ last.op) }
    ensures ahead { IfOk result (λ r. let last = last_step (P.table protocol.now) queue.now txn more (attempt_at stepper.old.state first) in r.ahead.items ≡ ahead_of (P.table protocol.now) queue.now txn last) }
    ensures reply { IfOk result (λ r. let last = last_step (P.table protocol.now) queue.now txn more (attempt_at stepper.old.state first) in r.reply ≡ (in_turn (P.table protocol.now) queue.now txn last).0) }
    ensures state { OnOk result (let last = last_step (P.table protocol.now) queue.now txn more (attempt_at stepper.old.state first) in stepper.new.state ≡ (in_turn (P.table protocol.now) queue.now txn last).1) }
    ensures since { OnOk result (last_noted notes.new ≡ since_along (P.table protocol.now) line stepper.old.state (all_steps (P.table protocol.now) queue.now txn more (attempt_at stepper.old.state first)) (last_noted notes.old)) }
    ensures is_since { OnOk result (IsSince stepper.new.state.locks (last_noted notes.new)) }
{
    let mut op = first;
    for _ in 0..more {
        let (ahead, reply) = attempt_in_turn(
            protocol, stepper, scans, notes, line, queue, txn, op,
        )?;
        if !ahead.is_empty() || !is_going(&reply) {
            return Ok(Last { op, ahead, reply });
        }
        op = Op::Go;
    }
    let (ahead, reply) = attempt_in_turn(protocol, stepper, scans, notes, line, queue, txn, op)?;
    Ok(Last { op, ahead, reply })
}
