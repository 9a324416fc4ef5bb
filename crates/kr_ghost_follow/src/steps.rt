//! The steps that a line stands for.
ghost use Rattle.std.specs.Prelude.{◌≡◌, ◌≤◌, All, IfOk};
ghost use Rattle.kr_trace_follow.specs.Scans.{range_noted};
ghost use Rattle.kr_ghost_follow.specs.Points.{first_op, goes_on, gone_on, is_passed, is_same_range, is_told, is_whole, last_of, more_steps, tried};
ghost use Rattle.kr_ghost_follow.specs.Tries.{line_of, moment, tried_so};

use crate::downwards::{is_falling, read_down};
use crate::line::Logged;
use crate::tries::{Outcome, try_step};
use kr_ghost_machine::GhostStepper;
use kr_ghost_protocol::GhostProtocol;
use kr_locks::Holdings;
use kr_model::{Memory, Op, Reply, Txn};
use kr_trace_follow::conflict::Lock;
use kr_trace_follow::scans::{Progress, noted_of, range_of};
use kr_trace_follow::since::Notes;
use kr_trace_follow::steps::taken;
use kr_trace_lines::Observed;
use std::alloc::Global;

/// Whether an operation is the scan in progress, from its lower to its upper end.
fn is_same_scan(progress: Option<Progress>, op: Op) -> bool
    ensures { result ≡ is_same_range (range_noted progress) op }
{
    let Some(progress) = progress else {
        return false;
    };
    match op {
        Op::Scan(lo, hi) => progress.lo == lo && progress.hi == hi,
        _ => false,
    }
}

/// The first step of a line: a scan that is in progress already, as one that was blocked on its way, goes on. One downwards begins
/// again.
pub(crate) fn first_op(scans: &[Progress], line: Logged) -> Op
    ensures { result ≡ first_op scans.now (line_of line.entry) }
{
    let op = taken(line.event.op, line.observed);
    let progress = noted_of(scans, line.event.txn);
    if is_same_scan(progress, op) {
        return Op::Go;
    }
    op
}

/// How many steps a line may take after the first, which is this.
fn more_steps(scans: &[Progress], txn: Txn, first: Op) -> u64
    ensures { result ≡ more_steps scans.now txn first }
{
    match range_of(scans, txn, first) {
        Some((lo, hi)) => hi.saturating_sub(lo),
        None => 0,
    }
}

/// Whether a scan is given as a whole: by its rows, or as blocked on its way.
pub(crate) fn is_whole(line: Logged) -> bool
    ensures { result ≡ is_whole line.entry.event.op line.entry.observed.now }
{
    match (line.event.op, line.observed) {
        (Op::Scan(_, _), Observed::Rows(_) | Observed::Blocked(_)) => true,
        (_, _) => false,
    }
}

/// Whether the engine says that the scan has read this key.
fn is_told(observed: &Observed, key: u64) -> bool
    ensures { result ≡ is_told observed.now key }
{
    match observed {
        Observed::Going(told) => *told == key,
        _ => false,
    }
}

/// Whether a line goes on after a step with this reply.
fn goes_on<P: GhostProtocol, L: Holdings>(
    stepper: &GhostStepper<P, L>,
    line: Logged,
    reply: &Reply,
) -> bool
    ensures { result ≡ goes_on (line_of line.entry) stepper.now.state reply.now }
{
    match reply {
        Reply::Going(key) => {
            is_whole(line) || (stepper.is_ghost(*key) && !is_told(line.observed, *key))
        }
        _ => false,
    }
}

/// Whether a line goes on after this step: it is done, and its reply says so.
fn is_passed<P: GhostProtocol, L: Holdings>(
    stepper: &GhostStepper<P, L>,
    line: Logged,
    last: &Outcome,
) -> bool
    ensures { result ≡ is_passed (line_of line.entry) stepper.now.state last.now.ahead.items last.now.reply }
{
    last.ahead.is_empty() && goes_on(stepper, line, &last.reply)
}

/// Attempts the first step of a line, and goes on with its scan for at most so many steps, up to one ahead of which somebody
/// waits. It answers what came of the last step.
fn try_all<P: GhostProtocol + Copy, L: Holdings>(
    alloc: Global,
    stepper: &mut GhostStepper<P, L>,
    scans: &mut Vec<Progress>,
    notes: &mut Notes,
    queue: &[Lock],
    line: Logged,
    first: Op,
    more: u64,
) -> Result<Outcome, Memory>
    requires modes { All (λ l. l.1 ≤ (P.table stepper.old.protocol).count) queue.now }
    ensures protocol { stepper.new.protocol ≡ stepper.old.protocol }
    ensures tried { IfOk result (λ y. tried_so y (moment stepper.new.state scans.new.items)
        ≡ gone_on (P.ghosts stepper.old.protocol) (line_of line.entry) queue.now more (tried (P.ghosts stepper.old.protocol) queue.now line.entry.event.txn (moment stepper.old.state scans.old.items) first)) }
{
    let mut last = try_step(alloc, stepper, scans, notes, queue, line, first)?;
    for _ in 0..more {
        if !is_passed(stepper, line, &last) {
            return Ok(last);
        }
        last = try_step(alloc, stepper, scans, notes, queue, line, Op::Go)?;
    }
    Ok(last)
}

/// Attempts the steps of a line with this first one, and answers what came of the last.
pub(crate) fn try_line<P: GhostProtocol + Copy, L: Holdings>(
    alloc: Global,
    stepper: &mut GhostStepper<P, L>,
    scans: &mut Vec<Progress>,
    notes: &mut Notes,
    queue: &[Lock],
    line: Logged,
    first: Op,
) -> Result<Outcome, Memory>
    requires modes { All (λ l. l.1 ≤ (P.table stepper.old.protocol).count) queue.now }
    ensures protocol { stepper.new.protocol ≡ stepper.old.protocol }
    ensures tried { IfOk result (λ y. tried_so y (moment stepper.new.state scans.new.items)
        ≡ last_of (P.ghosts stepper.old.protocol) (line_of line.entry) queue.now (moment stepper.old.state scans.old.items) first) }
{
    if is_falling(first) {
        return read_down(alloc, stepper, scans, notes, queue, line, first);
    }
    let more = more_steps(scans, line.event.txn, first);
    try_all(alloc, stepper, scans, notes, queue, line, first, more)
}
