//! A scan that reads its range from the upper end, name by name, as an engine does that walks its leaves downwards.
ghost use Rattle.std.specs.Prelude.{◌≡◌, ◌-◌, ◌≤◌, All, IfOk};
ghost use Rattle.kr_ghost_follow.specs.Points as spec;
ghost use Rattle.kr_ghost_follow.specs.Points.{parts, unread, upper_end};
ghost use Rattle.kr_ghost_follow.specs.Tries.{line_of, moment, tried_so};

use crate::line::Logged;
use crate::tries::{Outcome, try_step};
use kr_ghost_machine::GhostStepper;
use kr_ghost_protocol::GhostProtocol;
use kr_locks::Holdings;
use kr_model::{Memory, Name, Op, Pairs, Reply};
use kr_trace_follow::conflict::Lock;
use kr_trace_follow::scans::Progress;
use kr_trace_follow::since::Notes;
use std::alloc::Global;

/// Whether an operation is a scan that reads from its upper end, which then comes first.
pub(crate) fn is_falling(op: Op) -> bool
    ensures { result ≡ spec.is_falling op }
{
    match op {
        Op::Scan(first, last) => last < first,
        _ => false,
    }
}

/// The upper end of a part of a range up to `hi`: the name, or `hi`, if that is below it.
fn upper_end(name: Name, hi: u64) -> u64
    ensures end { result ≡ upper_end name hi }
    ensures within { result ≤ hi }
{
    match name {
        Name::Key(key) => key.min(hi),
        Name::End => hi,
    }
}

/// A range in parts, the lowest first: one up to each name within it, and one up to its end.
fn parts<P: GhostProtocol, L: Holdings>(
    alloc: Global,
    stepper: &GhostStepper<P, L>,
    lo: u64,
    hi: u64,
) -> Result<Vec<Op>, Memory>
    ensures { IfOk result (λ list. list.items ≡ parts stepper.now.state (hi - lo) lo hi) }
{
    let mut list = Vec::new(alloc);
    let mut from = lo;
    for _ in 0..hi.saturating_sub(lo) {
        let end = upper_end(stepper.name_from(from), hi);
        list.push(Op::Scan(from, end))?;
        if end == hi {
            return Ok(list);
        }
        from = end + 1;
    }
    list.push(Op::Scan(from, hi))?;
    Ok(list)
}

/// The scans by which a scan reads its range downwards.
fn falling<P: GhostProtocol, L: Holdings>(
    alloc: Global,
    stepper: &GhostStepper<P, L>,
    op: Op,
) -> Result<Vec<Op>, Memory>
    ensures { IfOk result (λ list. list.items ≡ spec.falling stepper.now.state op) }
{
    match op {
        Op::Scan(hi, lo) => {
            let mut list = parts(alloc, stepper, lo, hi)?;
            list.reverse();
            Ok(list)
        }
        _ => Ok(Vec::new(alloc)),
    }
}

/// Whether a part is read: the table grants it, and nobody waits ahead of it.
fn is_read(last: &Outcome) -> bool
    ensures { result ≡ spec.is_read last.now.ahead.items last.now.reply }
{
    match &last.reply {
        Reply::Rows(_) => last.ahead.is_empty(),
        _ => false,
    }
}

/// The rows of a part behind those of the parts above it.
fn behind(above: Reply, reply: Reply) -> Result<Reply, Memory>
    ensures { IfOk result (λ r. r ≡ spec.behind above reply) }
{
    match above {
        Reply::Rows(above) => match reply {
            Reply::Rows(rows) => {
                let mut list = above.into_vec();
                list.extend_from_slice(rows.as_slice())?;
                Ok(Reply::Rows(Pairs::from_vec(list)))
            }
            reply => Ok(reply),
        },
        _ => Ok(reply),
    }
}

/// Attempts the next part, where those above it have this reply.
fn read_on<P: GhostProtocol + Copy, L: Holdings>(
    alloc: Global,
    stepper: &mut GhostStepper<P, L>,
    scans: &mut Vec<Progress>,
    notes: &mut Notes,
    queue: &[Lock],
    line: Logged,
    above: Reply,
    part: Op,
) -> Result<Outcome, Memory>
    requires modes { All (λ l. l.1 ≤ (P.table stepper.old.protocol).count) queue.now }
    ensures protocol { stepper.new.protocol ≡ stepper.old.protocol }
    ensures tried { IfOk result (λ y. tried_so y (moment stepper.new.state scans.new.items)
        ≡ spec.read_on (P.ghosts stepper.old.protocol) queue.now line.entry.event.txn (moment stepper.old.state scans.old.items) above part) }
{
    let Outcome { op, ahead, reply } = try_step(alloc, stepper, scans, notes, queue, line, part)?;
    let reply = behind(above, reply)?;
    Ok(Outcome { op, ahead, reply })
}

/// Attempts the parts of a scan downwards, up to one that isn't read. It answers what came of the last step, with the rows of all.
pub(crate) fn read_down<P: GhostProtocol + Copy, L: Holdings>(
    alloc: Global,
    stepper: &mut GhostStepper<P, L>,
    scans: &mut Vec<Progress>,
    notes: &mut Notes,
    queue: &[Lock],
    line: Logged,
    op: Op,
) -> Result<Outcome, Memory>
    requires modes { All (λ l. l.1 ≤ (P.table stepper.old.protocol).count) queue.now }
    ensures protocol { stepper.new.protocol ≡ stepper.old.protocol }
    ensures tried { IfOk result (λ y. tried_so y (moment stepper.new.state scans.new.items)
        ≡ spec.read_down (P.ghosts stepper.old.protocol) queue.now line.entry.event.txn (spec.falling stepper.old.state op) (unread (moment stepper.old.state scans.old.items) op)) }
{
    let parts = falling(alloc, stepper, op)?;
    let mut last = Outcome {
        op,
        ahead: Vec::new(alloc),
        reply: Reply::Rows(Pairs::from_vec(Vec::new(alloc))),
    };
    for i in 0..parts.len() {
        if !is_read(&last) {
            return Ok(last);
        }
        last = read_on(
            alloc, stepper, scans, notes, queue, line, last.reply, parts[i],
        )?;
    }
    Ok(last)
}
