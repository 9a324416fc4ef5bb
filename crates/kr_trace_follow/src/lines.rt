//! One line of a trace.
ghost use Rattle.std.specs.Prelude.{◌≡◌, ◌≤◌, All, None, IfOk, OnOk};
ghost use Rattle.kr_model.specs.WellFormed.{IsState};
ghost use Rattle.kr_trace_follow.specs.Conflicts.{conflicts_of};
ghost use Rattle.kr_trace_follow.specs.Deviates.{since_left, kind_of, deviation_at, is_queued_at};
ghost use Rattle.kr_trace_follow.specs.Scans.{AreNoted};
ghost use Rattle.kr_trace_follow.specs.Since.{IsSince, last_noted, lines_of};
ghost use Rattle.kr_trace_follow.specs.Steps.{attempt_at, last_of, outcome_of};
ghost use Rattle.kr_trace_follow.specs.Waits.{waiting_after};

use crate::conflict::Lock;
use crate::kinds::{deviation_at, is_queued, kind_of_blockers, kind_where_granted};
use crate::present::conflicts_now;
use crate::scans::Progress;
use crate::since::Notes;
use crate::steps::{Last, attempt_all, first_op, more_steps};
use crate::waits::{note_wait, queue_for};
use kr_index::{Memory, Ordered};
use kr_locks::Holdings;
use kr_machine::Stepper;
use kr_model::{Event, Reply, Txn};
use kr_protocol::Protocol;
use kr_trace_lines::{Deviation, DeviationKind, Observed};

/// How what was observed differs from the table's reply to a step, if it does. Of a step that is blocked, which changes
/// nothing, the conflicts are those in the present state.
fn kind_now<P: Protocol, Q: Protocol, I: Ordered, L: Holdings>(
    protocol: &P,
    stepper: &Stepper<Q, I, L>,
    notes: &Notes,
    txn: Txn,
    last: Last,
    observed: &Observed,
) -> Result<Option<DeviationKind>, Memory>
    requires at_rest { stepper.now.pending ≡ None }
    requires same { Q.table stepper.now.protocol ≡ P.table protocol.now }
    requires well_formed { IsState (P.table protocol.now) stepper.now.state }
    ensures { IfOk result (λ kind. kind ≡ kind_of (conflicts_of (P.table protocol.now) (last_noted notes.now) txn (attempt_at stepper.now.state last.op)) last.ahead.items last.reply observed.now) }
{
    let alloc = stepper.alloc();
    let Last { op, ahead, reply } = last;
    match reply {
        Reply::Blocked(blockers) => match observed {
            Observed::Blocked(named) => kind_of_blockers(alloc, named, blockers, &ahead),
            _ => {
                let conflicts = conflicts_now(protocol, stepper, notes, txn, op)?;
                Ok(Some(DeviationKind::Granted {
                    blockers,
                    conflicts,
                }))
            }
        },
        Reply::Refused(refusal) => Ok(Some(DeviationKind::Refused(refusal))),
        granted => kind_where_granted(alloc, granted, &ahead, observed),
    }
}

/// Follows a line: its steps are attempted, and it deviates where what was observed isn't the table's reply. It answers
/// that, and whether the line is queued.
pub(crate) fn deviation_of<P: Protocol, Q: Protocol, I: Ordered, L: Holdings>(
    protocol: &P,
    stepper: &mut Stepper<Q, I, L>,
    scans: &mut Vec<Progress>,
    notes: &mut Notes,
    waiting: &mut Vec<Lock>,
    number: u64,
    event: Event,
    observed: &Observed,
) -> Result<(Option<Deviation>, bool), Memory>
    requires at_rest { stepper.old.pending ≡ None }
    requires same { Q.table stepper.old.protocol ≡ P.table protocol.now }
    requires well_formed { IsState (P.table protocol.now) stepper.old.state }
    requires noted { AreNoted stepper.old.state scans.old.items }
    requires since { IsSince stepper.old.state.locks (last_noted notes.old) }
    requires modes { All (λ l. l.1 ≤ (P.table protocol.now).count) waiting.old.items }
    ensures at_rest { stepper.new.pending ≡ None }
    ensures protocol { stepper.new.protocol ≡ stepper.old.protocol }
    ensures well_formed { IsState (P.table protocol.now) stepper.new.state }
    ensures noted { OnOk result (AreNoted stepper.new.state scans.new.items) }
    ensures is_since { OnOk result (IsSince stepper.new.state.locks (last_noted notes.new)) }
    ensures modes { OnOk result (All (λ l. l.1 ≤ (P.table protocol.now).count) waiting.new.items) }
    ensures deviates { IfOk result (λ d. d.0 ≡ deviation_at (P.table protocol.now) (lines_of stepper.old.state.locks (last_noted notes.old)) waiting.old.items stepper.old.state (record { number = number; event = event; observed = observed.now })) }
    ensures queued { IfOk result (λ d. d.1 ≡ is_queued_at (P.table protocol.now) waiting.old.items stepper.old.state (record { number = number; event = event; observed = observed.now })) }
    ensures state { OnOk result (stepper.new.state ≡ (outcome_of (P.table protocol.now) waiting.old.items stepper.old.state (record { number = number; event = event; observed = observed.now })).1) }
    ensures since { OnOk result (lines_of stepper.new.state.locks (last_noted notes.new) ≡ (let s = (outcome_of (P.table protocol.now) waiting.old.items stepper.old.state (record { number = number; event = event; observed = observed.now })).1 in lines_of s.locks (since_left (P.table protocol.now) (lines_of stepper.old.state.locks (last_noted notes.old)) waiting.old.items stepper.old.state (record { number = number; event = event; observed = observed.now })))) }
    ensures waiting { OnOk result (waiting.new.items ≡ waiting_after (P.table protocol.now) waiting.old.items event.txn (attempt_at stepper.new.state (last_of (P.table protocol.now) waiting.old.items stepper.old.state (record { number = number; event = event; observed = observed.now })).op) observed.now) }
{
    let txn = event.txn;
    let first = first_op(scans, event, observed);
    let more = more_steps(event.op, observed);
    let queue = queue_for(observed, waiting);
    let last = attempt_all(
        protocol, stepper, scans, notes, number, queue, txn, first, more,
    )?;
    note_wait(protocol, stepper, waiting, txn, last.op, observed)?;
    let queued = is_queued(&last.ahead, &last.reply);
    let kind = kind_now(protocol, stepper, notes, txn, last, observed)?;
    Ok((deviation_at(number, kind), queued))
}
