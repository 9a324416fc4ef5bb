//! The locks that are waited for.
ghost use Rattle.std.specs.Prelude.{◌≡◌, ◌≤◌, ◌++◌, All, None, OnOk, map};
ghost use Rattle.kr_model.specs.Locks.{release};
ghost use Rattle.kr_model.specs.WellFormed.{IsState};
ghost use Rattle.kr_trace_follow.specs.Conflicts.{wanted};
ghost use Rattle.kr_trace_follow.specs.Steps.{attempt_at, queue_for};
ghost use Rattle.kr_trace_follow.specs.Waits.{waiting_after};

use crate::attempts::tests_now;
use crate::conflict::{Lock, Tested};
use kr_index::{Memory, Ordered};
use kr_locks::Holdings;
use kr_machine::Stepper;
use kr_model::{Op, Txn};
use kr_protocol::Protocol;
use kr_trace_lines::Observed;

/// The locks that a step may have to wait behind: none, where the engine doesn't block it.
pub fn queue_for<'a>(observed: &Observed, waiting: &'a [Lock]) -> &'a [Lock]
    ensures { result.now ≡ queue_for observed.now waiting.now }
{
    match observed {
        Observed::Blocked(_) => waiting,
        _ => &waiting[..0],
    }
}

/// Takes away what a transaction waits for.
pub fn forget(waiting: &mut Vec<Lock>, txn: Txn)
    ensures { waiting.new.items ≡ release waiting.old.items txn }
{
    waiting.retain(|lock| lock.0.1 != txn);
}

/// Adds what is waited for by these requests.
pub fn push_wanted(waiting: &mut Vec<Lock>, requests: &[Tested]) -> Result<(), Memory>
    ensures { OnOk result (waiting.new.items ≡ waiting.old.items ++ map wanted requests.now) }
{
    for i in 0..requests.len() {
        let request = requests[i];
        waiting.push(((request.name, request.txn), request.tested))?;
    }
    Ok(())
}

/// Notes whether a transaction waits after a step with this reply, and for which locks.
pub(crate) fn note_wait<P: Protocol, Q: Protocol, I: Ordered, L: Holdings>(
    protocol: &P,
    stepper: &Stepper<Q, I, L>,
    waiting: &mut Vec<Lock>,
    txn: Txn,
    op: Op,
    observed: &Observed,
) -> Result<(), Memory>
    requires at_rest { stepper.now.pending ≡ None }
    requires same { Q.table stepper.now.protocol ≡ P.table protocol.now }
    requires well_formed { IsState (P.table protocol.now) stepper.now.state }
    requires modes { All (λ l. l.1 ≤ (P.table protocol.now).count) waiting.old.items }
    ensures waiting { OnOk result (waiting.new.items ≡ waiting_after (P.table protocol.now) waiting.old.items txn (attempt_at stepper.now.state op) observed.now) }
    ensures modes { OnOk result (All (λ l. l.1 ≤ (P.table protocol.now).count) waiting.new.items) }
{
    forget(waiting, txn);
    if let Observed::Blocked(_) = observed {
        let requests = tests_now(protocol, stepper, txn, op)?;
        push_wanted(waiting, &requests)?;
    }
    Ok(())
}
