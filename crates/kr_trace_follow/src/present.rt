//! What is in the way of a step that is attempted in the present state.
ghost use Rattle.std.specs.Prelude.{◌≡◌, ◌≤◌, All, None, IfOk};
ghost use Rattle.kr_model.specs.WellFormed.{IsState};
ghost use Rattle.kr_trace_follow.specs.Conflicts.{conflicts_of, ahead_of};
ghost use Rattle.kr_trace_follow.specs.Since.{last_noted};
ghost use Rattle.kr_trace_follow.specs.Steps.{attempt_at};

use crate::attempts::tests_now;
use crate::conflict::{Lock, ahead_of_all, conflicts_with_all};
use crate::since::Notes;
use kr_index::{Memory, Ordered};
use kr_locks::Holdings;
use kr_machine::Stepper;
use kr_model::{Items, Op, Txn};
use kr_protocol::Protocol;
use kr_trace_lines::Conflict;

/// The held locks that conflict with a step that is attempted in the present state.
pub(crate) fn conflicts_now<P: Protocol, Q: Protocol, I: Ordered, L: Holdings>(
    protocol: &P,
    stepper: &Stepper<Q, I, L>,
    notes: &Notes,
    txn: Txn,
    op: Op,
) -> Result<Items<Conflict>, Memory>
    requires at_rest { stepper.now.pending ≡ None }
    requires same { Q.table stepper.now.protocol ≡ P.table protocol.now }
    requires well_formed { IsState (P.table protocol.now) stepper.now.state }
    ensures { IfOk result (λ list. list ≡ conflicts_of (P.table protocol.now) (last_noted notes.now) txn (attempt_at stepper.now.state op)) }
{
    let requests = tests_now(protocol, stepper, txn, op)?;
    let held = stepper.locks()?;
    let list = conflicts_with_all(stepper.alloc(), protocol, notes, &held, &requests)?;
    Ok(Items::from_vec(list))
}

/// Who waits ahead of a step that is attempted in the present state. It takes no memory where nobody waits.
pub(crate) fn ahead_now<P: Protocol, Q: Protocol, I: Ordered, L: Holdings>(
    protocol: &P,
    stepper: &Stepper<Q, I, L>,
    queue: &[Lock],
    txn: Txn,
    op: Op,
) -> Result<Vec<Txn>, Memory>
    requires at_rest { stepper.now.pending ≡ None }
    requires same { Q.table stepper.now.protocol ≡ P.table protocol.now }
    requires well_formed { IsState (P.table protocol.now) stepper.now.state }
    requires modes { All (λ l. l.1 ≤ (P.table protocol.now).count) queue.now }
    ensures { IfOk result (λ list. list.items ≡ ahead_of (P.table protocol.now) queue.now txn (attempt_at stepper.now.state op)) }
{
    let alloc = stepper.alloc();
    if queue.is_empty() {
        return Ok(Vec::new(alloc));
    }
    let requests = tests_now(protocol, stepper, txn, op)?;
    ahead_of_all(alloc, protocol, queue, &requests)
}
