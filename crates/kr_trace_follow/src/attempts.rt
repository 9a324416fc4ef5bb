//! The requests of a step that is attempted.
ghost use Rattle.std.specs.Prelude.{◌≡◌, ◌≤◌, ◌++◌, All, None, map, IfOk, OnOk};
ghost use Rattle.std.specs.Option.{option_to_list};
ghost use Rattle.kr_model.specs.Locks.{AreWithin};
ghost use Rattle.kr_model.specs.WellFormed.{IsState};
ghost use Rattle.kr_plan.specs.Modes.{SideIsMode};
ghost use Rattle.kr_trace_follow.specs.Conflicts.{tested_by, tests_of};
ghost use Rattle.kr_trace_follow.specs.Steps.{attempt_at};

use crate::conflict::Tested;
use kr_index::{Memory, Ordered};
use kr_locks::Holdings;
use kr_machine::Stepper;
use kr_model::{Mode, Name, Op, Span, Txn};
use kr_protocol::Protocol;

/// Adds the request of a side, if there is one, with the converted mode.
fn push_side<P: Protocol, Q: Protocol, I: Ordered, L: Holdings>(
    protocol: &P,
    stepper: &Stepper<Q, I, L>,
    txn: Txn,
    side: Option<(Name, Mode, Span)>,
    list: &mut Vec<Tested>,
) -> Result<(), Memory>
    requires at_rest { stepper.now.pending ≡ None }
    requires within { AreWithin (P.table protocol.now).count stepper.now.state.locks }
    requires asked { SideIsMode (P.table protocol.now).count side }
    requires modes { All (λ q. q.tested ≤ (P.table protocol.now).count) list.old.items }
    ensures tests { OnOk result (list.new.items ≡ list.old.items ++ map (tested_by (P.table protocol.now) stepper.now.state.locks txn) (option_to_list side)) }
    ensures modes { OnOk result (All (λ q. q.tested ≤ (P.table protocol.now).count) list.new.items) }
{
    if let Some((name, asked, _)) = side {
        let own = stepper.own(txn, name);
        let tested = protocol.convert(own, asked);
        list.push(Tested {
            txn,
            name,
            own,
            asked,
            tested,
        })?;
    }
    Ok(())
}

/// The requests of a step that is attempted in the present state.
pub(crate) fn tests_now<P: Protocol, Q: Protocol, I: Ordered, L: Holdings>(
    protocol: &P,
    stepper: &Stepper<Q, I, L>,
    txn: Txn,
    op: Op,
) -> Result<Vec<Tested>, Memory>
    requires at_rest { stepper.now.pending ≡ None }
    requires same { Q.table stepper.now.protocol ≡ P.table protocol.now }
    requires well_formed { IsState (P.table protocol.now) stepper.now.state }
    ensures tests { IfOk result (λ list. list.items ≡ tests_of (P.table protocol.now) txn (attempt_at stepper.now.state op)) }
    ensures modes { IfOk result (λ list. All (λ q. q.tested ≤ (P.table protocol.now).count) list.items) }
{
    let mut list = Vec::new(stepper.alloc());
    if let Some(plan) = stepper.plan(txn, op) {
        push_side(protocol, stepper, txn, plan.current, &mut list)?;
        push_side(protocol, stepper, txn, plan.next, &mut list)?;
    }
    Ok(list)
}
