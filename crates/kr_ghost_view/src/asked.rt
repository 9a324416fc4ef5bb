//! What a blocked step requested, and whose locks conflicted with it.
ghost use Rattle.kr_plan.specs.Modes.{SideIsMode};

use kr_ghost_machine::GhostStepper;
use kr_ghost_protocol::GhostProtocol;
use kr_locks::Holdings;
use kr_model::{Memory, Mode, Name, Reply, Span, Txn};
use kr_view_scenes::{Act, Asked};
use std::alloc::Global;

/// What a step requested, if it is blocked, on a machine that stands as at that step.
pub(crate) fn asked_by<P: GhostProtocol, L: Holdings>(
    alloc: Global,
    stepper: &GhostStepper<P, L>,
    act: &Act,
) -> Result<Vec<Asked>, Memory> {
    let mut list = Vec::new(alloc);
    if let Act::Attempt(event, Reply::Blocked(_)) = act {
        if let Some(plan) = stepper.plan(event.txn, event.op) {
            push_side(stepper, event.txn, plan.current, &mut list)?;
            push_side(stepper, event.txn, plan.next, &mut list)?;
        }
    }
    Ok(list)
}

/// Adds the request of a side, if there is one, with the transactions whose locks conflict with it.
fn push_side<P: GhostProtocol, L: Holdings>(
    stepper: &GhostStepper<P, L>,
    txn: Txn,
    side: Option<(Name, Mode, Span)>,
    list: &mut Vec<Asked>,
) -> Result<(), Memory>
    requires { SideIsMode (P.table stepper.now.protocol).count side }
{
    if let Some((name, mode, span)) = side {
        let blockers = stepper.blockers(txn, name, mode)?;
        list.push(Asked {
            name,
            mode,
            span,
            blockers,
        })?;
    }
    Ok(())
}
