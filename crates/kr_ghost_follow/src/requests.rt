//! What a step requests, who waits ahead of it, and which locks conflict with it.
ghost use Rattle.std.specs.Prelude.{◌≡◌, ◌≤◌, ◌++◌, All, IfOk, OnOk, map};
ghost use Rattle.std.specs.Option.{option_to_list};
ghost use Rattle.kr_plan.specs.Modes.{SideIsMode};
ghost use Rattle.kr_trace_follow.specs.Conflicts.{tested_by};
ghost use Rattle.kr_trace_follow.specs.Since.{last_noted};
ghost use Rattle.kr_ghost_follow.specs.Points.{ahead_of, conflicts_of, tests_of};

use kr_ghost_machine::GhostStepper;
use kr_ghost_protocol::GhostProtocol;
use kr_locks::Holdings;
use kr_model::{Items, Memory, Mode, Name, Op, Span, Txn};
use kr_trace_follow::conflict::{Lock, Tested, ahead_of_all, conflicts_with_all};
use kr_trace_follow::since::Notes;
use kr_trace_lines::Conflict;
use std::alloc::Global;

/// Adds the request of a side, if there is one, with the converted mode.
fn push_side<P: GhostProtocol, L: Holdings>(
    stepper: &GhostStepper<P, L>,
    txn: Txn,
    side: Option<(Name, Mode, Span)>,
    list: &mut Vec<Tested>,
) -> Result<(), Memory>
    requires asked { SideIsMode (P.table stepper.now.protocol).count side }
    requires modes { All (λ q. q.tested ≤ (P.table stepper.now.protocol).count) list.old.items }
    ensures tests { OnOk result (list.new.items ≡ list.old.items ++ map (tested_by (P.table stepper.now.protocol) stepper.now.state.state.locks txn) (option_to_list side)) }
    ensures modes { OnOk result (All (λ q. q.tested ≤ (P.table stepper.now.protocol).count) list.new.items) }
{
    if let Some((name, asked, _)) = side {
        let own = stepper.own(txn, name);
        let tested = stepper.protocol().convert(own, asked);
        list.push(Tested {
            txn,
            name,
            own,
            asked,
            tested,
        })?;
    }
    Ok(())
}

/// The requests of a step in the present state.
pub(crate) fn tests_now<P: GhostProtocol, L: Holdings>(
    alloc: Global,
    stepper: &GhostStepper<P, L>,
    txn: Txn,
    op: Op,
) -> Result<Vec<Tested>, Memory>
    ensures tests { IfOk result (λ list. list.items ≡ tests_of (P.ghosts stepper.now.protocol) txn stepper.now.state op) }
    ensures modes { IfOk result (λ list. All (λ q. q.tested ≤ (P.table stepper.now.protocol).count) list.items) }
{
    let mut list = Vec::new(alloc);
    if let Some(plan) = stepper.plan(txn, op) {
        push_side(stepper, txn, plan.current, &mut list)?;
        push_side(stepper, txn, plan.next, &mut list)?;
    }
    Ok(list)
}

/// Who waits ahead of a step in the present state. It takes no memory where nobody waits.
pub(crate) fn ahead_now<P: GhostProtocol, L: Holdings>(
    alloc: Global,
    stepper: &GhostStepper<P, L>,
    queue: &[Lock],
    txn: Txn,
    op: Op,
) -> Result<Vec<Txn>, Memory>
    requires modes { All (λ l. l.1 ≤ (P.table stepper.now.protocol).count) queue.now }
    ensures { IfOk result (λ list. list.items ≡ ahead_of (P.ghosts stepper.now.protocol) queue.now txn stepper.now.state op) }
{
    if queue.is_empty() {
        return Ok(Vec::new(alloc));
    }
    let requests = tests_now(alloc, stepper, txn, op)?;
    ahead_of_all(alloc, stepper.protocol(), queue, &requests)
}

/// The held locks that conflict with a step in the present state.
pub(crate) fn conflicts_now<P: GhostProtocol, L: Holdings>(
    alloc: Global,
    stepper: &GhostStepper<P, L>,
    notes: &Notes,
    txn: Txn,
    op: Op,
) -> Result<Items<Conflict>, Memory>
    ensures { IfOk result (λ list. list ≡ conflicts_of (P.ghosts stepper.now.protocol) (last_noted notes.now) txn stepper.now.state op) }
{
    let requests = tests_now(alloc, stepper, txn, op)?;
    let held = stepper.locks()?;
    let list = conflicts_with_all(alloc, stepper.protocol(), notes, &held, &requests)?;
    Ok(Items::from_vec(list))
}
