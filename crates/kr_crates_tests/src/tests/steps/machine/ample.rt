//! Sweeps where memory is ample: no step is refused it, whatever its key, value and number are, and what isn't blocked is
//! answered as a list of the changes beside the machine says.
ghost use Rattle.std.specs.Prelude.{◌≡◌, None};

use super::beside::Beside;
use super::sweep::{Sweep, step_at};
use super::telling::expect_fits;
use kr_index::{Ordered, Sorted};
use kr_locks::{Holdings, List, Memory};
use kr_machine::{Machine, Txn};
use kr_model::{Op, Reply};
use kr_protocol::{Im, Kvl, KvlUpdate, Protocol};
use std::alloc::Global;
use std::process::Abort;

/// Attempts an operation, and goes on with a scan until it ends.
fn to_its_end<P: Protocol, I: Ordered, L: Holdings>(
    machine: &mut Machine<P, I, L>,
    txn: Txn,
    op: Op,
) -> Reply
    requires { machine.old.pending ≡ None }
    ensures { machine.new.pending ≡ None }
{
    let mut reply = machine.step(txn, op);
    for step in 0..70 {
        if !matches!(reply, Reply::Going(_)) {
            break;
        }
        reply = machine.step(txn, Op::Go);
    }
    reply
}

/// Compares the reply of an operation, and tells whether the operation is done.
fn is_done(rt: &impl Abort, beside: &Beside, txn: Txn, op: Op, reply: Reply) -> bool {
    let refusal = beside.refusal(txn, op);
    let fits = match &reply {
        Reply::Refused(told) => refusal == Some(*told),
        Reply::Blocked(_) => refusal.is_none(),
        _ => refusal.is_none() && beside.answers(txn, op, &reply),
    };
    expect_fits(rt, fits, txn, op, &reply);
    !matches!(reply, Reply::Refused(_) | Reply::Blocked(_))
}

/// Attempts an operation; a scan that is blocked is aborted.
fn attempt<P: Protocol, I: Ordered, L: Holdings>(
    rt: &impl Abort,
    machine: &mut Machine<P, I, L>,
    beside: &mut Beside,
    txn: Txn,
    op: Op,
) -> Result<(), Memory>
    requires { machine.old.pending ≡ None }
    ensures { machine.new.pending ≡ None }
{
    let reply = to_its_end(machine, txn, op);
    if is_done(rt, beside, txn, op, reply) {
        return beside.follow(txn, op);
    }
    if matches!(op, Op::Scan(_, _)) {
        let reply = machine.step(txn, Op::Abort);
        if is_done(rt, beside, txn, Op::Abort, reply) {
            return beside.follow(txn, Op::Abort);
        }
    }
    Ok(())
}

/// Attempts one step of a sweep after another.
fn attempt_each<P: Protocol, I: Ordered, L: Holdings>(
    rt: &impl Abort,
    machine: &mut Machine<P, I, L>,
    beside: &mut Beside,
    sweep: Sweep,
    places: u32,
) -> Result<(), Memory>
    requires { machine.old.pending ≡ None }
{
    for place in 0..places {
        let (txn, op) = step_at(sweep, place);
        attempt(rt, machine, beside, txn, op)?;
    }
    Ok(())
}

/// Attempts them on a machine with an empty index.
fn attempt_all<P: Protocol>(
    rt: &impl Abort,
    alloc: Global,
    protocol: P,
    sweep: Sweep,
    places: u32,
) -> Result<(), Memory> {
    let mut machine = Machine::new(alloc, protocol, Sorted::new(alloc), List::new(alloc));
    let mut beside = Beside::new(alloc);
    attempt_each(rt, &mut machine, &mut beside, sweep, places)
}

#[test]
fn ample_memory(rt: HostRuntime) -> Result<(), Memory> {
    let alloc = rt.alloc();
    attempt_all(&rt, alloc, Kvl, Sweep::Boundary, 183)?;
    attempt_all(&rt, alloc, Kvl, Sweep::Crowd, 193)?;
    for seed in 0..4 {
        attempt_all(&rt, alloc, Im, Sweep::Random(seed), 120)?;
        attempt_all(&rt, alloc, KvlUpdate, Sweep::Changes(seed), 120)?;
    }
    Ok(())
}
