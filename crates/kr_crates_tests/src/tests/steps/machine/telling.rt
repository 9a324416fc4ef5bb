//! How a story is told: each row of it is followed on a machine, and what is seen is compared.
ghost use Rattle.std.specs.Prelude.{◌≡◌, None};

use super::machines;
use super::story::{Line, Modes, Story, View};
use kr_index::Ordered;
use kr_locks::{Holdings, Memory};
use kr_machine::{Machine, Mode, Name, Txn};
use kr_model::{Op, Pairs, Reply, Txns};
use kr_protocol::Protocol;
use kr_test_support::Answer;
use std::alloc::Global;
use std::process::Abort;

/// Tells each story on a machine at the plain index and lock table.
pub fn on_plain_parts<P: Protocol + Copy>(
    rt: &impl Abort,
    alloc: Global,
    protocol: P,
    modes: Modes,
    stories: &[Story],
) -> Result<(), Memory> {
    for story in stories {
        let machine = machines::plain(alloc, protocol, story.opening)?;
        tell(rt, machine, modes, story.lines)?;
    }
    Ok(())
}

/// Tells each story on a machine whose parts can refuse memory, and don't.
pub fn on_scarce_parts<P: Protocol + Copy>(
    rt: &impl Abort,
    alloc: Global,
    protocol: P,
    modes: Modes,
    stories: &[Story],
) -> Result<(), Memory> {
    for story in stories {
        let machine = machines::scarce(alloc, protocol, story.opening, None, None)?;
        tell(rt, machine, modes, story.lines)?;
    }
    Ok(())
}

/// Follows a story on a machine.
fn tell<P: Protocol, I: Ordered, L: Holdings>(
    rt: &impl Abort,
    mut machine: Machine<P, I, L>,
    modes: Modes,
    lines: &[Line],
) -> Result<(), Memory>
    requires { machine.pending ≡ None }
{
    for &line in lines {
        follow(rt, &mut machine, modes, line)?;
    }
    Ok(())
}

/// Follows one row.
pub fn follow<P: Protocol, I: Ordered, L: Holdings>(
    rt: &impl Abort,
    machine: &mut Machine<P, I, L>,
    modes: Modes,
    line: Line,
) -> Result<(), Memory>
    requires { machine.old.pending ≡ None }
    ensures { machine.new.pending ≡ None }
{
    match line {
        Line::Step(txn, op, answer) => attempt(rt, machine, txn, op, answer),
        Line::Each(first, last, op, answer) => {
            for txn in first..=last {
                attempt(rt, machine, txn, op, answer);
            }
        }
        Line::GivenUp(txn, op, answer) => two_parts(rt, machine, txn, op, answer, false),
        Line::Finished(txn, op, answer) => two_parts(rt, machine, txn, op, answer, true),
        Line::Active(txn) => holds!(rt; machine.active(txn), txn),
        Line::Inactive(txn) => holds!(rt; !machine.active(txn), txn),
        Line::Shows(view) => return expect_view(rt, machine, modes, view),
    }
    Ok(())
}

/// Fails where the reply isn't the answer.
pub fn expect(rt: &impl Abort, txn: Txn, op: Op, answer: Answer, reply: &Reply) {
    expect_fits(rt, answer.is(reply), txn, op, reply);
}

/// Fails where a reply doesn't fit.
pub fn expect_fits(rt: &impl Abort, fits: bool, txn: Txn, op: Op, reply: &Reply) {
    holds!(rt; fits, (txn, op, reply));
}

/// Attempts an operation, and compares the reply.
pub fn attempt<P: Protocol, I: Ordered, L: Holdings>(
    rt: &impl Abort,
    machine: &mut Machine<P, I, L>,
    txn: Txn,
    op: Op,
    answer: Answer,
)
    requires { machine.old.pending ≡ None }
    ensures { machine.new.pending ≡ None }
{
    let reply = machine.step(txn, op);
    expect(rt, txn, op, answer, &reply);
}

/// Attempts an operation in two parts: finished or given up, it has the reply that was told.
fn two_parts<P: Protocol, I: Ordered, L: Holdings>(
    rt: &impl Abort,
    machine: &mut Machine<P, I, L>,
    txn: Txn,
    op: Op,
    answer: Answer,
    finishes: bool,
)
    requires { machine.old.pending ≡ None }
    ensures { machine.new.pending ≡ None }
{
    match machine.ready(txn, op) {
        Ok(ready) => {
            expect(rt, txn, op, answer, ready.reply());
            if finishes {
                let reply = machine.finish(ready);
                expect(rt, txn, op, answer, &reply);
            } else {
                machine.cancel(ready);
            }
        }
        Err(reply) => expect_fits(rt, false, txn, op, &reply),
    }
}

/// What is seen of a machine.
#[derive(Drop)]
pub struct Seen {
    pub index: Pairs,
    pub locks: Vec<((Name, Txn), Mode)>,
    pub unfinished: Txns,
    /// Whether a copy was refused at first.
    pub met_refusal: bool,
}

/// Looks at a machine; what is refused is requested again.
pub fn look<P: Protocol, I: Ordered, L: Holdings>(
    machine: &Machine<P, I, L>,
) -> Result<Seen, Memory>
    requires { machine.now.pending ≡ None }
{
    let mut met_refusal = false;
    let index = match machine.index() {
        Ok(index) => index,
        Err(_) => {
            met_refusal = true;
            machine.index()?
        }
    };
    let locks = match machine.locks() {
        Ok(locks) => locks,
        Err(_) => {
            met_refusal = true;
            machine.locks()?
        }
    };
    let unfinished = machine.unfinished()?;
    Ok(Seen {
        index,
        locks,
        unfinished,
        met_refusal,
    })
}

/// Compares what is seen of a machine.
fn expect_view<P: Protocol, I: Ordered, L: Holdings>(
    rt: &impl Abort,
    machine: &Machine<P, I, L>,
    modes: Modes,
    view: View,
) -> Result<(), Memory>
    requires { machine.now.pending ≡ None }
{
    let seen = look(machine)?;
    compare(rt, &seen, modes, view);
    Ok(())
}

/// Fails where something else is seen.
fn compare(rt: &impl Abort, seen: &Seen, modes: Modes, view: View) {
    same!(rt; seen.index.as_slice(), view.index);
    let locks = seen.locks.as_slice();
    holds!(rt; modes.are_locks(locks, view.locks), (locks, view.locks));
    same!(rt; seen.unfinished.as_slice(), view.unfinished);
}
