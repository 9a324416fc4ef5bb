//! Stories told where memory is refused once, each time at a later call: a step that is refused memory changes nothing,
//! and the same step again gets the answer.
ghost use Rattle.std.specs.Prelude.{◌≡◌, None};

use super::machines;
use super::story::{KEY_VALUE, Line, Opening, Story, THREE_PAIRS, View};
use super::telling::{Seen, attempt, expect, follow, look};
use kr_index::Ordered;
use kr_locks::{Holdings, Memory};
use kr_machine::{Machine, Txn};
use kr_model::{Op, Refusal, Reply};
use kr_protocol::{Kvl, KvlUpdate, Protocol};
use kr_test_support::Answer;
use std::alloc::Global;
use std::process::Abort;

/// Steps of which each kind is there: a gap is read and split by its reader, and others are blocked; then a delete at the
/// end of the index, a commit, and what it lets in; scans, of which one ends at once, some are refused or blocked, and one
/// goes on to its end; at last changes of two keys, and an abort that undoes them.
const ALL_KINDS: Story = Story {
    opening: Opening::ThreePairs,
    lines: &[
        Line::Step(1, Op::Fetch(12), Answer::None),
        Line::Step(1, Op::Insert(15, 5), Answer::Done),
        Line::Step(2, Op::Insert(12, 7), Answer::BlockedBy(1)),
        Line::Step(2, Op::Fetch(10), Answer::Found(1)),
        Line::Step(1, Op::Delete(10), Answer::BlockedBy(2)),
        Line::Step(1, Op::Delete(30), Answer::Deleted(3)),
        Line::Step(2, Op::Fetch(40), Answer::BlockedBy(1)),
        Line::Step(1, Op::Commit, Answer::Committed),
        Line::Step(2, Op::Insert(12, 7), Answer::Done),
        Line::Step(3, Op::Scan(21, 30), Answer::Rows(&[])),
        Line::Step(3, Op::Scan(12, 15), Answer::BlockedBy(2)),
        Line::Step(3, Op::Go, Answer::Refused(Refusal::NoScan)),
        Line::Step(3, Op::Scan(20, 14), Answer::Refused(Refusal::BadRange)),
        Line::Step(3, Op::Scan(13, 30), Answer::Going(15)),
        Line::Step(3, Op::Fetch(10), Answer::Refused(Refusal::Busy)),
        Line::Step(3, Op::Go, Answer::Going(20)),
        Line::Step(3, Op::Go, Answer::Rows(&[(15, 5), (20, 2)])),
        Line::Step(3, Op::Commit, Answer::Committed),
        Line::Step(2, Op::Delete(20), Answer::Deleted(2)),
        Line::Step(2, Op::Insert(20, 9), Answer::Done),
        Line::Step(2, Op::Delete(12), Answer::Deleted(7)),
        Line::Step(2, Op::Abort, Answer::Aborted),
        Line::Shows(View {
            index: &[(10, 1), (15, 5), (20, 2)],
            locks: &[],
            unfinished: &[],
        }),
    ],
};

/// Updates, and changes undone.
const CHANGES: Story = Story {
    opening: Opening::ThreePairs,
    lines: &[
        Line::Step(1, Op::Update(20, 9), Answer::Updated(2)),
        Line::Step(1, Op::Update(25, 1), Answer::Absent),
        Line::Step(2, Op::Fetch(20), Answer::BlockedBy(1)),
        Line::Step(1, Op::Update(20, 8), Answer::Updated(9)),
        Line::Step(1, Op::Back, Answer::Undone(1)),
        Line::Step(1, Op::Back, Answer::Undone(0)),
        Line::Step(1, Op::Abort, Answer::Aborted),
        Line::Shows(View {
            index: THREE_PAIRS,
            locks: &[],
            unfinished: &[],
        }),
    ],
};

/// Attempts an operation, and again where memory was refused, which changes nothing. Tells whether it was.
fn insist<P: Protocol, I: Ordered, L: Holdings>(
    rt: &impl Abort,
    machine: &mut Machine<P, I, L>,
    txn: Txn,
    op: Op,
    answer: Answer,
) -> Result<bool, Memory>
    requires { machine.old.pending ≡ None }
    ensures { machine.new.pending ≡ None }
{
    let before = look(machine)?;
    let reply = machine.step(txn, op);
    if !matches!(reply, Reply::Refused(Refusal::Memory)) {
        expect(rt, txn, op, answer, &reply);
        return Ok(before.met_refusal);
    }
    let after = look(machine)?;
    expect_same(rt, &before, &after);
    attempt(rt, machine, txn, op, answer);
    Ok(true)
}

/// Fails where something has changed.
fn expect_same(rt: &impl Abort, before: &Seen, after: &Seen) {
    same!(rt; after.index.as_slice(), before.index.as_slice());
    same!(rt; after.locks.as_slice(), before.locks.as_slice());
    same!(rt; after.unfinished.as_slice(), before.unfinished.as_slice());
}

/// Follows a row, at a step insisting on its answer. Tells whether memory was refused.
fn insist_on<P: Protocol, I: Ordered, L: Holdings>(
    rt: &impl Abort,
    machine: &mut Machine<P, I, L>,
    line: Line,
) -> Result<bool, Memory>
    requires { machine.old.pending ≡ None }
    ensures { machine.new.pending ≡ None }
{
    if let Line::Step(txn, op, answer) = line {
        return insist(rt, machine, txn, op, answer);
    }
    follow(rt, machine, KEY_VALUE, line)?;
    Ok(false)
}

/// Follows a story so. Tells how many of its steps met refused memory.
fn tell<P: Protocol, I: Ordered, L: Holdings>(
    rt: &impl Abort,
    mut machine: Machine<P, I, L>,
    lines: &[Line],
) -> Result<u32, Memory>
    requires { machine.pending ≡ None }
{
    let mut refused = 0u32;
    for &line in lines {
        if insist_on(rt, &mut machine, line)? {
            refused = refused.saturating_add(1);
        }
    }
    Ok(refused)
}

/// Tells a story on a machine whose parts refuse memory once each, after so many calls.
fn refused_after<P: Protocol>(
    rt: &impl Abort,
    alloc: Global,
    protocol: P,
    story: Story,
    index_calls: Option<u32>,
    locks_calls: Option<u32>,
) -> Result<u32, Memory> {
    let machine = machines::scarce(alloc, protocol, story.opening, index_calls, locks_calls)?;
    tell(rt, machine, story.lines)
}

/// Refuses the first call that may lack memory, then the second, and so on, until the story makes no further one before
/// its last look: so many of the index, and so many of the locks.
fn refuse_each<P: Protocol + Copy>(
    rt: &impl Abort,
    alloc: Global,
    protocol: P,
    story: Story,
    index_calls: u32,
    locks_calls: u32,
) -> Result<(), Memory> {
    for calls in 0..=index_calls {
        let refused = refused_after(rt, alloc, protocol, story, Some(calls), None)?;
        same!(rt; refused, u32::from(calls < index_calls), calls);
    }
    for calls in 0..=locks_calls {
        let refused = refused_after(rt, alloc, &protocol, story, None, Some(calls))?;
        same!(rt; refused, u32::from(calls < locks_calls), calls);
    }
    Ok(())
}

/// Before each of the 22 steps the index and the locks are copied; 6 steps pin a key, 11 keep a new lock, and 4 that are
/// blocked ask 6 times for blockers.
#[test]
fn refused_memory_changes_nothing(rt: HostRuntime) -> Result<(), Memory> {
    refuse_each(&rt, rt.alloc(), Kvl, ALL_KINDS, 28, 39)
}

/// Before each of the 7 steps the index and the locks are copied; 2 steps pin a key, 2 keep a new lock, and one requests
/// blockers. A change that is undone isn't refused memory, nor is the abort.
#[test]
fn refused_memory_of_changes(rt: HostRuntime) -> Result<(), Memory> {
    refuse_each(&rt, rt.alloc(), KvlUpdate, CHANGES, 9, 10)
}
