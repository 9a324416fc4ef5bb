//! Steps of a machine: a scan that meets a delete, a step in two parts, and changes that are undone one at a time.
ghost use Rattle.std.specs.Prelude.{◌≡◌, None, IfOk};

use kr_index::Tree;
use kr_locks::{Buckets, Memory};
use kr_machine::{Machine, Mode, Name, Txn};
use kr_model::{Op, Pairs, Refusal, Reply, Txns};
use kr_protocol::KvlUpdate;
use std::alloc::Global;
use std::process::Abort;
use std::test::Fail;

type KvlMachine = Machine<KvlUpdate, Tree, Buckets>;

/// What can be seen of a machine.
#[derive(Drop)]
struct View {
    index: Pairs,
    locks: Vec<((Name, Txn), Mode)>,
    unfinished: Txns,
    committed: usize,
}

fn look(machine: &KvlMachine) -> Result<View, Memory>
    requires { machine.now.pending ≡ None }
{
    Ok(View {
        index: machine.index()?,
        locks: machine.locks()?,
        unfinished: machine.unfinished()?,
        committed: machine.programs()?.as_slice().len(),
    })
}

/// Looks at a machine, and again where a growth was refused.
fn seen(machine: &KvlMachine) -> Result<View, Memory>
    requires { machine.now.pending ≡ None }
{
    match look(machine) {
        Ok(view) => Ok(view),
        Err(_) => look(machine),
    }
}

fn are_same(one: &View, other: &View) -> bool {
    one.index.as_slice() == other.index.as_slice()
        && one.locks.as_slice() == other.locks.as_slice()
        && one.unfinished.as_slice() == other.unfinished.as_slice()
        && one.committed == other.committed
}

/// What a step answers.
#[derive(Clone, Copy, Debug)]
enum Want {
    Going(u64),
    /// Two rows.
    Rows((u64, u64), (u64, u64)),
    Deleted(u64),
    Updated(u64),
    Undone(u64),
    Done,
    /// Blocked by one transaction.
    Blocked(Txn),
    Committed,
    Aborted,
}

fn is(reply: &Reply, want: Want) -> bool {
    match (reply, want) {
        (Reply::Going(key), Want::Going(wanted)) => *key == wanted,
        (Reply::Deleted(value), Want::Deleted(wanted))
        | (Reply::Updated(value), Want::Updated(wanted)) => *value == wanted,
        (Reply::Undone(left), Want::Undone(wanted)) => *left == wanted,
        (Reply::Rows(rows), Want::Rows(first, last)) => rows.as_slice() == [first, last].as_slice(),
        (Reply::Blocked(txns), Want::Blocked(txn)) => txns.as_slice() == [txn].as_slice(),
        (Reply::Done, Want::Done)
        | (Reply::Committed, Want::Committed)
        | (Reply::Aborted, Want::Aborted) => true,
        _ => false,
    }
}

fn is_memory(reply: &Reply) -> bool {
    matches!(reply, Reply::Refused(Refusal::Memory))
}

/// Attempts a step, and again where a growth was refused: then what can be seen is as before. Compares the reply.
fn attempt(
    rt: &impl Abort,
    machine: &mut KvlMachine,
    txn: Txn,
    op: Op,
    want: Want,
) -> Result<(), Fail>
    requires { machine.old.pending ≡ None }
    ensures { machine.new.pending ≡ None }
{
    let before = seen(machine)?;
    let reply = machine.step(txn, op);
    if !is_memory(&reply) {
        assert!(rt; is(&reply, want), "{txn} {op:?}: {reply:?}");
        return Ok(());
    }
    let after = seen(machine)?;
    assert!(rt; are_same(&before, &after), "{txn} {op:?} changed something");
    let again = machine.step(txn, op);
    assert!(rt; is(&again, want), "{txn} {op:?}, again: {again:?}");
    Ok(())
}

/// A machine with three keys under key-value locking with updates.
fn opened(alloc: Global) -> Result<KvlMachine, Memory>
    ensures { IfOk result (λ machine. machine.pending ≡ None) }
{
    let index = match Tree::from_pairs(alloc, &[(10, 1), (20, 2), (30, 3)]) {
        Ok(index) => index,
        Err(_) => Tree::from_pairs(alloc, &[(10, 1), (20, 2), (30, 3)])?,
    };
    Ok(Machine::new(alloc, KvlUpdate, index, Buckets::new(alloc)))
}

/// What happens on a machine.
#[derive(Clone, Copy)]
enum Line {
    /// The transaction attempts the operation, and gets the answer.
    Step(Txn, Op, Want),
    /// The transaction takes its newest change back, which takes no memory, and so many are left.
    Back(Txn, u64),
    /// The transaction opens an insert of a key with a value and gives it up, which changes nothing.
    GivenUp(Txn, u64, u64),
    /// The transaction opens an insert of a key with a value and does it.
    Inserted(Txn, u64, u64),
    /// Nobody is active, and the machine shows so many keys, and so many transactions that committed.
    Shows(usize, usize),
}

/// Compares what a machine shows that nobody is active on: so many keys, and so many transactions that committed.
fn shows(rt: &impl Abort, machine: &KvlMachine, keys: usize, committed: usize) -> Result<(), Fail>
    requires { machine.now.pending ≡ None }
{
    let view = seen(machine)?;
    assert_eq!(rt; view.index.as_slice().len(), keys);
    assert_eq!(rt; view.committed, committed);
    assert!(rt; view.locks.is_empty() && view.unfinished.as_slice().is_empty());
    Ok(())
}

/// Takes the newest change back, which takes no memory.
fn takes_back(rt: &impl Abort, machine: &mut KvlMachine, txn: Txn, left: u64)
    requires { machine.old.pending ≡ None }
    ensures { machine.new.pending ≡ None }
{
    let reply = machine.step(txn, Op::Back);
    assert!(rt; is(&reply, Want::Undone(left)), "{reply:?}");
}

/// Opens an insert and gives it up; where a growth was refused nothing was opened.
fn gives_up_insert(rt: &impl Abort, machine: &mut KvlMachine, txn: Txn, key: u64, value: u64)
    requires { machine.old.pending ≡ None }
    ensures { machine.new.pending ≡ None }
{
    match machine.ready(txn, Op::Insert(key, value)) {
        Ok(ready) => machine.cancel(ready),
        Err(reply) => assert!(rt; is_memory(&reply), "{reply:?}"),
    }
}

/// Opens an insert and does it, or where a growth was refused attempts it by a step.
fn does_insert(
    rt: &impl Abort,
    machine: &mut KvlMachine,
    txn: Txn,
    key: u64,
    value: u64,
) -> Result<(), Fail>
    requires { machine.old.pending ≡ None }
    ensures { machine.new.pending ≡ None }
{
    match machine.ready(txn, Op::Insert(key, value)) {
        Ok(ready) => {
            let reply = machine.finish(ready);
            assert!(rt; is(&reply, Want::Done), "{reply:?}");
        }
        Err(reply) => assert!(rt; is_memory(&reply), "{reply:?}"),
    }
    if machine.active(txn) {
        return Ok(());
    }
    attempt(rt, machine, txn, Op::Insert(key, value), Want::Done)
}

/// Follows one row.
fn follow(rt: &impl Abort, machine: &mut KvlMachine, line: Line) -> Result<(), Fail>
    requires { machine.old.pending ≡ None }
    ensures { machine.new.pending ≡ None }
{
    match line {
        Line::Step(txn, op, want) => attempt(rt, machine, txn, op, want),
        Line::Back(txn, left) => {
            takes_back(rt, machine, txn, left);
            Ok(())
        }
        Line::GivenUp(txn, key, value) => {
            gives_up_insert(rt, machine, txn, key, value);
            Ok(())
        }
        Line::Inserted(txn, key, value) => does_insert(rt, machine, txn, key, value),
        Line::Shows(keys, committed) => shows(rt, machine, keys, committed),
    }
}

/// Follows rows on a machine with three keys.
fn tell(rt: &impl Abort, alloc: Global, lines: &[Line]) -> Result<(), Fail> {
    let mut machine = opened(alloc)?;
    for &line in lines {
        follow(rt, &mut machine, line)?;
    }
    Ok(())
}

/// A scan is blocked by a delete of its next key, which is then undone; it goes on to its end, and two transactions
/// commit.
const SCAN_AGAINST_DELETE: &[Line] = &[
    Line::Step(1, Op::Scan(10, 25), Want::Going(10)),
    Line::Step(2, Op::Delete(20), Want::Deleted(2)),
    Line::Step(1, Op::Go, Want::Blocked(2)),
    Line::Step(2, Op::Abort, Want::Aborted),
    Line::Step(1, Op::Go, Want::Going(20)),
    Line::Step(1, Op::Go, Want::Rows((10, 1), (20, 2))),
    Line::Step(1, Op::Commit, Want::Committed),
    Line::Step(3, Op::Commit, Want::Committed),
    Line::Shows(3, 2),
];

#[test]
fn scan_against_delete(rt: HostRuntime) -> Result<(), Fail> {
    tell(&rt, rt.alloc(), SCAN_AGAINST_DELETE)
}

/// An insert is opened and given up, opened again and done.
const TWO_PARTS: &[Line] = &[
    Line::GivenUp(1, 15, 5),
    Line::Shows(3, 0),
    Line::Inserted(1, 15, 5),
    Line::Step(1, Op::Commit, Want::Committed),
    Line::Shows(4, 1),
];

#[test]
fn step_in_two_parts(rt: HostRuntime) -> Result<(), Fail> {
    tell(&rt, rt.alloc(), TWO_PARTS)
}

/// Four changes and a scan in progress go back, and another is blocked until the change that it waits for is undone.
const BACKS: &[Line] = &[
    Line::Step(1, Op::Update(20, 9), Want::Updated(2)),
    Line::Step(1, Op::Insert(25, 5), Want::Done),
    Line::Step(1, Op::Update(25, 6), Want::Updated(5)),
    Line::Step(1, Op::Delete(30), Want::Deleted(3)),
    Line::Step(1, Op::Scan(10, 25), Want::Going(10)),
    Line::Back(1, 3),
    Line::Back(1, 2),
    Line::Step(2, Op::Fetch(25), Want::Blocked(1)),
    Line::Back(1, 1),
    Line::Back(1, 0),
    Line::Step(1, Op::Abort, Want::Aborted),
    Line::Shows(3, 0),
];

#[test]
fn changes_go_back_one_by_one(rt: HostRuntime) -> Result<(), Fail> {
    tell(&rt, rt.alloc(), BACKS)
}
