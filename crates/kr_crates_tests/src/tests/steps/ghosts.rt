//! A machine over an index with ghosts and a copy of it, which go on apart.

use kr_ghost_index::GhostIndex;
use kr_ghost_machine::GhostStepper;
use kr_ghost_protocol::{GhostProtocol, RecordGap};
use kr_locks::{Buckets, Holdings, List, Memory, Txn};
use kr_model::{Name, Op, Refusal};
use kr_test_support::Answer;
use std::process::Abort;
use std::test::Fail;

/// Attempts a step, and compares its reply.
fn answers<P: GhostProtocol, L: Holdings>(
    rt: &impl Abort,
    machine: &mut GhostStepper<P, L>,
    txn: Txn,
    op: Op,
    answer: Answer<'_>,
) -> Result<(), Memory> {
    let reply = machine.step(txn, op)?;
    holds!(*rt; answer.is(&reply), txn);
    Ok(())
}

/// Compares the pairs, the ghosts, who is active, and how many locks are held.
fn shows<P: GhostProtocol, L: Holdings>(
    rt: &impl Abort,
    machine: &GhostStepper<P, L>,
    pairs: &[(u64, u64)],
    ghosts: &[u64],
    active: &[Txn],
    locks: usize,
) -> Result<(), Memory> {
    same!(*rt; machine.index()?.as_slice(), pairs);
    same!(*rt; machine.ghosts()?.as_slice(), ghosts);
    same!(*rt; machine.unfinished()?.as_slice(), active);
    same!(*rt; machine.locks()?.len(), locks);
    Ok(())
}

/// 1 has deleted 10 and committed, 2 scans from 15 to 30 and has read 20, and 3 has inserted 25.
fn begun(rt: &impl Abort, machine: &mut GhostStepper<&RecordGap, List>) -> Result<(), Memory> {
    answers(rt, machine, 1, Op::Delete(10), Answer::Deleted(1))?;
    answers(rt, machine, 1, Op::Commit, Answer::Committed)?;
    answers(rt, machine, 2, Op::Scan(15, 30), Answer::Going(20))?;
    answers(rt, machine, 3, Op::Insert(25, 5), Answer::Done)?;
    shows(rt, machine, &[(20, 2), (25, 5), (30, 3)], &[10], &[2, 3], 2)
}

/// The copy goes on from there, and ends all.
fn goes_on(rt: &impl Abort, copy: &mut GhostStepper<&RecordGap, Buckets>) -> Result<(), Memory> {
    shows(rt, copy, &[(20, 2), (25, 5), (30, 3)], &[10], &[2, 3], 2)?;
    answers(rt, copy, 1, Op::Fetch(20), Answer::Refused(Refusal::Ended))?;
    answers(rt, copy, 2, Op::Go, Answer::BlockedBy(3))?;
    answers(rt, copy, 3, Op::Back, Answer::Undone(0))?;
    answers(rt, copy, 3, Op::Abort, Answer::Aborted)?;
    answers(rt, copy, 2, Op::Go, Answer::Going(25))?;
    answers(rt, copy, 2, Op::Go, Answer::Rows(&[(20, 2), (30, 3)]))?;
    answers(rt, copy, 2, Op::Commit, Answer::Committed)?;
    shows(rt, copy, &[(20, 2), (30, 3)], &[10, 25], &[], 0)
}

#[test]
fn a_copy_goes_on_by_itself(rt: HostRuntime) -> Result<(), Fail> {
    let alloc = rt.alloc();
    let index = GhostIndex::from_pairs(alloc, &[(10, 1), (20, 2), (30, 3)])?;
    let protocol = RecordGap;
    let mut machine = GhostStepper::new(alloc, &protocol, index, List::new(alloc));
    begun(&rt, &mut machine)?;
    let mut copy = machine.try_copy()?;
    goes_on(&rt, &mut copy)?;
    assert!(rt; machine.purge(10)?);
    assert!(rt; copy.purge(25)?);
    shows(&rt, &machine, &[(20, 2), (25, 5), (30, 3)], &[], &[2, 3], 2)?;
    shows(&rt, &copy, &[(20, 2), (30, 3)], &[10], &[], 0)?;
    assert!(rt; machine.name_from(5) == Name::Key(20));
    assert!(rt; copy.name_from(5) == Name::Key(10));
    assert!(rt; copy.name_from(31) == Name::End);
    Ok(())
}
