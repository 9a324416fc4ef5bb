//! One script run by both kinds of index, and compared with the runs of each.

use kr_ghost::Move;
use kr_ghost_index::GhostIndex;
use kr_ghost_protocol::RecordGap;
use kr_ghost_report::{report_ghost_played, report_ghost_run};
use kr_ghost_run::{play_moves, run_moves};
use kr_index::Sorted;
use kr_kinds::{Gone, IndexProtocol, Leaves, Stepping};
use kr_locks::{List, Memory};
use kr_model::{Event, Op, Txn};
use kr_protocol::Kvl;
use kr_serial::Verdict;
use kr_stepping::{Answer, GhostRan, GoneStepper, LeavingStepper, note_all, run_any};
use kr_test_support::Answer as Told;
use std::alloc::Global;
use std::process::Abort;
use std::test::Fail;

/// A move with its answer, which for a purge is that of an index with ghosts.
#[derive(Clone, Copy)]
enum Done {
    Step(Txn, Op, Told<'static>),
    Purge(u64, bool),
}

/// 1 deletes 20, which 2 then looks for; 3 inserts into the gap that 2 has read. 5 deletes 30 and commits, and 4 is left.
const SCRIPT: [Done; 15] = [
    Done::Step(1, Op::Delete(20), Told::Deleted(2)),
    Done::Purge(20, false),
    Done::Step(2, Op::Fetch(20), Told::BlockedBy(1)),
    Done::Step(1, Op::Commit, Told::Committed),
    Done::Step(2, Op::Fetch(20), Told::None),
    Done::Purge(20, true),
    Done::Step(3, Op::Insert(25, 5), Told::BlockedBy(2)),
    Done::Step(2, Op::Commit, Told::Committed),
    Done::Step(3, Op::Insert(25, 5), Told::Done),
    Done::Step(3, Op::Scan(25, 25), Told::Rows(&[(25, 5)])),
    Done::Step(3, Op::Commit, Told::Committed),
    Done::Step(4, Op::Fetch(10), Told::Found(1)),
    Done::Step(5, Op::Delete(30), Told::Deleted(3)),
    Done::Step(5, Op::Commit, Told::Committed),
    Done::Purge(10, false),
];

/// The moves of the script.
fn moves_of(alloc: Global) -> Result<Vec<Move>, Memory> {
    let mut moves = Vec::new(alloc);
    for done in &SCRIPT {
        moves.push(match *done {
            Done::Step(txn, op, _) => Move::Attempt(Event { txn, op }),
            Done::Purge(key, _) => Move::Purge(key),
        })?;
    }
    Ok(moves)
}

/// Whether the answers are those of the script; where deletes leave no ghosts no purge does anything.
fn are_the_scripts(answers: &[Answer], leaves: bool) -> bool {
    if answers.len() != SCRIPT.len() {
        return false;
    }
    for (answer, done) in answers.iter().zip(&SCRIPT) {
        let is = match (answer, *done) {
            (Answer::Step(reply), Done::Step(_, _, told)) => told.is(reply),
            (Answer::Purge(given), Done::Purge(_, purges)) => *given == (purges && leaves),
            _ => false,
        };
        if !is {
            return false;
        }
    }
    true
}

/// The run of the script under a protocol, which has this kind's answers and leaves these ghosts.
fn run_of<P: IndexProtocol>(
    rt: &impl Abort,
    alloc: Global,
    protocol: &P,
    ghosts: &[u64],
) -> Result<GhostRan, Memory> {
    let moves = moves_of(alloc)?;
    let ran = run_any(alloc, protocol, &[(10, 1), (20, 2), (30, 3)], &moves)?;
    assert!(*rt; are_the_scripts(ran.answers.as_slice(), protocol.leaves_ghosts()));
    same!(*rt; ran.index.as_slice(), [(10, 1), (25, 5)].as_slice());
    same!(*rt; ran.ghosts.as_slice(), ghosts);
    same!(*rt; ran.unfinished.as_slice(), [4].as_slice());
    Ok(ran)
}

#[test]
fn a_script_runs_as_with_ghosts(rt: HostRuntime) -> Result<(), Fail> {
    let alloc = rt.alloc();
    let ran = run_of(&rt, alloc, &Leaves(RecordGap), &[30])?;
    let moves = moves_of(alloc)?;
    let other = run_moves(alloc, &RecordGap, &[(10, 1), (20, 2), (30, 3)], &moves)?;
    let (one, two) = (
        format!(in alloc; "{ran:?}")?,
        format!(in alloc; "{other:?}")?,
    );
    same!(rt; one.as_str(), two.as_str());
    Ok(())
}

/// The same run, of which no programs are kept, has the same answers and the same report.
#[test]
fn a_script_is_played_with_ghosts(rt: HostRuntime) -> Result<(), Fail> {
    let alloc = rt.alloc();
    let moves = moves_of(alloc)?;
    let played = play_moves(alloc, &RecordGap, &[(10, 1), (20, 2), (30, 3)], &moves)?;
    assert!(rt; are_the_scripts(played.answers.as_slice(), true));
    same!(rt; played.index.as_slice(), [(10, 1), (25, 5)].as_slice());
    same!(rt; played.ghosts.as_slice(), [30].as_slice());
    same!(rt; played.unfinished.as_slice(), [4].as_slice());
    let ran = run_moves(alloc, &RecordGap, &[(10, 1), (20, 2), (30, 3)], &moves)?;
    same!(rt; played.locks.as_slice(), ran.locks.as_slice());
    let (one, two) = (
        report_ghost_played(alloc, &RecordGap, &played, &Verdict::Serial)?,
        report_ghost_run(alloc, &RecordGap, &ran, &Verdict::Serial)?,
    );
    same!(rt; one.as_str(), two.as_str());
    Ok(())
}

#[test]
fn a_script_runs_as_without_ghosts(rt: HostRuntime) -> Result<(), Fail> {
    let alloc = rt.alloc();
    let ran = run_of(&rt, alloc, &Gone(Kvl), &[])?;
    let mut events = Vec::new(alloc);
    for next in &moves_of(alloc)? {
        if let Move::Attempt(event) = *next {
            events.push(event)?;
        }
    }
    let other = kr_serial::run_any(alloc, &Kvl, &[(10, 1), (20, 2), (30, 3)], &events)?;
    let mut steps = 0usize;
    for answer in ran.answers.as_slice() {
        if let Answer::Step(reply) = answer {
            assert!(rt; steps < other.replies.as_slice().len());
            let (one, two) = (
                format!(in alloc; "{reply:?}")?,
                format!(in alloc; "{:?}", other.replies.as_slice()[steps])?,
            );
            same!(rt; one.as_str(), two.as_str());
            steps = steps.saturating_add(1);
        }
    }
    same!(rt; steps, other.replies.as_slice().len());
    same!(rt; ran.locks.as_slice(), other.locks.as_slice());
    let (one, two) = (
        format!(in alloc; "{:?}", ran.programs)?,
        format!(in alloc; "{:?}", other.programs)?,
    );
    same!(rt; one.as_str(), two.as_str());
    Ok(())
}

/// Does the script in two parts on a machine.
fn noted_in_parts<M: Stepping>(
    rt: &impl Abort,
    alloc: Global,
    machine: &mut M,
    pairs: &[(u64, u64)],
    ghosts: &[u64],
) -> Result<usize, Memory> {
    let moves = moves_of(alloc)?;
    if moves.len() < 8 {
        return Ok(0);
    }
    let (first, rest) = moves.as_slice().split_at(8);
    let begun = note_all(alloc, machine, first)?;
    same!(*rt; begun.answers.as_slice().len(), 8);
    let ended = note_all(alloc, machine, rest)?;
    same!(*rt; machine.pairs()?.as_slice(), pairs);
    same!(*rt; machine.ghosts()?.as_slice(), ghosts);
    Ok(
        begun
            .programs
            .as_slice()
            .len()
            .saturating_add(ended.programs.as_slice().len()),
    )
}

#[test]
fn moves_are_noted_on_either_machine(rt: HostRuntime) -> Result<(), Fail> {
    let alloc = rt.alloc();
    let index = Sorted::from_pairs(alloc, &[(10, 1), (20, 2), (30, 3)])?;
    let mut gone = GoneStepper::new(alloc, Kvl, index, List::new(alloc));
    same!(rt; noted_in_parts(&rt, alloc, &mut gone, &[(10, 1), (25, 5)], &[])?, 4);
    let index = GhostIndex::from_pairs(alloc, &[(10, 1), (20, 2), (30, 3)])?;
    let mut leaving = LeavingStepper::new(alloc, RecordGap, index, List::new(alloc));
    same!(rt; noted_in_parts(&rt, alloc, &mut leaving, &[(10, 1), (25, 5)], &[30])?, 4);
    Ok(())
}
