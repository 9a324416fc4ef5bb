//! Runs of scripts by several threads under tables with ghosts, each compared with a replay of its history.

use super::threads::gates::Meeting;
use super::threads::next;
use kr_ghost::Move;
use kr_ghost_protocol::{GhostProtocol, NextKeyGhost, RangeGhost, RecordGap};
use kr_ghost_run::{Answer, judge_moves, run_moves};
use kr_ghost_threads::{GhostThreaded, Made, run_ghost_threads};
use kr_model::Op;
use kr_report::{StepFault, WhyNotDone};
use kr_script::{GhostScript, read_ghost_script};
use kr_threads::{Gate, Passage};
use std::alloc::Global;
use std::fmt::Write;
use std::sync::Wait;
use std::test::Fail;
use std::thread::Threads;

/// A script with these steps, on an opening index of three pairs.
fn script_of(alloc: Global, steps: &str) -> Result<GhostScript, Fail> {
    let text = format!(in alloc;
        "{{\"format\":3,\"opening\":[[10,1],[20,2],[30,3]],\"steps\":{steps}}}"
    )?;
    Ok(
        read_ghost_script(alloc, text.as_bytes())
            .ok()
            .ok_or("script")?,
    )
}

/// Answers as a text.
fn told(text: &mut String, answer: &Answer) -> Result<(), Fail> {
    write!(text, "{answer:?}\n")?;
    Ok(())
}

/// Whether a run of the history's moves, one after another, gives its answers, its index and its ghosts, and is serializable.
fn is_replayed<P: GhostProtocol>(
    alloc: Global,
    protocol: &P,
    script: &GhostScript,
    done: &GhostThreaded,
) -> Result<bool, Fail> {
    let mut moves = Vec::new(alloc);
    let mut given = String::new(alloc);
    for made in &done.history {
        moves.push(made.next)?;
        told(&mut given, &made.answer)?;
    }
    let ran = run_moves(alloc, protocol, script.opening(), &moves)?;
    let mut again = String::new(alloc);
    for answer in ran.answers.as_slice() {
        told(&mut again, answer)?;
    }
    let verdict = judge_moves(alloc, protocol, script.opening(), &moves)?;
    Ok(
        given.as_str() == again.as_str()
            && done.index.as_slice() == ran.index.as_slice()
            && done.ghosts.as_slice() == ran.ghosts.as_slice()
            && ran.unfinished.as_slice().is_empty()
            && verdict.is_serial(),
    )
}

/// What a run of these steps by 1 to 64 workers leaves, which is compared with a replay.
fn done_by<P: GhostProtocol + Sync, G: Gate + Sync, R: Threads + Wait + Sync>(
    rt: &R,
    alloc: Global,
    protocol: &P,
    steps: &str,
    workers: usize,
    gate: &G,
) -> Result<GhostThreaded, Fail> {
    let script = script_of(alloc, steps)?;
    if 0 < workers && workers <= 64 {
        let done = run_ghost_threads(rt, alloc, protocol, &script, workers, gate)
            .ok()
            .ok_or("runs")?;
        if is_replayed(alloc, protocol, &script, &done)? {
            return Ok(done);
        }
    }
    Err("replayed")?
}

/// Whether there is one fault: that the second step of a transaction met a deadlock with the other of 1 and 2.
fn are_one_deadlock(faults: &[StepFault]) -> bool {
    match faults {
        [fault] => is_deadlock(fault),
        _ => false,
    }
}

fn is_deadlock(fault: &StepFault) -> bool {
    match &fault.cause {
        WhyNotDone::Deadlock(cycle) => {
            fault.step == 2
                && (cycle.as_slice() == [1, 2].as_slice() || cycle.as_slice() == [2, 1].as_slice())
        }
        WhyNotDone::Refused(_) => false,
    }
}

/// Two workers each delete what the other has read: one is told a deadlock and aborts, and the other goes on and commits.
#[test]
fn a_deadlock_with_ghosts(rt: HostRuntime) -> Result<(), Fail> {
    let gate = Meeting::after_the_first();
    let steps =
        "[[1,\"fetch\",10],[2,\"fetch\",20],[1,\"delete\",20],[2,\"delete\",10],[1,\"commit\"],[2,\"commit\"]]";
    let done = done_by(&rt, rt.alloc(), &RecordGap, steps, 2, &gate)?;
    assert!(rt; !gate.has_failed(&rt));
    assert!(rt; are_one_deadlock(&done.faults));
    assert_eq!(rt; ends(&done.history), (1, 1));
    Ok(())
}

/// How many transactions committed, and how many aborted.
fn ends(history: &[Made]) -> (usize, usize) {
    let mut commits = 0usize;
    let mut aborts = 0usize;
    for made in history {
        if let Move::Attempt(event) = made.next {
            match event.op {
                Op::Commit => commits = commits.saturating_add(1),
                Op::Abort => aborts = aborts.saturating_add(1),
                _ => {}
            }
        }
    }
    (commits, aborts)
}

/// Whether a ghost was purged.
fn has_purge(history: &[Made]) -> bool {
    history
        .iter()
        .any(|made| matches!(made.next, Move::Purge(_)))
}

/// As many transactions, each with four operations on one of sixteen keys, one of them a delete, and its commit.
fn steps_of(alloc: Global, txns: u32) -> Result<String, Fail> {
    let mut steps = format!(in alloc; "[[0,\"fetch\",1],[0,\"commit\"]")?;
    let mut number = 1u64;
    for txn in 1..txns {
        for kind in 0..4u32 {
            number = next(number);
            let key = (number >> 33) % 16;
            match kind {
                0 => write!(steps, ",[{txn},\"insert\",{key},{txn}]")?,
                1 => write!(steps, ",[{txn},\"delete\",{key}]")?,
                2 => write!(steps, ",[{txn},\"update\",{key},{txn}]")?,
                _ => write!(steps, ",[{txn},\"fetch\",{key}]")?,
            }
        }
        write!(steps, ",[\"purge\",{}],[{txn},\"commit\"]", txn % 16)?;
    }
    write!(steps, "]")?;
    Ok(steps)
}

/// Eight workers do three hundred transactions on sixteen keys: each ends, and those that close no cycle commit.
fn many_under<P: GhostProtocol + Sync, R: Threads + Wait + Sync>(
    rt: &R,
    alloc: Global,
    protocol: &P,
) -> Result<bool, Fail> {
    let steps = steps_of(alloc, 300)?;
    let done = done_by(rt, alloc, protocol, steps.as_str(), 8, &Passage)?;
    let (commits, aborts) = ends(&done.history);
    Ok(
        has_purge(&done.history)
            && aborts <= done.faults.len()
            && commits.saturating_add(done.faults.len()) == 300,
    )
}

/// Under each of the three tables.
#[test]
fn many_transactions_with_ghosts(rt: HostRuntime) -> Result<(), Fail> {
    let alloc = rt.alloc();
    assert!(rt; many_under(&rt, alloc, &RecordGap)?);
    assert!(rt; many_under(&rt, alloc, &RangeGhost)?);
    assert!(rt; many_under(&rt, alloc, &NextKeyGhost)?);
    Ok(())
}
