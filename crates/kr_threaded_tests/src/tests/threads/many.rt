//! Many transactions of several workers on a few keys.

use super::{done_by, done_with_updates, next};
use kr_model::{Op, Refusal, Reply};
use kr_report::{Answered, StepFault, WhyNotDone};
use kr_serial::judge;
use kr_threads::Passage;
use std::alloc::Global;
use std::fmt::Write;
use std::test::Fail;

/// As many transactions, each with four operations on one of sixteen keys and its commit. With updates, every fourth takes
/// three changes back before it.
fn steps_of(alloc: Global, txns: u32, updates: bool) -> Result<String, Fail> {
    let mut steps = format!(in alloc; "[[0,\"fetch\",1],[0,\"commit\"]")?;
    let mut number = 1u64;
    for txn in 1..txns {
        for _ in 0..4u32 {
            number = next(number);
            write_operation(&mut steps, txn, number, updates)?;
        }
        if updates && txn % 4 == 0 {
            write!(steps, ",[{txn},\"back\"],[{txn},\"back\"],[{txn},\"back\"]")?;
        }
        write!(steps, ",[{txn},\"commit\"]")?;
    }
    write!(steps, "]")?;
    Ok(steps)
}

/// An insert, a delete, an update if there are any, or a fetch.
fn write_operation(steps: &mut String, txn: u32, number: u64, updates: bool) -> Result<(), Fail> {
    let key = (number >> 33) % 16;
    match (number >> 40) % 4 {
        0 => write!(steps, ",[{txn},\"insert\",{key},{txn}]")?,
        1 => write!(steps, ",[{txn},\"delete\",{key}]")?,
        2 if updates => write!(steps, ",[{txn},\"update\",{key},{txn}]")?,
        _ => write!(steps, ",[{txn},\"fetch\",{key}]")?,
    }
    Ok(())
}

/// How many transactions committed, and how many ended.
fn ends(history: &[Answered]) -> (usize, usize) {
    let mut commits = 0usize;
    let mut ends = 0usize;
    for answered in history {
        match answered.event.op {
            Op::Commit => {
                commits = commits.saturating_add(1);
                ends = ends.saturating_add(1);
            }
            Op::Abort => ends = ends.saturating_add(1),
            _ => {}
        }
    }
    (commits, ends)
}

/// Whether each step that wasn't done closed a cycle.
fn are_deadlocks(faults: &[StepFault]) -> bool {
    faults
        .iter()
        .all(|fault| matches!(&fault.cause, WhyNotDone::Deadlock(_)))
}

/// Eight workers do two thousand transactions on sixteen keys: those that close no cycle commit, and the run is serializable.
#[test]
fn many_transactions(rt: HostRuntime) -> Result<(), Fail> {
    let alloc = rt.alloc();
    let steps = steps_of(alloc, 2000, false)?;
    let done = done_by(&rt, alloc, steps.as_str(), 8, &Passage)?;
    assert!(rt; are_deadlocks(&done.faults));
    let (commits, _) = ends(&done.history);
    assert_eq!(rt; commits.saturating_add(done.faults.len()), 2000);
    assert!(rt; judge(alloc, &done.ran)?.is_serial());
    Ok(())
}

/// Whether a step closed a cycle, would have undone what isn't there, or is the commit of one that rolls back.
fn is_expected(fault: &StepFault) -> bool {
    match &fault.cause {
        WhyNotDone::Deadlock(_) => true,
        WhyNotDone::Refused(Reply::Refused(Refusal::NothingLeft)) => fault.op == Op::Back,
        WhyNotDone::Refused(Reply::Refused(Refusal::RollingBack)) => fault.op == Op::Commit,
        WhyNotDone::Refused(_) => false,
    }
}

/// Whether a key was updated, and a change undone before the last of its transaction.
fn has_both(history: &[Answered]) -> bool {
    let mut updated = false;
    let mut undone = false;
    for answered in history {
        match answered.reply {
            Reply::Updated(_) => updated = true,
            Reply::Undone(left) if left > 0 => undone = true,
            _ => {}
        }
    }
    updated && undone
}

/// Eight workers do a thousand transactions on sixteen keys, and take some of them back one change at a time: each ends,
/// and the run is serializable.
#[test]
fn many_changes_taken_back(rt: HostRuntime) -> Result<(), Fail> {
    let alloc = rt.alloc();
    let steps = steps_of(alloc, 1000, true)?;
    let done = done_with_updates(&rt, alloc, steps.as_str(), 8, &Passage)?;
    assert!(rt; done.faults.iter().all(|fault| is_expected(fault)));
    let (_, ended) = ends(&done.history);
    assert_eq!(rt; ended, 1000);
    assert!(rt; has_both(&done.history));
    assert!(rt; judge(alloc, &done.ran)?.is_serial());
    Ok(())
}
