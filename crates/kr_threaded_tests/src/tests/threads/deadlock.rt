//! A deadlock of two workers.

use super::done_by;
use super::gates::Meeting;
use kr_model::{Event, Op, Txn};
use kr_report::{Answered, StepFault, Threaded, WhyNotDone};
use kr_serial::judge;
use std::test::Fail;

/// How often a step was done.
fn times(history: &[Answered], txn: Txn, op: Op) -> u32 {
    let mut times = 0u32;
    for answered in history {
        if answered.event == (Event { txn, op }) {
            times = times.saturating_add(1);
        }
    }
    times
}

/// Whether a fault is that the second step of a transaction met a deadlock with the other.
fn is_deadlock(fault: &StepFault, txn: Txn, other: Txn) -> bool {
    match &fault.cause {
        WhyNotDone::Deadlock(cycle) => fault.txn == txn
            && fault.step == 2
            && cycle.as_slice() == [txn, other].as_slice(),
        WhyNotDone::Refused(_) => false,
    }
}

/// Whether, of five steps, one is the abort of the one and one the commit of the other.
fn have_ended(history: &[Answered], aborted: Txn, committed: Txn) -> bool {
    history.len() == 5
        && times(history, aborted, Op::Abort) == 1
        && times(history, committed, Op::Commit) == 1
}

/// Whether one of the two was told the deadlock and aborted, and the other committed.
fn is_broken(done: &Threaded) -> bool {
    match done.faults.as_slice() {
        [fault] => {
            (is_deadlock(fault, 1, 2) && have_ended(&done.history, 1, 2))
                || (is_deadlock(fault, 2, 1) && have_ended(&done.history, 2, 1))
        }
        _ => false,
    }
}

/// Two workers each delete what the other has read: one is told a deadlock and aborts, and the other goes on.
#[test]
fn a_deadlock_in_a_run(rt: HostRuntime) -> Result<(), Fail> {
    let alloc = rt.alloc();
    let gate = Meeting::after_the_first();
    let steps =
        "[[1,\"fetch\",10],[2,\"fetch\",20],[1,\"delete\",20],[2,\"delete\",10],[1,\"commit\"],[2,\"commit\"]]";
    let done = done_by(&rt, alloc, steps, 2, &gate)?;
    assert!(rt; !gate.has_failed(&rt));
    assert!(rt; is_broken(&done));
    assert!(rt; judge(alloc, &done.ran)?.is_serial());
    Ok(())
}
