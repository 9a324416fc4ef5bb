use kr_model::{Event, Op, Refusal, Reply, Txn, Txns};
use kr_workers::{Dealt, StepFault, WhyNotDone, follows};
use std::alloc::{AllocError, Global};

/// An operation of a transaction.
fn by(txn: Txn, op: Op) -> Event {
    Event { txn, op }
}

/// Three transactions, step by step in turn: the second doesn't end, and the third's second step meets a deadlock.
fn script() -> [Event; 9] {
    [
        by(7, Op::Insert(15, 5)),
        by(2, Op::Go),
        by(9, Op::Fetch(20)),
        by(7, Op::Fetch(15)),
        by(2, Op::Fetch(10)),
        by(9, Op::Delete(15)),
        by(7, Op::Commit),
        by(9, Op::Fetch(30)),
        by(9, Op::Commit),
    ]
}

/// What is done of it: the second and the third transaction are aborted in the end.
fn history() -> [Event; 7] {
    [
        by(9, Op::Fetch(20)),
        by(7, Op::Insert(15, 5)),
        by(2, Op::Fetch(10)),
        by(7, Op::Fetch(15)),
        by(9, Op::Abort),
        by(2, Op::Abort),
        by(7, Op::Commit),
    ]
}

/// A step that the machine refused.
fn refused(txn: Txn, step: u64, op: Op) -> StepFault {
    let cause = WhyNotDone::Refused(Reply::Refused(Refusal::NoScan));
    StepFault {
        txn,
        step,
        op,
        cause,
    }
}

/// A step at which a transaction met a deadlock with transaction 7.
fn deadlock(alloc: Global, txn: Txn, step: u64, op: Op) -> Result<StepFault, AllocError> {
    let mut cycle = Vec::new(alloc);
    cycle.push(txn)?;
    cycle.push(7)?;
    let cause = WhyNotDone::Deadlock(Txns::from_vec(cycle));
    Ok(StepFault {
        txn,
        step,
        op,
        cause,
    })
}

/// The faults of the script's run.
fn faults(alloc: Global) -> Result<Vec<StepFault>, AllocError> {
    let mut faults = Vec::new(alloc);
    faults.push(refused(2, 1, Op::Go))?;
    faults.push(deadlock(alloc, 9, 2, Op::Delete(15))?)?;
    Ok(faults)
}

/// Whether events follow these steps with these faults.
fn follow(
    alloc: Global,
    steps: &[Event],
    faults: &[StepFault],
    events: &[Event],
) -> Result<bool, AllocError> {
    let dealt = Dealt::new(alloc, steps)?;
    follows(alloc, dealt, faults, events)
}

/// Whether these events follow the script with its faults.
fn does_follow(alloc: Global, events: &[Event]) -> Result<bool, AllocError> {
    let faults = faults(alloc)?;
    follow(alloc, &script(), faults.as_slice(), events)
}

/// Whether the history follows the script with these faults.
fn follows_with(alloc: Global, one: StepFault, other: StepFault) -> Result<bool, AllocError> {
    let mut faults = Vec::new(alloc);
    faults.push(one)?;
    faults.push(other)?;
    follow(alloc, &script(), faults.as_slice(), &history())
}

#[test]
fn a_history_without_the_missed_steps_and_with_closing_aborts_follows(
    rt: HostRuntime,
) -> Result<(), AllocError> {
    assert!(rt; does_follow(rt.alloc(), &history())?);
    Ok(())
}

#[test]
fn each_transaction_may_go_at_another_pace(rt: HostRuntime) -> Result<(), AllocError> {
    let events = [
        by(7, Op::Insert(15, 5)),
        by(7, Op::Fetch(15)),
        by(7, Op::Commit),
        by(2, Op::Fetch(10)),
        by(2, Op::Abort),
        by(9, Op::Fetch(20)),
        by(9, Op::Abort),
    ];
    assert!(rt; does_follow(rt.alloc(), &events)?);
    Ok(())
}

#[test]
fn nothing_follows_no_steps(rt: HostRuntime) -> Result<(), AllocError> {
    assert!(rt; follow(rt.alloc(), &[], &[], &[])?);
    assert!(rt; !follow(rt.alloc(), &[], &[], &[by(1, Op::Abort)])?);
    Ok(())
}

#[test]
fn a_history_with_an_event_less_does_not_follow(rt: HostRuntime) -> Result<(), AllocError> {
    let events = history();
    for i in 0..7usize {
        let mut others = Vec::new(rt.alloc());
        for j in 0..7usize {
            if i != j {
                others.push(events[j])?;
            }
        }
        assert!(rt; !does_follow(rt.alloc(), others.as_slice())?);
    }
    Ok(())
}

#[test]
fn a_history_with_an_event_more_does_not_follow(rt: HostRuntime) -> Result<(), AllocError> {
    let extra = [
        by(7, Op::Abort),
        by(2, Op::Go),
        by(9, Op::Delete(15)),
        by(8, Op::Fetch(10)),
    ];
    for event in &extra {
        let mut events = Vec::new(rt.alloc());
        events.extend_from_slice(&history())?;
        events.push(*event)?;
        assert!(rt; !does_follow(rt.alloc(), events.as_slice())?);
    }
    Ok(())
}

#[test]
fn a_transaction_that_goes_out_of_order_does_not_follow(rt: HostRuntime) -> Result<(), AllocError> {
    let mut events = history();
    events.swap(1, 3);
    assert!(rt; !does_follow(rt.alloc(), &events)?);
    Ok(())
}

#[test]
fn an_operation_of_another_transaction_does_not_follow(rt: HostRuntime) -> Result<(), AllocError> {
    let mut events = history();
    events[2] = by(7, Op::Fetch(10));
    assert!(rt; !does_follow(rt.alloc(), &events)?);
    Ok(())
}

#[test]
fn a_step_is_missed_only_with_a_fault(rt: HostRuntime) -> Result<(), AllocError> {
    assert!(rt; !follow(rt.alloc(), &script(), &[], &history())?);
    let fault = [refused(2, 1, Op::Go)];
    assert!(rt; !follow(rt.alloc(), &script(), &fault, &history())?);
    Ok(())
}

#[test]
fn a_fault_is_of_a_step_of_the_script(rt: HostRuntime) -> Result<(), AllocError> {
    let alloc = rt.alloc();
    let right = deadlock(alloc, 9, 2, Op::Delete(15))?;
    assert!(rt; follows_with(alloc, refused(2, 1, Op::Go), right)?);
    let right = deadlock(alloc, 9, 2, Op::Delete(15))?;
    assert!(rt; !follows_with(alloc, refused(2, 1, Op::Fetch(10)), right)?);
    let right = deadlock(alloc, 9, 2, Op::Delete(15))?;
    assert!(rt; !follows_with(alloc, refused(2, 0, Op::Go), right)?);
    let after = refused(9, 5, Op::Fetch(10));
    assert!(rt; !follows_with(alloc, deadlock(alloc, 9, 2, Op::Delete(15))?, after)?);
    Ok(())
}

#[test]
fn faults_rise(rt: HostRuntime) -> Result<(), AllocError> {
    let alloc = rt.alloc();
    let one = deadlock(alloc, 9, 2, Op::Delete(15))?;
    assert!(rt; !follows_with(alloc, one, refused(2, 1, Op::Go))?);
    let steps = [by(1, Op::Go), by(1, Op::Commit)];
    let twice = [refused(1, 1, Op::Go), refused(1, 1, Op::Go)];
    assert!(rt; follow(alloc, &steps, &twice[..1], &steps[1..])?);
    assert!(rt; !follow(alloc, &steps, &twice, &steps[1..])?);
    Ok(())
}

#[test]
fn events_are_dealt_to_their_transactions(rt: HostRuntime) -> Result<(), AllocError> {
    let dealt = Dealt::new(rt.alloc(), &script())?;
    assert!(rt; dealt.txns() == [7, 2, 9].as_slice());
    assert!(rt; dealt.ops(2) == [Op::Go, Op::Fetch(10)].as_slice());
    assert!(rt; dealt.ops(7) == [Op::Insert(15, 5), Op::Fetch(15), Op::Commit].as_slice());
    assert_eq!(rt; dealt.ops(9).len(), 4);
    assert!(rt; dealt.ops(8).is_empty());
    Ok(())
}

/// A transaction that rolls back is active still: it is aborted in the end, also where its commit was refused.
#[test]
fn a_transaction_that_rolls_back_is_aborted(rt: HostRuntime) -> Result<(), AllocError> {
    let steps = [by(1, Op::Update(20, 9)), by(1, Op::Back), by(1, Op::Commit)];
    let fault = [refused(1, 3, Op::Commit)];
    let events = [by(1, Op::Update(20, 9)), by(1, Op::Back), by(1, Op::Abort)];
    assert!(rt; follow(rt.alloc(), &steps, &fault, &events)?);
    assert!(rt; !follow(rt.alloc(), &steps, &fault, &events[..2])?);
    assert!(rt; !follow(rt.alloc(), &steps, &[], &events)?);
    Ok(())
}
