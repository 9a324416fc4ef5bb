//! Parts as texts, compared with texts written by hand.
use crate::tests::trace::given::Given;
use kr_model::{Event, Items, Mode, Name, Op, Refusal, Reply, Txn};
use kr_protocol::Kvl;
use kr_trace_lines::{Conflict, Deviation, DeviationKind, Observed, TraceVerdict};
use kr_trace_text::{LoggedStep, part_text, verdict_text};
use std::alloc::{AllocError, Global};
use std::test::Fail;

const IX: Mode = 2;

const S: Mode = 3;

const SIX: Mode = 4;

/// A step of line `number`.
fn step(
    alloc: Global,
    number: u64,
    txn: Txn,
    op: Op,
    given: Given,
) -> Result<LoggedStep, AllocError> {
    Ok(LoggedStep {
        number,
        event: Event { txn, op },
        observed: given.observed(alloc)?,
    })
}

/// A grant in spite of these locks.
fn granted(alloc: Global, conflicts: &[Conflict]) -> Result<DeviationKind, AllocError> {
    Ok(DeviationKind::Granted {
        blockers: Items::from_vec(vec![in alloc; 1]?),
        conflicts: Items::from_vec(conflicts.to_vec(alloc)?),
    })
}

/// The text of a part whose only step is that of transaction 2 in line 7, which differs so.
fn text(alloc: Global, op: Op, given: Given, kind: DeviationKind) -> Result<String, AllocError> {
    let steps = vec![in alloc; step(alloc, 7, 2, op, given)?]?;
    let deviation = Deviation { line: 7, kind };
    part_text(alloc, &Kvl, 3, &[], steps.as_slice(), Some(&deviation))
}

const PHANTOM: &str = "Part 1. Initial index: 10:1, 20:2, 30:3.

     line      operation    answer
        2  T1  fetch 17     none
        3  T2  insert 17 5  done       <- differs
        4  T2  commit       committed
        5  T1  commit       committed

Line 3: T2's insert 17 5 was answered done, and the table blocks it.
   It requests IX on 20, where T1 has held S since line 2: IX is not compatible with S.";

#[test]
fn a_phantom(rt: HostRuntime) -> Result<(), Fail> {
    let alloc = rt.alloc();
    let steps = vec![in alloc;
        step(alloc, 2, 1, Op::Fetch(17), Given::None)?,
        step(alloc, 3, 2, Op::Insert(17, 5), Given::Done)?,
        step(alloc, 4, 2, Op::Commit, Given::Committed)?,
        step(alloc, 5, 1, Op::Commit, Given::Committed)?,
    ]?;
    let lock = Conflict {
        name: Name::Key(20),
        holder: 1,
        held: S,
        since: 2,
        asked: IX,
        tested: IX,
    };
    let deviation = Deviation {
        line: 3,
        kind: granted(alloc, &[lock])?,
    };
    let verdict = TraceVerdict::NotSerial {
        txn: 1,
        operation: 1,
        given: Observed::None,
        serial: Reply::Found(5),
    };
    let opening = [(10, 1), (20, 2), (30, 3)];
    let differs = Some(&deviation);
    let found = part_text(alloc, &Kvl, 1, &opening, steps.as_slice(), differs)?;
    assert_eq!(rt; found.as_str(), PHANTOM);
    let found = verdict_text(alloc, &verdict)?;
    assert_eq!(rt;
        found.as_str(),
        "Not serializable in commit order: operation 1 of T1 was answered none; run serially it is answered found 5."
    );
    Ok(())
}

const CONFORMING: &str = "Part 3. The initial index is empty.

     line      operation  answer
       12  T1  scan 1 25  rows 10:1 20:2
        7  T2  back       undone

Each answer is the table's.";

#[test]
fn a_part_that_conforms(rt: HostRuntime) -> Result<(), Fail> {
    let alloc = rt.alloc();
    let rows = Given::Rows(&[(10, 1), (20, 2)]);
    let steps = vec![in alloc;
        step(alloc, 12, 1, Op::Scan(1, 25), rows)?,
        step(alloc, 7, 2, Op::Back, Given::Undone(None))?,
    ]?;
    let found = part_text(alloc, &Kvl, 3, &[], steps.as_slice(), None)?;
    assert_eq!(rt; found.as_str(), CONFORMING);
    Ok(())
}

const CONVERTED: &str = "

     line      operation  answer
        7  T2  fetch 30   found 3  <- differs

Line 7: T2's fetch 30 was answered found 3, and the table blocks it.
   It requests S on 30, tested in the converted mode SIX, where T1 has held IX since line 4: SIX is not compatible with IX.
   It requests S on End, tested in the converted mode SIX, where T4 has held S since line 6: SIX is not compatible with S.";

#[test]
fn locks_in_the_way(rt: HostRuntime) -> Result<(), Fail> {
    let alloc = rt.alloc();
    let lock = Conflict {
        name: Name::Key(30),
        holder: 1,
        held: IX,
        since: 4,
        asked: S,
        tested: SIX,
    };
    let at_end = Conflict {
        name: Name::End,
        holder: 4,
        held: S,
        since: 6,
        ..lock
    };
    let kind = granted(alloc, &[lock, at_end])?;
    let found = text(alloc, Op::Fetch(30), Given::Found(3), kind)?;
    assert!(rt; found.as_str().ends_with(CONVERTED));
    Ok(())
}

#[test]
fn steps_that_are_blocked(rt: HostRuntime) -> Result<(), Fail> {
    let alloc = rt.alloc();
    let named = Given::Blocked(&[7, 8]);
    let kind = DeviationKind::Blocked(Reply::Deleted(2));
    let found = text(alloc, Op::Delete(20), named, kind)?;
    let expected =
        "\n\nLine 7: T2's delete 20 was answered blocked by T7, T8, and the table grants it with the answer deleted 2.";
    assert!(rt; found.as_str().ends_with(expected));
    let kind = DeviationKind::Blockers {
        misnamed: Items::from_vec(vec![in alloc; 8, 9]?),
        blockers: Items::from_vec(vec![in alloc; 1, 3]?),
    };
    let found = text(alloc, Op::Update(20, 6), Given::Blocked(&[7, 8, 9]), kind)?;
    let expected =
        "\n\nLine 7: T2's update 20 6 was answered blocked by T7, T8, T9, and no conflicting lock or wait of T8, T9 explains that. The table's blockers: T1, T3.";
    assert!(rt; found.as_str().ends_with(expected));
    let kind = DeviationKind::Blockers {
        misnamed: Items::from_vec(vec![in alloc; 8]?),
        blockers: Items::from_vec(Vec::new(alloc)),
    };
    let found = text(alloc, Op::Go, named, kind)?;
    let expected =
        "\n\nLine 7: T2's go was answered blocked by T7, T8, and no conflicting lock or wait of T8 explains that. The table has no blockers.";
    assert!(rt; found.as_str().ends_with(expected));
    Ok(())
}

#[test]
fn other_answers(rt: HostRuntime) -> Result<(), Fail> {
    let alloc = rt.alloc();
    let kind = DeviationKind::Answer(Reply::Absent);
    let found = text(alloc, Op::Update(20, 3), Given::Updated(Some(2)), kind)?;
    let expected =
        "\n\nLine 7: T2's update 20 3 was answered updated 2, and the table's answer is absent.";
    assert!(rt; found.as_str().ends_with(expected));
    let kind = DeviationKind::Refused(Refusal::Busy);
    let found = text(alloc, Op::Fetch(20), Given::Found(2), kind)?;
    let expected =
        "\n\nLine 7: T2's fetch 20 was answered found 2, and T2 may not take this step: its scan is in progress.";
    assert!(rt; found.as_str().ends_with(expected));
    Ok(())
}

#[test]
fn verdicts(rt: HostRuntime) -> Result<(), Fail> {
    let alloc = rt.alloc();
    let serial = verdict_text(alloc, &TraceVerdict::Serial)?;
    assert_eq!(rt; serial.as_str(), "Serializable in commit order.");
    let order = Items::from_vec(vec![in alloc; 2, 1]?);
    let ordered = verdict_text(alloc, &TraceVerdict::SerialInOrder(order))?;
    assert_eq!(rt; ordered.as_str(), "Serializable in the order T2, T1.");
    let unknown = verdict_text(alloc, &TraceVerdict::Unknown)?;
    assert_eq!(rt;
        unknown.as_str(),
        "Not serializable in commit order, and not tried in all others: they are too many."
    );
    Ok(())
}
