//! Steps of a machine without a log, against answers worked out by hand.
use kr_index::Sorted;
use kr_locks::List;
use kr_machine::{NotDone, Stepper};
use kr_model::{Mode, Name, Op, Refusal, Reply, Row, Span};
use kr_protocol::Kvl;
use std::test::Fail;

const IX: Mode = 2;

const S: Mode = 3;

#[test]
fn steps_at_once(rt: HostRuntime) -> Result<(), Fail> {
    let alloc = rt.alloc();
    let mut stepper = Stepper::new(alloc, Kvl, Sorted::new(alloc), List::new(alloc));
    assert!(rt; matches!(stepper.step(1, Op::Insert(10, 7)), Reply::Done));
    assert!(rt; matches!(stepper.step(2, Op::Fetch(10)), Reply::Blocked(_)));
    assert!(rt; !stepper.active(2));
    assert!(rt; matches!(stepper.step(1, Op::Commit), Reply::Committed));
    assert!(rt; matches!(stepper.step(2, Op::Fetch(10)), Reply::Found(7)));
    assert!(rt;
        matches!(
            stepper.step(1, Op::Fetch(10)),
            Reply::Refused(Refusal::Ended)
        )
    );
    assert_eq!(rt; stepper.index()?.as_slice(), [(10, 7)].as_slice());
    assert_eq!(rt; stepper.unfinished()?.as_slice(), [2].as_slice());
    Ok(())
}

#[test]
fn steps_at_once_where_they_stand(rt: HostRuntime) -> Result<(), Fail> {
    let alloc = rt.alloc();
    let mut stepper = Stepper::new(alloc, Kvl, Sorted::new(alloc), List::new(alloc));
    assert!(rt; matches!(stepper.step(2, Op::Insert(200, 5)), Reply::Done));
    assert!(rt; matches!(stepper.step(1, Op::Insert(10, 7)), Reply::Done));
    assert!(rt; matches!(stepper.step(1, Op::Insert(20, 8)), Reply::Done));
    assert!(rt; matches!(stepper.step(1, Op::Insert(20, 9)), Reply::Duplicate));
    assert!(rt; matches!(stepper.step(1, Op::Fetch(20)), Reply::Found(8)));
    assert!(rt; matches!(stepper.step(1, Op::Delete(20)), Reply::Blocked(_)));
    assert!(rt; matches!(stepper.step(1, Op::Scan(10, 20)), Reply::Going(10)));
    assert!(rt;
        matches!(
            stepper.step(1, Op::Fetch(10)),
            Reply::Refused(Refusal::Busy)
        )
    );
    assert!(rt; matches!(stepper.step(1, Op::Go), Reply::Rows(_)));
    assert!(rt; matches!(stepper.step(1, Op::Go), Reply::Refused(Refusal::NoScan)));
    assert!(rt; matches!(stepper.step(2, Op::Commit), Reply::Committed));
    assert!(rt; matches!(stepper.step(1, Op::Delete(20)), Reply::Deleted(8)));
    assert!(rt; matches!(stepper.step(1, Op::Commit), Reply::Committed));
    assert_eq!(rt; stepper.index()?.as_slice(), [(10, 7), (200, 5)].as_slice());
    Ok(())
}

#[test]
fn steps_that_are_accepted(rt: HostRuntime) -> Result<(), Fail> {
    let alloc = rt.alloc();
    let mut stepper = Stepper::new(alloc, Kvl, Sorted::new(alloc), List::new(alloc));
    let first = stepper.step_if(1, Op::Insert(10, 7), |reply: &Reply| -> Result<u8, u8> {
        if matches!(reply, Reply::Done) {
            Ok(3)
        } else {
            Err(4)
        }
    });
    assert!(rt; matches!(first, Ok((Reply::Done, 3))));
    let next = stepper.step_if(1, Op::Delete(10), |reply: &Reply| -> Result<u8, u8> {
        if matches!(reply, Reply::Deleted(7)) {
            Ok(5)
        } else {
            Err(6)
        }
    });
    assert!(rt; matches!(next, Ok((Reply::Deleted(7), 5))));
    let blocked = stepper.step_if(2, Op::Fetch(10), |_| -> Result<u8, u8> { Ok(1) });
    assert!(rt; matches!(blocked, Err(NotDone::NotGranted(Reply::Blocked(_)))));
    let end = stepper.step_if(1, Op::Commit, |_| -> Result<u8, u8> { Ok(2) });
    assert!(rt; matches!(end, Ok((Reply::Committed, 2))));
    assert!(rt; stepper.index()?.as_slice().is_empty());
    Ok(())
}

#[test]
fn steps_that_are_declined(rt: HostRuntime) -> Result<(), Fail> {
    let alloc = rt.alloc();
    let mut stepper = Stepper::new(alloc, Kvl, Sorted::new(alloc), List::new(alloc));
    let first = stepper.step_if(1, Op::Insert(10, 7), |_| -> Result<u8, u8> { Err(3) });
    assert!(rt; matches!(first, Err(NotDone::Declined(3))));
    assert!(rt; !stepper.active(1));
    assert!(rt; matches!(stepper.step(1, Op::Insert(20, 8)), Reply::Done));
    let next = stepper.step_if(1, Op::Insert(10, 7), |_| -> Result<u8, u8> { Err(4) });
    assert!(rt; matches!(next, Err(NotDone::Declined(4))));
    assert_eq!(rt; stepper.own(1, Name::Key(10)), 0);
    assert!(rt; matches!(stepper.step(2, Op::Insert(10, 9)), Reply::Done));
    let end = stepper.step_if(1, Op::Commit, |_| -> Result<u8, u8> { Err(5) });
    assert!(rt; matches!(end, Err(NotDone::Declined(5))));
    assert!(rt; stepper.active(1));
    assert!(rt; matches!(stepper.step(1, Op::Abort), Reply::Aborted));
    assert!(rt; matches!(stepper.step(2, Op::Commit), Reply::Committed));
    assert_eq!(rt; stepper.index()?.as_slice(), [(10, 9)].as_slice());
    Ok(())
}

#[test]
fn what_is_requested_and_held(rt: HostRuntime) -> Result<(), Fail> {
    let alloc = rt.alloc();
    let mut stepper = Stepper::new(alloc, Kvl, Sorted::new(alloc), List::new(alloc));
    assert!(rt; matches!(stepper.step(1, Op::Insert(10, 7)), Reply::Done));
    let plan = stepper.plan(2, Op::Scan(5, 20)).unwrap();
    assert_eq!(rt; plan.row, Row::ScanKey);
    assert!(rt; plan.current == Some((Name::Key(10), S, Span::Commit)));
    assert!(rt; plan.next.is_none());
    assert!(rt; stepper.plan(2, Op::Go).is_none());
    assert!(rt; stepper.plan(1, Op::Commit).is_none());
    assert_eq!(rt; stepper.own(1, Name::Key(10)), IX);
    assert_eq!(rt; stepper.own(1, Name::End), 0);
    assert_eq!(rt; stepper.own(2, Name::Key(10)), 0);
    Ok(())
}

#[test]
fn who_blocks_an_operation(rt: HostRuntime) -> Result<(), Fail> {
    let alloc = rt.alloc();
    let mut stepper = Stepper::new(alloc, Kvl, Sorted::new(alloc), List::new(alloc));
    assert!(rt; matches!(stepper.step(1, Op::Insert(10, 7)), Reply::Done));
    assert_eq!(rt;
        stepper.blockers(2, Op::Fetch(10))?.as_slice(),
        [1].as_slice()
    );
    assert!(rt; stepper.is_blocked(2, Op::Fetch(10)));
    assert!(rt; stepper.blockers(2, Op::Insert(5, 1))?.is_empty());
    assert!(rt; !stepper.is_blocked(2, Op::Insert(5, 1)));
    assert!(rt; stepper.blockers(2, Op::Go)?.is_empty());
    assert!(rt; !stepper.is_blocked(2, Op::Go));
    assert!(rt; stepper.blockers(1, Op::Commit)?.is_empty());
    assert!(rt; !stepper.is_blocked(1, Op::Commit));
    assert!(rt; !stepper.active(2));
    Ok(())
}
