use kr_model::{Event, Op, Refusal, Reply, Txn};
use kr_workers::{LeftOut, StepFault, WhyNotDone, are_placed};
use std::alloc::{AllocError, Global};

/// The history of two transactions, of which 2 did its first step and its fourth, and 9 its first.
fn history() -> [Event; 4] {
    [
        Event {
            txn: 9,
            op: Op::Fetch(20),
        },
        Event {
            txn: 2,
            op: Op::Fetch(10),
        },
        Event {
            txn: 2,
            op: Op::Fetch(30),
        },
        Event {
            txn: 9,
            op: Op::Abort,
        },
    ]
}

/// A step that was refused between these places.
fn left_out(txn: Txn, step: u64, last: Option<usize>, next: Option<usize>) -> LeftOut {
    LeftOut {
        fault: StepFault {
            txn,
            step,
            op: Op::Go,
            cause: WhyNotDone::Refused(Reply::Refused(Refusal::NoScan)),
        },
        last,
        next,
    }
}

/// Whether this step is at its place, beside a second and a third step of transaction 2 that are at theirs.
fn is_placed(alloc: Global, other: LeftOut) -> Result<bool, AllocError> {
    let mut left = Vec::new(alloc);
    left.push(left_out(2, 2, Some(1), Some(2)))?;
    left.push(left_out(2, 3, Some(1), Some(2)))?;
    left.push(other)?;
    are_placed(alloc, left.as_slice(), &history())
}

#[test]
fn steps_between_their_transactions_steps_are_placed(rt: HostRuntime) -> Result<(), AllocError> {
    assert!(rt; is_placed(rt.alloc(), left_out(9, 1, None, Some(0)))?);
    assert!(rt; is_placed(rt.alloc(), left_out(9, 2, Some(0), Some(3)))?);
    assert!(rt; is_placed(rt.alloc(), left_out(9, 3, Some(3), None))?);
    assert!(rt; is_placed(rt.alloc(), left_out(5, 1, None, None))?);
    assert!(rt; are_placed(rt.alloc(), &[], &history())?);
    Ok(())
}

#[test]
fn a_step_at_another_number_is_not_placed(rt: HostRuntime) -> Result<(), AllocError> {
    assert!(rt; !is_placed(rt.alloc(), left_out(9, 1, Some(0), Some(3)))?);
    assert!(rt; !is_placed(rt.alloc(), left_out(9, 3, Some(0), Some(3)))?);
    assert!(rt; !is_placed(rt.alloc(), left_out(9, 0, None, Some(0)))?);
    Ok(())
}

#[test]
fn a_step_at_places_of_another_transaction_is_not_placed(
    rt: HostRuntime,
) -> Result<(), AllocError> {
    assert!(rt; !is_placed(rt.alloc(), left_out(9, 2, Some(0), Some(2)))?);
    assert!(rt; !is_placed(rt.alloc(), left_out(9, 2, Some(1), Some(3)))?);
    assert!(rt; !is_placed(rt.alloc(), left_out(9, 2, Some(0), Some(4)))?);
    assert!(rt; !is_placed(rt.alloc(), left_out(9, 2, Some(0), None))?);
    Ok(())
}
