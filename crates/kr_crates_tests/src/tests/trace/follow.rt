//! Lines followed under key-value locking, against deviations worked out by hand.

mod rows;
mod since;

use crate::tests::trace::given::Given;
use kr_model::{Event, Op, Txn};
use kr_protocol::Kvl;
use kr_trace_follow::Follower;
use kr_trace_lines::Deviation;
use rows::{ROWS, Row};
use since::SINCE_ROWS;
use std::alloc::{AllocError, Global};
use std::process::Abort;
use std::test::Fail;

/// The deviation after the last of these lines, and how many are queued.
fn follow(
    alloc: Global,
    lines: &[(Txn, Op, Given)],
) -> Result<(Option<Deviation>, u64), AllocError> {
    let mut follower = Follower::new(alloc, &Kvl, &[(10, 1), (20, 2), (30, 3)])?;
    let mut last = None;
    let mut number = 0;
    for &(txn, op, given) in lines {
        number += 1;
        last = follower.line(number, Event { txn, op }, &given.observed(alloc)?)?;
    }
    Ok((last, follower.queued()))
}

/// Checks one row.
fn check(rt: &impl Abort, alloc: Global, row: &Row) -> Result<(), AllocError> {
    let (found, queued) = follow(alloc, row.lines)?;
    let is_right = match (&found, row.first) {
        (Some(deviation), Some((line, kind))) => {
            deviation.line == line && kind.is(&deviation.kind)
        }
        (None, None) => true,
        (_, _) => false,
    };
    assert!(rt; is_right, "{}: {found:?}", row.name);
    assert!(rt; queued == row.queued, "{}: {queued}", row.name);
    Ok(())
}

#[test]
fn follows_lines(rt: HostRuntime) -> Result<(), Fail> {
    for row in ROWS {
        check(&rt, rt.alloc(), row)?;
    }
    Ok(())
}

#[test]
fn says_since_which_line_a_lock_is_held(rt: HostRuntime) -> Result<(), Fail> {
    for row in SINCE_ROWS {
        check(&rt, rt.alloc(), row)?;
    }
    Ok(())
}

#[test]
fn copies_a_deviation(rt: HostRuntime) -> Result<(), Fail> {
    let alloc = rt.alloc();
    let (found, _) = follow(alloc, ROWS[0].lines)?;
    let copy = match &found {
        Some(deviation) => Some(deviation.try_copy(alloc)?),
        None => None,
    };
    let is_right = match (&copy, ROWS[0].first) {
        (Some(deviation), Some((line, kind))) => {
            deviation.line == line && kind.is(&deviation.kind)
        }
        (_, _) => false,
    };
    assert!(rt; is_right, "{copy:?}");
    Ok(())
}
