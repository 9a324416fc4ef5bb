//! Each operation at a key that is absent at first, with ample memory: none answers out of memory.

use super::super::runs::{Left, Opening, Run, Step, tells};
use super::super::telling::Told;
use super::super::ways::{Locking, Way};
use super::inputs::{CASES, case};
use kr_index::Memory;
use kr_model::{Op, Refusal};
use kr_serial::Txn;
use kr_test_support::Answer;

/// Each of the ways that offers no updates, and the one without locks.
const WAYS: &[Way] = &[
    Way::Run(Locking::KeyValue),
    Way::Run(Locking::IndexSpecific),
    Way::Run(Locking::RangeKey),
    Way::RunAny(Locking::KeyValue),
    Way::RunAny(Locking::IndexSpecific),
    Way::RunAny(Locking::RangeKey),
    Way::WithoutLocks,
];

/// A step that is refused: there is no scan to go on with at the least key, and elsewhere the range is turned round.
fn refused<'a>(txn: Txn, key: u64) -> Step<'a> {
    if key == 0 {
        Step(txn, Op::Go, Answer::Refused(Refusal::NoScan))
    } else {
        Step(
            txn,
            Op::Scan(key, key.saturating_sub(1)),
            Answer::Refused(Refusal::BadRange),
        )
    }
}

/// What a transaction does at the key, and what it is told; the pair is of the key and the value.
fn steps(txn: Txn, key: u64, value: u64, pair: &[(u64, u64)]) -> [Step; 12] {
    [
        Step(txn, Op::Delete(key), Answer::Absent),
        Step(txn, Op::Fetch(key), Answer::None),
        Step(txn, Op::Insert(key, value), Answer::Done),
        Step(txn, Op::Insert(key, 3), Answer::Duplicate),
        Step(txn, Op::Fetch(key), Answer::Found(value)),
        Step(txn, Op::Scan(key, key), Answer::Rows(pair)),
        refused(txn, key),
        Step(txn, Op::Delete(key), Answer::Deleted(value)),
        Step(txn, Op::Scan(0, u64::MAX), Answer::Rows(&[])),
        Step(txn, Op::Insert(key, value), Answer::Done),
        Step(txn, Op::Commit, Answer::Committed),
        Step(txn, Op::Fetch(key), Answer::Refused(Refusal::Ended)),
    ]
}

#[test]
fn each_operation(rt: HostRuntime) -> Result<(), Memory> {
    for i in 0..CASES {
        let (txn, key, value) = case(i);
        let pair: &[(u64, u64)] = &[(key, value)];
        let steps = steps(txn, key, value, pair);
        let run = Run {
            ways: WAYS,
            opening: Opening::Empty,
            steps: &steps,
            left: Some(Left {
                index: pair,
                locks: &[],
                unfinished: &[],
                programs: None,
            }),
            told: Told::Serial,
        };
        tells(&rt, rt.alloc(), &run)?;
    }
    Ok(())
}
