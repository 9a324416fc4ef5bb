//! Two transactions that no lock keeps apart: an answer that was given isn't the one of the commit order.

use super::super::runs::{Opening, Run, Step, tells};
use super::super::telling::Told;
use super::super::ways::Way;
use super::inputs::{CASES, case};
use kr_index::Memory;
use kr_model::Op;
use kr_serial::Txn;
use kr_test_support::Answer;
use std::alloc::Global;
use std::process::Abort;

/// One transaction acts first, and then the other, who commits first.
#[derive(Clone, Copy)]
struct Clash<'a> {
    opening: Opening,
    first: (Op, Answer<'a>),
    second: (Op, Answer<'a>),
    whose: Whose,
    /// The answer of the commit order.
    serial: Answer<'a>,
}

/// Whose answer differs from the one of the commit order.
#[derive(Clone, Copy)]
enum Whose {
    First,
    Second,
}

/// The clashes at a key; the pair is of the key and the value, and the other value is any that differs.
fn clashes(key: u64, value: u64, other: u64, pair: &[(u64, u64)]) -> [Clash; 10] {
    let absent = Opening::Empty;
    let present = Opening::Pair(key, value);
    [
        Clash {
            opening: absent,
            first: (Op::Fetch(key), Answer::None),
            second: (Op::Insert(key, value), Answer::Done),
            whose: Whose::First,
            serial: Answer::Found(value),
        },
        Clash {
            opening: present,
            first: (Op::Fetch(key), Answer::Found(value)),
            second: (Op::Delete(key), Answer::Deleted(value)),
            whose: Whose::First,
            serial: Answer::None,
        },
        Clash {
            opening: absent,
            first: (Op::Scan(key, key), Answer::Rows(&[])),
            second: (Op::Insert(key, value), Answer::Done),
            whose: Whose::First,
            serial: Answer::Rows(pair),
        },
        Clash {
            opening: present,
            first: (Op::Insert(key, value), Answer::Duplicate),
            second: (Op::Delete(key), Answer::Deleted(value)),
            whose: Whose::First,
            serial: Answer::Done,
        },
        Clash {
            opening: absent,
            first: (Op::Delete(key), Answer::Absent),
            second: (Op::Insert(key, value), Answer::Done),
            whose: Whose::First,
            serial: Answer::Deleted(value),
        },
        Clash {
            opening: present,
            first: (Op::Delete(key), Answer::Deleted(value)),
            second: (Op::Insert(key, value), Answer::Done),
            whose: Whose::Second,
            serial: Answer::Duplicate,
        },
        Clash {
            opening: absent,
            first: (Op::Insert(key, value), Answer::Done),
            second: (Op::Delete(key), Answer::Deleted(value)),
            whose: Whose::Second,
            serial: Answer::Absent,
        },
        Clash {
            opening: present,
            first: (Op::Fetch(key), Answer::Found(value)),
            second: (Op::Update(key, other), Answer::Updated(value)),
            whose: Whose::First,
            serial: Answer::Found(other),
        },
        Clash {
            opening: absent,
            first: (Op::Update(key, value), Answer::Absent),
            second: (Op::Insert(key, value), Answer::Done),
            whose: Whose::First,
            serial: Answer::Updated(value),
        },
        Clash {
            opening: present,
            first: (Op::Update(key, other), Answer::Updated(value)),
            second: (Op::Update(key, value), Answer::Updated(other)),
            whose: Whose::Second,
            serial: Answer::Updated(value),
        },
    ]
}

/// The verdict on a clash of these two transactions.
fn told<'a>(clash: &Clash<'a>, first: Txn, second: Txn) -> Told<'a> {
    let (txn, given) = match clash.whose {
        Whose::First => (first, clash.first.1),
        Whose::Second => (second, clash.second.1),
    };
    Told::NotSerial {
        txn,
        operation: 1,
        given,
        serial: clash.serial,
    }
}

/// Runs a clash of these two transactions.
fn clash_tells(
    rt: &impl Abort,
    alloc: Global,
    clash: &Clash,
    first: Txn,
    second: Txn,
) -> Result<(), Memory> {
    let run = Run {
        ways: &[Way::WithoutLocks],
        opening: clash.opening,
        steps: &[
            Step(first, clash.first.0, clash.first.1),
            Step(second, clash.second.0, clash.second.1),
            Step(second, Op::Commit, Answer::Committed),
            Step(first, Op::Commit, Answer::Committed),
        ],
        left: None,
        told: told(clash, first, second),
    };
    tells(rt, alloc, &run)
}

/// Runs each clash at a key, of a transaction and of 2, either of which acts first.
fn each_clash_tells(
    rt: &impl Abort,
    alloc: Global,
    txn: Txn,
    key: u64,
    value: u64,
) -> Result<(), Memory> {
    let pair = [(key, value)];
    for clash in &clashes(key, value, !value, &pair) {
        clash_tells(rt, alloc, clash, txn, 2)?;
        clash_tells(rt, alloc, clash, 2, txn)?;
    }
    Ok(())
}

#[test]
fn each_clash(rt: HostRuntime) -> Result<(), Memory> {
    for i in 0..CASES {
        let (txn, key, value) = case(i);
        each_clash_tells(&rt, rt.alloc(), txn, key, value)?;
    }
    Ok(())
}
