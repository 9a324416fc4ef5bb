//! Updates, and changes undone one at a time, with what they leave worked out by hand.

use super::runs::{Left, Opening, Run, Step, THREE_PAIRS, each_tells};
use super::telling::{Did, Told};
use super::ways::{KEY_VALUE, KEY_VALUE_WITH_UPDATES};
use kr_index::Memory;
use kr_model::{Op, Refusal};
use kr_serial::Name;
use kr_test_support::Answer;

/// Shared, of key-value locking.
const S: u8 = 3;

/// The three pairs as before, and no locks, of nobody.
const AS_BEFORE: Left = Left {
    index: THREE_PAIRS,
    locks: &[],
    unfinished: &[],
    programs: Some(&[]),
};

/// A run under key-value locking that leaves all as before.
const ON_THREE_PAIRS: Run = Run {
    ways: KEY_VALUE,
    opening: Opening::ThreePairs,
    steps: &[],
    left: Some(AS_BEFORE),
    told: Told::Serial,
};

const UPDATES: &[Run] = &[
    // An update of a present key and one of an absent key, which another waits for; the abort puts the value back.
    Run {
        ways: KEY_VALUE_WITH_UPDATES,
        steps: &[
            Step(1, Op::Update(20, 9), Answer::Updated(2)),
            Step(2, Op::Fetch(20), Answer::BlockedBy(1)),
            Step(1, Op::Update(25, 1), Answer::Absent),
            Step(1, Op::Abort, Answer::Aborted),
            Step(2, Op::Fetch(20), Answer::Found(2)),
        ],
        left: Some(Left {
            locks: &[((Name::Key(20), 2), S)],
            unfinished: &[2],
            ..AS_BEFORE
        }),
        ..ON_THREE_PAIRS
    },
    // Where the protocol offers no updates.
    Run {
        steps: &[Step(1, Op::Update(20, 9), Answer::Refused(Refusal::NoUpdate))],
        ..ON_THREE_PAIRS
    },
    // An update that commits stands for the next, and is one of the program's operations.
    Run {
        ways: KEY_VALUE_WITH_UPDATES,
        steps: &[
            Step(1, Op::Update(20, 9), Answer::Updated(2)),
            Step(1, Op::Commit, Answer::Committed),
            Step(2, Op::Update(20, 7), Answer::Updated(9)),
            Step(2, Op::Commit, Answer::Committed),
        ],
        left: Some(Left {
            index: &[(10, 1), (20, 7), (30, 3)],
            programs: Some(&[
                Did {
                    txn: 1,
                    operations: &[(Op::Update(20, 9), Answer::Updated(2))],
                },
                Did {
                    txn: 2,
                    operations: &[(Op::Update(20, 7), Answer::Updated(9))],
                },
            ]),
            ..AS_BEFORE
        }),
        ..ON_THREE_PAIRS
    },
];

const BACKS: &[Run] = &[
    // A deleted key is inserted again, and both changes are undone, with another's fetches between.
    Run {
        steps: &[
            Step(1, Op::Delete(20), Answer::Deleted(2)),
            Step(1, Op::Insert(20, 9), Answer::Done),
            Step(1, Op::Back, Answer::Undone(1)),
            Step(2, Op::Fetch(20), Answer::BlockedBy(1)),
            Step(1, Op::Fetch(10), Answer::Refused(Refusal::RollingBack)),
            Step(1, Op::Commit, Answer::Refused(Refusal::RollingBack)),
            Step(1, Op::Back, Answer::Undone(0)),
            Step(2, Op::Fetch(20), Answer::BlockedBy(1)),
            Step(1, Op::Back, Answer::Refused(Refusal::NothingLeft)),
            Step(1, Op::Abort, Answer::Aborted),
            Step(2, Op::Fetch(20), Answer::Found(2)),
        ],
        left: Some(Left {
            locks: &[((Name::Key(20), 2), S)],
            unfinished: &[2],
            ..AS_BEFORE
        }),
        ..ON_THREE_PAIRS
    },
    // An insert is undone after another's insert into the gap below it, which then commits.
    Run {
        steps: &[
            Step(1, Op::Insert(15, 5), Answer::Done),
            Step(2, Op::Insert(12, 7), Answer::Done),
            Step(1, Op::Back, Answer::Undone(0)),
            Step(2, Op::Commit, Answer::Committed),
            Step(3, Op::Fetch(15), Answer::None),
            Step(1, Op::Abort, Answer::Aborted),
        ],
        left: Some(Left {
            index: &[(10, 1), (12, 7), (20, 2), (30, 3)],
            locks: &[((Name::Key(20), 3), S)],
            unfinished: &[3],
            programs: Some(&[Did {
                txn: 2,
                operations: &[(Op::Insert(12, 7), Answer::Done)],
            }]),
        }),
        ..ON_THREE_PAIRS
    },
    // Two updates and an insert are undone in turn, with another's fetches between.
    Run {
        ways: KEY_VALUE_WITH_UPDATES,
        steps: &[
            Step(1, Op::Update(20, 9), Answer::Updated(2)),
            Step(1, Op::Insert(25, 5), Answer::Done),
            Step(1, Op::Update(25, 6), Answer::Updated(5)),
            Step(2, Op::Fetch(25), Answer::BlockedBy(1)),
            Step(1, Op::Back, Answer::Undone(2)),
            Step(2, Op::Fetch(25), Answer::BlockedBy(1)),
            Step(1, Op::Back, Answer::Undone(1)),
            Step(2, Op::Fetch(25), Answer::None),
            Step(1, Op::Back, Answer::Undone(0)),
            Step(2, Op::Fetch(20), Answer::BlockedBy(1)),
            Step(1, Op::Abort, Answer::Aborted),
            Step(2, Op::Fetch(20), Answer::Found(2)),
        ],
        left: Some(Left {
            locks: &[((Name::Key(20), 2), S), ((Name::Key(30), 2), S)],
            unfinished: &[2],
            ..AS_BEFORE
        }),
        ..ON_THREE_PAIRS
    },
];

#[test]
fn updates(rt: HostRuntime) -> Result<(), Memory> {
    each_tells(&rt, rt.alloc(), UPDATES)
}

#[test]
fn changes_are_taken_back(rt: HostRuntime) -> Result<(), Memory> {
    each_tells(&rt, rt.alloc(), BACKS)
}
