//! A gap that is read and then split.

use super::runs::{Left, Opening, Run, Step, each_tells};
use super::telling::{Did, Told};
use super::ways::KEY_VALUE;
use kr_index::Memory;
use kr_model::Op;
use kr_serial::Name;
use kr_test_support::Answer;

/// Intent exclusive, of key-value locking.
const IX: u8 = 2;

const RUNS: &[Run] = &[
    // An insert into a gap that its own transaction has read keeps another's insert out until the commit.
    Run {
        ways: KEY_VALUE,
        opening: Opening::ThreePairs,
        steps: &[
            Step(1, Op::Fetch(12), Answer::None),
            Step(1, Op::Insert(15, 5), Answer::Done),
            Step(2, Op::Insert(12, 7), Answer::BlockedBy(1)),
            Step(1, Op::Commit, Answer::Committed),
            Step(2, Op::Insert(12, 7), Answer::Done),
        ],
        left: Some(Left {
            index: &[(10, 1), (12, 7), (15, 5), (20, 2), (30, 3)],
            locks: &[((Name::Key(12), 2), IX)],
            unfinished: &[2],
            programs: Some(&[Did {
                txn: 1,
                operations: &[
                    (Op::Fetch(12), Answer::None),
                    (Op::Insert(15, 5), Answer::Done),
                ],
            }]),
        }),
        told: Told::Serial,
    },
];

#[test]
fn a_gap_is_read_and_split(rt: HostRuntime) -> Result<(), Memory> {
    each_tells(&rt, rt.alloc(), RUNS)
}
