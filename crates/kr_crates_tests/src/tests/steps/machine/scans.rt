//! Scans, under each of the bundled protocols.

use super::story::{
    GREATEST_KEY, Held, INDEX_SPECIFIC, KEY_VALUE, Line, Lock, Opening, RANGE_KEY, Story,
    THREE_PAIRS, View,
};
use super::telling::on_plain_parts;
use kr_locks::Memory;
use kr_machine::Name;
use kr_model::{Op, Refusal};
use kr_protocol::{Im, Kvl, RangeKey};
use kr_test_support::Answer;

/// A scan of the greatest key alone reads it at its first step, and requests no lock on the end.
const ENDS_AT_GREATEST_KEY: Story = Story {
    opening: Opening::GreatestKey,
    lines: &[
        Line::Step(1, Op::Scan(u64::MAX, u64::MAX), Answer::Rows(GREATEST_KEY)),
        Line::Shows(View {
            index: GREATEST_KEY,
            locks: &[Lock(Name::Key(u64::MAX), 1, Held::Key)],
            unfinished: &[1],
        }),
    ],
};

/// A scan of an empty index locks the end, so that nothing can be inserted.
const SCANS_NOTHING: Story = Story {
    opening: Opening::Empty,
    lines: &[
        Line::Step(1, Op::Scan(0, u64::MAX), Answer::Rows(&[])),
        Line::Step(2, Op::Insert(5, 1), Answer::BlockedBy(1)),
        Line::Shows(View {
            index: &[],
            locks: &[Lock(Name::End, 1, Held::Stop)],
            unfinished: &[1],
        }),
    ],
};

/// A scan reads what its own transaction has inserted, and its lock is converted.
const SCANS_OWN_INSERT: Story = Story {
    opening: Opening::ThreePairs,
    lines: &[
        Line::Step(1, Op::Insert(15, 5), Answer::Done),
        Line::Step(1, Op::Scan(15, 15), Answer::Rows(&[(15, 5)])),
        Line::Shows(View {
            index: &[(10, 1), (15, 5), (20, 2), (30, 3)],
            locks: &[Lock(Name::Key(15), 1, Held::Both)],
            unfinished: &[1],
        }),
    ],
};

/// A scan ends on its upper key and requests no further name: what is above it can be changed, what is in it can't.
const ENDS_ON_UPPER_KEY: Story = Story {
    opening: Opening::ThreePairs,
    lines: &[
        Line::Step(1, Op::Scan(10, 20), Answer::Going(10)),
        Line::Step(1, Op::Go, Answer::Rows(&[(10, 1), (20, 2)])),
        Line::Step(2, Op::Insert(25, 5), Answer::Done),
        Line::Step(2, Op::Insert(15, 1), Answer::BlockedBy(1)),
        Line::Shows(View {
            index: &[(10, 1), (20, 2), (25, 5), (30, 3)],
            locks: &[
                Lock(Name::Key(10), 1, Held::Key),
                Lock(Name::Key(20), 1, Held::Key),
                Lock(Name::Key(25), 2, Held::Inserted),
            ],
            unfinished: &[1, 2],
        }),
    ],
};

/// A scan of a range with no keys locks the gap that it lies in.
const SCANS_A_GAP: Story = Story {
    opening: Opening::ThreePairs,
    lines: &[
        Line::Step(1, Op::Scan(12, 15), Answer::Rows(&[])),
        Line::Shows(View {
            index: THREE_PAIRS,
            locks: &[Lock(Name::Key(20), 1, Held::Stop)],
            unfinished: &[1],
        }),
    ],
};

/// The refusals of a scan: none in progress, a range turned round, and another operation while it is in progress.
const REFUSALS: Story = Story {
    opening: Opening::ThreePairs,
    lines: &[
        Line::Step(1, Op::Go, Answer::Refused(Refusal::NoScan)),
        Line::Step(1, Op::Scan(30, 10), Answer::Refused(Refusal::BadRange)),
        Line::Inactive(1),
        Line::Step(1, Op::Scan(10, 30), Answer::Going(10)),
        Line::Step(1, Op::Commit, Answer::Refused(Refusal::Busy)),
        Line::Step(1, Op::Scan(30, 10), Answer::Refused(Refusal::Busy)),
        Line::Step(1, Op::Delete(10), Answer::Refused(Refusal::Busy)),
        Line::Shows(View {
            index: THREE_PAIRS,
            locks: &[Lock(Name::Key(10), 1, Held::Key)],
            unfinished: &[1],
        }),
        Line::Step(1, Op::Abort, Answer::Aborted),
        Line::Shows(View {
            index: THREE_PAIRS,
            locks: &[],
            unfinished: &[],
        }),
    ],
};

/// A scan waits for a delete in its range, and reads the key that comes back when the delete is undone.
const WAITS_FOR_DELETE: Story = Story {
    opening: Opening::ThreePairs,
    lines: &[
        Line::Step(1, Op::Scan(10, 25), Answer::Going(10)),
        Line::Step(2, Op::Delete(20), Answer::Deleted(2)),
        Line::Step(1, Op::Go, Answer::BlockedBy(2)),
        Line::Step(2, Op::Abort, Answer::Aborted),
        Line::Step(1, Op::Go, Answer::Going(20)),
        Line::Step(1, Op::Go, Answer::Rows(&[(10, 1), (20, 2)])),
        Line::Shows(View {
            index: THREE_PAIRS,
            locks: &[
                Lock(Name::Key(10), 1, Held::Key),
                Lock(Name::Key(20), 1, Held::Key),
                Lock(Name::Key(30), 1, Held::Stop),
            ],
            unfinished: &[1],
        }),
    ],
};

/// A scan's step that is given up leaves the scan where it was.
const GIVES_STEPS_UP: Story = Story {
    opening: Opening::ThreePairs,
    lines: &[
        Line::GivenUp(1, Op::Scan(20, 30), Answer::Going(20)),
        Line::Step(1, Op::Go, Answer::Refused(Refusal::NoScan)),
        Line::Step(1, Op::Scan(10, 30), Answer::Going(10)),
        Line::GivenUp(1, Op::Go, Answer::Going(20)),
        Line::Step(1, Op::Go, Answer::Going(20)),
        Line::GivenUp(1, Op::Go, Answer::Rows(THREE_PAIRS)),
        Line::Shows(View {
            index: THREE_PAIRS,
            locks: &[
                Lock(Name::Key(10), 1, Held::Key),
                Lock(Name::Key(20), 1, Held::Key),
            ],
            unfinished: &[1],
        }),
        Line::Step(1, Op::Go, Answer::Rows(THREE_PAIRS)),
    ],
};

const STORIES: [Story; 8] = [
    WAITS_FOR_DELETE,
    ENDS_AT_GREATEST_KEY,
    SCANS_NOTHING,
    SCANS_OWN_INSERT,
    ENDS_ON_UPPER_KEY,
    SCANS_A_GAP,
    REFUSALS,
    GIVES_STEPS_UP,
];

#[test]
fn key_value_scans(rt: HostRuntime) -> Result<(), Memory> {
    on_plain_parts(&rt, rt.alloc(), &Kvl, KEY_VALUE, &STORIES)
}

#[test]
fn index_specific_scans(rt: HostRuntime) -> Result<(), Memory> {
    on_plain_parts(&rt, rt.alloc(), &Im, INDEX_SPECIFIC, &STORIES)
}

#[test]
fn range_key_scans(rt: HostRuntime) -> Result<(), Memory> {
    on_plain_parts(&rt, rt.alloc(), &RangeKey, RANGE_KEY, &STORIES)
}
