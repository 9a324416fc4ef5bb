//! Fetches, inserts, deletes and ends, in one part and in two.

use super::story::{
    INDEX_SPECIFIC, IX, KEY_VALUE, Line, Lock, Opening, S, Story, THREE_PAIRS, View, X,
};
use super::telling::{on_plain_parts, on_scarce_parts};
use kr_locks::Memory;
use kr_machine::Name;
use kr_model::{Op, Refusal};
use kr_protocol::{Im, Kvl};
use kr_test_support::Answer;

/// A transaction that splits a gap that it has read covers both parts of it.
const SPLITS_OWN_GAP: Story = Story {
    opening: Opening::ThreePairs,
    lines: &[
        Line::Step(1, Op::Fetch(12), Answer::None),
        Line::Step(1, Op::Insert(15, 5), Answer::Done),
        Line::Step(2, Op::Insert(12, 7), Answer::BlockedBy(1)),
        Line::Shows(View {
            index: &[(10, 1), (15, 5), (20, 2), (30, 3)],
            locks: &[Lock(Name::Key(15), 1, X), Lock(Name::Key(20), 1, S)],
            unfinished: &[1],
        }),
    ],
};

/// Two transactions insert into one gap.
const INSERTS_TWICE: Story = Story {
    opening: Opening::ThreePairs,
    lines: &[
        Line::Step(1, Op::Insert(15, 5), Answer::Done),
        Line::Step(2, Op::Insert(12, 7), Answer::Done),
    ],
};

/// Two transactions insert into one gap; the first blocks the second.
const INSERTS_ONCE: Story = Story {
    opening: Opening::ThreePairs,
    lines: &[
        Line::Step(1, Op::Insert(15, 5), Answer::Done),
        Line::Step(2, Op::Insert(12, 7), Answer::BlockedBy(1)),
    ],
};

/// 64 transactions may be active, and no more.
const FILLS_UP: Story = Story {
    opening: Opening::ThreePairs,
    lines: &[
        Line::Each(1, 64, Op::Fetch(10), Answer::Found(1)),
        Line::Step(65, Op::Fetch(10), Answer::Refused(Refusal::Full)),
        Line::Step(64, Op::Fetch(10), Answer::Found(1)),
        Line::Active(64),
        Line::Inactive(65),
    ],
};

/// A number that has ended is refused; what its transaction did stays.
const ENDS_ONCE: Story = Story {
    opening: Opening::Empty,
    lines: &[
        Line::Step(1, Op::Insert(5, 1), Answer::Done),
        Line::Step(1, Op::Commit, Answer::Committed),
        Line::Step(1, Op::Fetch(5), Answer::Refused(Refusal::Ended)),
        Line::Shows(View {
            index: &[(5, 1)],
            locks: &[],
            unfinished: &[],
        }),
    ],
};

/// Inserts of a present key read it, so two are compatible.
const SHARES_DUPLICATES: Story = Story {
    opening: Opening::ThreePairs,
    lines: &[
        Line::Step(1, Op::Insert(10, 5), Answer::Duplicate),
        Line::Step(2, Op::Insert(10, 6), Answer::Duplicate),
        Line::Step(2, Op::Insert(40, 1), Answer::Done),
        Line::Shows(View {
            index: &[(10, 1), (20, 2), (30, 3), (40, 1)],
            locks: &[
                Lock(Name::Key(10), 1, S),
                Lock(Name::Key(10), 2, S),
                Lock(Name::Key(40), 2, IX),
            ],
            unfinished: &[1, 2],
        }),
    ],
};

/// A delete of the last key locks the end.
const DELETES_LAST: Story = Story {
    opening: Opening::ThreePairs,
    lines: &[
        Line::Step(1, Op::Delete(30), Answer::Deleted(3)),
        Line::Step(2, Op::Fetch(40), Answer::BlockedBy(1)),
        Line::Shows(View {
            index: &[(10, 1), (20, 2)],
            locks: &[Lock(Name::End, 1, X)],
            unfinished: &[1],
        }),
    ],
};

/// An insert of a present key reads it, so no other may delete it.
const READS_DUPLICATE: Story = Story {
    opening: Opening::ThreePairs,
    lines: &[
        Line::Step(1, Op::Insert(20, 9), Answer::Duplicate),
        Line::Step(2, Op::Delete(20), Answer::BlockedBy(1)),
        Line::Shows(View {
            index: THREE_PAIRS,
            locks: &[Lock(Name::Key(20), 1, S)],
            unfinished: &[1],
        }),
    ],
};

/// Two changes of one key are undone, the newer one first.
const DELETES_INSERTS_ABORTS: Story = Story {
    opening: Opening::ThreePairs,
    lines: &[
        Line::Step(1, Op::Delete(20), Answer::Deleted(2)),
        Line::Step(1, Op::Insert(20, 9), Answer::Done),
        Line::Step(1, Op::Abort, Answer::Aborted),
        Line::Step(2, Op::Fetch(20), Answer::Found(2)),
        Line::Step(1, Op::Fetch(20), Answer::Refused(Refusal::Ended)),
        Line::Shows(View {
            index: THREE_PAIRS,
            locks: &[Lock(Name::Key(20), 2, S)],
            unfinished: &[2],
        }),
    ],
};

/// A delete widens a gap, and its undo narrows it again.
const WIDENS_AND_NARROWS: Story = Story {
    opening: Opening::ThreePairs,
    lines: &[
        Line::Step(1, Op::Delete(30), Answer::Deleted(3)),
        Line::Step(2, Op::Fetch(25), Answer::BlockedBy(1)),
        Line::Step(1, Op::Abort, Answer::Aborted),
        Line::Step(2, Op::Fetch(25), Answer::None),
        Line::Shows(View {
            index: THREE_PAIRS,
            locks: &[Lock(Name::Key(30), 2, S)],
            unfinished: &[2],
        }),
    ],
};

/// A transaction that isn't active may end, with nothing done.
const ENDS_UNBEGUN: Story = Story {
    opening: Opening::ThreePairs,
    lines: &[
        Line::Step(7, Op::Abort, Answer::Aborted),
        Line::Step(8, Op::Commit, Answer::Committed),
        Line::Step(7, Op::Abort, Answer::Refused(Refusal::Ended)),
        Line::Step(8, Op::Fetch(10), Answer::Refused(Refusal::Ended)),
        Line::Shows(View {
            index: THREE_PAIRS,
            locks: &[],
            unfinished: &[],
        }),
    ],
};

/// An insert is given up, which leaves nothing, and then done; and so is the abort, which leaves all as it was.
const GIVES_UP_FIRST: Story = Story {
    opening: Opening::ThreePairs,
    lines: &[
        Line::GivenUp(1, Op::Insert(15, 5), Answer::Done),
        Line::Inactive(1),
        Line::Shows(View {
            index: THREE_PAIRS,
            locks: &[],
            unfinished: &[],
        }),
        Line::Finished(1, Op::Insert(15, 5), Answer::Done),
        Line::Active(1),
        Line::Shows(View {
            index: &[(10, 1), (15, 5), (20, 2), (30, 3)],
            locks: &[Lock(Name::Key(15), 1, IX)],
            unfinished: &[1],
        }),
        Line::GivenUp(1, Op::Abort, Answer::Aborted),
        Line::Active(1),
        Line::Shows(View {
            index: &[(10, 1), (15, 5), (20, 2), (30, 3)],
            locks: &[Lock(Name::Key(15), 1, IX)],
            unfinished: &[1],
        }),
        Line::Finished(1, Op::Abort, Answer::Aborted),
        Line::Inactive(1),
        Line::Shows(View {
            index: THREE_PAIRS,
            locks: &[],
            unfinished: &[],
        }),
    ],
};

const KEY_VALUE_LOCKING: [Story; 6] = [
    SPLITS_OWN_GAP,
    INSERTS_TWICE,
    FILLS_UP,
    SHARES_DUPLICATES,
    READS_DUPLICATE,
    DELETES_LAST,
];

#[test]
fn key_value_locking_at_plain_parts(rt: HostRuntime) -> Result<(), Memory> {
    on_plain_parts(&rt, rt.alloc(), Kvl, KEY_VALUE, &KEY_VALUE_LOCKING)
}

#[test]
fn key_value_locking_at_other_parts(rt: HostRuntime) -> Result<(), Memory> {
    on_scarce_parts(&rt, rt.alloc(), &Kvl, KEY_VALUE, &KEY_VALUE_LOCKING)
}

#[test]
fn aborts(rt: HostRuntime) -> Result<(), Memory> {
    let stories = [DELETES_INSERTS_ABORTS, WIDENS_AND_NARROWS];
    on_plain_parts(&rt, rt.alloc(), Kvl, KEY_VALUE, &stories)?;
    on_scarce_parts(&rt, rt.alloc(), &Kvl, KEY_VALUE, &stories)?;
    on_plain_parts(&rt, rt.alloc(), Im, INDEX_SPECIFIC, &[ENDS_UNBEGUN])?;
    on_scarce_parts(&rt, rt.alloc(), Im, INDEX_SPECIFIC, &[ENDS_UNBEGUN])
}

#[test]
fn index_specific_locking(rt: HostRuntime) -> Result<(), Memory> {
    on_plain_parts(&rt, rt.alloc(), Im, INDEX_SPECIFIC, &[INSERTS_ONCE])?;
    on_scarce_parts(&rt, rt.alloc(), Im, INDEX_SPECIFIC, &[INSERTS_ONCE])
}

#[test]
fn ended_numbers(rt: HostRuntime) -> Result<(), Memory> {
    on_plain_parts(&rt, rt.alloc(), Kvl, KEY_VALUE, &[ENDS_ONCE])
}

#[test]
fn steps_in_two_parts(rt: HostRuntime) -> Result<(), Memory> {
    on_plain_parts(&rt, rt.alloc(), Kvl, KEY_VALUE, &[GIVES_UP_FIRST])?;
    on_scarce_parts(&rt, rt.alloc(), &Kvl, KEY_VALUE, &[GIVES_UP_FIRST])
}
