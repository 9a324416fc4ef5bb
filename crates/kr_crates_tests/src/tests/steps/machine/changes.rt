//! Updates, and changes undone one at a time.

use super::story::{
    INDEX_SPECIFIC, IX, KEY_VALUE, Line, Lock, Opening, S, Story, THREE_PAIRS, View, X,
};
use super::telling::{on_plain_parts, on_scarce_parts};
use kr_locks::Memory;
use kr_machine::Name;
use kr_model::{Op, Refusal};
use kr_protocol::{Im, Kvl, KvlUpdate};
use kr_test_support::Answer;

/// Two changes of one key are undone one by one, the newer one first, and all locks are kept until the abort.
const TWO_CHANGES_BACK: Story = Story {
    opening: Opening::ThreePairs,
    lines: &[
        Line::Step(1, Op::Delete(20), Answer::Deleted(2)),
        Line::Step(1, Op::Insert(20, 9), Answer::Done),
        Line::Step(1, Op::Back, Answer::Undone(1)),
        Line::Step(2, Op::Fetch(20), Answer::BlockedBy(1)),
        Line::Step(1, Op::Fetch(10), Answer::Refused(Refusal::RollingBack)),
        Line::Step(1, Op::Commit, Answer::Refused(Refusal::RollingBack)),
        Line::Step(1, Op::Back, Answer::Undone(0)),
        Line::Step(2, Op::Fetch(20), Answer::BlockedBy(1)),
        Line::Step(1, Op::Back, Answer::Refused(Refusal::NothingLeft)),
        Line::Step(1, Op::Abort, Answer::Aborted),
        Line::Step(2, Op::Fetch(20), Answer::Found(2)),
        Line::Shows(View {
            index: THREE_PAIRS,
            locks: &[Lock(Name::Key(20), 2, S)],
            unfinished: &[2],
        }),
    ],
};

/// An insert is undone above a key that another has inserted meanwhile.
const BACK_BESIDE_ANOTHER: Story = Story {
    opening: Opening::ThreePairs,
    lines: &[
        Line::Step(1, Op::Insert(15, 5), Answer::Done),
        Line::Step(2, Op::Insert(12, 7), Answer::Done),
        Line::Step(1, Op::Back, Answer::Undone(0)),
        Line::Step(2, Op::Commit, Answer::Committed),
        Line::Step(3, Op::Fetch(15), Answer::None),
        Line::Step(1, Op::Abort, Answer::Aborted),
        Line::Shows(View {
            index: &[(10, 1), (12, 7), (20, 2), (30, 3)],
            locks: &[Lock(Name::Key(20), 3, S)],
            unfinished: &[3],
        }),
    ],
};

/// A scan in progress is dropped, and nothing is to be undone of a transaction that has changed nothing.
const BACK_IN_A_SCAN: Story = Story {
    opening: Opening::ThreePairs,
    lines: &[
        Line::Step(1, Op::Back, Answer::Refused(Refusal::NothingLeft)),
        Line::Inactive(1),
        Line::Step(1, Op::Insert(15, 5), Answer::Done),
        Line::Step(1, Op::Scan(10, 20), Answer::Going(10)),
        Line::Step(1, Op::Commit, Answer::Refused(Refusal::Busy)),
        Line::Step(1, Op::Back, Answer::Undone(0)),
        Line::Step(1, Op::Go, Answer::Refused(Refusal::RollingBack)),
        Line::Step(1, Op::Insert(15, 5), Answer::Refused(Refusal::RollingBack)),
        Line::Shows(View {
            index: THREE_PAIRS,
            locks: &[Lock(Name::Key(10), 1, S), Lock(Name::Key(15), 1, IX)],
            unfinished: &[1],
        }),
        Line::Step(1, Op::Abort, Answer::Aborted),
        Line::Step(1, Op::Back, Answer::Refused(Refusal::Ended)),
        Line::Shows(View {
            index: THREE_PAIRS,
            locks: &[],
            unfinished: &[],
        }),
    ],
};

/// Nobody reads an updated value before its transaction ends, and an abort undoes it.
const UPDATE_UNDONE: Story = Story {
    opening: Opening::ThreePairs,
    lines: &[
        Line::Step(1, Op::Update(20, 9), Answer::Updated(2)),
        Line::Step(2, Op::Fetch(20), Answer::BlockedBy(1)),
        Line::Step(1, Op::Update(25, 1), Answer::Absent),
        Line::Step(1, Op::Abort, Answer::Aborted),
        Line::Step(2, Op::Fetch(20), Answer::Found(2)),
        Line::Shows(View {
            index: THREE_PAIRS,
            locks: &[Lock(Name::Key(20), 2, S)],
            unfinished: &[2],
        }),
    ],
};

/// After two updates of one key an abort leaves neither value, and a commit the newer one.
const UPDATES_TWICE: Story = Story {
    opening: Opening::ThreePairs,
    lines: &[
        Line::Step(1, Op::Update(20, 8), Answer::Updated(2)),
        Line::Step(1, Op::Update(20, 9), Answer::Updated(8)),
        Line::Step(1, Op::Abort, Answer::Aborted),
        Line::Shows(View {
            index: THREE_PAIRS,
            locks: &[],
            unfinished: &[],
        }),
        Line::Step(2, Op::Update(20, 8), Answer::Updated(2)),
        Line::Step(2, Op::Update(20, 9), Answer::Updated(8)),
        Line::Step(2, Op::Commit, Answer::Committed),
        Line::Shows(View {
            index: &[(10, 1), (20, 9), (30, 3)],
            locks: &[],
            unfinished: &[],
        }),
    ],
};

/// Updates of a key of the opening and of an inserted one are undone one at a time, with fetches of another between.
const UPDATES_BACK: Story = Story {
    opening: Opening::ThreePairs,
    lines: &[
        Line::Step(1, Op::Update(20, 9), Answer::Updated(2)),
        Line::Step(1, Op::Insert(25, 5), Answer::Done),
        Line::Step(1, Op::Update(25, 6), Answer::Updated(5)),
        Line::Step(2, Op::Fetch(25), Answer::BlockedBy(1)),
        Line::Step(1, Op::Back, Answer::Undone(2)),
        Line::Shows(View {
            index: &[(10, 1), (20, 9), (25, 5), (30, 3)],
            locks: &[Lock(Name::Key(20), 1, X), Lock(Name::Key(25), 1, X)],
            unfinished: &[1],
        }),
        Line::Step(2, Op::Fetch(25), Answer::BlockedBy(1)),
        Line::Step(1, Op::Back, Answer::Undone(1)),
        Line::Step(2, Op::Fetch(25), Answer::None),
        Line::Step(2, Op::Fetch(20), Answer::BlockedBy(1)),
        Line::Step(1, Op::Back, Answer::Undone(0)),
        Line::Step(2, Op::Fetch(20), Answer::BlockedBy(1)),
        Line::Step(1, Op::Update(20, 7), Answer::Refused(Refusal::RollingBack)),
        Line::Step(1, Op::Abort, Answer::Aborted),
        Line::Step(2, Op::Fetch(20), Answer::Found(2)),
        Line::Shows(View {
            index: THREE_PAIRS,
            locks: &[Lock(Name::Key(20), 2, S), Lock(Name::Key(30), 2, S)],
            unfinished: &[2],
        }),
    ],
};

/// A table without updates refuses one.
const UPDATE_NOT_OFFERED: Story = Story {
    opening: Opening::ThreePairs,
    lines: &[
        Line::Step(1, Op::Update(20, 9), Answer::Refused(Refusal::NoUpdate)),
        Line::Step(1, Op::Update(25, 9), Answer::Refused(Refusal::NoUpdate)),
        Line::Shows(View {
            index: THREE_PAIRS,
            locks: &[],
            unfinished: &[],
        }),
    ],
};

/// An update is given up, and then a change undone, which leaves nothing; and then each is done.
const GIVES_CHANGES_UP_FIRST: Story = Story {
    opening: Opening::ThreePairs,
    lines: &[
        Line::GivenUp(1, Op::Update(20, 9), Answer::Updated(2)),
        Line::Shows(View {
            index: THREE_PAIRS,
            locks: &[],
            unfinished: &[],
        }),
        Line::Finished(1, Op::Update(20, 9), Answer::Updated(2)),
        Line::GivenUp(1, Op::Back, Answer::Undone(0)),
        Line::Shows(View {
            index: &[(10, 1), (20, 9), (30, 3)],
            locks: &[Lock(Name::Key(20), 1, X)],
            unfinished: &[1],
        }),
        Line::Step(1, Op::Fetch(20), Answer::Found(9)),
        Line::Finished(1, Op::Back, Answer::Undone(0)),
        Line::Step(1, Op::Fetch(20), Answer::Refused(Refusal::RollingBack)),
        Line::Shows(View {
            index: THREE_PAIRS,
            locks: &[Lock(Name::Key(20), 1, X)],
            unfinished: &[1],
        }),
    ],
};

#[test]
fn changes_taken_back(rt: HostRuntime) -> Result<(), Memory> {
    let stories = [TWO_CHANGES_BACK, BACK_BESIDE_ANOTHER, BACK_IN_A_SCAN];
    on_plain_parts(&rt, rt.alloc(), Kvl, KEY_VALUE, &stories)?;
    on_scarce_parts(&rt, rt.alloc(), &Kvl, KEY_VALUE, &stories)
}

#[test]
fn updates(rt: HostRuntime) -> Result<(), Memory> {
    let stories = [UPDATE_UNDONE, UPDATES_TWICE, UPDATES_BACK];
    on_plain_parts(&rt, rt.alloc(), KvlUpdate, KEY_VALUE, &stories)?;
    on_scarce_parts(&rt, rt.alloc(), &KvlUpdate, KEY_VALUE, &stories)
}

#[test]
fn updates_not_offered(rt: HostRuntime) -> Result<(), Memory> {
    on_plain_parts(&rt, rt.alloc(), Kvl, KEY_VALUE, &[UPDATE_NOT_OFFERED])?;
    on_scarce_parts(&rt, rt.alloc(), Im, INDEX_SPECIFIC, &[UPDATE_NOT_OFFERED])
}

#[test]
fn changes_in_two_parts(rt: HostRuntime) -> Result<(), Memory> {
    let stories = [GIVES_CHANGES_UP_FIRST];
    on_plain_parts(&rt, rt.alloc(), KvlUpdate, KEY_VALUE, &stories)?;
    on_scarce_parts(&rt, rt.alloc(), &KvlUpdate, KEY_VALUE, &stories)
}
