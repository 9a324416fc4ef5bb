//! Stories of one thread with changes that are undone, and with updates. Memory is ample.

use super::Short;
use super::alone::ONE_SEAT;
use super::gates::Gate;
use super::stories::{Ask, Line, Opening, Story, Then, UNTOUCHED, View};
use super::telling::is_so;
use kr_engine::{Name, Op};
use kr_protocol::{Kvl, KvlUpdate};
use std::test::Fail;

/// A change undone needs a place that isn't kept, as every step does that ends no transaction. An abort undoes all
/// that is left.
const A_BACK_IN_A_FULL_ROW: Story = Story {
    name: "a back in a full row",
    opening: Opening::ThreePairs,
    places: 3,
    seats: 2,
    lines: &[
        Line::By(0, Ask::Begin(1), Short::Ok),
        Line::By(0, Ask::Call(Op::Insert(15, 5)), Short::Done(0)),
        Line::By(0, Ask::Call(Op::Insert(25, 6)), Short::Done(1)),
        Line::By(0, Ask::Call(Op::Back), Short::RowFull),
        Line::By(0, Ask::Call(Op::Abort), Short::Aborted(2)),
    ],
    then: Then::Shows(View {
        entries: 3,
        entry: (2, Op::Abort),
        first: (3, false),
        ..UNTOUCHED
    }),
};

/// A delete and an insert of one key are undone, the newest first. Each has its entry; the locks stay to the end, and
/// nothing else is allowed before it.
const TWO_CHANGES_BACK: Story = Story {
    name: "two changes back",
    opening: Opening::ThreePairs,
    places: 10,
    seats: 2,
    lines: &[
        Line::By(0, Ask::Begin(1), Short::Ok),
        Line::By(1, Ask::Begin(2), Short::Ok),
        Line::By(0, Ask::Call(Op::Delete(20)), Short::Deleted(0, 2)),
        Line::By(0, Ask::Call(Op::Insert(20, 9)), Short::Done(1)),
        Line::By(0, Ask::Call(Op::Back), Short::Undone(2, 1)),
        Line::By(1, Ask::Try(Op::Fetch(20)), Short::Blocked(1)),
        Line::By(0, Ask::Call(Op::Fetch(10)), Short::RollingBack),
        Line::By(0, Ask::Call(Op::Commit), Short::RollingBack),
        Line::By(0, Ask::Call(Op::Back), Short::Undone(3, 0)),
        Line::By(1, Ask::Try(Op::Fetch(20)), Short::Blocked(1)),
        Line::By(0, Ask::Call(Op::Back), Short::NothingLeft),
        Line::By(0, Ask::Call(Op::Abort), Short::Aborted(4)),
        Line::By(1, Ask::Call(Op::Fetch(20)), Short::Found(5, 2)),
    ],
    then: Then::Shows(View {
        entries: 6,
        entry: (3, Op::Back),
        locks: &[((Name::Key(20), 2), 3)],
        unfinished: &[2],
        first: (5, false),
        second: (1, false),
        ..UNTOUCHED
    }),
};

/// A key is updated twice, and both are undone while another waits for it. An update that commits stays.
const TWO_UPDATES_BACK: Story = Story {
    name: "two updates back",
    opening: Opening::ThreePairs,
    places: 12,
    seats: 2,
    lines: &[
        Line::By(0, Ask::Begin(1), Short::Ok),
        Line::By(1, Ask::Begin(2), Short::Ok),
        Line::By(0, Ask::Call(Op::Update(20, 9)), Short::Updated(0, 2)),
        Line::By(0, Ask::Call(Op::Update(20, 8)), Short::Updated(1, 9)),
        Line::By(0, Ask::Call(Op::Update(25, 1)), Short::Absent(2)),
        Line::By(1, Ask::Try(Op::Fetch(20)), Short::Blocked(1)),
        Line::By(0, Ask::Call(Op::Back), Short::Undone(3, 1)),
        Line::By(1, Ask::Try(Op::Update(20, 7)), Short::Blocked(1)),
        Line::By(0, Ask::Call(Op::Back), Short::Undone(4, 0)),
        Line::By(0, Ask::Call(Op::Update(20, 7)), Short::RollingBack),
        Line::By(0, Ask::Call(Op::Abort), Short::Aborted(5)),
        Line::By(1, Ask::Call(Op::Update(20, 7)), Short::Updated(6, 2)),
        Line::By(1, Ask::Call(Op::Back), Short::Undone(7, 0)),
        Line::By(1, Ask::Call(Op::Abort), Short::Aborted(8)),
        Line::By(1, Ask::Begin(3), Short::Ok),
        Line::By(1, Ask::Call(Op::Update(20, 6)), Short::Updated(9, 2)),
        Line::By(1, Ask::Call(Op::Commit), Short::Committed(10)),
    ],
    then: Then::Shows(View {
        entries: 11,
        entry: (4, Op::Back),
        index: &[(10, 1), (20, 6), (30, 3)],
        programs: 1,
        first: (6, false),
        second: (5, false),
        ..UNTOUCHED
    }),
};

/// Where the protocol offers no updates they are refused, and a transaction without changes has nothing to undo.
const NO_UPDATES: Story = Story {
    name: "no updates",
    opening: Opening::ThreePairs,
    places: 10,
    seats: 2,
    lines: &[
        Line::By(0, Ask::Begin(1), Short::Ok),
        Line::By(0, Ask::Call(Op::Update(20, 9)), Short::NoUpdate),
        Line::By(0, Ask::Call(Op::Back), Short::NothingLeft),
        Line::By(0, Ask::Call(Op::Fetch(20)), Short::Found(0, 2)),
        Line::By(0, Ask::Call(Op::Back), Short::NothingLeft),
        Line::By(0, Ask::Call(Op::Commit), Short::Committed(1)),
    ],
    then: Then::Shows(View {
        entries: 2,
        entry: (1, Op::Commit),
        programs: 1,
        first: (2, false),
        ..UNTOUCHED
    }),
};

#[test]
fn changes_taken_back(rt: HostRuntime) -> Result<(), Fail> {
    let gate = Gate::new();
    for story in [A_BACK_IN_A_FULL_ROW, TWO_CHANGES_BACK, NO_UPDATES] {
        let name = story.name;
        assert!(rt; is_so(&rt, rt.alloc(), Kvl, &gate, &story)?, "{name}");
    }
    Ok(())
}

#[test]
fn updates_taken_back(rt: HostRuntime) -> Result<(), Fail> {
    let gate = Gate::new();
    assert!(rt; is_so(&rt, rt.alloc(), KvlUpdate, &gate, &TWO_UPDATES_BACK)?);
    Ok(())
}
