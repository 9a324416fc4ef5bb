//! Stories of one thread: rows of calls of an engine's seats. Memory is ample.

use super::Short;
use super::gates::Gate;
use super::stories::{Ask, Lent, Line, Opening, Story, Then, View};
use super::telling::is_so;
use kr_engine::{Name, Op};
use kr_protocol::Kvl;
use std::test::Fail;

/// One seat of an engine that opens without pairs.
pub const ONE_SEAT: Story = Story {
    name: "one seat",
    opening: Opening::Empty,
    places: 10,
    seats: 1,
    lines: &[],
    then: Then::Closes,
};

/// A seat that began nothing, numbers that are open or taken.
const TWO_SEATS: Story = Story {
    name: "two seats",
    seats: 2,
    lines: &[
        Line::By(0, Ask::Call(Op::Fetch(10)), Short::NotBegun),
        Line::By(0, Ask::Try(Op::Fetch(10)), Short::NotBegun),
        Line::By(0, Ask::Begin(1), Short::Ok),
        Line::By(0, Ask::Call(Op::Fetch(10)), Short::Nothing(0)),
        Line::By(0, Ask::Begin(2), Short::Open),
        Line::By(1, Ask::Begin(1), Short::Taken),
        Line::By(0, Ask::Call(Op::Commit), Short::Committed(1)),
        Line::By(0, Ask::Begin(1), Short::Taken),
    ],
    ..ONE_SEAT
};

/// A row of two places: the end uses the kept one, and nothing else does.
const TWO_PLACES: Story = Story {
    name: "two places",
    places: 2,
    lines: &[
        Line::By(0, Ask::Begin(1), Short::Ok),
        Line::By(0, Ask::Call(Op::Fetch(10)), Short::Nothing(0)),
        Line::By(0, Ask::Call(Op::Fetch(10)), Short::RowFull),
        Line::By(0, Ask::Call(Op::Commit), Short::Committed(1)),
        Line::By(0, Ask::Begin(2), Short::RowFull),
    ],
    ..ONE_SEAT
};

/// A number that its seat leaves behind unended keeps its place.
const THREE_PLACES: Story = Story {
    name: "three places",
    places: 3,
    lines: &[
        Line::By(0, Ask::Begin(1), Short::Ok),
        Line::By(0, Ask::Begin(2), Short::Ok),
        Line::By(0, Ask::Call(Op::Fetch(10)), Short::Nothing(0)),
        Line::By(0, Ask::Call(Op::Fetch(10)), Short::RowFull),
        Line::By(0, Ask::Call(Op::Commit), Short::Committed(1)),
        Line::By(0, Ask::Begin(3), Short::RowFull),
    ],
    ..ONE_SEAT
};

/// An insert is blocked by a fetch of the gap, and a fetch by the insert until its commit.
const THREE_SEATS: Story = Story {
    name: "three seats",
    seats: 3,
    lines: &[
        Line::By(0, Ask::Begin(1), Short::Ok),
        Line::By(1, Ask::Begin(2), Short::Ok),
        Line::By(2, Ask::Begin(3), Short::Ok),
        Line::By(0, Ask::Call(Op::Fetch(15)), Short::Nothing(0)),
        Line::By(1, Ask::Try(Op::Insert(17, 5)), Short::Blocked(1)),
        Line::By(0, Ask::Call(Op::Commit), Short::Committed(1)),
        Line::By(1, Ask::Call(Op::Insert(17, 5)), Short::Done(2)),
        Line::By(2, Ask::Try(Op::Fetch(17)), Short::Blocked(2)),
        Line::By(1, Ask::Call(Op::Commit), Short::Committed(3)),
        Line::By(2, Ask::Call(Op::Fetch(17)), Short::Found(4, 5)),
    ],
    then: Then::Watched,
    ..ONE_SEAT
};

/// 65 seats: a 65th active transaction is refused until one has ended.
const MANY_SEATS: Story = Story {
    name: "many seats",
    opening: Opening::OnePair,
    places: 130,
    seats: 65,
    lines: &[
        Line::EachBegins(65),
        Line::EachFinds(64),
        Line::By(64, Ask::Call(Op::Fetch(10)), Short::Full),
        Line::By(0, Ask::Call(Op::Commit), Short::Committed(64)),
        Line::By(64, Ask::Call(Op::Fetch(10)), Short::Found(65, 1)),
        Line::By(64, Ask::Call(Op::Fetch(10)), Short::RowFull),
    ],
    ..ONE_SEAT
};

/// One seat does 100,000 steps.
const MANY_STEPS: Story = Story {
    name: "many steps",
    places: 100_001,
    lines: &[
        Line::By(0, Ask::Begin(1), Short::Ok),
        Line::Fetches(100_000),
    ],
    ..ONE_SEAT
};

/// The share of a seat that has done nothing fits an engine without entries.
const A_SHARE_OF_NOTHING: Story = Story {
    name: "a share of nothing",
    then: Then::Lends(Lent {
        seat: 0,
        count: 0,
        last: None,
    }),
    ..ONE_SEAT
};

/// It fits too where another seat has done something.
const A_SHARE_BESIDE_ANOTHER: Story = Story {
    name: "a share beside another",
    seats: 2,
    lines: &[
        Line::By(0, Ask::Begin(1), Short::Ok),
        Line::By(0, Ask::Call(Op::Fetch(10)), Short::Nothing(0)),
    ],
    then: Then::Lends(Lent {
        seat: 1,
        count: 0,
        last: None,
    }),
    ..ONE_SEAT
};

/// A seat is lost with its transaction active: its entry and its locks stay, and the closed engine names it.
const A_LOST_SEAT: Story = Story {
    name: "a lost seat",
    opening: Opening::ThreePairs,
    places: 10,
    seats: 1,
    lines: &[
        Line::By(0, Ask::Begin(1), Short::Ok),
        Line::By(0, Ask::Call(Op::Insert(15, 5)), Short::Done(0)),
        Line::Lost,
        Line::By(0, Ask::Begin(2), Short::Ok),
        Line::By(0, Ask::Try(Op::Fetch(15)), Short::Blocked(1)),
        Line::By(0, Ask::Call(Op::Fetch(10)), Short::Found(1, 1)),
        Line::By(0, Ask::Call(Op::Commit), Short::Committed(2)),
    ],
    then: Then::LendsAndShows(
        Lent {
            seat: 1,
            count: 2,
            last: Some(2),
        },
        View {
            entries: 3,
            entry: (0, Op::Insert(15, 5)),
            index: &[(10, 1), (15, 5), (20, 2), (30, 3)],
            locks: &[((Name::Key(15), 1), 2)],
            unfinished: &[1],
            programs: 1,
            program: Some((2, Op::Fetch(10), 1)),
            first: (1, false),
            second: (2, true),
        },
    ),
};

#[test]
fn calls_of_one_thread(rt: HostRuntime) -> Result<(), Fail> {
    let gate = Gate::new();
    for story in [
        TWO_SEATS,
        TWO_PLACES,
        THREE_PLACES,
        THREE_SEATS,
        MANY_SEATS,
        MANY_STEPS,
        A_SHARE_OF_NOTHING,
        A_SHARE_BESIDE_ANOTHER,
        A_LOST_SEAT,
    ] {
        let name = story.name;
        assert!(rt; is_so(&rt, rt.alloc(), Kvl, &gate, &story)?, "{name}");
    }
    Ok(())
}
