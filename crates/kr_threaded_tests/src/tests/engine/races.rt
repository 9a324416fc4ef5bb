//! Stories of several threads: a wake is passed on, a change undone wakes, a cycle that comes to be is found, and a
//! watch takes no lock.

use super::Short;
use super::gates::{Gate, Gated};
use super::stories::{Act, Ask, Fate, Line, Opening, Part, Story, Then};
use super::telling::is_so;
use kr_engine::Op;
use kr_protocol::Kvl;
use std::test::Fail;

/// Two calls wait for two keys of one transaction, which commits once: the first that is woken wakes the other, since
/// nobody ends a transaction after that.
const TWO_KEYS: Story = Story {
    name: "two keys",
    opening: Opening::Empty,
    places: 10,
    seats: 3,
    lines: &[
        Line::EachBegins(3),
        Line::By(0, Ask::Call(Op::Insert(15, 5)), Short::Done(0)),
        Line::By(0, Ask::Call(Op::Insert(25, 6)), Short::Done(1)),
    ],
    then: Then::Races(
        &[
            Part {
                once: &[2, 3],
                act: Act::End(Op::Commit),
            },
            Part {
                once: &[],
                act: Act::Fetch(15),
            },
            Part {
                once: &[],
                act: Act::Fetch(25),
            },
        ],
        &[&[Fate::Ended, Fate::Found(5), Fate::Found(6)]],
    ),
};

/// Three calls wait to delete one key, each alone at a time: each has its turn.
const ONE_KEY: Story = Story {
    name: "one key",
    opening: Opening::Empty,
    places: 12,
    seats: 4,
    lines: &[
        Line::EachBegins(4),
        Line::By(0, Ask::Call(Op::Insert(15, 5)), Short::Done(0)),
    ],
    then: Then::Races(
        &[
            Part {
                once: &[2, 3, 4],
                act: Act::End(Op::Commit),
            },
            DELETES_15,
            DELETES_15,
            DELETES_15,
        ],
        &[&[
            Fate::Ended,
            Fate::Committed,
            Fate::Committed,
            Fate::Committed,
        ]],
    ),
};

const DELETES_15: Part = Part {
    once: &[],
    act: Act::Do(Op::Delete(15), None),
};

/// 2 waits for 3, and 3 for 1 alone. 1 aborts its insert, and then 3 is blocked by 2: one of them is told the deadlock.
const AN_ABORT_CLOSES_A_CYCLE: Story = Story {
    name: "an abort closes a cycle",
    opening: Opening::LeastKey,
    places: 12,
    seats: 3,
    lines: &[
        Line::EachBegins(3),
        Line::By(2, Ask::Call(Op::Fetch(1)), Short::Found(0, 1)),
        Line::By(1, Ask::Call(Op::Insert(30, 3)), Short::Done(1)),
        Line::By(0, Ask::Call(Op::Insert(20, 2)), Short::Done(2)),
    ],
    then: Then::Races(
        &[
            Part {
                once: &[2, 3],
                act: Act::End(Op::Abort),
            },
            DELETES_1,
            FETCHES_15,
        ],
        A_CYCLE_OF_2_AND_3,
    ),
};

/// The same where 1 takes its insert back, and stays active.
const A_BACK_CLOSES_A_CYCLE: Story = Story {
    name: "a back closes a cycle",
    then: Then::Races(
        &[
            Part {
                once: &[2, 3],
                act: Act::End(Op::Back),
            },
            DELETES_1,
            FETCHES_15,
        ],
        A_CYCLE_OF_2_AND_3,
    ),
    ..AN_ABORT_CLOSES_A_CYCLE
};

const DELETES_1: Part = Part {
    once: &[],
    act: Act::Do(Op::Delete(1), None),
};

const FETCHES_15: Part = Part {
    once: &[],
    act: Act::Do(Op::Fetch(15), None),
};

const A_CYCLE_OF_2_AND_3: &[&[Fate]] = &[
    &[Fate::Ended, Fate::Deadlock(2, 3), Fate::Committed],
    &[Fate::Ended, Fate::Committed, Fate::Deadlock(3, 2)],
];

/// A call waits for a key that another inserted. The insert is undone, and the call goes on, though the other is
/// active still and keeps its locks.
const A_BACK_LETS_GO_ON: Story = Story {
    name: "a back lets go on",
    opening: Opening::Empty,
    places: 10,
    seats: 2,
    lines: &[
        Line::EachBegins(2),
        Line::By(0, Ask::Call(Op::Insert(15, 5)), Short::Done(0)),
    ],
    then: Then::Races(
        &[
            Part {
                once: &[2],
                act: Act::Back,
            },
            Part {
                once: &[],
                act: Act::Fetch(15),
            },
        ],
        &[&[Fate::Ended, Fate::Missed]],
    ),
};

/// Two seats of two threads each delete what the other has read: one waits, the other is told so and aborts.
const A_DEADLOCK: Story = Story {
    name: "a deadlock",
    opening: Opening::ThreePairs,
    places: 10,
    seats: 2,
    lines: &[
        Line::EachBegins(2),
        Line::By(0, Ask::Call(Op::Fetch(10)), Short::Found(0, 1)),
        Line::By(1, Ask::Call(Op::Fetch(20)), Short::Found(1, 2)),
    ],
    then: Then::Races(
        &[
            Part {
                once: &[],
                act: Act::Do(Op::Delete(20), Some(2)),
            },
            Part {
                once: &[1],
                act: Act::Do(Op::Delete(10), None),
            },
        ],
        &[&[Fate::Committed, Fate::Deadlock(2, 1)]],
    ),
};

/// A thread inserts, and is inside the engine's lock until another has read a place.
const A_WATCH_BESIDE_A_HOLD: Story = Story {
    name: "a watch beside a hold",
    opening: Opening::Empty,
    places: 10,
    seats: 2,
    lines: &[
        Line::By(0, Ask::Begin(1), Short::Ok),
        Line::By(0, Ask::Call(Op::Fetch(10)), Short::Nothing(0)),
    ],
    then: Then::Races(
        &[
            Part {
                once: &[],
                act: Act::Do(Op::Insert(15, 5), None),
            },
            Part {
                once: &[],
                act: Act::Read,
            },
        ],
        &[&[Fate::Committed, Fate::Shown]],
    ),
};

#[test]
fn calls_that_wait(rt: HostRuntime) -> Result<(), Fail> {
    for story in [
        TWO_KEYS,
        ONE_KEY,
        AN_ABORT_CLOSES_A_CYCLE,
        A_BACK_CLOSES_A_CYCLE,
        A_BACK_LETS_GO_ON,
        A_DEADLOCK,
    ] {
        let name = story.name;
        let gate = Gate::new();
        assert!(rt; is_so(&rt, rt.alloc(), Kvl, &gate, &story)?, "{name}");
    }
    Ok(())
}

/// A watch takes no lock.
#[test]
fn a_watch_beside_a_hold(rt: HostRuntime) -> Result<(), Fail> {
    let gate = Gate::new();
    let protocol = Gated {
        protocol: Kvl,
        rt: &rt,
        gate: &gate,
    };
    assert!(rt; is_so(&rt, rt.alloc(), protocol, &gate, &A_WATCH_BESIDE_A_HOLD)?);
    Ok(())
}
