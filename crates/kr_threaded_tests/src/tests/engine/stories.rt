//! The language of the stories: what the seats of one engine do, with each answer, and what is seen then.
ghost use Rattle.kr_model.specs.Map.{IsMap};

use super::Short;
use kr_engine::{Mode, Name, Op, Txn};

/// What happens on one engine.
#[derive(Clone, Copy)]
pub struct Story {
    pub name: &'static str,
    pub opening: Opening,
    /// How many places its row has.
    pub places: u64,
    /// How many seats it has.
    pub seats: usize,
    /// What they do in one thread, one after another.
    pub lines: &'static [Line],
    pub then: Then,
}

/// The pairs of a key and its value that the index opens with.
#[derive(Clone, Copy)]
pub enum Opening {
    Empty,
    LeastKey,
    OnePair,
    ThreePairs,
}

/// 1, with the value 1.
const LEAST_KEY: &[(u64, u64)] = &[(1, 1)];

/// 10, with the value 1.
const ONE_PAIR: &[(u64, u64)] = &[(10, 1)];

/// 10, 20 and 30, with the values 1, 2 and 3.
pub const THREE_PAIRS: &[(u64, u64)] = &[(10, 1), (20, 2), (30, 3)];

impl Opening {
    /// Those pairs.
    pub fn pairs(self) -> &'static [(u64, u64)]
        ensures { IsMap result.now }
    {
        match self {
            Opening::Empty => &[],
            Opening::LeastKey => LEAST_KEY,
            Opening::OnePair => ONE_PAIR,
            Opening::ThreePairs => THREE_PAIRS,
        }
    }
}

/// A row of a story.
#[derive(Clone, Copy)]
pub enum Line {
    /// This seat asks, and gets the answer.
    By(usize, Ask, Short),
    /// The last seat is lost, and another given in its place.
    Lost,
    /// As many seats begin the numbers from 1 on.
    EachBegins(u32),
    /// As many seats find 1 at key 10, at the places from 0 on.
    EachFinds(usize),
    /// The first seat fetches 10 as often, which isn't there, at the places from 0 on.
    Fetches(usize),
}

/// What is asked of a seat.
#[derive(Clone, Copy)]
pub enum Ask {
    Begin(Txn),
    Try(Op),
    Call(Op),
}

/// What follows. In the end the engine is closed.
#[derive(Clone, Copy)]
pub enum Then {
    Closes,
    /// Two watches show what the second seat has inserted.
    Watched,
    /// Each seat does its part in a thread of its own, and this may become of all of them.
    Races(&'static [Part], &'static [&'static [Fate]]),
    /// The last seat leaves, and its share is lent to the closing.
    Lends(Lent),
    /// The same, and the closed engine shows this.
    LendsAndShows(Lent, View),
    /// The closed engine shows this.
    Shows(View),
}

/// The number of a seat that left, how many receipts it has, and the place of the last.
#[derive(Clone, Copy, PartialEq)]
pub struct Lent {
    pub seat: usize,
    pub count: u64,
    pub last: Option<usize>,
}

/// What a closed engine of two seats shows.
#[derive(Clone, Copy)]
pub struct View {
    /// How many entries there are, and the operation of one of them at its place.
    pub entries: usize,
    pub entry: (usize, Op),
    pub index: &'static [(u64, u64)],
    pub locks: &'static [((Name, Txn), Mode)],
    pub unfinished: &'static [Txn],
    /// How many transactions committed.
    pub programs: usize,
    /// The first of them, if it is looked at: its one operation, which found this value.
    pub program: Option<(Txn, Op, u64)>,
    /// How many entries each seat has, and whether it left.
    pub first: (u64, bool),
    pub second: (u64, bool),
}

/// What it shows where three pairs were opened with and nothing was done.
pub const UNTOUCHED: View = View {
    entries: 0,
    entry: (0, Op::Commit),
    index: THREE_PAIRS,
    locks: &[],
    unfinished: &[],
    programs: 0,
    program: None,
    first: (0, false),
    second: (0, false),
};

/// What a seat does in a thread of its own, once just these transactions wait, if there are any.
#[derive(Clone, Copy)]
pub struct Part {
    pub once: &'static [Txn],
    pub act: Act,
}

#[derive(Clone, Copy)]
pub enum Act {
    /// Does an operation, for which it may wait, which deletes this value if that is looked at. Then it commits, or
    /// aborts where a deadlock is told.
    Do(Op, Option<u64>),
    /// Fetches a key, for which it may wait, and stays active.
    Fetch(u64),
    /// Does the operation.
    End(Op),
    /// Takes one change back, and aborts once the fetch of another has answered.
    Back,
    /// Reads place 0 by a watch while another is inside the engine's lock, and lets it go on.
    Read,
}

/// What became of a part.
#[derive(Clone, Copy, PartialEq)]
pub enum Fate {
    Committed,
    /// A deadlock of these two was told, the requester first, and the transaction aborted.
    Deadlock(Txn, Txn),
    Found(u64),
    Missed,
    Ended,
    /// The place showed an entry.
    Shown,
    Other,
}
