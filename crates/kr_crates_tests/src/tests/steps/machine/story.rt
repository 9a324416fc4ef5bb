//! The language of the stories: a row for each thing that happens on a machine, or that can be seen of it.
ghost use Rattle.kr_model.specs.Map.{IsMap};

use kr_machine::{Mode, Name, Txn};
use kr_model::Op;
use kr_test_support::Answer;

/// What happens on one machine.
#[derive(Clone, Copy)]
pub struct Story {
    pub opening: Opening,
    pub lines: &'static [Line],
}

/// The pairs of a key and its value that an index opens with.
#[derive(Clone, Copy)]
pub enum Opening {
    ThreePairs,
    Empty,
    GreatestKey,
}

/// 10, 20 and 30, with the values 1, 2 and 3.
pub const THREE_PAIRS: &[(u64, u64)] = &[(10, 1), (20, 2), (30, 3)];

/// The greatest key alone, with the value 4.
pub const GREATEST_KEY: &[(u64, u64)] = &[(u64::MAX, 4)];

impl Opening {
    /// Those pairs.
    pub fn pairs(self) -> &'static [(u64, u64)]
        ensures { IsMap result.now }
    {
        match self {
            Opening::ThreePairs => THREE_PAIRS,
            Opening::Empty => &[],
            Opening::GreatestKey => GREATEST_KEY,
        }
    }
}

/// A row of a story.
#[derive(Clone, Copy)]
pub enum Line {
    /// The transaction attempts the operation, and gets the answer.
    Step(Txn, Op, Answer<'static>),
    /// Each transaction from the first to the second attempts the operation, and gets the answer.
    Each(Txn, Txn, Op, Answer<'static>),
    /// The transaction readies the operation, is told the answer, and gives the operation up.
    GivenUp(Txn, Op, Answer<'static>),
    /// The transaction readies the operation, is told the answer, and finishes the operation, with the same answer.
    Finished(Txn, Op, Answer<'static>),
    /// The transaction is active.
    Active(Txn),
    /// The transaction isn't active.
    Inactive(Txn),
    /// All that can be seen of the machine.
    Shows(View),
}

/// What can be seen of a machine.
#[derive(Clone, Copy)]
pub struct View {
    /// The pairs of a key and its value, keys rising.
    pub index: &'static [(u64, u64)],
    /// The locks by name, the end last, and then by transaction.
    pub locks: &'static [Lock],
    /// The transactions that have begun and not ended, rising.
    pub unfinished: &'static [Txn],
}

/// A lock: the name, the transaction that holds it, and its mode.
#[derive(Clone, Copy, Debug)]
pub struct Lock(pub Name, pub Txn, pub Held);

/// The mode of a lock: itself, or what a protocol chooses it for.
#[derive(Clone, Copy, Debug)]
pub enum Held {
    Is(Mode),
    /// That of a key that a scan reads.
    Key,
    /// That of the name that stops a scan.
    Stop,
    /// That of a key that is inserted into a gap that nobody covers.
    Inserted,
    /// That of an inserted key that its own transaction scans.
    Both,
}

/// IX of key-value locking, whose modes are IS, IX, S, SIX and X, numbered from 1.
pub const IX: Held = Held::Is(2);

/// S of key-value locking.
pub const S: Held = Held::Is(3);

/// X of key-value locking.
pub const X: Held = Held::Is(5);

/// The modes that a protocol chooses, as `Held` names them.
#[derive(Clone, Copy)]
pub struct Modes {
    pub key: Mode,
    pub stop: Mode,
    pub inserted: Mode,
    pub both: Mode,
}

/// Those of key-value locking: S, S, IX and SIX.
pub const KEY_VALUE: Modes = Modes {
    key: 3,
    stop: 3,
    inserted: 2,
    both: 4,
};

/// Those of index-specific locking: S, S, X and X.
pub const INDEX_SPECIFIC: Modes = Modes {
    key: 1,
    stop: 1,
    inserted: 2,
    both: 2,
};

/// Those of range-key locking: S-S, S-N, I-X and X-X.
pub const RANGE_KEY: Modes = Modes {
    key: 4,
    stop: 3,
    inserted: 8,
    both: 11,
};

impl Modes {
    /// The mode of a lock.
    fn of(self, held: Held) -> Mode {
        match held {
            Held::Is(mode) => mode,
            Held::Key => self.key,
            Held::Stop => self.stop,
            Held::Inserted => self.inserted,
            Held::Both => self.both,
        }
    }

    /// Whether a machine shows these locks.
    pub fn are_locks(self, shown: &[((Name, Txn), Mode)], locks: &[Lock]) -> bool {
        if shown.len() != locks.len() {
            return false;
        }
        for (&((name, txn), mode), lock) in shown.iter().zip(locks) {
            if name != lock.0 || txn != lock.1 || mode != self.of(lock.2) {
                return false;
            }
        }
        true
    }
}
