//! Requests of locks, each by its row and side.

use crate::keys::{A, G, Y};
use kr_model::{Op, Row, Side};

/// A request of a lock: the row and the side of the table at which it is made.
pub(crate) type Request = (Row, Side);

/// The delete of the key before a name, which requests a lock on the name.
pub(crate) const TAKE: Request = (Row::Delete, Side::Next);

/// Requests on a key that is present, or on a name above it, after which all keys are present or absent as before.
pub(crate) const READS: [Request; 5] = [
    (Row::FetchHit, Side::Current),
    (Row::FetchMiss, Side::Next),
    (Row::ScanKey, Side::Current),
    (Row::ScanStop, Side::Next),
    (Row::Update, Side::Current),
];

/// Those requests, and then the delete of the key before a name.
pub(crate) const REQUESTS: [Request; 6] = [
    (Row::FetchHit, Side::Current),
    (Row::FetchMiss, Side::Next),
    (Row::ScanKey, Side::Current),
    (Row::ScanStop, Side::Next),
    (Row::Update, Side::Current),
    TAKE,
];

/// The keys of a step: the name that its lock is on, a free point in the gap below that name, and the key before it.
#[derive(Clone, Copy)]
pub(crate) struct Spot {
    pub key: u64,
    pub free: u64,
    pub before: u64,
}

impl Spot {
    /// A, with a free point below it and the key before it.
    pub(crate) fn at_a(free: u64, before: u64) -> Spot {
        Spot {
            key: A,
            free,
            before,
        }
    }

    /// Y, with the key before it: the gap below it begins at A where A is present, and else below A.
    pub(crate) fn at_y(is_a_present: bool, free: u64, before: u64) -> Spot {
        let free = if is_a_present { G } else { free };
        Spot {
            key: Y,
            free,
            before,
        }
    }

    /// The step that makes a request there. Values are given when the script is whole.
    pub(crate) fn step(self, request: Request) -> Op {
        match request {
            (Row::FetchHit, _) => Op::Fetch(self.key),
            (Row::FetchMiss, _) => Op::Fetch(self.free),
            (Row::ScanKey, _) => Op::Scan(self.free, self.key),
            (Row::ScanStop, _) => Op::Scan(self.free, self.free),
            (Row::Insert, _) => Op::Insert(self.key, 0),
            (Row::Delete, Side::Current) => Op::Delete(self.key),
            (Row::Delete, Side::Next) => Op::Delete(self.before),
            (Row::Update, _) => Op::Update(self.key, 0),
        }
    }
}
