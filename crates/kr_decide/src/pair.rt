//! Pairs of lock states on one name, and how they come about.
use kr_model::{LockState, Row, Side};

/// How two transactions come to their lock states on one name. A pair that came before is named by its place in the list of
/// the pairs, from 0.
#[derive(Clone, Copy, Debug, PartialEq, Eq)]
pub enum Way {
    /// Neither has anything there.
    Start,
    /// The two of that pair, the other way round.
    Turned(usize),
    /// The first of that pair has ended.
    Left(usize),
    /// The first of the pair at `from` was granted the request of this row at this side. On the next name it had what the
    /// first of the pair at `next` has, where the second has nothing.
    Moved {
        from: usize,
        row: Row,
        side: Side,
        next: usize,
    },
}

/// Lock states that two transactions can have on one name at the same time, and how.
#[derive(Clone, Copy, Debug, PartialEq, Eq)]
pub struct Pair {
    pub own: LockState,
    pub other: LockState,
    pub way: Way,
}

/// A lock that doesn't block what it has to keep out: of two transactions on one name, the one with `other` has to keep out
/// the request of the row at the side, which the one with `own` may come to make, and its lock doesn't conflict with it.
#[derive(Debug, Drop)]
pub struct Hole {
    pub row: Row,
    pub side: Side,
    /// What the requester has on the name.
    pub own: LockState,
    /// What the other has there, whose lock should block the request.
    pub other: LockState,
    /// What the requester has on the next name.
    pub next: LockState,
    /// How the two come to these lock states: pairs, each from pairs before it, found breadth first.
    pub pairs: Vec<Pair>,
    /// The place of `own` and `other` among the pairs.
    pub at: usize,
    /// The place of `next`, beside nothing, among the pairs.
    pub at_next: usize,
}
