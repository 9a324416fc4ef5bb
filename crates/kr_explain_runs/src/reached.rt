//! States that were reached, and how.

use crate::moves::Move;
use crate::state::State;

/// A closure holds so many states at most: others that a table has are left out.
pub(crate) const MOST_STATES: usize = 20_000;

/// The opening map of a script: K, and Y or what stands for it one name up.
#[derive(Clone, Copy)]
pub(crate) struct World {
    /// Whether P stands in the opening.
    pub p: bool,
    /// Whether A stands in the opening.
    pub a: bool,
    /// The state, by its place in the closure, whose script goes before, moved one name up.
    pub above: Option<usize>,
}

/// The move that led to a state, from the state at this place in the closure.
#[derive(Clone, Copy)]
pub(crate) struct Last {
    pub before: usize,
    pub by: Move,
}

/// A state, the world that its script begins in, and its last move, if it has one.
#[derive(Clone, Copy)]
pub(crate) struct Reached {
    pub state: State,
    pub world: World,
    pub last: Option<Last>,
}

impl Reached {
    /// Whether its script leaves K, P and A as they stood in the opening.
    pub(crate) fn keeps_keys(&self) -> bool {
        let Reached { state, world, .. } = self;
        state.k && state.p == world.p && state.a == world.a
    }
}
