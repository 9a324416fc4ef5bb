//! Scripts that may go wrong, before they are judged.

use kr_ghost::Move;
use kr_model::Memory;
use std::alloc::Global;

/// An opening map, and moves.
#[derive(Drop)]
pub(crate) struct Draft {
    pub opening: Vec<(u64, u64)>,
    pub moves: Vec<Move>,
}

impl Draft {
    /// How long it is: its moves and its opening pairs.
    pub(crate) fn size(&self) -> usize {
        self.moves.len().saturating_add(self.opening.len())
    }
}

/// A key of a number, from 1.
pub(crate) fn key_of(number: u64) -> u64 {
    number.saturating_mul(10)
}

/// The items but those at two places.
pub(crate) fn without<T: Copy + Drop>(
    alloc: Global,
    items: &[T],
    first: usize,
    second: usize,
) -> Result<Vec<T>, Memory> {
    let mut rest = Vec::new(alloc);
    for (at, item) in items.iter().enumerate() {
        if at != first && at != second {
            rest.push(*item)?;
        }
    }
    Ok(rest)
}
