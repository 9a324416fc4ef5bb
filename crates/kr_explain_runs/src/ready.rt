//! How an intruder gets ready.

use crate::reached::Reached;
use kr_model::Mode;
use std::alloc::{AllocError, Global};

/// So many ways to get ready are kept for the same modes.
const WAYS: u8 = 2;

/// A state in which K, P and A stand as in the opening, and the modes that are held in it, not both none.
#[derive(Clone, Copy)]
pub(crate) struct Ready {
    pub on_a: Mode,
    pub on_y: Mode,
    pub end: Reached,
}

/// The first states with the same modes by which an intruder can get ready: modes rise.
pub(crate) fn ready_of(alloc: Global, reached: &[Reached]) -> Result<Vec<Ready>, AllocError> {
    let mut kept = [0u8; 256];
    let mut ready: Vec<Ready> = Vec::new(alloc);
    for end in reached {
        let (on_a, on_y) = (end.state.on_a, end.state.on_y);
        let pair = (on_a % 16) as usize * 16 + (on_y % 16) as usize;
        if pair > 0 && kept[pair] < WAYS && end.keeps_keys() {
            kept[pair] += 1;
            ready.push(Ready {
                on_a,
                on_y,
                end: *end,
            })?;
        }
    }
    ready.sort_by_key(|ready| (ready.on_a, ready.on_y))?;
    Ok(ready)
}
