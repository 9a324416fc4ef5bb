//! The search for a schedule that goes wrong: random walks, until some go wrong, and of these the shortest.

use crate::dice::Dice;
use crate::draft::Draft;
use crate::judging::goes_wrong;
use crate::naming::renamed;
use crate::shorter::shortened;
use crate::walks::walk;
use kr_ghost_protocol::GhostProtocol;
use kr_model::Memory;
use std::alloc::Global;

/// So many walks are taken at most.
const MOST_WALKS: usize = 100_000;

/// And so many behind one that goes wrong.
const MORE_WALKS: usize = 3_000;

/// So many of them that go wrong are enough.
const ENOUGH: usize = 8;

/// A script that goes wrong under a protocol, as short as one was found.
pub(crate) fn search<P: GhostProtocol>(
    alloc: Global,
    protocol: &P,
) -> Result<Option<Draft>, Memory> {
    let mut dice = Dice::new();
    let mut best = None;
    let mut found: usize = 0;
    let mut behind: usize = 0;
    for _ in 0..MOST_WALKS {
        if found >= ENOUGH || found > 0 && behind > MORE_WALKS {
            break;
        }
        behind = behind.saturating_add(1);
        let draft = walk(alloc, protocol, &mut dice)?;
        if goes_wrong(alloc, protocol, &draft.opening, &draft.moves)? {
            let draft = shortened(alloc, protocol, draft)?;
            let draft = named(alloc, protocol, draft)?;
            best = shorter_of(best, draft);
            found = found.saturating_add(1);
            behind = 0;
        }
    }
    Ok(best)
}

/// A script with other names, if it goes wrong with them too.
fn named<P: GhostProtocol>(alloc: Global, protocol: &P, draft: Draft) -> Result<Draft, Memory> {
    let other = renamed(alloc, &draft)?;
    if goes_wrong(alloc, protocol, &other.opening, &other.moves)? {
        Ok(other)
    } else {
        Ok(draft)
    }
}

/// The shorter of the best so far, if there is one, and another; the best where both are as long.
fn shorter_of(best: Option<Draft>, other: Draft) -> Option<Draft> {
    match best {
        Some(best) if best.size() <= other.size() => Some(best),
        _ => Some(other),
    }
}
