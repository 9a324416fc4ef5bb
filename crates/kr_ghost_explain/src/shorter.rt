//! Scripts that go wrong made shorter: whatever may be left out is left out.

use crate::draft::{Draft, without};
use crate::judging::goes_wrong;
use kr_ghost::Move;
use kr_ghost_protocol::GhostProtocol;
use kr_model::{Event, Memory, Op};
use std::alloc::Global;

/// So many times at most all is tried again.
const ROUNDS: usize = 6;

/// A script that goes wrong, as this one does, from which whatever could be left out was: moves, two moves at once, and opening
/// pairs; with fetches in the place of scans, updates and deletes where these do.
pub(crate) fn shortened<P: GhostProtocol>(
    alloc: Global,
    protocol: &P,
    mut draft: Draft,
) -> Result<Draft, Memory> {
    for _ in 0..ROUNDS {
        let before = draft.size();
        without_ones(alloc, protocol, &mut draft)?;
        without_twos(alloc, protocol, &mut draft)?;
        without_pairs(alloc, protocol, &mut draft)?;
        if draft.size() == before {
            break;
        }
    }
    plainly(alloc, protocol, &mut draft)?;
    Ok(draft)
}

/// Puts fetches in the place of scans, updates and deletes, where what comes of it goes wrong too.
fn plainly<P: GhostProtocol>(alloc: Global, protocol: &P, draft: &mut Draft) -> Result<(), Memory> {
    for at in 0..draft.moves.len() {
        let mut moves = Vec::from_slice(alloc, &draft.moves)?;
        if let Some(next) = moves.get_mut(at) {
            *next = plain(*next);
        }
        if goes_wrong(alloc, protocol, &draft.opening, &moves)? {
            draft.moves = moves;
        }
    }
    Ok(())
}

/// A fetch in the place of a scan, an update or a delete.
fn plain(next: Move) -> Move {
    match next {
        Move::Attempt(
            Event {
                txn,
                op: Op::Scan(key, _) | Op::Update(key, _) | Op::Delete(key),
            },
        ) => Move::Attempt(Event {
            txn,
            op: Op::Fetch(key),
        }),
        other => other,
    }
}

/// Leaves out single moves, the last first.
fn without_ones<P: GhostProtocol>(
    alloc: Global,
    protocol: &P,
    draft: &mut Draft,
) -> Result<(), Memory> {
    let count = draft.moves.len();
    for number in 0..count {
        let at = count - 1 - number;
        leave_out(alloc, protocol, draft, at, at)?;
    }
    Ok(())
}

/// Leaves out two moves at once.
fn without_twos<P: GhostProtocol>(
    alloc: Global,
    protocol: &P,
    draft: &mut Draft,
) -> Result<(), Memory> {
    let count = draft.moves.len();
    for first in 0..count {
        for second in first..count {
            leave_out(alloc, protocol, draft, first, second)?;
        }
    }
    Ok(())
}

/// Leaves out the moves at two places, if what is left goes wrong too.
fn leave_out<P: GhostProtocol>(
    alloc: Global,
    protocol: &P,
    draft: &mut Draft,
    first: usize,
    second: usize,
) -> Result<(), Memory> {
    let moves = without(alloc, &draft.moves, first, second)?;
    if moves.len() < draft.moves.len() && goes_wrong(alloc, protocol, &draft.opening, &moves)? {
        draft.moves = moves;
    }
    Ok(())
}

/// Leaves out opening pairs.
fn without_pairs<P: GhostProtocol>(
    alloc: Global,
    protocol: &P,
    draft: &mut Draft,
) -> Result<(), Memory> {
    for at in 0..draft.opening.len() {
        let opening = without(alloc, &draft.opening, at, at)?;
        if opening.len() < draft.opening.len()
            && goes_wrong(alloc, protocol, &opening, &draft.moves)?
        {
            draft.opening = opening;
        }
    }
    Ok(())
}
