//! Moves by their transactions.

use kr_ghost::Move;
use kr_model::Txn;
use std::alloc::{AllocError, Global};
use std::collections::BTreeMap;

/// What is dealt to a worker at once: the steps of one transaction in their order, each with the purges that stand behind it in
/// the script.
#[derive(Drop)]
pub(crate) struct Hand {
    pub txn: Txn,
    pub moves: Vec<Move>,
}

/// The moves of a script by their transactions, in order of first appearance. A purge before all steps is of none: there are no
/// ghosts yet. An error where a growth is refused.
pub(crate) fn deal(alloc: Global, moves: &[Move]) -> Result<Vec<Hand>, AllocError> {
    let mut hands = Vec::new(alloc);
    let mut places = BTreeMap::new(alloc);
    let mut at = 0;
    for next in moves {
        if let Move::Attempt(event) = next {
            at = place_of(alloc, &mut hands, &mut places, event.txn)?;
        }
        add(&mut hands, at, *next)?;
    }
    Ok(hands)
}

/// Where the hand of a transaction stands, which comes last where it is new.
fn place_of(
    alloc: Global,
    hands: &mut Vec<Hand>,
    places: &mut BTreeMap<Txn, usize>,
    txn: Txn,
) -> Result<usize, AllocError> {
    if let Some(at) = places.get(&txn) {
        return Ok(*at);
    }
    let at = hands.len();
    hands.push(Hand {
        txn,
        moves: Vec::new(alloc),
    })?;
    places.insert(txn, at)?;
    Ok(at)
}

/// Adds a move to the hand at a place, if there is one.
fn add(hands: &mut Vec<Hand>, at: usize, next: Move) -> Result<(), AllocError> {
    if let Some(hand) = hands.get_mut(at) {
        hand.moves.push(next)?;
    }
    Ok(())
}
