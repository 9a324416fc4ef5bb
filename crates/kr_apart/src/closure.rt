//! The states that two transactions can come to.

use crate::flat::Flat;
use crate::keys::openings;
use crate::moves::{MOST_MOVES, Move, Moves, changes_beside, put_usual};
use crate::node::Node;
use crate::seen::Seen;
use crate::signature::Signature;
use crate::trail::Trail;
use kr_model::{Memory, Op};
use std::alloc::Global;

/// So many states are looked at, at most.
pub(crate) const MOST_NODES: usize = 20000;

/// States, breadth first, as they are found.
#[derive(Drop)]
pub(crate) struct Closure {
    /// Whether changes are taken back.
    backs: bool,
    nodes: Vec<Node>,
    seen: Seen,
}

impl Closure {
    /// The openings of a table.
    pub(crate) fn new(alloc: Global, flat: &Flat, backs: bool) -> Result<Closure, Memory> {
        let mut closure = Closure {
            backs,
            nodes: Vec::new(alloc),
            seen: Seen::new(alloc)?,
        };
        for number in 0..openings(flat.leaves_ghosts()) {
            let node = Node::new(number);
            if closure.is_new(&node) {
                closure.nodes.push(node)?;
            }
        }
        Ok(closure)
    }

    /// The state at a place.
    pub(crate) fn get(&self, place: usize) -> Option<&Node> {
        self.nodes.get(place)
    }

    /// Whether a state is new, and there is room for it.
    fn is_new(&mut self, node: &Node) -> bool {
        self.nodes.len() < MOST_NODES && self.seen.put(Signature::of(node, self.backs))
    }

    /// Goes on from a state by each move.
    pub(crate) fn grow(
        &mut self,
        flat: &Flat,
        trail: &mut Trail,
        node: &Node,
    ) -> Result<(), Memory> {
        if self.nodes.len() >= MOST_NODES {
            return Ok(());
        }
        let moves = moves_on(flat, node, self.backs);
        for place in 0..MOST_MOVES {
            let Some((seat, by)) = moves.get(place) else {
                break;
            };
            if let Some(mut after) = node.after(flat, seat, by) {
                if self.is_new(&after) {
                    after.last = trail.put(node.last, node.txn(seat), by)?;
                    self.nodes.push(after)?;
                }
            }
        }
        Ok(())
    }
}

/// The moves by which a state goes on: those of the two, their ends, and what one more changes and commits.
pub(crate) fn moves_on(flat: &Flat, node: &Node, backs: bool) -> Moves {
    let mut list = Moves::new();
    for place in node.pair {
        put_moves(&mut list, flat, node, place, backs);
    }
    put_ends(&mut list, node);
    list
}

/// The moves that are tried at a state: those of one that has done nothing, and those of the two.
pub(crate) fn probes(flat: &Flat, node: &Node, backs: bool) -> Moves {
    let [one, two] = node.pair;
    let mut list = Moves::new();
    for place in [node.fresh, one, two] {
        put_moves(&mut list, flat, node, place, backs);
    }
    list
}

/// Puts the usual moves of a transaction into the list, and that it takes a change back.
fn put_moves(list: &mut Moves, flat: &Flat, node: &Node, place: usize, backs: bool) {
    let seat = node.seat(place);
    if !seat.rolls_back() {
        put_usual(list, place, &node.light, flat);
    }
    if backs && seat.has_changes() {
        list.put(place, Move::one(Op::Back));
    }
}

/// Puts the ends of the two into the list, and what one more changes and commits.
fn put_ends(list: &mut Moves, node: &Node) {
    for place in node.pair {
        let seat = node.seat(place);
        if seat.is_active() {
            list.put(place, Move::one(Op::Abort));
            if !seat.rolls_back() {
                list.put(place, Move::one(Op::Commit));
            }
        }
    }
    for by in changes_beside(&node.light) {
        list.put(node.fresh, by);
    }
}
