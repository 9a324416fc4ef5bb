//! A state of two transactions.

use crate::flat::Flat;
use crate::keys::opening;
use crate::light::Light;
use crate::moves::Move;
use crate::seat::{SEATS, Seat};
use kr_model::Txn;

/// A state, and the script that leads to it.
#[derive(Clone, Copy)]
pub(crate) struct Node {
    pub light: Light,
    /// The number of its opening.
    pub opening: usize,
    /// The seats of the two whose moves are followed.
    pub pair: [usize; 2],
    /// The seat of one that has done nothing.
    pub fresh: usize,
    /// The transaction at each seat.
    numbers: [Txn; SEATS],
    /// The last step of the script.
    pub last: Option<usize>,
}

impl Node {
    /// An opening in which nothing was done.
    pub(crate) fn new(number: usize) -> Node {
        Node {
            light: Light::new(opening(number)),
            opening: number,
            pair: [0, 1],
            fresh: 2,
            numbers: [1, 2, 3, 4],
            last: None,
        }
    }

    /// The transaction at a seat.
    pub(crate) fn txn(&self, seat: usize) -> Txn {
        self.numbers[seat % 4]
    }

    /// What the transaction at a seat holds and has changed.
    pub(crate) fn seat(&self, seat: usize) -> &Seat {
        self.light.seat(seat)
    }

    /// The state after a move, if each of its steps is granted.
    pub(crate) fn after(&self, flat: &Flat, seat: usize, by: Move) -> Option<Node> {
        let mut node = *self;
        for op in by.steps() {
            let Some(op) = op else {
                break;
            };
            if node.light.step(flat, seat, op) != Some(true) {
                return None;
            }
        }
        node.pass(seat, by);
        Some(node)
    }

    /// Who is who after a move. Who ends leaves its seat to the next one; who begins and goes on takes the place of the
    /// second, whose locks stay.
    pub(crate) fn pass(&mut self, seat: usize, by: Move) {
        let next = self.txn(self.fresh);
        let after = next.saturating_add(1);
        if by.is_end() {
            self.numbers[seat % 4] = next;
            self.numbers[self.fresh % 4] = after;
        } else if seat == self.fresh {
            self.pair = [self.pair[0], seat];
            self.fresh = (seat % 4 + 1) % 4;
            self.numbers[self.fresh % 4] = after;
        }
    }
}
