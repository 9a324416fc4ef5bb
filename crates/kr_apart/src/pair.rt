//! A state under two tables.

use crate::light::Light;
use crate::moves::Move;
use crate::node::Node;
use crate::tables::Tables;
use kr_model::Op;

/// A state under a table, and what it is under the other, where the same steps were granted.
#[derive(Clone, Copy)]
pub(crate) struct Pair {
    pub node: Node,
    pub other: Light,
}

/// What becomes of a move under two tables.
#[derive(Clone, Copy)]
pub(crate) enum Outcome {
    /// The step at this place of it is granted under one of the tables alone.
    Apart(usize),
    /// It is granted whole under both.
    Granted,
    /// It is blocked under both, or there is no room for it.
    Not,
}

impl Pair {
    /// Takes a move under both tables, as far as it goes.
    pub(crate) fn take(&mut self, tables: &Tables, seat: usize, by: Move) -> Outcome {
        let mut place = 0;
        for op in by.steps() {
            let Some(op) = op else {
                break;
            };
            let one = self.node.light.step(&tables.one, seat, op);
            let other = self.other.step(&tables.other, seat, op);
            let (Some(one), Some(other)) = (one, other) else {
                return Outcome::Not;
            };
            if one != other {
                return Outcome::Apart(place);
            }
            if !one {
                return Outcome::Not;
            }
            place = 1;
        }
        self.node.pass(seat, by);
        Outcome::Granted
    }

    /// Whether the locks differ.
    pub(crate) fn differs(&self) -> bool {
        !self.node.light.holds_as(&self.other)
    }

    /// The move up to its first step that is granted under one of the tables alone.
    pub(crate) fn told_by(&self, tables: &Tables, seat: usize, by: Move) -> Option<Move> {
        if by.second.is_none() {
            return self.told_at_once(tables, seat, by);
        }
        let mut pair = *self;
        match pair.take(tables, seat, by) {
            Outcome::Apart(place) => Some(by.up_to(place)),
            _ => None,
        }
    }

    /// The same of a single step, which isn't done.
    fn told_at_once(&self, tables: &Tables, seat: usize, by: Move) -> Option<Move> {
        if matches!(by.first, Op::Commit | Op::Abort | Op::Back) {
            return None;
        }
        let light = &self.node.light;
        let sight = light.look(&tables.one, seat, by.first)?;
        let one = light.grants(&tables.one, seat, &sight);
        if one != self.other.grants(&tables.other, seat, &sight) {
            Some(by)
        } else {
            None
        }
    }
}
