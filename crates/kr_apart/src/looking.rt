//! What is looked at in a state.

use crate::closure::probes;
use crate::light::Light;
use crate::moves::{MOST_MOVES, Move};
use crate::node::Node;
use crate::pair::{Outcome, Pair};
use crate::search::{Found, Search};
use crate::sight::Sight;
use crate::tables::Tables;
use kr_model::{Memory, Op};

/// So many places are remembered, at most, at which a change makes a difference in locks alone.
const MOST_TRIES: usize = 60;

/// A move that leaves other locks under a change.
#[derive(Clone, Copy)]
pub(crate) struct Pending {
    /// The number of the change.
    pub number: usize,
    pub pair: Pair,
}

/// What was looked at in a pass.
#[derive(Drop)]
pub(crate) struct Looking {
    /// The states that differ.
    pub pending: Vec<Pending>,
    /// How many there are of each change.
    tries: Vec<usize>,
}

/// A step in a state, at which changes are looked at.
#[derive(Clone, Copy)]
struct Stand<'a> {
    node: &'a Node,
    /// The state before the step, under the table.
    light: &'a Light,
    seat: usize,
    /// The move up to the step.
    by: Move,
    sight: Sight,
}

impl Stand<'_> {
    /// Whether the step is granted under both tables, under one alone, or under none.
    fn outcome(&self, tables: &Tables) -> Outcome {
        let one = self.light.grants(&tables.one, self.seat, &self.sight);
        let other = self.light.grants(&tables.other, self.seat, &self.sight);
        if one != other {
            Outcome::Apart(0)
        } else if one {
            Outcome::Granted
        } else {
            Outcome::Not
        }
    }

    /// The state after the step, which is granted under both tables.
    fn taken(&self, tables: &Tables) -> Pair {
        let mut pair = Pair {
            node: *self.node,
            other: *self.light,
        };
        pair.node.light = *self.light;
        pair.node.light.perform(&tables.one, self.seat, &self.sight);
        pair.other.perform(&tables.other, self.seat, &self.sight);
        pair.node.pass(self.seat, self.by);
        pair
    }
}

impl Search<'_> {
    /// Nothing was looked at.
    pub(crate) fn looking(&self) -> Result<Looking, Memory> {
        Ok(Looking {
            pending: Vec::new(self.alloc),
            tries: vec![in self.alloc; 0; self.changes.len()]?,
        })
    }

    /// Looks at each step that may be taken in a state, and at each change of an entry that the step looks at.
    pub(crate) fn look_at(&mut self, looking: &mut Looking, node: &Node) -> Result<(), Memory> {
        let moves = probes(&self.tables.one, node, self.backs);
        for place in 0..MOST_MOVES {
            let Some((seat, by)) = moves.get(place) else {
                break;
            };
            self.look_along(looking, node, seat, by)?;
        }
        Ok(())
    }

    /// The same for the steps of a move.
    fn look_along(
        &mut self,
        looking: &mut Looking,
        node: &Node,
        seat: usize,
        by: Move,
    ) -> Result<(), Memory> {
        let mut light = node.light;
        let mut place = 0;
        for op in by.steps() {
            let Some(op) = op else {
                break;
            };
            if let Some(sight) = light.look(&self.tables.one, seat, op) {
                let stand = Stand {
                    node,
                    light: &light,
                    seat,
                    by: by.up_to(place),
                    sight,
                };
                self.consider_all(looking, stand)?;
            }
            if light.step(&self.tables.one, seat, op) != Some(true) {
                break;
            }
            place = 1;
        }
        Ok(())
    }

    /// Considers each open change of an entry that the step looks at.
    fn consider_all(&mut self, looking: &mut Looking, stand: Stand<'_>) -> Result<(), Memory> {
        let entries = stand
            .sight
            .entries(&self.tables.one, stand.light, stand.seat);
        for which in 0..10 {
            let Some(entry) = entries.get(which) else {
                break;
            };
            let mut place: usize = 0;
            for _ in 0..self.open.len_at(entry) {
                let Some(number) = self.open.get(entry, place) else {
                    break;
                };
                if !self.consider(looking, stand, number)? {
                    place = place.saturating_add(1);
                }
            }
        }
        Ok(())
    }

    /// Considers a change: whether the step, or one more, tells it apart.
    fn consider(
        &mut self,
        looking: &mut Looking,
        stand: Stand<'_>,
        number: usize,
    ) -> Result<bool, Memory> {
        let Some(change) = self.changes.get(number).copied() else {
            return Ok(false);
        };
        self.tables.change(change);
        let node = stand.node;
        match stand.outcome(&self.tables) {
            Outcome::Not => Ok(false),
            Outcome::Apart(_) => {
                let last = self.trail.put(node.last, node.txn(stand.seat), stand.by)?;
                self.tell(
                    number,
                    Found {
                        opening: node.opening,
                        last,
                    },
                );
                Ok(true)
            }
            Outcome::Granted => self.remember(looking, stand, number),
        }
    }

    /// Remembers what a step that is granted leaves under a change, if the locks differ; and whether one more step tells the
    /// change apart.
    fn remember(
        &mut self,
        looking: &mut Looking,
        stand: Stand<'_>,
        number: usize,
    ) -> Result<bool, Memory> {
        if !looking.has_room(number) {
            return Ok(false);
        }
        let mut pair = stand.taken(&self.tables);
        if !pair.differs() {
            return Ok(false);
        }
        let node = stand.node;
        pair.node.last = self.trail.put(node.last, node.txn(stand.seat), stand.by)?;
        looking.put(number, pair)?;
        self.tell_after(number, &pair)
    }

    /// Whether one more move tells the change apart.
    pub(crate) fn tell_after(&mut self, number: usize, pair: &Pair) -> Result<bool, Memory> {
        let node = &pair.node;
        let moves = probes(&self.tables.one, node, false);
        for place in 0..MOST_MOVES {
            let Some((seat, by)) = moves.get(place) else {
                break;
            };
            if let Some(by) = pair.told_by(&self.tables, seat, by) {
                let last = self.trail.put(node.last, node.txn(seat), by)?;
                self.tell(
                    number,
                    Found {
                        opening: node.opening,
                        last,
                    },
                );
                return Ok(true);
            }
        }
        Ok(false)
    }
}

impl Looking {
    /// Whether one more difference of a change is remembered.
    fn has_room(&self, number: usize) -> bool {
        match self.tries.get(number) {
            Some(tries) => *tries < MOST_TRIES,
            None => false,
        }
    }

    /// Whether a difference of a change is remembered.
    pub(crate) fn has(&self, number: usize) -> bool {
        match self.tries.get(number) {
            Some(tries) => *tries > 0,
            None => false,
        }
    }

    /// Remembers a difference of a change.
    fn put(&mut self, number: usize, pair: Pair) -> Result<(), Memory> {
        self.pending.push(Pending { number, pair })?;
        if let Some(tries) = self.tries.get_mut(number) {
            *tries = tries.saturating_add(1);
        }
        Ok(())
    }
}
