//! The states under two tables that differ.

use crate::closure::moves_on;
use crate::looking::Looking;
use crate::moves::MOST_MOVES;
use crate::pair::{Outcome, Pair};
use crate::search::Search;
use crate::seen::Seen;
use crate::signature::Signature;
use kr_model::Memory;

/// So many states under both tables are looked at in one pass, at most.
const MOST_IN_ALL: usize = 300000;

/// States under both tables, breadth first, as they are found.
#[derive(Drop)]
struct Pairs {
    list: Vec<Pair>,
    seen: Seen,
    /// So many, at most.
    most: usize,
}

impl Pairs {
    /// Puts a state behind the others, if it differs and is new, and there is room.
    fn is_new(&mut self, pair: &Pair, backs: bool) -> bool {
        self.list.len() < self.most
            && pair.differs()
            && self
                .seen
                .put(Signature::of_both(&pair.node, &pair.other, backs))
    }
}

impl Search<'_> {
    /// Goes on from where each change that is left made a difference, at most so far for each.
    pub(crate) fn follow(&mut self, looking: &Looking, most: usize) -> Result<(), Memory> {
        let mut pairs = Pairs {
            list: Vec::new(self.alloc),
            seen: Seen::new(self.alloc)?,
            most,
        };
        let mut left = MOST_IN_ALL;
        for number in 0..self.changes.len() {
            let is_open = matches!(self.found.get(number), Some(None));
            if is_open && looking.has(number) {
                self.follow_one(looking, number, &mut pairs, &mut left)?;
            }
        }
        Ok(())
    }

    /// The same for one change.
    fn follow_one(
        &mut self,
        looking: &Looking,
        number: usize,
        pairs: &mut Pairs,
        left: &mut usize,
    ) -> Result<(), Memory> {
        let Some(change) = self.changes.get(number).copied() else {
            return Ok(());
        };
        pairs.list.clear();
        pairs.seen.clear();
        for pending in looking.pending.iter() {
            if pending.number == number && pairs.is_new(&pending.pair, self.backs) {
                pairs.list.push(pending.pair)?;
            }
        }
        self.tables.change(change);
        for place in 0..pairs.most {
            let Some(pair) = pairs.list.get(place).copied() else {
                break;
            };
            if *left == 0 || self.tell_after(number, &pair)? {
                break;
            }
            *left -= 1;
            self.grow(&pair, pairs)?;
        }
        Ok(())
    }

    /// Goes on from a state by each move.
    fn grow(&mut self, pair: &Pair, pairs: &mut Pairs) -> Result<(), Memory> {
        let moves = moves_on(&self.tables.one, &pair.node, self.backs);
        for place in 0..MOST_MOVES {
            let Some((seat, by)) = moves.get(place) else {
                break;
            };
            let mut after = *pair;
            let outcome = after.take(&self.tables, seat, by);
            if matches!(outcome, Outcome::Granted) && pairs.is_new(&after, self.backs) {
                after.node.last = self.trail.put(pair.node.last, pair.node.txn(seat), by)?;
                pairs.list.push(after)?;
            }
        }
        Ok(())
    }
}
