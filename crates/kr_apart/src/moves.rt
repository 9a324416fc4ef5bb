//! What a transaction may do next.

use crate::flat::Flat;
use crate::keys::{A, Y, Z};
use crate::light::{Light, Stand};
use kr_change::GhostRow;
use kr_model::{Op, is_end};

/// One or two steps of a transaction.
#[derive(Clone, Copy)]
pub(crate) struct Move {
    pub first: Op,
    pub second: Option<Op>,
}

impl Move {
    /// One step.
    pub(crate) fn one(first: Op) -> Move {
        Move {
            first,
            second: None,
        }
    }

    /// Two steps.
    fn two(first: Op, second: Op) -> Move {
        Move {
            first,
            second: Some(second),
        }
    }

    /// Its steps, in order.
    pub(crate) fn steps(self) -> [Option<Op>; 2] {
        [Some(self.first), self.second]
    }

    /// The move up to its step at this place, 0 or 1.
    pub(crate) fn up_to(self, place: usize) -> Move {
        if place == 0 {
            Move::one(self.first)
        } else {
            self
        }
    }

    /// Whether it ends the transaction.
    pub(crate) fn is_end(self) -> bool {
        let last = match self.second {
            Some(op) => op,
            None => self.first,
        };
        is_end(last)
    }
}

/// A key that is no name, right below this one: in the middle between it and the name below.
fn between(light: &Light, key: u64) -> u64 {
    light.below(key).saturating_add(key) / 2
}

/// How many moves there is room for: at most 28 of each of three transactions are tried at a state.
pub(crate) const MOST_MOVES: usize = 96;

/// Moves, each with the seat of the transaction that takes it.
#[derive(Clone, Copy)]
pub(crate) struct Moves {
    list: [Option<(usize, Move)>; MOST_MOVES],
    /// How many there are.
    count: usize,
}

impl Moves {
    /// None.
    pub(crate) fn new() -> Moves {
        Moves {
            list: [None; MOST_MOVES],
            count: 0,
        }
    }

    /// Puts a move behind the others, if there is room.
    pub(crate) fn put(&mut self, seat: usize, by: Move) {
        if let Some(place) = self.list.get_mut(self.count) {
            *place = Some((seat, by));
            self.count = self.count.saturating_add(1);
        }
    }

    /// The move at a place, from 0, of those that there are.
    pub(crate) fn get(&self, place: usize) -> Option<(usize, Move)> {
        self.list.get(place).copied().flatten()
    }
}

/// Puts what a transaction may do that isn't rolling back into the list.
pub(crate) fn put_usual(list: &mut Moves, seat: usize, light: &Light, flat: &Flat) {
    put_below(list, seat, light);
    put_vain(list, seat, between(light, A), flat);
    put_at(list, seat, light, A, flat);
    put_at(list, seat, light, Y, flat);
    put_gaps(list, seat, light, flat);
}

/// What it may do below the first landmark.
fn put_below(list: &mut Moves, seat: usize, light: &Light) {
    let gap = between(light, A);
    list.put(seat, Move::one(Op::Fetch(gap)));
    list.put(seat, Move::one(Op::Scan(gap, gap)));
    list.put(seat, Move::one(Op::Insert(gap, 0)));
    let low = light.below(A);
    if low > 0 {
        list.put(seat, Move::one(Op::Delete(low)));
    }
    if light.stand(low) == Stand::Ghost {
        list.put(seat, Move::one(Op::Fetch(low)));
        list.put(seat, Move::one(Op::Insert(low, 0)));
    }
}

/// What it may do in vain at a key that is no name, where the table has a row for that.
fn put_vain(list: &mut Moves, seat: usize, gap: u64, flat: &Flat) {
    if flat.has_row(GhostRow::DeleteMiss) {
        list.put(seat, Move::one(Op::Delete(gap)));
    }
    if flat.has_row(GhostRow::UpdateMiss) {
        list.put(seat, Move::one(Op::Update(gap, 0)));
    }
}

/// What it may do at a landmark.
fn put_at(list: &mut Moves, seat: usize, light: &Light, key: u64, flat: &Flat) {
    let stand = light.stand(key);
    if stand != Stand::Present || flat.has_row(GhostRow::InsertHit) {
        list.put(seat, Move::one(Op::Insert(key, 0)));
    }
    if stand == Stand::Absent {
        return;
    }
    list.put(seat, Move::one(Op::Fetch(key)));
    list.put(seat, Move::one(Op::Scan(between(light, key), key)));
    list.put(seat, Move::one(Op::Delete(key)));
    if flat.updates() {
        list.put(seat, Move::one(Op::Update(key, 0)));
    }
}

/// What it may do above a landmark, if that is a name: without ghosts it leaves the gap empty.
fn put_gaps(list: &mut Moves, seat: usize, light: &Light, flat: &Flat) {
    if light.name(A).is_some() {
        put_gap(list, seat, between(light, Y), flat);
    }
    if light.name(Y).is_some() {
        let gap = between(light, Z);
        put_gap(list, seat, gap, flat);
        list.put(seat, Move::one(Op::Fetch(Z)));
        list.put(seat, Move::one(Op::Scan(gap, Z)));
    }
}

/// What it may do in a gap. Where deletes leave ghosts, what it inserts stays.
fn put_gap(list: &mut Moves, seat: usize, gap: u64, flat: &Flat) {
    list.put(seat, Move::one(Op::Fetch(gap)));
    list.put(seat, Move::one(Op::Scan(gap, gap)));
    if flat.leaves_ghosts() {
        list.put(seat, Move::one(Op::Insert(gap, 0)));
    } else {
        list.put(seat, Move::two(Op::Insert(gap, 0), Op::Delete(gap)));
    }
}

/// What one more transaction may do and commit at once.
pub(crate) fn changes_beside(light: &Light) -> [Move; 3] {
    [
        Move::two(Op::Insert(between(light, A), 0), Op::Commit),
        Move::two(turned(light, A), Op::Commit),
        Move::two(turned(light, Y), Op::Commit),
    ]
}

/// The delete of a present key, or the insert of one that isn't.
fn turned(light: &Light, key: u64) -> Op {
    if light.stand(key) == Stand::Present {
        Op::Delete(key)
    } else {
        Op::Insert(key, 0)
    }
}
