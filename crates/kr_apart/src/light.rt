//! A machine of a few keys and transactions.
ghost use Rattle.std.specs.Prelude.{◌≤◌};

use crate::flat::{Flat, Request};
use crate::seat::{CHANGES, Change, PLACES, Place, SEATS, Seat};
use crate::sight::Sight;
use kr_model::{Op, Side, Span};

/// How the key of a place stands: it is present, a ghost, or no name.
#[derive(Clone, Copy, PartialEq, Eq)]
pub(crate) enum Stand {
    Present,
    Ghost,
    Absent,
}

impl Stand {
    /// That of a key that came, by whether it has a value.
    fn of(flat: &Flat, has_value: bool) -> Stand {
        if has_value {
            Stand::Present
        } else if flat.leaves_ghosts() {
            Stand::Ghost
        } else {
            Stand::Absent
        }
    }
}

/// An index of at most 15 keys and the end, and four transactions, each with the modes that it holds and what it has
/// changed. Keys have no values, and ghosts aren't purged.
#[derive(Clone, Copy)]
pub(crate) struct Light {
    /// The key of each place, in the order in which they came; that of the end, and of a place that is free, is the greatest
    /// number, which is no key here.
    keys: [u64; PLACES],
    /// How the key of the place stands. The end is present.
    stands: [Stand; PLACES],
    /// How many places aren't free.
    places: usize,
    /// The transactions.
    seats: [Seat; SEATS],
}

impl Light {
    /// A machine with these keys, and transactions that have done nothing. Past 15 keys the others are left out.
    pub(crate) fn new(opening: &[u64]) -> Light {
        let mut light = Light {
            keys: [u64::MAX; PLACES],
            stands: [Stand::Absent; PLACES],
            places: 1,
            seats: [Seat::new(); SEATS],
        };
        light.stands[0] = Stand::Present;
        for key in opening {
            light.put(*key, Stand::Present);
        }
        light
    }

    /// A transaction, by its seat.
    pub(crate) fn seat(&self, seat: usize) -> &Seat {
        &self.seats[seat % 4]
    }

    /// The transactions at the other seats.
    pub(crate) fn others(&self, seat: usize) -> [&Seat; 3] {
        [
            &self.seats[seat.wrapping_add(1) % 4],
            &self.seats[seat.wrapping_add(2) % 4],
            &self.seats[seat.wrapping_add(3) % 4],
        ]
    }

    /// Whether all transactions hold the same locks as in another state with the same places.
    pub(crate) fn holds_as(&self, other: &Light) -> bool {
        for seat in 0..SEATS {
            if !self.seats[seat].holds_as(&other.seats[seat]) {
                return false;
            }
        }
        true
    }

    /// The place of a key that came, whether it is a name or not.
    pub(crate) fn place_of(&self, key: u64) -> Option<Place> {
        for place in 1..16 {
            if self.key(place) == key && (place as usize) < self.places {
                return Some(place);
            }
        }
        None
    }

    /// How a key stands.
    pub(crate) fn stand(&self, key: u64) -> Stand {
        match self.place_of(key) {
            Some(place) => self.stand_at(place),
            None => Stand::Absent,
        }
    }

    /// The place of a key that is a name: present, or a ghost.
    pub(crate) fn name(&self, key: u64) -> Option<Place> {
        let place = self.place_of(key)?;
        if self.is_name(place) {
            Some(place)
        } else {
            None
        }
    }

    /// The key at a place.
    pub(crate) fn key(&self, place: Place) -> u64 {
        self.keys[(place % 16) as usize]
    }

    /// How the key at a place stands.
    fn stand_at(&self, place: Place) -> Stand {
        self.stands[(place % 16) as usize]
    }

    /// Whether there is a name at a place.
    fn is_name(&self, place: Place) -> bool {
        self.stand_at(place) != Stand::Absent
    }

    /// The place of the least name from this key on.
    pub(crate) fn at(&self, from: u64) -> Place {
        let mut best = 0;
        for place in 1..16 {
            let key = self.key(place);
            if self.is_name(place) && from <= key && key < self.key(best) {
                best = place;
            }
        }
        best
    }

    /// The greatest key below this one that is a name; or 0.
    pub(crate) fn below(&self, key: u64) -> u64 {
        let mut best = 0;
        for place in 1..16 {
            let other = self.key(place);
            if self.is_name(place) && best < other && other < key {
                best = other;
            }
        }
        best
    }

    /// The first free place.
    pub(crate) fn free(&self) -> Option<Place> {
        if self.places < PLACES {
            Some(self.places as u8)
        } else {
            None
        }
    }

    /// Whether a request on a name is compatible with the locks of the others there.
    fn lets(&self, flat: &Flat, seat: usize, asked: (Option<Place>, Request)) -> bool {
        let (Some(place), Some((requested, _))) = asked else {
            return true;
        };
        let mode = flat.converted(self.seat(seat).held(place), requested);
        for other in self.others(seat) {
            if !flat.is_compatible(mode, other.held(place)) {
                return false;
            }
        }
        true
    }

    /// Whether the step of a transaction is granted.
    pub(crate) fn grants(&self, flat: &Flat, seat: usize, sight: &Sight) -> bool {
        let own = sight.own_next(self, seat);
        self.lets(flat, seat, sight.at(flat, Side::Current, own))
            && self.lets(flat, seat, sight.at(flat, Side::Next, own))
    }

    /// Takes what a request leaves on a name.
    fn take(&mut self, flat: &Flat, seat: usize, asked: (Option<Place>, Request)) {
        if let (Some(place), Some((requested, Span::Commit))) = asked {
            let seat = &mut self.seats[seat % 4];
            seat.hold(place, flat.converted(seat.held(place), requested));
        }
    }

    /// Does the step of a transaction, which is granted.
    pub(crate) fn perform(&mut self, flat: &Flat, seat: usize, sight: &Sight) {
        let own = sight.own_next(self, seat);
        self.take(flat, seat, sight.at(flat, Side::Current, own));
        self.take(flat, seat, sight.at(flat, Side::Next, own));
        if let Some((key, is_present)) = sight.change {
            if let Some(place) = self.put(key, Stand::of(flat, is_present)) {
                self.seats[seat % 4].note(Change {
                    place,
                    stood: !is_present,
                });
            }
        }
    }

    /// Lets a key stand so: its place, if there is one or room for it.
    fn put(&mut self, key: u64, stand: Stand) -> Option<Place> {
        let place = match self.place_of(key) {
            Some(place) => place,
            None => {
                let place = self.free()?;
                self.keys[(place % 16) as usize] = key;
                self.places = place as usize + 1;
                place
            }
        };
        self.stands[(place % 16) as usize] = stand;
        Some(place)
    }

    /// Ends a transaction that aborts: it takes all its changes back first.
    fn abort(&mut self, flat: &Flat, seat: usize) {
        for _ in 0..CHANGES {
            self.back(flat, seat);
        }
        self.commit(seat);
    }

    /// Ends a transaction.
    fn commit(&mut self, seat: usize) {
        self.seats[seat % 4] = Seat::new();
    }

    /// Takes the newest change of a transaction back, if there is one. A key that has no value then is a ghost, if deletes leave any.
    fn back(&mut self, flat: &Flat, seat: usize) {
        if let Some(change) = self.seats[seat % 4].take_back() {
            self.stands[(change.place % 16) as usize] = Stand::of(flat, change.stood);
        }
    }

    /// Attempts a step: whether it is granted, and then it is done. `None` where there is no room for it, or where it goes on
    /// with a scan.
    pub(crate) fn step(&mut self, flat: &Flat, seat: usize, op: Op) -> Option<bool> {
        match op {
            Op::Commit => self.commit(seat),
            Op::Abort => self.abort(flat, seat),
            Op::Back => self.back(flat, seat),
            _ => {
                let sight = self.look(flat, seat, op)?;
                if !self.grants(flat, seat, &sight) {
                    return Some(false);
                }
                self.perform(flat, seat, &sight);
            }
        }
        Some(true)
    }
}
