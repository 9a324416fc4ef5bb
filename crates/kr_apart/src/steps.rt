//! What a step of a light machine finds.

use crate::flat::Flat;
use crate::light::{Light, Stand};
use crate::seat::Place;
use crate::sight::{AnyRow, Sight};
use kr_change::GhostRow;
use kr_model::{Op, Row};

impl Light {
    /// What a step finds. There is none where it would need a place or a note that there is no room for, and none of an end, a
    /// change taken back, or a scan that goes on.
    pub(crate) fn look(&self, flat: &Flat, seat: usize, op: Op) -> Option<Sight> {
        match op {
            Op::Fetch(key) => {
                let miss = AnyRow::Each(Row::FetchMiss);
                Some(self.looked_up(Row::FetchHit, miss, key))
            }
            Op::Update(key, _) => {
                let miss = AnyRow::of_vain(flat, GhostRow::UpdateMiss, Row::FetchMiss);
                Some(self.looked_up(Row::Update, miss, key))
            }
            Op::Insert(key, _) => self.inserted(flat, seat, key),
            Op::Delete(key) => match self.stand(key) {
                Stand::Present => self.deleted(flat, seat, key),
                _ => {
                    let miss = AnyRow::of_vain(flat, GhostRow::DeleteMiss, Row::FetchMiss);
                    Some(self.looked_up(Row::Delete, miss, key))
                }
            },
            Op::Scan(lo, hi) => {
                let next = self.at(lo);
                if self.key(next) <= hi {
                    Some(Sight::of_key(AnyRow::Each(Row::ScanKey), next))
                } else {
                    Some(Sight::of_gap(AnyRow::Each(Row::ScanStop), next))
                }
            }
            _ => None,
        }
    }

    /// What finds a name finds by the one row, and what misses it by the other.
    fn looked_up(&self, row: Row, miss: AnyRow, key: u64) -> Sight {
        match self.name(key) {
            Some(place) => Sight::of_key(AnyRow::Each(row), place),
            None => Sight::of_gap(miss, self.at(key)),
        }
    }

    /// The place of the least name above a key.
    fn above(&self, key: u64) -> Place {
        self.at(key.saturating_add(1))
    }

    /// What the insert of a key finds.
    fn inserted(&self, flat: &Flat, seat: usize, key: u64) -> Option<Sight> {
        match (self.stand(key), self.place_of(key)) {
            (Stand::Present, Some(place)) => Some(self.hit(flat, key, place)),
            (Stand::Ghost, Some(place)) => {
                self.inserted_at(seat, key, AnyRow::Ghosts(GhostRow::Revive), place)
            }
            (_, Some(place)) => self.inserted_at(seat, key, AnyRow::Each(Row::Insert), place),
            (_, None) => self.inserted_at(seat, key, AnyRow::Each(Row::Insert), self.free()?),
        }
    }

    /// What the insert of a present key finds.
    fn hit(&self, flat: &Flat, key: u64, place: Place) -> Sight {
        match AnyRow::of_vain(flat, GhostRow::InsertHit, Row::FetchHit) {
            AnyRow::Each(row) => Sight::of_key(AnyRow::Each(row), place),
            row => Sight {
                row,
                current: Some(place),
                next: Some(self.above(key)),
                change: None,
            },
        }
    }

    /// What an insert finds that makes the key at a place present.
    fn inserted_at(&self, seat: usize, key: u64, row: AnyRow, place: Place) -> Option<Sight> {
        if !self.seat(seat).has_room() {
            return None;
        }
        Some(Sight {
            row,
            current: Some(place),
            next: Some(self.above(key)),
            change: Some((key, true)),
        })
    }

    /// What the delete of a present key finds.
    fn deleted(&self, flat: &Flat, seat: usize, key: u64) -> Option<Sight> {
        let place = self.place_of(key)?;
        if !self.seat(seat).has_room() {
            return None;
        }
        let next = if flat.leaves_ghosts() {
            None
        } else {
            Some(self.above(key))
        };
        Some(Sight {
            row: AnyRow::Each(Row::Delete),
            current: Some(place),
            next,
            change: Some((key, false)),
        })
    }
}
