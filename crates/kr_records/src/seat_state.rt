//! What a seat keeps of its own.
ghost use Rattle.std.specs.Prelude.{◌≡◌, [], None, Decides};
ghost use Rattle.kr_records.specs.Seats.{FitsNotes};

use crate::name::EngineName;
use crate::notes::SeatNote;
use crate::row::PlaceRow;
use crate::seen::Seen;
use kr_model::Txn;
use std::marker::Model;

/// What a seat keeps of its own. It takes no memory.
#[derive(Drop)]
pub struct SeatState<K: EngineName> {
    /// Its number.
    pub seat: usize,
    /// The transaction that it speaks for.
    pub speaks: Option<Txn>,
    /// How many receipts it has.
    pub count: u64,
    /// The place of its last receipt.
    pub last: Option<usize>,
    /// What it has seen of the history.
    pub view: Seen<K>,
}

impl<K: EngineName> Model for SeatState<K> {
    ghost use Rattle.std.specs.Prelude.{◌≡◌};
    ghost use Rattle.kr_records.specs.Histories.{entries_of};
    ghost use Rattle.kr_records.specs.Seats.{Held};

    ghost Value = { Held };

    ghost view = { λ h. record { seat = h.seat; speaks = h.speaks; count = h.count; last = h.last; view = h.view } };

    ghost invariant = { λ h. entries_of h.seat h.view ≡ h.count };
}

impl<K: EngineName> SeatState<K> {
    /// That of a seat that has done nothing and seen nothing.
    pub fn new(seat: usize, row: &PlaceRow) -> SeatState<K>
        requires { row.now ≡ K.places }
        ensures { result ≡ record { seat = seat; speaks = None; count = 0; last = None; view = [] } }
    {
        SeatState {
            seat,
            speaks: None,
            count: 0,
            last: None,
            view: Seen::new(row),
        }
    }

    /// Whether it fits what is noted of seats and the history: the seat was given, has as many receipts as are noted, speaks
    /// for the number that is noted as its last, and has seen no more than there is.
    pub fn fits(&self, seats: &[SeatNote], history: &Seen<K>) -> bool
        ensures { Decides result (FitsNotes seats.now history.now self.now) }
    {
        if self.view.len() > history.len() || self.seat >= seats.len() {
            return false;
        }
        let note = &seats[self.seat];
        note.count == self.count && note.last == self.speaks
    }
}
