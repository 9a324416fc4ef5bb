//! What a seat that left lends to the closing of its engine.
ghost use Rattle.std.specs.Prelude.{◌≡◌};
ghost use Rattle.kr_records.specs.Closed.{lent};

use crate::name::EngineName;
use crate::seat_state::SeatState;
use crate::seen::Seen;
use std::marker::Model;

/// What a seat that left keeps, and lends to the closing of its engine.
#[derive(Drop)]
pub struct Share<K: EngineName> {
    seat: usize,
    count: u64,
    last: Option<usize>,
    view: Seen<K>,
}

impl<K: EngineName> Model for Share<K> {
    ghost use Rattle.std.specs.Prelude.{◌≡◌};
    ghost use Rattle.kr_records.specs.Histories.{entries_of};
    ghost use Rattle.kr_records.specs.Closed.{Lent};

    ghost Value = { Lent };

    ghost view = { λ s. record { seat = s.seat; count = s.count; last = s.last; view = s.view } };

    ghost invariant = { λ s. entries_of s.seat s.view ≡ s.count };
}

impl<K: EngineName> Share<K> {
    /// What a seat keeps where it leaves.
    pub fn of(state: SeatState<K>) -> Share<K>
        ensures { result ≡ lent state }
    {
        let SeatState {
            seat,
            speaks: _,
            count,
            last,
            view,
        } = state;
        Share {
            seat,
            count,
            last,
            view,
        }
    }

    /// The seat's number, from 0.
    pub fn seat(&self) -> usize
        ensures { result ≡ self.now.seat }
    {
        self.seat
    }

    /// How many receipts the seat has.
    pub fn count(&self) -> u64
        ensures { result ≡ self.now.count }
    {
        self.count
    }

    /// The place of the seat's last receipt, if it has one.
    pub fn last_place(&self) -> Option<usize>
        ensures { result ≡ self.now.last }
    {
        self.last
    }

    /// What the seat has seen.
    pub fn view(&self) -> &Seen<K>
        ensures { result.now ≡ self.now.view }
    {
        &self.view
    }
}
