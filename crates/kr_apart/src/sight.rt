//! What a step looks at.

use crate::entry::{Entries, Entry};
use crate::flat::{Flat, Request};
use crate::light::Light;
use crate::seat::Place;
use kr_change::GhostRow;
use kr_model::{Mode, Row, Side};

/// A row of a table.
#[derive(Clone, Copy, PartialEq, Eq)]
pub(crate) enum AnyRow {
    /// One that every table has.
    Each(Row),
    /// One that only tables with ghosts have.
    Ghosts(GhostRow),
}

impl AnyRow {
    /// That of a vain step: its own where the table has it, and else that of a fetch.
    pub(crate) fn of_vain(flat: &Flat, own: GhostRow, fetch: Row) -> AnyRow {
        if flat.has_row(own) {
            AnyRow::Ghosts(own)
        } else {
            AnyRow::Each(fetch)
        }
    }

    /// What it requests at a side.
    fn request(self, flat: &Flat, side: Side, own_next: Mode) -> Request {
        match self {
            AnyRow::Each(row) => flat.request(row, side, own_next),
            AnyRow::Ghosts(row) => flat.ghost_request(row, side),
        }
    }

    /// The entry that says so.
    fn entry(self, side: Side, own_next: Mode) -> Entry {
        match self {
            AnyRow::Each(row) => Entry::Request(row, side, own_next),
            AnyRow::Ghosts(row) => Entry::GhostRequest(row, side),
        }
    }
}

/// What a step finds: its row, the places of its names, and what it changes.
#[derive(Clone, Copy)]
pub(crate) struct Sight {
    /// The row of the table.
    pub row: AnyRow,
    /// The place of the key that the step names, where it requests a lock on it.
    pub current: Option<Place>,
    /// The place of the next name, where it requests a lock on it.
    pub next: Option<Place>,
    /// The key that it changes, and whether the key is present then.
    pub change: Option<(u64, bool)>,
}

impl Sight {
    /// A step that reads or updates the key at a place, or doesn't find it present.
    pub(crate) fn of_key(row: AnyRow, place: Place) -> Sight {
        Sight {
            row,
            current: Some(place),
            next: None,
            change: None,
        }
    }

    /// A step that reads the gap below a name.
    pub(crate) fn of_gap(row: AnyRow, next: Place) -> Sight {
        Sight {
            row,
            current: None,
            next: Some(next),
            change: None,
        }
    }

    /// The mode by which the row's requests go.
    pub(crate) fn own_next(&self, light: &Light, seat: usize) -> Mode {
        match (self.row, self.next) {
            (AnyRow::Each(Row::Insert | Row::Delete), Some(next)) => light.seat(seat).held(next),
            _ => 0,
        }
    }

    /// The place of the name at a side, and what is requested there.
    pub(crate) fn at(&self, flat: &Flat, side: Side, own_next: Mode) -> (Option<Place>, Request) {
        let place = match side {
            Side::Current => self.current,
            Side::Next => self.next,
        };
        (place, self.row.request(flat, side, own_next))
    }

    /// The entries that the step of a transaction looks at.
    pub(crate) fn entries(&self, flat: &Flat, light: &Light, seat: usize) -> Entries {
        let mut entries = Entries::new();
        let own_next = self.own_next(light, seat);
        for side in [Side::Current, Side::Next] {
            if let (Some(place), request) = self.at(flat, side, own_next) {
                entries.put(self.row.entry(side, own_next));
                if let Some((mode, _)) = request {
                    looked_up(flat, light, seat, place, mode, &mut entries);
                }
            }
        }
        entries
    }
}

/// Puts the entries that a request in a mode on a name looks at.
fn looked_up(
    flat: &Flat,
    light: &Light,
    seat: usize,
    place: Place,
    requested: Mode,
    entries: &mut Entries,
) {
    let own = light.seat(seat).held(place);
    if own != 0 {
        entries.put(Entry::Convert(own, requested));
    }
    let mode = flat.converted(own, requested);
    for other in light.others(seat) {
        let held = other.held(place);
        if held != 0 {
            entries.put(Entry::Compatible(mode, held));
        }
    }
}
