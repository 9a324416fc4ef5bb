//! Entries of a table.
ghost use Rattle.std.specs.Prelude.{◌<◌};

use crate::flat::{ghost_request_number, pair_number, request_number};
use kr_change::{Change, GhostRow};
use kr_model::{Mode, Row, Side};

/// An entry of a table.
#[derive(Clone, Copy, PartialEq, Eq)]
pub(crate) enum Entry {
    /// Whether a requested mode is compatible with a held one.
    Compatible(Mode, Mode),
    /// The mode that a held and a requested one make.
    Convert(Mode, Mode),
    /// What a row requests at a side, by the own mode on the next name.
    Request(Row, Side, Mode),
    /// What a row that only tables with ghosts have requests at a side.
    GhostRequest(GhostRow, Side),
}

/// How many numbers entries have.
pub(crate) const ENTRIES: usize = 744;

/// The most entries that one step looks at: at each of two names the request, a conversion, and a compatibility with each of
/// three others.
const MOST: usize = 10;

impl Entry {
    /// The entry that a change is of. One of a request concerns the least own mode that it names, or 0. An heir is none of these: it
    /// shows by a purge, and no script has one.
    pub(crate) fn of(change: Change) -> Option<Entry> {
        let entry = match change {
            Change::Compatible {
                requested,
                held,
                is_compatible: _,
            } => Entry::Compatible(requested, held),
            Change::Convert {
                held,
                requested,
                mode: _,
            } => Entry::Convert(held, requested),
            Change::Request {
                row,
                side,
                own_next,
                request: _,
            } => Entry::Request(row, side, least(own_next)),
            Change::GhostRequest {
                row,
                side,
                request: _,
            } => Entry::GhostRequest(row, side),
            Change::Heir { .. } => return None,
        };
        Some(entry)
    }

    /// The number of the entry, below `ENTRIES`: entries that differ have different numbers, where modes are at most 15.
    pub(crate) fn number(self) -> usize
        ensures { result < 744 }
    {
        match self {
            Entry::Compatible(requested, held) => pair_number(requested, held),
            Entry::Convert(held, requested) => 256 + pair_number(held, requested),
            Entry::Request(row, side, own_next) => 512 + request_number(row, side, own_next),
            Entry::GhostRequest(row, side) => 736 + ghost_request_number(row, side),
        }
    }
}

/// The least own mode that is named; 0 where none is.
fn least(own_next: Option<u16>) -> Mode {
    let Some(modes) = own_next else {
        return 0;
    };
    for own in 0..16 {
        if modes >> own & 1 == 1 {
            return own;
        }
    }
    0
}

/// The entries that one step looks at.
#[derive(Clone, Copy)]
pub(crate) struct Entries {
    list: [Option<Entry>; MOST],
}

impl Entries {
    /// None.
    pub(crate) fn new() -> Entries {
        Entries { list: [None; MOST] }
    }

    /// Puts an entry behind the others, if it isn't among them.
    pub(crate) fn put(&mut self, entry: Entry) {
        for place in self.list.iter_mut() {
            match *place {
                None => {
                    *place = Some(entry);
                    return;
                }
                Some(other) => {
                    if other == entry {
                        return;
                    }
                }
            }
        }
    }

    /// The entry at a place, from 0, of those that there are.
    pub(crate) fn get(&self, place: usize) -> Option<Entry> {
        self.list.get(place).copied().flatten()
    }
}
