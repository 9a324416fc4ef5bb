//! A table as arrays.
ghost use Rattle.std.specs.Prelude.{◌≤◌, ◌<◌};

use kr_change::{Change, GhostRow};
use kr_ghost_protocol::vain_request;
use kr_kinds::{IndexProtocol, Vain};
use kr_model::{Mode, Row, Side, Span, row_number, side_number};
use kr_protocol::{Protocol, asked, converted};

/// The mode and span that are requested, or nothing.
pub type Request = Option<(Mode, Span)>;

/// A table as arrays. It has an answer to any numbers: one past its modes is compatible with every mode, converts to no lock
/// and requests nothing.
#[derive(Clone, Copy)]
pub struct Flat {
    /// How many modes there are, at most 15.
    count: Mode,
    /// Whether it offers updates.
    updates: bool,
    /// Whether a requested mode is compatible with a held one.
    compatible: [bool; PAIRS],
    /// The mode that a held and a requested one make.
    convert: [Mode; PAIRS],
    /// What a row requests at a side, by the own mode on the next name.
    request: [Request; REQUESTS],
    /// Whether a deleted key stays as a ghost.
    leaves_ghosts: bool,
    /// Whether it has the row of a vain step, in the order of the rows of ghosts. It has the first.
    has_row: [bool; GHOST_ROWS],
    /// What a row that only tables with ghosts have requests at a side.
    ghost_request: [Request; GHOST_REQUESTS],
}

/// The rows, in the order of their numbers.
const ROWS: [Row; 7] = [
    Row::FetchHit,
    Row::FetchMiss,
    Row::ScanKey,
    Row::ScanStop,
    Row::Insert,
    Row::Delete,
    Row::Update,
];

/// How many pairs of modes there are, no lock counted.
pub(crate) const PAIRS: usize = 256;

/// How many requests there are: 7 rows, 2 sides, 16 own modes.
pub(crate) const REQUESTS: usize = 224;

/// How many rows only tables with ghosts have.
const GHOST_ROWS: usize = 4;

/// How many requests these rows have: one at each of 2 sides.
const GHOST_REQUESTS: usize = 8;

/// The number of a pair of modes, below `PAIRS`.
pub(crate) fn pair_number(one: Mode, other: Mode) -> usize
    ensures { result < 256 }
{
    (one % 16) as usize * 16 + (other % 16) as usize
}

/// The number of a request, below `REQUESTS`.
pub(crate) fn request_number(row: Row, side: Side, own_next: Mode) -> usize
    ensures { result < 224 }
{
    (row_number(row) * 2 + side_number(side)) * 16 + (own_next % 16) as usize
}

/// The number of a row that only tables with ghosts have, below `GHOST_ROWS`.
fn ghost_row_number(row: GhostRow) -> usize
    ensures { result < 4 }
{
    match row {
        GhostRow::Revive => 0,
        GhostRow::InsertHit => 1,
        GhostRow::DeleteMiss => 2,
        GhostRow::UpdateMiss => 3,
    }
}

/// The number of its request at a side, below `GHOST_REQUESTS`.
pub(crate) fn ghost_request_number(row: GhostRow, side: Side) -> usize
    ensures { result < 8 }
{
    ghost_row_number(row) * 2 + side_number(side)
}

impl Flat {
    /// What the protocol says.
    pub fn of<P: IndexProtocol>(protocol: &P) -> Flat {
        let mut flat = Flat {
            count: protocol.count(),
            updates: protocol.updates(),
            compatible: [true; PAIRS],
            convert: [0; PAIRS],
            request: [None; REQUESTS],
            leaves_ghosts: protocol.leaves_ghosts(),
            has_row: has_rows(protocol),
            ghost_request: ghost_requests(protocol),
        };
        for one in 0..16 {
            for other in 0..16 {
                let pair = pair_number(one, other);
                flat.compatible[pair] = is_compatible(protocol, one, other);
                flat.convert[pair] = converted(protocol, one, other);
            }
        }
        for row in ROWS {
            for own in 0..16 {
                for side in [Side::Current, Side::Next] {
                    flat.request[request_number(row, side, own)] = asked(protocol, row, side, own);
                }
            }
        }
        flat
    }

    /// How many modes there are.
    pub fn count(&self) -> Mode {
        self.count
    }

    /// Whether it offers updates.
    pub fn updates(&self) -> bool {
        self.updates
    }

    /// Whether a requested mode is compatible with a held one.
    pub fn is_compatible(&self, requested: Mode, held: Mode) -> bool {
        self.compatible[pair_number(requested, held)]
    }

    /// The mode that a held and a requested one make.
    pub fn converted(&self, held: Mode, requested: Mode) -> Mode {
        self.convert[pair_number(held, requested)]
    }

    /// What a row requests at a side, by the own mode on the next name.
    pub fn request(&self, row: Row, side: Side, own_next: Mode) -> Request {
        self.request[request_number(row, side, own_next)]
    }

    /// Whether a deleted key stays as a ghost.
    pub fn leaves_ghosts(&self) -> bool {
        self.leaves_ghosts
    }

    /// Whether it has the row of a vain step, or of an insert of a ghost. Without ghosts it has none.
    pub fn has_row(&self, row: GhostRow) -> bool {
        self.leaves_ghosts && self.has_row[ghost_row_number(row)]
    }

    /// What a row that only tables with ghosts have requests at a side.
    pub fn ghost_request(&self, row: GhostRow, side: Side) -> Request {
        self.ghost_request[ghost_request_number(row, side)]
    }

    /// Changes one entry. That of an heir it doesn't have.
    pub fn change(&mut self, change: Change) {
        match change {
            Change::Compatible {
                requested,
                held,
                is_compatible,
            } => self.compatible[pair_number(requested, held)] = is_compatible,
            Change::Convert {
                held,
                requested,
                mode,
            } => self.convert[pair_number(held, requested)] = mode,
            Change::Request {
                row,
                side,
                own_next,
                request,
            } => {
                for own in 0..16 {
                    if concerns(own_next, own) {
                        self.request[request_number(row, side, own)] = request;
                    }
                }
            }
            Change::GhostRequest { row, side, request } => {
                self.ghost_request[ghost_request_number(row, side)] = request;
            }
            Change::Heir { .. } => {}
        }
    }
}

/// Which of the rows it has that only tables with ghosts have.
fn has_rows<P: IndexProtocol>(protocol: &P) -> [bool; GHOST_ROWS] {
    [
        true,
        protocol.vain(Vain::InsertHit).is_some(),
        protocol.vain(Vain::DeleteMiss).is_some(),
        protocol.vain(Vain::UpdateMiss).is_some(),
    ]
}

/// What these rows request, on the key and on the next name.
fn ghost_requests<P: IndexProtocol>(protocol: &P) -> [Request; GHOST_REQUESTS] {
    [
        protocol.revive(),
        protocol.revive_next(),
        vain_request(protocol, Vain::InsertHit),
        protocol.insert_hit_next(),
        None,
        vain_request(protocol, Vain::DeleteMiss),
        None,
        vain_request(protocol, Vain::UpdateMiss),
    ]
}

/// Whether a change is of what is requested with the own mode on the next name.
fn concerns(own_next: Option<u16>, own: Mode) -> bool
    requires { own ≤ 15 }
{
    match own_next {
        Some(modes) => modes >> own & 1 == 1,
        None => true,
    }
}

/// Whether a requested mode is compatible with a held one. A number past the modes is compatible with all.
fn is_compatible<P: Protocol>(protocol: &P, requested: Mode, held: Mode) -> bool {
    let count = protocol.count();
    requested > count || held > count || protocol.ok(requested, held)
}
