//! A change of one entry of a table.
ghost use Rattle.std.specs.Prelude.{◌≡◌};
ghost use Rattle.kr_change.specs.Changes.{mode_of, request_of_mode, requested_mode, with_mode};
ghost use Rattle.kr_change.specs.ChangeNames.{ghost_row_word};

use kr_model::{Mode, Row, Side, Span};

/// A row that only tables with ghosts have.
#[derive(Clone, Copy, Debug, PartialEq, Eq)]
pub enum GhostRow {
    /// An insert of a ghost.
    Revive,
    /// An insert of a present key.
    InsertHit,
    /// A delete of a key that is no name.
    DeleteMiss,
    /// An update of a key that is no name.
    UpdateMiss,
}

/// A change of one entry of a table.
#[derive(Clone, Copy, Debug, PartialEq, Eq)]
pub enum Change {
    /// The row requests this at the side, or nothing. With `own_next` only where the requester's own mode on the next name
    /// is one of these: bit `o` is set for the own mode `o`, 0 for no lock.
    Request {
        row: Row,
        side: Side,
        own_next: Option<u16>,
        request: Option<(Mode, Span)>,
    },
    /// The row, which only tables with ghosts have, requests this at the side, or nothing.
    GhostRequest {
        row: GhostRow,
        side: Side,
        request: Option<(Mode, Span)>,
    },
    /// The held and the requested mode make this mode.
    Convert {
        held: Mode,
        requested: Mode,
        mode: Mode,
    },
    /// Who holds one of these modes on a ghost that is purged inherits this mode on the next name, 0 for none. Bit `h` is set
    /// for the mode `h`.
    Heir {
        held: u16,
        mode: Mode,
    },
    /// The requested mode is compatible with the held one, or it isn't.
    Compatible {
        requested: Mode,
        held: Mode,
        is_compatible: bool,
    },
}

/// The word of a row that only tables with ghosts have, as tables name it.
pub fn ghost_row_word(row: GhostRow) -> &'static str
    ensures { result.now ≡ ghost_row_word row }
{
    match row {
        GhostRow::Revive => "revive",
        GhostRow::InsertHit => "insert-hit",
        GhostRow::DeleteMiss => "delete-miss",
        GhostRow::UpdateMiss => "update-miss",
    }
}

impl Change {
    /// The mode that the changed entry has, or `None` where it has none: where nothing is requested, and for a pair. That of an
    /// heir is 0 where nothing is inherited.
    pub fn mode(&self) -> Option<Mode>
        ensures { result ≡ mode_of self.now }
    {
        match *self {
            Change::Request { request, .. } | Change::GhostRequest { request, .. } => {
                mode_in(request)
            }
            Change::Convert { mode, .. } | Change::Heir { mode, .. } => Some(mode),
            Change::Compatible { .. } => None,
        }
    }

    /// The same change to another mode. One whose entry has none stays as it is.
    pub fn with_mode(self, mode: Mode) -> Change
        ensures { result ≡ with_mode mode self }
    {
        match self {
            Change::Request {
                row,
                side,
                own_next,
                request,
            } => Change::Request {
                row,
                side,
                own_next,
                request: to_mode(mode, request),
            },
            Change::GhostRequest { row, side, request } => Change::GhostRequest {
                row,
                side,
                request: to_mode(mode, request),
            },
            Change::Convert {
                held,
                requested,
                mode: _,
            } => Change::Convert {
                held,
                requested,
                mode,
            },
            Change::Heir { held, mode: _ } => Change::Heir { held, mode },
            other => other,
        }
    }
}

/// The mode that is requested, if any is.
fn mode_in(request: Option<(Mode, Span)>) -> Option<Mode>
    ensures { result ≡ requested_mode request }
{
    match request {
        Some((mode, _)) => Some(mode),
        None => None,
    }
}

/// The same request, if it is any, of another mode.
fn to_mode(mode: Mode, request: Option<(Mode, Span)>) -> Option<(Mode, Span)>
    ensures { result ≡ request_of_mode mode request }
{
    match request {
        Some((_, span)) => Some((mode, span)),
        None => None,
    }
}
