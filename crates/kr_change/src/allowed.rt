//! Which changes of one entry a protocol has.
ghost use Rattle.std.specs.Prelude.{◌≡◌};
ghost use Rattle.kr_change.specs.Changes.{has_side, is_change, is_mode, is_offered, is_request, moves_keys};
ghost use Rattle.kr_change.specs.GhostChanges.{has_ghost_place, has_place, is_ghost_change, is_index_change};

use crate::change::{Change, GhostRow};
use kr_ghost::Vain;
use kr_ghost_protocol::GhostProtocol;
use kr_kinds::IndexProtocol;
use kr_model::{Mode, Row, Side, Span};
use kr_protocol::Protocol;

/// Whether a number is a mode.
fn is_mode<P: Protocol>(protocol: &P, mode: Mode) -> bool
    ensures { result ≡ is_mode (P.table protocol.now) mode }
{
    mode > 0 && mode <= protocol.count()
}

/// Whether nothing is requested, or a mode.
fn is_request<P: Protocol>(protocol: &P, request: Option<(Mode, Span)>) -> bool
    ensures { result ≡ is_request (P.table protocol.now) request }
{
    match request {
        Some((mode, _)) => is_mode(protocol, mode),
        None => true,
    }
}

/// Whether what a row requests may go by the own mode on the next name.
pub(crate) fn moves_keys(row: Row) -> bool
    ensures { result ≡ moves_keys row }
{
    matches!(row, Row::Insert | Row::Delete)
}

/// Whether a row requests a lock at the side.
fn has_side(row: Row, side: Side) -> bool
    ensures { result ≡ has_side row side }
{
    match row {
        Row::FetchHit | Row::ScanKey | Row::Update => side == Side::Current,
        Row::FetchMiss | Row::ScanStop => side == Side::Next,
        Row::Insert | Row::Delete => true,
    }
}

/// Whether a row is offered.
fn is_offered<P: Protocol>(protocol: &P, row: Row) -> bool
    ensures { result ≡ is_offered (P.table protocol.now) row }
{
    match row {
        Row::Update => protocol.updates(),
        _ => true,
    }
}

/// Whether a change is one of a protocol's whose deletes leave no ghosts: of its modes; of a row that it offers, at a side where
/// the row requests a lock; and by own modes only where the row moves keys.
fn is_change<P: Protocol>(protocol: &P, change: Change) -> bool
    ensures { result ≡ is_change (P.table protocol.now) change }
{
    match change {
        Change::Request {
            row,
            side,
            own_next,
            request,
        } => {
            is_request(protocol, request)
                && (moves_keys(row) || own_next.is_none())
                && is_offered(protocol, row)
                && has_side(row, side)
        }
        Change::Convert {
            held,
            requested,
            mode,
        } => is_mode(protocol, held) && is_mode(protocol, requested) && is_mode(protocol, mode),
        Change::Compatible {
            requested,
            held,
            is_compatible: _,
        } => is_mode(protocol, requested) && is_mode(protocol, held),
        Change::GhostRequest { .. } | Change::Heir { .. } => false,
    }
}

/// Whether a row requests a lock at the side where deletes leave ghosts, by these own modes on the next name.
fn has_place(row: Row, side: Side, own_next: Option<u16>) -> bool
    ensures { result ≡ has_place row side own_next }
{
    match (row, side) {
        (Row::Insert, _) => true,
        (Row::Delete, Side::Next) => false,
        _ => own_next.is_none(),
    }
}

/// Whether a protocol has such a row, with a lock at the side.
fn has_ghost_place<P: GhostProtocol>(protocol: &P, row: GhostRow, side: Side) -> bool
    ensures { result ≡ has_ghost_place (P.ghosts protocol.now) row side }
{
    match (row, side) {
        (GhostRow::Revive, _) => true,
        (GhostRow::InsertHit, _) => protocol.vain(Vain::InsertHit).is_some(),
        (GhostRow::DeleteMiss, Side::Next) => protocol.vain(Vain::DeleteMiss).is_some(),
        (GhostRow::UpdateMiss, Side::Next) => protocol.vain(Vain::UpdateMiss).is_some(),
        _ => false,
    }
}

/// Whether a change is one of a protocol's whose deletes leave ghosts.
fn is_ghost_change<P: GhostProtocol>(protocol: &P, change: Change) -> bool
    ensures { result ≡ is_ghost_change (P.ghosts protocol.now) change }
{
    match change {
        Change::Request {
            row,
            side,
            own_next,
            ..
        } => has_place(row, side, own_next) && is_change(protocol, change),
        Change::GhostRequest { row, side, request } => {
            has_ghost_place(protocol, row, side) && is_request(protocol, request)
        }
        Change::Heir { held, mode } => {
            protocol.inherits() && held & 1 == 0 && mode <= protocol.count()
        }
        Change::Convert { .. } | Change::Compatible { .. } => is_change(protocol, change),
    }
}

/// Whether a change is one of a protocol's, by its kind.
pub(crate) fn is_index_change<P: IndexProtocol>(protocol: &P, change: Change) -> bool
    ensures { result ≡ is_index_change (P.index protocol.now) change }
{
    if protocol.leaves_ghosts() {
        is_ghost_change(protocol, change)
    } else {
        is_change(protocol, change)
    }
}
