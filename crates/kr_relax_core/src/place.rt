//! Requests by the modes of who makes them.
ghost use Rattle.std.specs.Prelude.{◌≡◌, ◌≤◌, ◌<◌, IfSome};
ghost use Rattle.kr_change.specs.GhostChanges.{ghost_row_number};
ghost use Rattle.kr_kinds.specs.Kinds.{table_of};
ghost use Rattle.kr_relax_core.specs.Finding.{place_number};
ghost use Rattle.kr_relax_core.specs.Met as spec;

use kr_change::GhostRow;
use kr_ghost_protocol::{GhostProtocol, Vain, vain_request};
use kr_kinds::IndexProtocol;
use kr_model::{Mode, Row, Side, Span, row_number, side_number};
use kr_protocol::Protocol;

/// Where a transaction comes to a mode on a name.
#[derive(Clone, Copy, Debug, PartialEq, Eq)]
pub enum Place {
    /// It requests a lock, by a row at a side,
    Row(Row, Side),
    /// or by a row that only tables with ghosts have.
    GhostRow(GhostRow, Side),
    /// A ghost below the name is purged, and its lock there is inherited.
    Purge,
}

/// A request by the modes of who makes it. A mode is at most the protocol's count, and that is at most 15.
#[derive(Clone, Copy, PartialEq, Eq)]
pub struct Request {
    pub place: Place,
    /// The requester's own mode on the requested name, 0 for no lock.
    pub own: Mode,
    /// Its own mode on the next name, where an insert or a delete requests its key, 0 for no lock; or at a purge its mode on the
    /// ghost; else 0.
    pub next: Mode,
}

/// A request beside another transaction's lock on the requested name.
#[derive(Clone, Copy, PartialEq, Eq)]
pub struct Spot {
    pub request: Request,
    /// The mode of the other transaction's lock, 0 for none.
    pub held: Mode,
}

/// The own mode by which a row's request goes.
pub(crate) fn given_mode(row: Row, side: Side, own: Mode, next: Mode) -> Mode
    ensures { result ≡ spec.given_mode row side own next }
{
    match (row, side) {
        (Row::Insert, Side::Next) | (Row::Delete, Side::Next) => own,
        (Row::Insert, Side::Current) | (Row::Delete, Side::Current) => next,
        _ => 0,
    }
}

/// What a row requests that only tables with ghosts have.
fn ghost_request<P: GhostProtocol>(protocol: &P, row: GhostRow, side: Side) -> Option<(Mode, Span)>
    ensures asked { result ≡ spec.ghost_request (P.ghosts protocol.now) row side }
    ensures in_range { IfSome result (λ a. a.0 ≤ (P.ghosts protocol.now).table.count) }
{
    match (row, side) {
        (GhostRow::Revive, Side::Current) => protocol.revive(),
        (GhostRow::Revive, Side::Next) => protocol.revive_next(),
        (GhostRow::InsertHit, Side::Current) => vain_request(protocol, Vain::InsertHit),
        (GhostRow::InsertHit, Side::Next) => protocol.insert_hit_next(),
        (GhostRow::DeleteMiss, _) => vain_request(protocol, Vain::DeleteMiss),
        (GhostRow::UpdateMiss, _) => vain_request(protocol, Vain::UpdateMiss),
    }
}

/// What a row requests at a side.
fn row_request<P: GhostProtocol>(
    protocol: &P,
    row: Row,
    side: Side,
    own_next: Mode,
) -> Option<(Mode, Span)>
    requires { own_next ≤ (P.table protocol.now).count }
    ensures asked { result ≡ (P.table protocol.now).ask row side own_next }
    ensures in_range { IfSome result (λ a. a.0 ≤ (P.table protocol.now).count) }
{
    protocol.ask(row, side, own_next)
}

/// What a held and a requested mode make.
pub(crate) fn converted<P: GhostProtocol>(protocol: &P, held: Mode, requested: Mode) -> Mode
    requires held { held ≤ (P.table protocol.now).count }
    requires requested { requested ≤ (P.table protocol.now).count }
    ensures mode { result ≡ (P.table protocol.now).convert held requested }
    ensures in_range { result ≤ (P.table protocol.now).count }
{
    protocol.convert(held, requested)
}

/// What is requested, or nothing.
pub(crate) fn request_at<P: IndexProtocol>(protocol: &P, request: Request) -> Option<(Mode, Span)>
    requires own { request.own ≤ (table_of (P.index protocol.now)).count }
    requires next { request.next ≤ (table_of (P.index protocol.now)).count }
    ensures asked { result ≡ spec.request_at (P.index protocol.now) request.place request.own request.next }
    ensures in_range { IfSome result (λ a. a.0 ≤ (P.table protocol.now).count) }
{
    match request.place {
        Place::Row(row, side) => {
            let given = given_mode(row, side, request.own, request.next);
            row_request(protocol, row, side, given)
        }
        Place::GhostRow(row, side) if protocol.leaves_ghosts() => {
            ghost_request(protocol, row, side)
        }
        _ => None,
    }
}

/// Whether a lock in the mode `held` blocks a request of another transaction.
pub(crate) fn is_blocked_at<P: IndexProtocol>(protocol: &P, request: Request, held: Mode) -> bool
    requires own { request.own ≤ (table_of (P.index protocol.now)).count }
    requires next { request.next ≤ (table_of (P.index protocol.now)).count }
    requires held { held ≤ (table_of (P.index protocol.now)).count }
    ensures { result ≡ spec.is_blocked_at (P.index protocol.now) request.place request.own request.next held }
{
    match request_at(protocol, request) {
        Some((mode, _)) => {
            let mode = converted(protocol, request.own, mode);
            !protocol.ok(mode, held)
        }
        None => false,
    }
}

/// The mode that is inherited of this one on a ghost that is purged, 0 for none.
pub(crate) fn heir<P: IndexProtocol>(protocol: &P, mode: Mode) -> Mode
    requires { mode ≤ (table_of (P.index protocol.now)).count }
    ensures heir { result ≡ spec.heir (P.index protocol.now) mode }
    ensures in_range { result ≤ (P.table protocol.now).count }
{
    if protocol.leaves_ghosts() {
        protocol.heir(mode)
    } else {
        0
    }
}

/// The mode on the requested name once the request is granted, or on the next name once the ghost is purged.
pub(crate) fn mode_then<P: IndexProtocol>(protocol: &P, request: Request) -> Mode
    requires own { request.own ≤ (table_of (P.index protocol.now)).count }
    requires next { request.next ≤ (table_of (P.index protocol.now)).count }
    ensures mode { result ≡ spec.mode_then (P.index protocol.now) request.place request.own request.next }
    ensures in_range { result ≤ (table_of (P.index protocol.now)).count }
{
    if request.place == Place::Purge {
        return converted(protocol, request.own, heir(protocol, request.next));
    }
    match request_at(protocol, request) {
        Some((mode, Span::Commit)) => converted(protocol, request.own, mode),
        _ => request.own,
    }
}

/// The place of a row in its order, from 0.
fn ghost_row_number(row: GhostRow) -> usize
    ensures number { result ≡ ghost_row_number row }
    ensures below { result < 4 }
{
    match row {
        GhostRow::Revive => 0,
        GhostRow::InsertHit => 1,
        GhostRow::DeleteMiss => 2,
        GhostRow::UpdateMiss => 3,
    }
}

/// The number of a place.
pub(crate) fn place_number(place: Place) -> usize
    ensures number { result ≡ place_number place }
    ensures below { result < 23 }
{
    match place {
        Place::Row(row, side) => row_number(row) * 2 + side_number(side),
        Place::GhostRow(row, side) => 14 + ghost_row_number(row) * 2 + side_number(side),
        Place::Purge => 22,
    }
}
