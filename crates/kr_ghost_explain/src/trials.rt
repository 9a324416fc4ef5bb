//! The changes of what is to blame that are tried.
ghost use Rattle.std.specs.Prelude.{◌≤◌, IfSome};
ghost use Rattle.kr_ghost_explain.specs.Mends.{IsAt, IsAtGhostRow, IsOfAccess, IsOfBlame, IsOfRule};

use crate::blame::GhostBlame;
use crate::causes::GhostCause;
use kr_change::{Change, GhostRow};
use kr_ghost::{Access, FailedCase, Rule};
use kr_ghost_protocol::{GhostProtocol, Mode, Row, Side, Span};
use kr_model::Origin;

/// How long a lock is to be held where a mode is chosen.
fn usual_span(row: Row, side: Side) -> Span {
    match (row, side) {
        (Row::Insert, Side::Next) => Span::Instant,
        _ => Span::Commit,
    }
}

/// A change of what a row requests.
fn asks(row: Row, side: Side) -> Change
    ensures { IsAt row side result }
{
    Change::Request {
        row,
        side,
        own_next: None,
        request: Some((0, usual_span(row, side))),
    }
}

/// A change of what a row requests that only tables with ghosts have.
fn ghost_asks(row: GhostRow, side: Side) -> Change
    ensures { IsAtGhostRow row side result }
{
    Change::GhostRequest {
        row,
        side,
        request: Some((0, Span::Commit)),
    }
}

/// A change of what an access requests.
fn of_access(access: Access) -> Change
    ensures { IsOfAccess access result }
{
    match access {
        Access::Fetch => asks(Row::FetchHit, Side::Current),
        Access::Scan => asks(Row::ScanKey, Side::Current),
        Access::Delete => asks(Row::Delete, Side::Current),
        Access::Update => asks(Row::Update, Side::Current),
        Access::Revive => ghost_asks(GhostRow::Revive, Side::Current),
        Access::Insert => asks(Row::Insert, Side::Next),
        Access::InsertHit => ghost_asks(GhostRow::InsertHit, Side::Current),
    }
}

/// A change of what the row of a rule requests, where it is one request on one name.
fn of_rule(rule: Rule) -> Option<Change>
    ensures { IfSome result (IsOfRule rule) }
{
    match rule {
        Rule::FetchHit => Some(asks(Row::FetchHit, Side::Current)),
        Rule::FetchMiss => Some(asks(Row::FetchMiss, Side::Next)),
        Rule::ScanName => Some(asks(Row::ScanKey, Side::Current)),
        Rule::ScanStop => Some(asks(Row::ScanStop, Side::Next)),
        Rule::Delete => Some(asks(Row::Delete, Side::Current)),
        Rule::Update => Some(asks(Row::Update, Side::Current)),
        Rule::Revive => Some(ghost_asks(GhostRow::Revive, Side::Current)),
        Rule::InsertHit => Some(ghost_asks(GhostRow::InsertHit, Side::Current)),
        Rule::DeleteMiss => Some(ghost_asks(GhostRow::DeleteMiss, Side::Next)),
        Rule::UpdateMiss => Some(ghost_asks(GhostRow::UpdateMiss, Side::Next)),
        Rule::Conversion | Rule::Insert | Rule::Split | Rule::Heir => None,
    }
}

/// The own modes on the next name with which the locks of inserts were taken, each as a bit.
fn own_modes<P: GhostProtocol>(protocol: &P, cases: &[FailedCase]) -> u16 {
    let mut modes: u16 = 0;
    for case in cases {
        if let Origin::Insert { own_next, .. } = case.from {
            if own_next <= protocol.count() {
                modes |= 1 << own_next;
            }
        }
    }
    modes
}

/// The modes of the locks on purged ghosts that the cases are about, each as a bit.
fn held_modes<P: GhostProtocol>(protocol: &P, cases: &[FailedCase]) -> u16 {
    let mut modes: u16 = 0;
    for case in cases {
        if let Origin::Conversion { asked, .. } = case.from {
            if asked <= protocol.count() {
                modes |= 1 << asked;
            }
        }
    }
    modes
}

/// The change of what is to blame, for which a mode is still to be chosen; or `None` where no entry is.
pub(crate) fn change_of<P: GhostProtocol>(protocol: &P, cause: &GhostCause) -> Option<Change>
    ensures { IfSome result (IsOfBlame cause.now.blame) }
{
    match cause.blame {
        GhostBlame::Void(access) => Some(of_access(access)),
        GhostBlame::Request { rule, .. } => of_rule(rule),
        GhostBlame::NewKey(_) => Some(Change::Request {
            row: Row::Insert,
            side: Side::Current,
            own_next: Some(own_modes(protocol, &cause.cases)),
            request: Some((0, Span::Commit)),
        }),
        GhostBlame::Heir(_) => Some(Change::Heir {
            held: held_modes(protocol, &cause.cases),
            mode: 0,
        }),
        GhostBlame::Conversion {
            held,
            requested,
            ..
        } => Some(Change::Convert {
            held,
            requested,
            mode: 0,
        }),
        GhostBlame::Pair { requested, held } => Some(Change::Compatible {
            requested,
            held,
            is_compatible: false,
        }),
    }
}

/// How many changes are tried: one to each mode, and for a pair one alone, since it has none.
pub(crate) fn trials<P: GhostProtocol>(protocol: &P, blame: GhostBlame) -> Mode
    ensures { result ≤ 15 }
{
    match blame {
        GhostBlame::Pair { .. } => 1,
        _ => protocol.count(),
    }
}

/// The mode that is tried at a place, from 0: first a mode that is requested and not kept, and then the others, rising.
pub(crate) fn mode_at(blame: GhostBlame, place: Mode) -> Mode {
    let first = match blame {
        GhostBlame::Request {
            asked: Some((mode, Span::Instant)),
            ..
        } => mode,
        _ => 1,
    };
    if place == 0 {
        first
    } else if place < first {
        place
    } else {
        place.saturating_add(1)
    }
}
