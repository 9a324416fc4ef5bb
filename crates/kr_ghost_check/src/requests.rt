//! What is requested on a name, the mode that this leaves, and whether a lock there lets it through: a protocol's answers, as those
//! of its table with ghosts.
ghost use Rattle.std.specs.Prelude.{◌≡◌, ◌≤◌, IfSome};
ghost use Rattle.kr_model.specs.Covers.{mode_after};
ghost use Rattle.kr_ghost.specs.Covers.{asked, has_row, is_open};
ghost use Rattle.kr_ghost.specs.Step as spec;

use kr_ghost::{Access, Requester, Vain};
use kr_ghost_protocol::{GhostProtocol, Mode, Row, Side, Span, vain_request};

/// How many modes there are.
pub(crate) fn count<P: GhostProtocol>(protocol: &P) -> Mode
    ensures count { result ≡ (P.ghosts protocol.now).table.count }
    ensures few { result ≤ 15 }
{
    protocol.count()
}

/// What a row requests at a side, of one who has this own mode on the next name.
pub(crate) fn ask<P: GhostProtocol>(
    protocol: &P,
    row: Row,
    side: Side,
    own_next: Mode,
) -> Option<(Mode, Span)>
    requires { own_next ≤ (P.ghosts protocol.now).table.count }
    ensures asked { result ≡ (P.ghosts protocol.now).table.ask row side own_next }
    ensures in_range { IfSome result (λ a. a.0 ≤ (P.ghosts protocol.now).table.count) }
{
    protocol.ask(row, side, own_next)
}

/// What an insert of a ghost requests on it.
pub(crate) fn revive<P: GhostProtocol>(protocol: &P) -> Option<(Mode, Span)>
    ensures asked { result ≡ (P.ghosts protocol.now).revive }
    ensures in_range { IfSome result (λ a. a.0 ≤ (P.ghosts protocol.now).table.count) }
{
    protocol.revive()
}

/// Whether the table has a row for a vain step.
pub(crate) fn has_row<P: GhostProtocol>(protocol: &P, vain: Vain) -> bool
    ensures { result ≡ has_row (P.ghosts protocol.now) vain }
{
    protocol.vain(vain).is_some()
}

/// What a vain step requests.
pub(crate) fn vain<P: GhostProtocol>(protocol: &P, vain: Vain) -> Option<(Mode, Span)>
    ensures asked { result ≡ spec.vain (P.ghosts protocol.now) vain }
    ensures in_range { IfSome result (λ a. a.0 ≤ (P.ghosts protocol.now).table.count) }
{
    vain_request(protocol, vain)
}

/// What an access requests, of one who has this own mode on the name.
fn asked<P: GhostProtocol>(protocol: &P, access: Access, own: Mode) -> Option<(Mode, Span)>
    requires { own ≤ (P.ghosts protocol.now).table.count }
    ensures asked { result ≡ asked (P.ghosts protocol.now) access own }
    ensures in_range { IfSome result (λ a. a.0 ≤ (P.ghosts protocol.now).table.count) }
{
    match access {
        Access::Fetch => ask(protocol, Row::FetchHit, Side::Current, 0),
        Access::Scan => ask(protocol, Row::ScanKey, Side::Current, 0),
        Access::Delete => ask(protocol, Row::Delete, Side::Current, 0),
        Access::Update => ask(protocol, Row::Update, Side::Current, 0),
        Access::Revive => revive(protocol),
        Access::Insert => ask(protocol, Row::Insert, Side::Next, own),
        Access::InsertHit => vain(protocol, Vain::InsertHit),
    }
}

/// The mode of one who held a mode and requested another.
pub(crate) fn converted<P: GhostProtocol>(protocol: &P, held: Mode, asked: Mode) -> Mode
    requires held { held ≤ (P.ghosts protocol.now).table.count }
    requires asked { asked ≤ (P.ghosts protocol.now).table.count }
    ensures mode { result ≡ (P.ghosts protocol.now).table.convert held asked }
    ensures in_range { result ≤ (P.ghosts protocol.now).table.count }
{
    protocol.convert(held, asked)
}

/// The mode on a name of one who held `own` there, after a request was granted: one for an instant isn't kept.
pub(crate) fn after<P: GhostProtocol>(protocol: &P, own: Mode, asked: Option<(Mode, Span)>) -> Mode
    requires own { own ≤ (P.ghosts protocol.now).table.count }
    requires asked { IfSome asked (λ a. a.0 ≤ (P.ghosts protocol.now).table.count) }
    ensures mode { result ≡ mode_after (P.ghosts protocol.now).table own asked }
    ensures in_range { result ≤ (P.ghosts protocol.now).table.count }
{
    match asked {
        Some((mode, Span::Commit)) => converted(protocol, own, mode),
        _ => own,
    }
}

/// Whether a lock in mode `held` lets the requester through.
pub(crate) fn is_open<P: GhostProtocol>(protocol: &P, held: Mode, requester: Requester) -> bool
    requires held { held ≤ (P.ghosts protocol.now).table.count }
    requires own { requester.own ≤ (P.ghosts protocol.now).table.count }
    ensures { result ≡ is_open (P.ghosts protocol.now) held requester }
{
    match asked(protocol, requester.access, requester.own) {
        Some((mode, _)) => protocol.ok(converted(protocol, requester.own, mode), held),
        None => true,
    }
}
