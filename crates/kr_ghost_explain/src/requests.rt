//! What rows, requesters and purges of a table with ghosts request, of any numbers.
ghost use Rattle.std.specs.Prelude.{◌≡◌};
ghost use Rattle.kr_ghost_check.specs.Groups.{request_of};
ghost use Rattle.kr_ghost_explain.specs.Blames.{asked_at, heir_at, requested_at};

use kr_ghost::{Access, Requester, Rule, Vain};
use kr_ghost_protocol::{GhostProtocol, Mode, Row, Side, Span, vain_request};
use kr_protocol::converted;

/// What a rule's operation requests on a name, where it is one request on one name.
pub(crate) fn row_request<P: GhostProtocol>(protocol: &P, rule: Rule) -> Option<(Mode, Span)>
    ensures { result ≡ request_of (P.ghosts protocol.now) rule }
{
    match rule {
        Rule::FetchHit => protocol.ask(Row::FetchHit, Side::Current, 0),
        Rule::FetchMiss => protocol.ask(Row::FetchMiss, Side::Next, 0),
        Rule::ScanName => protocol.ask(Row::ScanKey, Side::Current, 0),
        Rule::ScanStop => protocol.ask(Row::ScanStop, Side::Next, 0),
        Rule::Delete => protocol.ask(Row::Delete, Side::Current, 0),
        Rule::Update => protocol.ask(Row::Update, Side::Current, 0),
        Rule::Revive => protocol.revive(),
        Rule::InsertHit => vain_request(protocol, Vain::InsertHit),
        Rule::DeleteMiss => vain_request(protocol, Vain::DeleteMiss),
        Rule::UpdateMiss => vain_request(protocol, Vain::UpdateMiss),
        Rule::Conversion | Rule::Insert | Rule::Split | Rule::Heir => None,
    }
}

/// What a requester requests; nothing where its own mode is no mode.
pub fn request_of<P: GhostProtocol>(protocol: &P, requester: Requester) -> Option<(Mode, Span)>
    ensures { result ≡ asked_at (P.ghosts protocol.now) requester }
{
    if requester.own > protocol.count() {
        return None;
    }
    match requester.access {
        Access::Fetch => protocol.ask(Row::FetchHit, Side::Current, 0),
        Access::Scan => protocol.ask(Row::ScanKey, Side::Current, 0),
        Access::Delete => protocol.ask(Row::Delete, Side::Current, 0),
        Access::Update => protocol.ask(Row::Update, Side::Current, 0),
        Access::Revive => protocol.revive(),
        Access::Insert => protocol.ask(Row::Insert, Side::Next, requester.own),
        Access::InsertHit => vain_request(protocol, Vain::InsertHit),
    }
}

/// The mode that a requester comes to have, 0 where nothing is requested.
pub fn requested<P: GhostProtocol>(protocol: &P, requester: Requester) -> Mode
    ensures { result ≡ requested_at (P.ghosts protocol.now) requester }
{
    match request_of(protocol, requester) {
        Some((mode, _)) => converted(protocol, requester.own, mode),
        None => 0,
    }
}

/// The mode in which a lock in this mode on a purged ghost is inherited; 0 where that is no mode.
pub(crate) fn heir<P: GhostProtocol>(protocol: &P, mode: Mode) -> Mode
    ensures { result ≡ heir_at (P.ghosts protocol.now) mode }
{
    if mode <= protocol.count() {
        protocol.heir(mode)
    } else {
        0
    }
}
