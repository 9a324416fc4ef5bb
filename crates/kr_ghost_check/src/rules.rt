//! One case of a rule: the modes that it is taken at, whether it is due, and the mode that has to serve its cover.
ghost use Rattle.std.specs.Prelude.{◌≡◌, ◌≤◌, IfSome};
ghost use Rattle.kr_ghost.specs.Covers.{failure, mode_on_new};
ghost use Rattle.kr_ghost_check.specs.Groups.{request_of, mode_at, origin_at, is_due, case_at, first_own};

use crate::open::{first_open, serves};
use crate::requests::{after, ask, converted, revive, vain};
use kr_ghost::{Cover, FailedCase, Rule, Vain};
use kr_ghost_protocol::{GhostProtocol, Mode, Row, Side, Span};
use kr_model::Origin;

/// What the rule's operation requests on a name, where it is one request on one name.
fn request_of<P: GhostProtocol>(protocol: &P, rule: Rule) -> Option<(Mode, Span)>
    ensures asked { result ≡ request_of (P.ghosts protocol.now) rule }
    ensures in_range { IfSome result (λ a. a.0 ≤ (P.ghosts protocol.now).table.count) }
{
    match rule {
        Rule::FetchHit => ask(protocol, Row::FetchHit, Side::Current, 0),
        Rule::FetchMiss => ask(protocol, Row::FetchMiss, Side::Next, 0),
        Rule::ScanName => ask(protocol, Row::ScanKey, Side::Current, 0),
        Rule::ScanStop => ask(protocol, Row::ScanStop, Side::Next, 0),
        Rule::Delete => ask(protocol, Row::Delete, Side::Current, 0),
        Rule::Update => ask(protocol, Row::Update, Side::Current, 0),
        Rule::Revive => revive(protocol),
        Rule::InsertHit => vain(protocol, Vain::InsertHit),
        Rule::DeleteMiss => vain(protocol, Vain::DeleteMiss),
        Rule::UpdateMiss => vain(protocol, Vain::UpdateMiss),
        Rule::Conversion | Rule::Insert | Rule::Split | Rule::Heir => None,
    }
}

/// The mode on a new key of one who inserts it and has this own mode on the next name.
fn mode_on_new<P: GhostProtocol>(protocol: &P, own_next: Mode) -> Mode
    requires { own_next ≤ (P.ghosts protocol.now).table.count }
    ensures mode { result ≡ mode_on_new (P.ghosts protocol.now) own_next }
    ensures in_range { result ≤ (P.ghosts protocol.now).table.count }
{
    let asked = ask(protocol, Row::Insert, Side::Current, own_next);
    after(protocol, 0, asked)
}

/// The mode that has to serve the cover.
fn mode_at<P: GhostProtocol>(protocol: &P, rule: Rule, held: Mode, own: Mode) -> Mode
    requires held { held ≤ (P.ghosts protocol.now).table.count }
    requires own { own ≤ (P.ghosts protocol.now).table.count }
    ensures mode { result ≡ mode_at (P.ghosts protocol.now) rule held own }
    ensures in_range { result ≤ (P.ghosts protocol.now).table.count }
{
    match rule {
        Rule::Conversion => converted(protocol, held, own),
        Rule::Insert | Rule::Split => mode_on_new(protocol, own),
        Rule::Heir => converted(protocol, own, protocol.heir(held)),
        _ => after(protocol, own, request_of(protocol, rule)),
    }
}

/// The modes that the case is taken at.
fn origin_at(rule: Rule, held: Mode, own: Mode) -> Origin
    ensures { result ≡ origin_at rule held own }
{
    match rule {
        Rule::Conversion => Origin::Conversion { held, asked: own },
        Rule::Insert | Rule::Split => Origin::Insert {
            own_next: own,
            own: 0,
        },
        Rule::Heir => Origin::Conversion {
            held: own,
            asked: held,
        },
        _ => Origin::Own(own),
    }
}

/// Whether the case is due.
fn is_due<P: GhostProtocol>(protocol: &P, rule: Rule, cover: Cover, held: Mode, own: Mode) -> bool
    requires held { held ≤ (P.ghosts protocol.now).table.count }
    requires own { own ≤ (P.ghosts protocol.now).table.count }
    ensures { result ≡ is_due (P.ghosts protocol.now) rule cover held own }
{
    match rule {
        Rule::Conversion => serves(protocol, cover, held),
        Rule::Split => serves(protocol, Cover::ReadGap, own),
        Rule::Heir => {
            serves(protocol, Cover::ReadKey, held) || serves(protocol, Cover::ReadGap, held)
        }
        _ => true,
    }
}

/// The failure of the case, or `None` where it holds.
pub(crate) fn failure<P: GhostProtocol>(
    protocol: &P,
    rule: Rule,
    cover: Cover,
    held: Mode,
    own: Mode,
) -> Option<FailedCase>
    requires held { held ≤ (P.ghosts protocol.now).table.count }
    requires own { own ≤ (P.ghosts protocol.now).table.count }
    ensures { result ≡ failure (P.ghosts protocol.now) (case_at (P.ghosts protocol.now) rule cover held own) }
{
    if !is_due(protocol, rule, cover, held, own) {
        return None;
    }
    let mode = mode_at(protocol, rule, held, own);
    match first_open(protocol, cover, mode) {
        Some(hole) => Some(FailedCase {
            case: rule,
            cover,
            from: origin_at(rule, held, own),
            mode,
            hole,
        }),
        None => None,
    }
}

/// The first own mode of the rule's cases: a conversion is to a mode, and all others are also taken at no lock.
pub(crate) fn first_own(rule: Rule) -> Mode
    ensures own { result ≡ first_own rule }
    ensures small { result ≤ 1 }
{
    match rule {
        Rule::Conversion => 1,
        _ => 0,
    }
}
