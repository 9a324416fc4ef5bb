//! What is to blame for a failed case.
ghost use Rattle.std.specs.Prelude.{◌≡◌, IfSome, IsTrue};
ghost use Rattle.kr_ghost_explain.specs.Blames.{IsAbout, IsOfRow, access_of};

use crate::requests::{heir, request_of, requested, row_request};
use kr_ghost::{Access, FailedCase, Rule};
use kr_ghost_protocol::{GhostProtocol, Mode, Span};
use kr_model::Origin;
use kr_protocol::converted;

/// An entry of a table with ghosts that may be to blame for failed cases.
#[derive(Clone, Copy, Debug, PartialEq, Eq)]
pub enum GhostBlame {
    /// That this access requests nothing, so that no lock keeps it out, and none is left by it.
    Void(Access),
    /// What the row of these cases requests.
    Request {
        rule: Rule,
        asked: Option<(Mode, Span)>,
    },
    /// The mode that an insert leaves on its new key, 0 for none.
    NewKey(Mode),
    /// The mode in which a purge leaves a lock to the next name, 0 for none.
    Heir(Mode),
    /// What a held and a requested mode convert to.
    Conversion {
        held: Mode,
        requested: Mode,
        made: Mode,
    },
    /// That a requested mode is compatible with a held one.
    Pair {
        requested: Mode,
        held: Mode,
    },
}

/// What is to blame for one of these failed cases: that its first requester requests nothing; or else that a pair of modes is
/// compatible, where more of the cases fail at that pair than at the entry by which the mode of the case was taken; and else that
/// entry. `alone` has the cases that fail for one who has no lock there yet.
pub(crate) fn blame<P: GhostProtocol>(
    protocol: &P,
    failed: &[FailedCase],
    alone: &[FailedCase],
    case: &FailedCase,
) -> GhostBlame
    ensures { IsAbout (P.ghosts protocol.now) result case.now }
{
    if request_of(protocol, case.hole).is_none() {
        return GhostBlame::Void(case.hole.access);
    }
    let entry = entry_of(protocol, alone, case);
    match pair_of(protocol, case) {
        Some(pair) if is_pair_first(protocol, failed, alone, pair, entry) => pair,
        _ => entry,
    }
}

/// Whether more of the failed cases fail at the pair than at the entry.
fn is_pair_first<P: GhostProtocol>(
    protocol: &P,
    failed: &[FailedCase],
    alone: &[FailedCase],
    pair: GhostBlame,
    entry: GhostBlame,
) -> bool {
    let mut at_pair: usize = 0;
    let mut at_entry: usize = 0;
    for case in failed {
        if pair_of(protocol, case) == Some(pair) {
            at_pair = at_pair.saturating_add(1);
        }
        if entry_of(protocol, alone, case) == entry {
            at_entry = at_entry.saturating_add(1);
        }
    }
    at_pair > at_entry
}

/// Whether the same is blamed.
pub(crate) fn is_same(first: GhostBlame, second: GhostBlame) -> bool
    ensures { IsTrue result → first ≡ second }
{
    first == second
}

/// Whether the case is that of one who has no lock there yet.
pub(crate) fn is_alone(case: &FailedCase) -> bool {
    match case.from {
        Origin::Own(own) => own == 0,
        Origin::Conversion { held, .. } => held == 0,
        Origin::Insert { .. } => false,
    }
}

/// Whether the same fails for one who has no lock there yet.
fn fails_alone(alone: &[FailedCase], case: &FailedCase) -> bool {
    for other in alone {
        if other.case == case.case && other.cover == case.cover && is_as_asked(other, case) {
            return true;
        }
    }
    false
}

/// Whether two cases are about the same lock on a ghost, where they are about one.
fn is_as_asked(first: &FailedCase, second: &FailedCase) -> bool {
    match (first.from, second.from) {
        (Origin::Conversion { asked: one, .. }, Origin::Conversion { asked: other, .. }) => {
            one == other
        }
        _ => true,
    }
}

/// The entry by which the mode of a failed case was taken.
fn entry_of<P: GhostProtocol>(protocol: &P, alone: &[FailedCase], case: &FailedCase) -> GhostBlame
    ensures { IsAbout (P.ghosts protocol.now) result case.now }
{
    let row = row_of(protocol, case);
    if matches!(case.case, Rule::Insert | Rule::Split) || fails_alone(alone, case) {
        return row;
    }
    conversion_of(protocol, case).unwrap_or(row)
}

/// The row, the insert or the purge that left the mode of a failed case.
fn row_of<P: GhostProtocol>(protocol: &P, case: &FailedCase) -> GhostBlame
    ensures { IsAbout (P.ghosts protocol.now) result case.now }
{
    match (case.case, case.from) {
        (Rule::Insert | Rule::Split, _) => GhostBlame::NewKey(case.mode),
        (Rule::Heir, Origin::Conversion { asked, .. }) => GhostBlame::Heir(heir(protocol, asked)),
        (rule, _) => request_of_row(protocol, rule),
    }
}

/// What the row of a rule requests; where that is nothing, the access that requests nothing.
fn request_of_row<P: GhostProtocol>(protocol: &P, rule: Rule) -> GhostBlame
    ensures { IsOfRow (P.ghosts protocol.now) result rule }
{
    match (row_request(protocol, rule), access_of(rule)) {
        (None, Some(access)) => GhostBlame::Void(access),
        (asked, _) => GhostBlame::Request { rule, asked },
    }
}

/// The access that a rule's operation is, if others may have to wait for it too.
fn access_of(rule: Rule) -> Option<Access>
    ensures { result ≡ access_of rule }
{
    match rule {
        Rule::FetchHit => Some(Access::Fetch),
        Rule::ScanName => Some(Access::Scan),
        Rule::Delete => Some(Access::Delete),
        Rule::Update => Some(Access::Update),
        Rule::Revive => Some(Access::Revive),
        Rule::InsertHit => Some(Access::InsertHit),
        _ => None,
    }
}

/// The conversion that made the mode of a failed case, if it was made by one.
fn conversion_of<P: GhostProtocol>(protocol: &P, case: &FailedCase) -> Option<GhostBlame>
    ensures { IfSome result (λ b. IsAbout (P.ghosts protocol.now) b case.now) }
{
    let (held, requested) = match (case.from, case.case) {
        (Origin::Conversion { held, asked }, Rule::Heir) => (held, heir(protocol, asked)),
        (Origin::Conversion { held, asked }, _) => (held, asked),
        (Origin::Own(own), rule) => match row_request(protocol, rule) {
            Some((mode, Span::Commit)) => (own, mode),
            _ => return None,
        },
        _ => return None,
    };
    made_by(protocol, case, held, requested)
}

/// This conversion, if it made the mode of a failed case.
fn made_by<P: GhostProtocol>(
    protocol: &P,
    case: &FailedCase,
    held: Mode,
    requested: Mode,
) -> Option<GhostBlame>
    ensures { IfSome result (λ b. IsAbout (P.ghosts protocol.now) b case.now) }
{
    let made = converted(protocol, held, requested);
    if made == case.mode {
        Some(GhostBlame::Conversion {
            held,
            requested,
            made,
        })
    } else {
        None
    }
}

/// The pair of compatible modes by which the first requester gets past the lock of a failed case, if there are two locks.
fn pair_of<P: GhostProtocol>(protocol: &P, case: &FailedCase) -> Option<GhostBlame>
    ensures { IfSome result (λ b. IsAbout (P.ghosts protocol.now) b case.now) }
{
    let held = case.mode;
    let requested = requested(protocol, case.hole);
    let count = protocol.count();
    if held > 0
        && requested > 0
        && held <= count
        && requested <= count
        && protocol.ok(requested, held)
    {
        Some(GhostBlame::Pair { requested, held })
    } else {
        None
    }
}
