//! Whether one of two protocols grants what the other blocks.
ghost use Rattle.std.specs.Prelude.{◌≡◌, ◌≤◌, ◌↔◌, IsTrue, length};
ghost use Rattle.kr_kinds.specs.Kinds.{table_of};
ghost use Rattle.kr_relax_core.specs.Met.{IsMetBy};
ghost use Rattle.kr_relax_core.specs.Twins.{HasTwins, Differs, DiffersHeld, DiffersNext, DiffersOwn, DiffersSpot};

use crate::place::{Request, Spot, is_blocked_at};
use crate::twins::Twin;
use kr_kinds::IndexProtocol;
use kr_model::Mode;

/// Whether the second protocol grants the request of a spot beside some twin of the lock there, or blocks it, other than
/// `blocked` says; with these twins of its own modes.
fn differs_held<P: IndexProtocol, Q: IndexProtocol>(
    base: &P,
    other: &Q,
    twins: &[Twin],
    spot: Spot,
    own: Mode,
    next: Mode,
    blocked: bool,
) -> bool
    requires same { (table_of (Q.index other.now)).count ≡ (table_of (P.index base.now)).count }
    requires twins { HasTwins (P.index base.now) (Q.index other.now) twins.now }
    requires own { own ≤ (table_of (P.index base.now)).count }
    requires next { next ≤ (table_of (P.index base.now)).count }
    ensures { IsTrue result ↔ DiffersHeld (P.index base.now) (Q.index other.now) twins.now spot own next blocked (length twins.now) }
{
    let _ = base;
    let there = Request {
        place: spot.request.place,
        own,
        next,
    };
    for at in 0..twins.len() {
        let held = twins[at];
        if held.mode == spot.held && is_blocked_at(other, there, held.twin) != blocked {
            return true;
        }
    }
    false
}

/// The same with some twin of its own mode on the next name.
fn differs_next<P: IndexProtocol, Q: IndexProtocol>(
    base: &P,
    other: &Q,
    twins: &[Twin],
    spot: Spot,
    own: Mode,
    blocked: bool,
) -> bool
    requires same { (table_of (Q.index other.now)).count ≡ (table_of (P.index base.now)).count }
    requires twins { HasTwins (P.index base.now) (Q.index other.now) twins.now }
    requires own { own ≤ (table_of (P.index base.now)).count }
    ensures { IsTrue result ↔ DiffersNext (P.index base.now) (Q.index other.now) twins.now spot own blocked (length twins.now) }
{
    for at in 0..twins.len() {
        let next = twins[at];
        if next.mode == spot.request.next
            && differs_held(base, other, twins, spot, own, next.twin, blocked)
        {
            return true;
        }
    }
    false
}

/// The same with some twin of its own mode on the name.
pub(crate) fn differs_own<P: IndexProtocol, Q: IndexProtocol>(
    base: &P,
    other: &Q,
    twins: &[Twin],
    spot: Spot,
    blocked: bool,
) -> bool
    requires same { (table_of (Q.index other.now)).count ≡ (table_of (P.index base.now)).count }
    requires twins { HasTwins (P.index base.now) (Q.index other.now) twins.now }
    ensures { IsTrue result ↔ DiffersOwn (P.index base.now) (Q.index other.now) twins.now spot blocked (length twins.now) }
{
    for at in 0..twins.len() {
        let own = twins[at];
        if own.mode == spot.request.own
            && differs_next(base, other, twins, spot, own.twin, blocked)
        {
            return true;
        }
    }
    false
}

/// Whether the second protocol differs at some spot that the first blocks, or at one that it grants.
pub(crate) fn differs<P: IndexProtocol, Q: IndexProtocol>(
    base: &P,
    other: &Q,
    twins: &[Twin],
    spots: &[Spot],
    blocked: bool,
) -> bool
    requires same { (table_of (Q.index other.now)).count ≡ (table_of (P.index base.now)).count }
    requires twins { HasTwins (P.index base.now) (Q.index other.now) twins.now }
    requires spots { IsMetBy (P.index base.now) spots.now }
    ensures { IsTrue result ↔ Differs (P.index base.now) (Q.index other.now) blocked }
{
    for at in 0..spots.len() {
        let spot = spots[at];
        if is_blocked_at(base, spot.request, spot.held) == blocked
            && differs_own(base, other, twins, spot, blocked)
        {
            return true;
        }
    }
    false
}
