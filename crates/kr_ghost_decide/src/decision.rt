//! The decision.
ghost use Rattle.std.specs.Prelude.{◌≡◌, ◌↔◌, ◌≤◌, IsTrue, IfOk, IfSome, IfNone};
ghost use Rattle.kr_ghost.specs.Safe.{IsSafeGhost};
ghost use Rattle.kr_ghost_decide.specs.Holds.{asking, fact};
ghost use Rattle.kr_ghost_decide.specs.Found.{IsFound, IsReached};
ghost use Rattle.kr_ghost_decide.specs.Holes.{IsHole, Tells, HasNoHole, NoHoles, is_hole};

use crate::ask::{Ask, asks, is_blocked, keeps_out, may_ask};
use crate::found::Found;
use crate::hold::{Hold, PLACES, Pair};
use kr_ghost_protocol::GhostProtocol;
use kr_model::Memory;
use std::alloc::Global;

/// A lock that doesn't block what it has to keep out: of two transactions on one name, the one with `other` has to keep out the
/// request, which the one with `own` may come to make, and its lock doesn't conflict with it.
#[derive(Clone, Copy)]
pub struct Hole {
    pub ask: Ask,
    /// Whether the key is present.
    pub present: bool,
    /// What the requester has on the name.
    pub own: Hold,
    /// What the other has there, whose lock should block the request.
    pub other: Hold,
}

/// Whether the second's lock lets a request of the first through that it has to keep out.
fn is_hole<P: GhostProtocol>(protocol: &P, pair: Pair, ask: Ask) -> bool
    requires own { pair.own.mode ≤ (P.ghosts protocol.now).table.count }
    requires other { pair.other.mode ≤ (P.ghosts protocol.now).table.count }
    ensures { result ≡ is_hole (P.ghosts protocol.now) (fact pair) (asking ask) }
{
    may_ask(protocol, pair.present, pair.own, ask)
        && keeps_out(pair.present, pair.other, ask)
        && !is_blocked(protocol, pair.own, pair.other, ask)
}

/// The first hole of a pair.
fn hole_of<P: GhostProtocol>(protocol: &P, pair: Pair) -> Option<Hole>
    requires { IsReached (P.ghosts protocol.now) (fact pair) }
    ensures some { IfSome result (IsHole (P.ghosts protocol.now)) }
    ensures none { IfNone result (HasNoHole (P.ghosts protocol.now) 13 (fact pair)) }
{
    let asks = asks();
    for number in 0..asks.len() {
        let ask = asks[number];
        if is_hole(protocol, pair, ask) {
            return Some(Hole {
                ask,
                present: pair.present,
                own: pair.own,
                other: pair.other,
            });
        }
    }
    None
}

/// The first hole of all pairs.
fn first_hole<P: GhostProtocol>(protocol: &P, found: &Found) -> Option<Hole>
    requires { IsFound (P.ghosts protocol.now) found.now }
    ensures some { IfSome result (IsHole (P.ghosts protocol.now)) }
    ensures none { IfNone result (NoHoles (P.ghosts protocol.now) 294912 found.now.marks.items) }
{
    for place in 0..PLACES {
        if let Some(pair) = found.at(protocol, place) {
            if let Some(hole) = hole_of(protocol, pair) {
                return Some(hole);
            }
        }
    }
    None
}

/// The first hole of a protocol, in the order of the search, or `None` exactly where it is safe: then every run under it is
/// serializable in commit order. `Memory` comes only where a growth was refused.
pub fn find_hole<P: GhostProtocol>(alloc: Global, protocol: &P) -> Result<Option<Hole>, Memory>
    ensures { IfOk result (Tells (P.ghosts protocol.now)) }
{
    let mut found = Found::new(alloc, protocol)?;
    let mut before = 0;
    while before < found.count {
        before = found.count;
        if let Some(hole) = first_hole(protocol, &found) {
            return Ok(Some(hole));
        }
        let heirs = found.heirs(alloc, protocol)?;
        found.pass(protocol, &heirs);
    }
    Ok(None)
}

/// Whether a protocol is safe: of any two transactions on one name, each one's lock blocks every request of the other that it
/// has to keep out. Then every run under the protocol is serializable in commit order. `Memory` comes only where a growth was
/// refused.
pub fn is_safe_ghost<P: GhostProtocol>(alloc: Global, protocol: &P) -> Result<bool, Memory>
    ensures { IfOk result (λ safe. IsTrue safe ↔ IsSafeGhost (P.ghosts protocol.now)) }
{
    let hole = find_hole(alloc, protocol)?;
    Ok(hole.is_none())
}
