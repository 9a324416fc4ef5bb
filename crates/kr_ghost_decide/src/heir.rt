//! What is inherited of two lock states on a ghost that is purged. Of a lock state on a ghost no more counts than the inherited
//! mode, whether its transaction has read the key or the gap, and whether it rolls back: so a few of these stand for all.
ghost use Rattle.std.specs.Prelude.{◌≡◌, ◌≤◌, ◌↔◌, IfSome, IsTrue};
ghost use Rattle.kr_ghost_decide.specs.Holds.{hold, fact, facts};
ghost use Rattle.kr_ghost_decide.specs.Heirs.{left, left_of, inherited, inherited_by};
ghost use Rattle.kr_ghost_decide.specs.Found.{HasHeirs};

use crate::hold::{Hold, Pair, is_changed, is_read};
use kr_ghost_protocol::{GhostProtocol, Mode};

/// What is inherited of a lock state on a ghost.
#[derive(Clone, Copy)]
pub(crate) struct Heir {
    /// The mode on the next name, 0 for none.
    mode: Mode,
    /// Whether its transaction has read the key or the gap below it.
    read: bool,
    /// Whether it rolls back.
    rolling: bool,
}

/// What is inherited of two.
#[derive(Clone, Copy)]
pub(crate) struct Heirs {
    own: Heir,
    other: Heir,
}

/// What is left of a lock state on a ghost.
fn left<P: GhostProtocol>(protocol: &P, own: Hold) -> Heir
    requires { own.mode ≤ (P.ghosts protocol.now).table.count }
    ensures left { result ≡ left (P.ghosts protocol.now) (hold own) }
    ensures in_range { result.mode ≤ (P.ghosts protocol.now).table.count }
{
    Heir {
        mode: protocol.heir(own.mode),
        read: own.gap || is_read(own.key),
        rolling: own.rolling,
    }
}

/// What is left of two on a ghost, where neither has changed its key.
pub(crate) fn left_of<P: GhostProtocol>(protocol: &P, pair: Pair) -> Option<Heirs>
    requires own { pair.own.mode ≤ (P.ghosts protocol.now).table.count }
    requires other { pair.other.mode ≤ (P.ghosts protocol.now).table.count }
    ensures left { result ≡ left_of (P.ghosts protocol.now) (fact pair) }
    ensures own { IfSome result (λ h. h.own.mode ≤ (P.ghosts protocol.now).table.count) }
    ensures other { IfSome result (λ h. h.other.mode ≤ (P.ghosts protocol.now).table.count) }
{
    if pair.present || is_changed(pair.own.key) || is_changed(pair.other.key) {
        return None;
    }
    Some(Heirs {
        own: left(protocol, pair.own),
        other: left(protocol, pair.other),
    })
}

/// The lock state on the next name of one that had this one there.
fn inherited<P: GhostProtocol>(protocol: &P, own: Hold, heir: Heir) -> Hold
    requires own { own.mode ≤ (P.ghosts protocol.now).table.count }
    requires heir { heir.mode ≤ (P.ghosts protocol.now).table.count }
    ensures { hold result ≡ inherited (P.ghosts protocol.now) (hold own) heir }
{
    if heir.rolling {
        return own;
    }
    Hold {
        mode: protocol.convert(own.mode, heir.mode),
        key: own.key,
        gap: own.gap || heir.read,
        rolling: own.rolling,
    }
}

/// What two have on the next name once they inherit this, where each rolls back there as on the ghost.
pub(crate) fn inherited_by<P: GhostProtocol>(protocol: &P, pair: Pair, heirs: Heirs) -> Option<Pair>
    requires own { pair.own.mode ≤ (P.ghosts protocol.now).table.count }
    requires other { pair.other.mode ≤ (P.ghosts protocol.now).table.count }
    requires own_heir { heirs.own.mode ≤ (P.ghosts protocol.now).table.count }
    requires other_heir { heirs.other.mode ≤ (P.ghosts protocol.now).table.count }
    ensures { facts result ≡ inherited_by (P.ghosts protocol.now) (fact pair) heirs }
{
    let (own, other) = (pair.own, pair.other);
    if own.rolling != heirs.own.rolling || other.rolling != heirs.other.rolling {
        return None;
    }
    Some(Pair {
        present: pair.present,
        own: inherited(protocol, own, heirs.own),
        other: inherited(protocol, other, heirs.other),
    })
}

/// Whether these are the same.
fn is_same(one: Heir, two: Heir) -> bool
    ensures { IsTrue result ↔ (one ≡ two) }
{
    one.mode == two.mode && one.read == two.read && one.rolling == two.rolling
}

/// Whether the list has it.
pub(crate) fn has_heirs(list: &[Heirs], heirs: Heirs) -> bool
    ensures { IsTrue result → HasHeirs list.now heirs }
{
    for at in 0..list.len() {
        let it = list[at];
        if is_same(it.own, heirs.own) && is_same(it.other, heirs.other) {
            return true;
        }
    }
    false
}
