//! What comes of two lock states on one name.
ghost use Rattle.std.specs.Prelude.{◌≡◌, ◌≤◌};
ghost use Rattle.kr_ghost_decide.specs.Holds.{key_use, hold, fact, facts};
ghost use Rattle.kr_ghost_decide.specs.Ways.{is_undone, is_free, undone, with_new, ways, moved, alters};

use crate::ask::{Ask, granted, is_blocked, on_new_key};
use crate::hold::{FREE, Hold, KeyUse, Pair, is_changed, is_read, rolled};
use kr_ghost_protocol::GhostProtocol;

/// A way on which what two transactions have on a name comes of what they had.
#[derive(Clone, Copy)]
pub(crate) enum Way {
    /// The two are exchanged.
    Turn,
    /// The first commits, or ends where it has no change of the key left.
    End,
    /// The first begins to roll back.
    Roll,
    /// The first inserts a new key below the name, where the other has nothing.
    New,
    /// The first is granted what it comes to request.
    Ask(Ask),
    /// The first, rolling back, undoes its newest change: whether the key is present then, and what is left.
    Undo(bool, KeyUse),
}

/// All ways, in order.
pub(crate) fn ways() -> &'static [Way]
    ensures { result.now ≡ ways }
{
    &[
        Way::Turn,
        Way::End,
        Way::Roll,
        Way::New,
        Way::Ask(Ask::FetchHit),
        Way::Ask(Ask::FetchMiss),
        Way::Ask(Ask::ScanName),
        Way::Ask(Ask::ScanStop),
        Way::Ask(Ask::Insert),
        Way::Ask(Ask::Delete),
        Way::Ask(Ask::Update),
        Way::Ask(Ask::Revive),
        Way::Undo(false, KeyUse::Free),
        Way::Undo(true, KeyUse::Free),
        Way::Undo(true, KeyUse::Inserted),
        Way::Undo(true, KeyUse::Updated),
        Way::Undo(false, KeyUse::Deleted),
        Way::Undo(true, KeyUse::Several),
        Way::Undo(false, KeyUse::Several),
        Way::Ask(Ask::InsertHit),
        Way::Ask(Ask::DeleteMiss),
        Way::Ask(Ask::UpdateMiss),
        Way::Ask(Ask::ReviveNext),
        Way::Ask(Ask::InsertHitNext),
    ]
}

/// Whether the newest change of a key may be undone so that it is present then or not, and this is left.
fn is_undone(key: KeyUse, then_present: bool, left: KeyUse) -> bool
    ensures { result ≡ is_undone (key_use key) then_present (key_use left) }
{
    match (key, left) {
        (KeyUse::Inserted, KeyUse::Free) | (KeyUse::Several, KeyUse::Deleted) => !then_present,
        (KeyUse::Updated | KeyUse::Deleted, KeyUse::Free) => then_present,
        (KeyUse::Several, KeyUse::Inserted | KeyUse::Updated) => then_present,
        (KeyUse::Several, KeyUse::Several) => true,
        _ => false,
    }
}

/// Whether a lock state is that of one who has nothing.
fn is_free(own: Hold) -> bool
    ensures { result ≡ is_free (hold own) }
{
    own.mode == 0 && !is_read(own.key) && !own.gap && !own.rolling
}

/// The first rolls back, and undoes its newest change.
fn undone(pair: Pair, then_present: bool, left: KeyUse) -> Option<Pair>
    ensures { facts result ≡ undone (fact pair) then_present (key_use left) }
{
    if !pair.own.rolling || !is_undone(pair.own.key, then_present, left) {
        return None;
    }
    let own = Hold {
        mode: pair.own.mode,
        key: left,
        gap: false,
        rolling: true,
    };
    Some(Pair {
        present: then_present,
        own,
        other: pair.other,
    })
}

/// The first inserts a key below the name, where the other has nothing.
fn with_new<P: GhostProtocol>(protocol: &P, pair: Pair) -> Option<Pair>
    requires { pair.own.mode ≤ (P.ghosts protocol.now).table.count }
    ensures { facts result ≡ with_new (P.ghosts protocol.now) (fact pair) }
{
    if !is_free(pair.other) || pair.own.rolling {
        return None;
    }
    Some(Pair {
        present: true,
        own: on_new_key(protocol, pair.own),
        other: FREE,
    })
}

/// What two transactions have on a name then, if the way is open.
pub(crate) fn moved<P: GhostProtocol>(protocol: &P, pair: Pair, way: Way) -> Option<Pair>
    requires own { pair.own.mode ≤ (P.ghosts protocol.now).table.count }
    requires other { pair.other.mode ≤ (P.ghosts protocol.now).table.count }
    ensures { facts result ≡ moved (P.ghosts protocol.now) (fact pair) way }
{
    let Pair {
        present,
        own,
        other,
    } = pair;
    match way {
        Way::Turn => Some(Pair {
            present,
            own: other,
            other: own,
        }),
        Way::End if own.rolling && is_changed(own.key) => None,
        Way::End => Some(Pair {
            present,
            own: FREE,
            other,
        }),
        Way::Roll if own.rolling => None,
        Way::Roll => Some(Pair {
            present,
            own: rolled(own),
            other,
        }),
        Way::New => with_new(protocol, pair),
        Way::Ask(ask) => granted(protocol, pair, ask),
        Way::Undo(then_present, left) => undone(pair, then_present, left),
    }
}

/// Whether a third, whose lock stands beside those of the two, may take the key away, or bring it back, or undo that.
pub(crate) fn alters<P: GhostProtocol>(protocol: &P, pair: Pair, third: Hold) -> bool
    requires own { pair.own.mode ≤ (P.ghosts protocol.now).table.count }
    requires other { pair.other.mode ≤ (P.ghosts protocol.now).table.count }
    requires third { third.mode ≤ (P.ghosts protocol.now).table.count }
    ensures { result ≡ alters (P.ghosts protocol.now) pair.present (hold third) (hold pair.own) (hold pair.other) }
{
    if third.rolling {
        return is_undone(third.key, !pair.present, KeyUse::Free)
            || is_undone(third.key, !pair.present, KeyUse::Several);
    }
    let ask = if pair.present {
        Ask::Delete
    } else {
        Ask::Revive
    };
    !is_blocked(protocol, third, pair.own, ask) && !is_blocked(protocol, third, pair.other, ask)
}
