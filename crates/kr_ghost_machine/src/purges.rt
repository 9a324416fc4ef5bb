//! Whether a ghost may be purged, and its purge.
ghost use Rattle.std.specs.Prelude.{◌≡◌, ℕ, List, IfOk, IsErr, IsTrue, OnErr, OnOk};
ghost use Rattle.kr_model.specs.declared.Name.TheVariants.{Key};
ghost use Rattle.kr_model.proofs.Requests.{AreLocks};
ghost use Rattle.kr_txn.specs.Standings.{IsInOrder, entries};
ghost use Rattle.kr_ghost.specs.Step.{is_locked, may_purge, purged};
ghost use Rattle.kr_touch.specs.Pins.{all_changes_of};
ghost use Rattle.kr_ghost_index.specs.Index.{changes};
ghost use Rattle.kr_ghost_machine.specs.Machine.{AreHeld, shown};
ghost use Rattle.kr_ghost_machine.specs.Memory.{purge_may_lack_memory};

use crate::heirs::inherit_all;
use kr_ghost_index::GhostIndex;
use kr_ghost_protocol::GhostProtocol;
use kr_locks::{Holdings, Memory};
use kr_model::Name;
use kr_txn::Standing;

/// Whether an active transaction holds a lock on the key. No other holds one.
fn is_locked<L: Holdings>(locks: &L, active: &[Standing], key: u64) -> bool
    requires { AreHeld (L.locks locks.now) (entries active.now) }
    ensures { result ≡ is_locked (L.locks locks.now) (Key key) }
{
    for standing in active {
        if locks.own(standing.txn, Name::Key(key)) != 0 {
            return true;
        }
    }
    false
}

/// Whether a key may be purged: it is a ghost, no active transaction can still undo a change of it, and the locks on it let it
/// go.
fn may_purge<P: GhostProtocol, L: Holdings>(
    protocol: &P,
    index: &GhostIndex,
    locks: &L,
    active: &[Standing],
    key: u64,
) -> bool
    requires held { AreHeld (L.locks locks.now) (entries active.now) }
    requires counted { (q : ℕ) → changes index.now q ≡ all_changes_of (entries active.now) q }
    ensures { (ended : List ℕ) → result ≡ may_purge (P.ghosts protocol.now) (shown index.now (L.locks locks.now) ended (entries active.now)) key }
{
    index.look(key).is_ghost
        && !index.is_changed(key)
        && (protocol.inherits() || !is_locked(locks, active, key))
}

/// Purges a key, if it may be, and answers whether it did. Where a growth is refused, nothing changes. Only the purge of a ghost
/// with a lock that is inherited takes memory.
pub(crate) fn purge<P: GhostProtocol, L: Holdings>(
    protocol: &P,
    index: &mut GhostIndex,
    locks: &mut L,
    active: &[Standing],
    key: u64,
) -> Result<bool, Memory>
    requires order { IsInOrder active.now }
    requires held { AreHeld (L.locks locks.old) (entries active.now) }
    requires counted { (q : ℕ) → changes index.old q ≡ all_changes_of (entries active.now) q }
    requires locks { AreLocks (P.table protocol.now) (L.locks locks.old) }
    ensures purged { IfOk result (λ is_purged. (ended : List ℕ) → is_purged ≡ may_purge (P.ghosts protocol.now) (shown index.old (L.locks locks.old) ended (entries active.now)) key) }
    ensures state { OnOk result ((ended : List ℕ) → shown index.new (L.locks locks.new) ended (entries active.now) ≡ purged (P.ghosts protocol.now) (shown index.old (L.locks locks.old) ended (entries active.now)) key) }
    ensures err_index { OnErr result (index.new ≡ index.old) }
    ensures err_locks { OnErr result (L.locks locks.new ≡ L.locks locks.old) }
    ensures memory { IsErr result → (ended : List ℕ) → IsTrue (purge_may_lack_memory (P.ghosts protocol.now) (shown index.old (L.locks locks.old) ended (entries active.now)) key) }
    ensures held { AreHeld (L.locks locks.new) (entries active.now) }
    ensures counted { (q : ℕ) → changes index.new q ≡ all_changes_of (entries active.now) q }
    ensures locks { AreLocks (P.table protocol.now) (L.locks locks.new) }
{
    if !may_purge(protocol, index, locks, active, key) {
        return Ok(false);
    }
    let next = index.name_after(key);
    if protocol.inherits() {
        inherit_all(protocol, locks, active, key, next)?;
    }
    index.purge(key);
    Ok(true)
}
