//! The locks on a ghost, inherited on the next name.
ghost use Rattle.std.specs.Prelude.{◌≡◌, ◌≢◌, ℕ, List, IfOk, IsErr, OnErr, OnOk, true};
ghost use Rattle.kr_model.specs.Locks.{keep_or_drop, own};
ghost use Rattle.kr_model.specs.Map.{Map};
ghost use Rattle.kr_model.specs.declared.Name.TheVariants.{Key};
ghost use Rattle.kr_model.proofs.Requests.{AreLocks};
ghost use Rattle.kr_txn.specs.Standings.{IsInOrder, entries};
ghost use Rattle.kr_ghost.specs.Protocol.{heir_of, inherits};
ghost use Rattle.kr_ghost.specs.Step.{locks_purged};
ghost use Rattle.kr_ghost_machine.specs.Heirs.{AllInherit, IsHeld, inherited};
ghost use Rattle.kr_ghost_machine.specs.Machine.{AreHeld};

use kr_ghost_protocol::GhostProtocol;
use kr_locks::{Holdings, Memory};
use kr_model::{Mode, Name};
use kr_txn::Standing;

/// Gives a transaction a lock on the next name for that which it has on a key, unless it rolls back, and answers the mode that
/// it had there; nothing is tested. Where a growth is refused, no lock changes. Who has no lock on the key takes no memory.
fn take_on<P: GhostProtocol, L: Holdings>(
    protocol: &P,
    locks: &mut L,
    standing: &Standing,
    key: u64,
    next: Name,
) -> Result<Mode, Memory>
    requires { AreLocks (P.table protocol.now) (L.locks locks.old) }
    ensures was { IfOk result (λ was. was ≡ own (L.locks locks.old) standing.now.txn next) }
    ensures ok { OnOk result (L.locks locks.new ≡ keep_or_drop (L.locks locks.old) standing.now.txn next (inherited (P.table protocol.now) (heir_of (P.ghosts protocol.now).purges) (L.locks locks.old) key next standing.now.rolling standing.now.txn)) }
    ensures held { IfOk result (λ was. was ≢ 0 → own (L.locks locks.new) standing.now.txn next ≢ 0) }
    ensures locks { AreLocks (P.table protocol.now) (L.locks locks.new) }
    ensures err { OnErr result (L.locks locks.new ≡ L.locks locks.old) }
    ensures memory { IsErr result → own (L.locks locks.old) standing.now.txn (Key key) ≢ 0 }
{
    let was = locks.own(standing.txn, next);
    if standing.rolling {
        return Ok(was);
    }
    let mode = protocol.heir(locks.own(standing.txn, Name::Key(key)));
    locks.keep(standing.txn, next, protocol.convert(was, mode))?;
    Ok(was)
}

/// Gives each of these transactions that doesn't roll back a lock on the next name for that which it has on a key, and takes
/// their locks on the key away, once all have theirs on the next name. Where a growth is refused, each is put back, and no lock
/// has changed.
fn inherit<P: GhostProtocol, L: Holdings>(
    protocol: &P,
    locks: &mut L,
    heirs: &[Standing],
    key: u64,
    next: Name,
) -> Result<(), Memory>
    requires order { IsInOrder heirs.now }
    requires apart { next ≢ Key key }
    requires locks { AreLocks (P.table protocol.now) (L.locks locks.old) }
    ensures ok { OnOk result (AllInherit (P.table protocol.now) (heir_of (P.ghosts protocol.now).purges) (L.locks locks.old) (L.locks locks.new) key next (entries heirs.now)) }
    ensures locks { AreLocks (P.table protocol.now) (L.locks locks.new) }
    ensures err { OnErr result (L.locks locks.new ≡ L.locks locks.old) }
    ensures memory { IsErr result → IsHeld (L.locks locks.old) (Key key) }
{
    let Some((first, others)) = heirs.split_first() else {
        return Ok(());
    };
    let was = take_on(protocol, locks, first, key, next)?;
    match inherit(protocol, locks, others, key, next) {
        Ok(()) => {
            let _ = locks.keep(first.txn, Name::Key(key), 0);
            Ok(())
        }
        Err(refused) => {
            let _ = locks.keep(first.txn, next, was);
            Err(refused)
        }
    }
}

/// Gives each active transaction that doesn't roll back a lock on the next name for that which it has on a key, and takes all
/// locks on the key away. Where a growth is refused, no lock changes. That is so only where a lock on the key is held.
pub(crate) fn inherit_all<P: GhostProtocol, L: Holdings>(
    protocol: &P,
    locks: &mut L,
    active: &[Standing],
    key: u64,
    next: Name,
) -> Result<(), Memory>
    requires order { IsInOrder active.now }
    requires inherits { inherits (P.ghosts protocol.now).purges ≡ true }
    requires apart { next ≢ Key key }
    requires held { AreHeld (L.locks locks.old) (entries active.now) }
    requires locks { AreLocks (P.table protocol.now) (L.locks locks.old) }
    ensures ok { OnOk result ((m : Map) (ended : List ℕ) → L.locks locks.new ≡ locks_purged (P.table protocol.now) (P.ghosts protocol.now).purges (record { map = m; locks = L.locks locks.old; ended = ended; active = entries active.now }) key next) }
    ensures held { AreHeld (L.locks locks.new) (entries active.now) }
    ensures locks { AreLocks (P.table protocol.now) (L.locks locks.new) }
    ensures err { OnErr result (L.locks locks.new ≡ L.locks locks.old) }
    ensures memory { IsErr result → IsHeld (L.locks locks.old) (Key key) }
{
    inherit(protocol, locks, active, key, next)
}
