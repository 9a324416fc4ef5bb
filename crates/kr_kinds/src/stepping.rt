//! What a machine of either kind does, and what it shows.
ghost use Rattle.std.specs.Prelude.{◌≡◌, ◌≤◌, All, IfOk, IsErr, IsTrue, OnErr, OnOk, map};
ghost use Rattle.kr_model.specs.Locks.{own};
ghost use Rattle.kr_ghost.specs.State.{GhostState};
ghost use Rattle.kr_kinds.specs.Kinds.{IndexProtocol, table_of};
ghost use Rattle.kr_kinds.specs.Steps.{may_lack_memory, may_purge, purge_may_lack_memory, purged, step};

use kr_model::{Items, Memory, Mode, Name, Op, Pairs, Reply, Txn, Txns};

/// An index on which transactions do steps under a locking protocol, and from which ghosts are purged, if its deletes leave any.
/// Between two calls it is at rest: no step is half done.
///
/// A failed allocation is the error `Memory`, and no reply.
pub trait Stepping: Drop {
    /// Its protocol.
    ghost index: { Self → IndexProtocol };

    /// Its state between two moves.
    ghost state: { Self → GhostState };

    /// Attempts one operation of a transaction, and returns the reply. The error is that an allocation failed, and the state
    /// stays. It comes in place of no refusal. A commit, an abort or a back of an active transaction takes no memory.
    fn step(&mut self, txn: Txn, op: Op) -> Result<Reply, Memory>
        ensures step { IfOk result (λ reply. step (index self.old) (state self.old) txn op ≡ (reply, state self.new)) }
        ensures err { OnErr result (state self.new ≡ state self.old) }
        ensures memory { IsErr result → IsTrue (may_lack_memory (index self.old) (state self.old) txn op) }
        ensures index { index self.new ≡ index self.old };

    /// Purges a ghost, and returns whether it did: never in an index without ghosts. The error is that an allocation failed, and
    /// the state stays. Only the purge of a ghost with a lock that is inherited takes memory.
    fn purge(&mut self, key: u64) -> Result<bool, Memory>
        ensures purged { IfOk result (λ is_purged. is_purged ≡ may_purge (index self.old) (state self.old) key) }
        ensures state { OnOk result (state self.new ≡ purged (index self.old) (state self.old) key) }
        ensures err { OnErr result (state self.new ≡ state self.old) }
        ensures memory { IsErr result → IsTrue (purge_may_lack_memory (index self.old) (state self.old) key) }
        ensures index { index self.new ≡ index self.old };

    /// The pairs of the present keys, keys rising. The error is that an allocation failed.
    fn pairs(&self) -> Result<Pairs, Memory>
        ensures { IfOk result (λ pairs. pairs ≡ (state self.now).state.map) };

    /// The ghosts, rising. The error is that an allocation failed.
    fn ghosts(&self) -> Result<Items<u64>, Memory>
        ensures { IfOk result (λ ghosts. ghosts ≡ (state self.now).ghosts) };

    /// The locks that are held, by name, the end last, and then by transaction. The error is that an allocation failed.
    fn locks(&self) -> Result<Vec<((Name, Txn), Mode)>, Memory>
        ensures locks { IfOk result (λ locks. locks.items ≡ (state self.now).state.locks) }
        ensures modes { IfOk result (λ locks. All (λ l. l.1 ≤ (table_of (index self.now)).count) locks.items) };

    /// The active transactions, rising. The error is that an allocation failed.
    fn unfinished(&self) -> Result<Txns, Memory>
        ensures { IfOk result (λ txns. txns ≡ map (λ a. a.0) (state self.now).state.active) };

    /// The mode in which a transaction holds a lock on a name, or 0 if it holds none. It takes no memory, and can't fail.
    fn own(&self, txn: Txn, name: Name) -> Mode
        ensures { result ≡ own (state self.now).state.locks txn name };
}
