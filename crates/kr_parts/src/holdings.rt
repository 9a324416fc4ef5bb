//! A lock table as a machine sees it: the locks that transactions hold on names, and what it answers of them.
ghost use Rattle.std.specs.Prelude.{◌≡◌, ◌≢◌, ◌<◌, ◌≤◌, [], ◌∷◌, ◌↔◌, IsTrue, IsOk, OnOk, OnErr, IfOk};
ghost use Rattle.kr_model.specs.Locks.{Locks, AreWithin, own, keep_or_drop, release, blockers};
ghost use Rattle.kr_model.specs.declared.Span.TheVariants as span;

use kr_model::{Memory, Mode, Name, Txn};
use kr_protocol::Protocol;
use std::alloc::Global;

/// A set of locks, each a transaction, a name and a mode: one mode for each transaction and name.
///
/// A mode is 0 for no lock, or one of a protocol's modes, 1 to its count. Only `blockers`, `keep`, `raise` and `copy`
/// may answer `Memory`, and then nothing has changed.
pub trait Holdings: Drop {
    /// The locks by name, the end last, and then by transaction.
    ghost locks: { Self → Locks };

    /// The mode of a transaction on a name, or 0 where it holds no lock there.
    fn own(&self, txn: Txn, name: Name) -> Mode
        ensures { result ≡ own (locks self.now) txn name };

    /// Whether no other transaction's lock conflicts with a request for a mode on a name.
    ///
    /// Another transaction's lock conflicts where the mode to which the requester's own would be converted isn't
    /// compatible with it. What the requester holds conflicts with nothing that it requests. The mode requested and all
    /// held modes are at most the protocol's count.
    fn test<P: Protocol>(&self, protocol: &P, txn: Txn, name: Name, mode: Mode) -> bool
        requires asked { mode ≤ (P.table protocol.now).count }
        requires held { AreWithin (P.table protocol.now).count (locks self.now) }
        ensures { IsTrue result ↔ (blockers (P.table protocol.now) (locks self.now) txn
            ((name, mode, span.Commit) ∷ []) ≡ []) };

    /// The transactions whose locks conflict with a request for a mode on a name, as `test` says it: rising, each once.
    ///
    /// The condition on modes is that of `test`.
    fn blockers<P: Protocol>(
        &self,
        alloc: Global,
        protocol: &P,
        txn: Txn,
        name: Name,
        mode: Mode,
    ) -> Result<Vec<Txn>, Memory>
        requires asked { mode ≤ (P.table protocol.now).count }
        requires held { AreWithin (P.table protocol.now).count (locks self.now) }
        ensures { IfOk result (λ list. list.items ≡ blockers (P.table protocol.now) (locks self.now) txn
            ((name, mode, span.Commit) ∷ [])) };

    /// Makes a mode that of a transaction on a name, in place of the one it holds there; 0 takes that away.
    ///
    /// It takes no memory where the mode is 0, or where the transaction holds a mode on the name already.
    fn keep(&mut self, txn: Txn, name: Name, mode: Mode) -> Result<(), Memory>
        ensures ok { OnOk result (locks self.new ≡ keep_or_drop (locks self.old) txn name mode) }
        ensures err { OnErr result (locks self.new ≡ locks self.old) }
        ensures none_takes_no_memory { mode ≡ 0 → IsOk result }
        ensures held_takes_no_memory { own (locks self.old) txn name ≢ 0 → IsOk result };

    /// Makes the mode of a transaction on a name the one to which a request converts it, and answers the mode before.
    ///
    /// The mode asked for is a mode of the protocol, and all held modes are at most its count.
    fn raise<P: Protocol>(
        &mut self,
        protocol: &P,
        txn: Txn,
        name: Name,
        mode: Mode,
    ) -> Result<Mode, Memory>
        requires asked { (0 < mode) × (mode ≤ (P.table protocol.now).count) }
        requires held { AreWithin (P.table protocol.now).count (locks self.old) }
        ensures was { IfOk result (λ was. was ≡ own (locks self.old) txn name) }
        ensures ok { IfOk result (λ was. locks self.new ≡ keep_or_drop (locks self.old) txn name ((P.table protocol.now).convert was mode)) }
        ensures err { OnErr result (locks self.new ≡ locks self.old) }
    {
        let was = self.own(txn, name);
        let kept = protocol.convert(was, mode);
        self.keep(txn, name, kept)?;
        Ok(was)
    }

    /// Takes away all locks of a transaction, and no other.
    fn release(&mut self, txn: Txn)
        ensures { locks self.new ≡ release (locks self.old) txn };

    /// All locks, by name, the end last, and then by transaction, each with its mode.
    fn copy(&self, alloc: Global) -> Result<Vec<((Name, Txn), Mode)>, Memory>
        ensures { IfOk result (λ list. list.items ≡ locks self.now) };
}
