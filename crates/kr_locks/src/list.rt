//! The locks of all transactions in one sorted list.
ghost use Rattle.std.specs.Prelude.{◌≡◌, ◌≢◌, ◌≤◌, [], None, IsOk, OnOk, OnErr, MatchResult, length, slice_range};
ghost use Rattle.std.specs.Ordering.{is_lt, is_le};
ghost use Rattle.std.specs.FinMap.{find, put};
ghost use Rattle.kr_model.specs.Locks.{Locks, IsLocks, name_cmp, holder_cmp, own, keep_or_drop, forget, release};
ghost use Rattle.kr_locks.specs.List.{IsPlaceOf, IsGapFor, lock_conflicts, locks_on};

use crate::{Holdings, Memory, Mode, Name, Txn};
use kr_protocol::Protocol;
use std::alloc::Global;
use std::cmp::Ordering;
use std::marker::Model;

/// A name and the transaction that holds a lock on it, with its mode.
type Lock = ((Name, Txn), Mode);

/// Locks in one list, sorted by name, the end last, and then by transaction.
///
/// `own`, `test` and `blockers` find the name by bisection, and look at no lock on another name. `keep` finds the place
/// by bisection, and moves the locks behind it where one comes or goes. `release` and `copy` go over the list once.
pub struct List {
    held: Vec<Lock>,
}

impl Model for List {
    ghost use Rattle.kr_model.specs.Locks.{Locks, IsLocks};

    ghost Value = { Locks };

    ghost view = { λ l. l.held.items };

    ghost invariant = { λ l. IsLocks l.held.items };
}

/// The place of the lock of a transaction on a name, or the place where it would go.
fn search(held: &[Lock], txn: Txn, name: Name) -> Result<usize, usize>
    requires { IsLocks held.now }
    ensures { MatchResult result (IsPlaceOf held.now (name, txn)) (IsGapFor held.now (name, txn)) }
{
    held.binary_search_by(
        |lock: &Lock| -> Ordering
            ensures { result ≡ holder_cmp lock.now.0 (name, txn) }
        { lock.0.cmp(&(name, txn)) },
    )
}

/// Where the locks on a name begin and end.
fn bounds(held: &[Lock], name: Name) -> (usize, usize)
    requires { IsLocks held.now }
    ensures in_order { result.0 ≤ result.1 }
    ensures in_range { result.1 ≤ length held.now }
    ensures locks { slice_range held.now result.0 result.1 ≡ locks_on held.now name }
{
    let start = held.partition_point(
        |lock: &Lock| -> bool
            ensures { result ≡ is_lt (name_cmp lock.now.0.0 name) }
        { lock.0.0 < name },
    );
    let end = held.partition_point(
        |lock: &Lock| -> bool
            ensures { result ≡ is_le (name_cmp lock.now.0.0 name) }
        { lock.0.0 <= name },
    );
    (start, end)
}

/// The locks on a name.
fn locks_on(held: &[Lock], name: Name) -> &[Lock]
    requires { IsLocks held.now }
    ensures { result.now ≡ locks_on held.now name }
{
    let (start, end) = bounds(held, name);
    &held[start..end]
}

/// The mode of a transaction on a name, or 0.
fn own_in(held: &[Lock], txn: Txn, name: Name) -> Mode
    requires { IsLocks held.now }
    ensures { result ≡ own held.now txn name }
{
    match search(held, txn, name) {
        Ok(place) => held[place].1,
        Err(_) => 0,
    }
}

/// Whether a lock is that of another transaction, and a mode conflicts with it.
fn conflicts<P: Protocol>(protocol: &P, txn: Txn, mode: Mode, lock: Lock) -> bool
    requires asked { mode ≤ (P.table protocol.now).count }
    requires held { lock.1 ≤ (P.table protocol.now).count }
    ensures { result ≡ lock_conflicts (P.table protocol.now) txn mode lock }
{
    let ((_, holder), held) = lock;
    holder != txn && !protocol.ok(mode, held)
}

/// Writes the mode of a transaction on a name. One that is there takes no memory.
fn store(held: &mut Vec<Lock>, txn: Txn, name: Name, mode: Mode) -> Result<(), Memory>
    requires { IsLocks held.old.items }
    ensures ok { OnOk result (held.new.items ≡ put holder_cmp (name, txn) mode held.old.items) }
    ensures err { OnErr result (held.new.items ≡ held.old.items) }
    ensures there { find holder_cmp (name, txn) held.old.items ≢ None → IsOk result }
{
    match search(held, txn, name) {
        Ok(place) => held[place] = ((name, txn), mode),
        Err(place) => held.insert(place, ((name, txn), mode))?,
    }
    Ok(())
}

/// Takes away the lock of a transaction on a name.
fn forget(held: &mut Vec<Lock>, txn: Txn, name: Name)
    requires { IsLocks held.old.items }
    ensures { held.new.items ≡ forget held.old.items txn name }
{
    if let Ok(place) = search(held, txn, name) {
        held.remove(place);
    }
}

/// Takes away the locks of a transaction.
fn leave(held: &mut Vec<Lock>, txn: Txn)
    requires { IsLocks held.old.items }
    ensures items { held.new.items ≡ release held.old.items txn }
    ensures in_order { IsLocks held.new.items }
{
    held.retain(|lock| lock.0.1 != txn);
}

/// Makes a mode that of a transaction on a name; 0 takes it away.
fn keep_in(held: &mut Vec<Lock>, txn: Txn, name: Name, mode: Mode) -> Result<(), Memory>
    requires { IsLocks held.old.items }
    ensures ok { OnOk result (held.new.items ≡ keep_or_drop held.old.items txn name mode) }
    ensures err { OnErr result (held.new.items ≡ held.old.items) }
    ensures none_takes_no_memory { mode ≡ 0 → IsOk result }
    ensures held_takes_no_memory { own held.old.items txn name ≢ 0 → IsOk result }
    ensures in_order { IsLocks held.new.items }
{
    if mode == 0 {
        forget(held, txn, name);
        return Ok(());
    }
    store(held, txn, name, mode)?;
    Ok(())
}

impl List {
    /// No locks. It takes no memory.
    pub fn new(alloc: Global) -> List
        ensures { result ≡ [] }
    {
        List {
            held: Vec::new(alloc),
        }
    }
}

impl Holdings for List {
    ghost locks = { λ l. l };

    fn own(&self, txn: Txn, name: Name) -> Mode {
        own_in(&self.held, txn, name)
    }

    fn test<P: Protocol>(&self, protocol: &P, txn: Txn, name: Name, mode: Mode) -> bool {
        let converted = protocol.convert(self.own(txn, name), mode);
        for &lock in locks_on(&self.held, name) {
            if conflicts(protocol, txn, converted, lock) {
                return false;
            }
        }
        true
    }

    fn blockers<P: Protocol>(
        &self,
        alloc: Global,
        protocol: &P,
        txn: Txn,
        name: Name,
        mode: Mode,
    ) -> Result<Vec<Txn>, Memory> {
        let own = self.own(txn, name);
        let converted = protocol.convert(own, mode);
        let mut blockers = Vec::new(alloc);
        for &lock in locks_on(&self.held, name) {
            if conflicts(protocol, txn, converted, lock) {
                blockers.push(lock.0.1)?;
            }
        }
        Ok(blockers)
    }

    fn keep(&mut self, txn: Txn, name: Name, mode: Mode) -> Result<(), Memory> {
        keep_in(&mut self.held, txn, name, mode)?;
        Ok(())
    }

    fn release(&mut self, txn: Txn) {
        leave(&mut self.held, txn);
    }

    fn copy(&self, alloc: Global) -> Result<Vec<((Name, Txn), Mode)>, Memory> {
        Vec::from_slice(alloc, &self.held)
    }
}

/// By hand, so that crates above call it by its contract and don't prove a destructor of their own.
impl Drop for List {
    fn drop(self) {
        let List { held: _ } = self;
    }
}
