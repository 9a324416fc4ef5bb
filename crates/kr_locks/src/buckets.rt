//! The locks of all transactions, by name.
ghost use Rattle.std.specs.Prelude.{◌≡◌, ◌≢◌, ◌<◌, ◌≤◌, ℕ, [], false, IsTrue, IsOk, OnOk, OnErr, IfOk, IfSome, IfNone};
ghost use Rattle.kr_model.specs.declared.Name.{Name};
ghost use Rattle.kr_model.specs.Locks.{AreWithin, own, keep};
ghost use Rattle.kr_locks.specs.Buckets.{IsNames, holders_at, locks_of};
ghost use Rattle.kr_locks.specs.Noted.{IsNoted, AreNoted, noted};

use crate::names::{
    Names, all_locks, conflicting, drop_lock, drop_locks, is_free, key_of, own_in, store, store_new,
};
use crate::{Holdings, Memory, Mode, Name, Txn};
use kr_protocol::Protocol;
use std::alloc::Global;
use std::collections::HashMap;
use std::marker::Model;

/// Locks by name: for each name its few holders, and the mask of all their modes; and for each transaction the names that
/// it was given locks on.
///
/// `own`, `test` and `blockers` look at the holders of the name, and `test` at none of them where the mask shows that no mode
/// conflicts. A name is found by its hash, and `keep` takes a logarithmic number of looks at transactions beside that.
/// `release` goes over the transaction's own names. `copy` goes over all locks and puts them in order.
pub struct Buckets {
    alloc: Global,
    names: Names,
    held: HashMap<Txn, Vec<Name>>,
}

impl Model for Buckets {
    ghost use Rattle.kr_model.specs.Locks.{Locks};
    ghost use Rattle.kr_locks.specs.Buckets.{IsNames, locks_of};
    ghost use Rattle.kr_locks.specs.Noted.{AreNoted};

    ghost Value = { Locks };

    ghost view = { λ b. locks_of b.names.entries };

    ghost invariant = { λ b. IsNames b.names.entries × AreNoted b.held (locks_of b.names.entries) };
}

/// Notes a name of a transaction that has names, and tells whether it has some.
fn note_there(held: &mut HashMap<Txn, Vec<Name>>, txn: Txn, name: Name) -> Result<bool, Memory>
    ensures kept { (t : ℕ) (n : Name) → IsNoted held.old t n → IsNoted held.new t n }
    ensures noted { IfOk result (λ there. IsTrue there → IsNoted held.new txn name) }
    ensures absent { IfOk result (λ there. there ≡ false → noted held.new txn ≡ []) }
{
    if let Some(list) = held.get_mut(&txn) {
        list.push(name)?;
        return Ok(true);
    }
    Ok(false)
}

/// Notes the first name of a transaction.
fn note_first(
    alloc: Global,
    held: &mut HashMap<Txn, Vec<Name>>,
    txn: Txn,
    name: Name,
) -> Result<(), Memory>
    requires { noted held.old txn ≡ [] }
    ensures kept { (t : ℕ) (n : Name) → IsNoted held.old t n → IsNoted held.new t n }
    ensures noted { OnOk result (IsNoted held.new txn name) }
{
    let mut list = Vec::new(alloc);
    list.push(name)?;
    held.insert(txn, list)?;
    Ok(())
}

/// Notes a name of a transaction.
fn note(
    alloc: Global,
    held: &mut HashMap<Txn, Vec<Name>>,
    txn: Txn,
    name: Name,
) -> Result<(), Memory>
    ensures kept { (t : ℕ) (n : Name) → IsNoted held.old t n → IsNoted held.new t n }
    ensures noted { OnOk result (IsNoted held.new txn name) }
{
    if note_there(held, txn, name)? {
        return Ok(());
    }
    note_first(alloc, held, txn, name)?;
    Ok(())
}

/// Notes a name of a transaction that holds no lock on it yet. One that does has noted it, and takes no memory.
fn note_new(
    alloc: Global,
    held: &mut HashMap<Txn, Vec<Name>>,
    names: &Names,
    txn: Txn,
    name: Name,
) -> Result<(), Memory>
    requires in_order { IsNames names.now.entries }
    requires all { AreNoted held.old (locks_of names.now.entries) }
    ensures all { AreNoted held.new (locks_of names.now.entries) }
    ensures noted { OnOk result (IsNoted held.new txn name) }
    ensures there { own (locks_of names.now.entries) txn name ≢ 0 → IsOk result }
{
    if own_in(names, txn, name) != 0 {
        return Ok(());
    }
    note(alloc, held, txn, name)?;
    Ok(())
}

/// Notes a name of a transaction, whose own mode there is given. One that holds a lock there has noted it.
fn note_unless_held(
    alloc: Global,
    held: &mut HashMap<Txn, Vec<Name>>,
    was: Mode,
    txn: Txn,
    name: Name,
) -> Result<(), Memory>
    ensures kept { (t : ℕ) (n : Name) → IsNoted held.old t n → IsNoted held.new t n }
    ensures noted { OnOk result (was ≡ 0 → IsNoted held.new txn name) }
{
    if was != 0 {
        return Ok(());
    }
    note(alloc, held, txn, name)?;
    Ok(())
}

/// Makes the mode of a transaction the one to which a request converts it, on a name that has holders, and answers the
/// mode before; `None` where it has none. It takes one look at the names.
fn raise_there<P: Protocol>(
    alloc: Global,
    held: &mut HashMap<Txn, Vec<Name>>,
    names: &mut Names,
    protocol: &P,
    txn: Txn,
    name: Name,
    mode: Mode,
) -> Result<Option<Mode>, Memory>
    requires in_order { IsNames names.old.entries }
    requires all { AreNoted held.old (locks_of names.old.entries) }
    requires asked { (0 < mode) × (mode ≤ (P.table protocol.now).count) }
    requires within { AreWithin (P.table protocol.now).count (locks_of names.old.entries) }
    ensures in_order { IsNames names.new.entries }
    ensures all { AreNoted held.new (locks_of names.new.entries) }
    ensures was { IfOk result (λ there. IfSome there (λ was. was ≡ own (locks_of names.old.entries) txn name)) }
    ensures raised { IfOk result (λ there. IfSome there (λ was. locks_of names.new.entries ≡ keep (locks_of names.old.entries) txn name ((P.table protocol.now).convert was mode))) }
    ensures absent { IfOk result (λ there. IfNone there (holders_at names.old.entries name ≡ [])) }
    ensures same { IfOk result (λ there. IfNone there (names.new.entries ≡ names.old.entries)) }
    ensures err { OnErr result (locks_of names.new.entries ≡ locks_of names.old.entries) }
{
    if let Some(bucket) = names.get_mut(&key_of(name)) {
        let was = bucket.own(txn);
        let kept = protocol.convert(was, mode);
        note_unless_held(alloc, held, was, txn, name)?;
        bucket.keep(txn, kept)?;
        return Ok(Some(was));
    }
    Ok(None)
}

/// Notes a name that nobody holds a lock on, and gives a transaction its first lock there.
fn raise_new(
    alloc: Global,
    held: &mut HashMap<Txn, Vec<Name>>,
    names: &mut Names,
    txn: Txn,
    name: Name,
    mode: Mode,
) -> Result<(), Memory>
    requires in_order { IsNames names.old.entries }
    requires all { AreNoted held.old (locks_of names.old.entries) }
    requires absent { holders_at names.old.entries name ≡ [] }
    ensures in_order { IsNames names.new.entries }
    ensures all { AreNoted held.new (locks_of names.new.entries) }
    ensures ok { OnOk result (locks_of names.new.entries ≡ keep (locks_of names.old.entries) txn name mode) }
    ensures err { OnErr result (locks_of names.new.entries ≡ locks_of names.old.entries) }
{
    note(alloc, held, txn, name)?;
    store_new(alloc, names, txn, name, mode)?;
    Ok(())
}

/// The names of a transaction, which are forgotten.
fn take_noted(held: &mut HashMap<Txn, Vec<Name>>, txn: Txn) -> Option<Vec<Name>>
    ensures some { IfSome result (λ list. list.items ≡ noted held.old txn) }
    ensures none { IfNone result (noted held.old txn ≡ []) }
    ensures kept { (t : ℕ) (n : Name) → t ≢ txn → IsNoted held.old t n → IsNoted held.new t n }
{
    held.remove(&txn)
}

impl Buckets {
    /// No locks. It takes no memory.
    pub fn new(alloc: Global) -> Buckets
        ensures { result ≡ [] }
    {
        Buckets {
            alloc,
            names: HashMap::new(alloc),
            held: HashMap::new(alloc),
        }
    }
}

impl Holdings for Buckets {
    ghost locks = { λ b. b };

    fn own(&self, txn: Txn, name: Name) -> Mode {
        own_in(&self.names, txn, name)
    }

    fn test<P: Protocol>(&self, protocol: &P, txn: Txn, name: Name, mode: Mode) -> bool {
        is_free(&self.names, protocol, txn, name, mode)
    }

    fn blockers<P: Protocol>(
        &self,
        alloc: Global,
        protocol: &P,
        txn: Txn,
        name: Name,
        mode: Mode,
    ) -> Result<Vec<Txn>, Memory> {
        conflicting(alloc, &self.names, protocol, txn, name, mode)
    }

    fn keep(&mut self, txn: Txn, name: Name, mode: Mode) -> Result<(), Memory> {
        if mode == 0 {
            drop_lock(&mut self.names, txn, name);
            return Ok(());
        }
        note_new(self.alloc, &mut self.held, &self.names, txn, name)?;
        store(self.alloc, &mut self.names, txn, name, mode)?;
        Ok(())
    }

    fn raise<P: Protocol>(
        &mut self,
        protocol: &P,
        txn: Txn,
        name: Name,
        mode: Mode,
    ) -> Result<Mode, Memory> {
        let there = raise_there(
            self.alloc,
            &mut self.held,
            &mut self.names,
            protocol,
            txn,
            name,
            mode,
        )?;
        match there {
            Some(was) => Ok(was),
            None => {
                raise_new(self.alloc, &mut self.held, &mut self.names, txn, name, mode)?;
                Ok(0)
            }
        }
    }

    fn release(&mut self, txn: Txn) {
        if let Some(list) = take_noted(&mut self.held, txn) {
            drop_locks(&mut self.names, txn, &list);
        }
    }

    fn copy(&self, alloc: Global) -> Result<Vec<((Name, Txn), Mode)>, Memory> {
        all_locks(alloc, &self.names)
    }
}

/// By hand, so that crates above call it by its contract and don't prove a destructor of their own.
impl Drop for Buckets {
    fn drop(self) {
        let Buckets {
            alloc: _,
            names: _,
            held: _,
        } = self;
    }
}
