//! The locks by name.
ghost use Rattle.std.specs.Prelude.{◌≡◌, ◌≢◌, ◌≤◌, ◌↔◌, ◌++◌, [], ◌∷◌, None, false, IsTrue, IsOk, OnOk, OnErr, IfOk};
ghost use Rattle.std.specs.FinMap.{find};
ghost use Rattle.kr_model.specs.Locks.{AreWithin, holder_cmp, own, keep, forget, blockers};
ghost use Rattle.kr_locks.specs.Buckets.{IsNames, key_of, name_of, holders_at, locks_at, locks_of, listed, forget_all, AreHolders};
ghost use Rattle.kr_model.specs.declared.Span.TheVariants as span;

use crate::bucket::Bucket;
use crate::{Memory, Mode, Name, Txn};
use kr_protocol::Protocol;
use std::alloc::Global;
use std::collections::HashMap;

/// The names on which a lock is held, each with its holders. The key of a name is its own key, and that of the end is `None`.
pub(crate) type Names = HashMap<Option<u64>, Bucket>;

/// The key of a name.
pub(crate) fn key_of(name: Name) -> Option<u64>
    ensures { result ≡ key_of name }
{
    match name {
        Name::Key(key) => Some(key),
        Name::End => None,
    }
}

/// The name that has a key.
fn name_of(key: Option<u64>) -> Name
    ensures { result ≡ name_of key }
{
    match key {
        Some(key) => Name::Key(key),
        None => Name::End,
    }
}

/// The mode of a transaction on a name, or 0.
pub(crate) fn own_in(names: &Names, txn: Txn, name: Name) -> Mode
    requires { IsNames names.now.entries }
    ensures { result ≡ own (locks_of names.now.entries) txn name }
{
    match names.get(&key_of(name)) {
        Some(bucket) => bucket.own(txn),
        None => 0,
    }
}

/// Writes the mode of a transaction on a name that has holders, and tells whether it has some.
fn store_there(names: &mut Names, txn: Txn, name: Name, mode: Mode) -> Result<bool, Memory>
    requires { IsNames names.old.entries }
    ensures in_order { IsNames names.new.entries }
    ensures stored { IfOk result (λ there. IsTrue there → locks_of names.new.entries ≡ keep (locks_of names.old.entries) txn name mode) }
    ensures absent { IfOk result (λ there. there ≡ false → holders_at names.old.entries name ≡ []) }
    ensures same { IfOk result (λ there. there ≡ false → names.new.entries ≡ names.old.entries) }
    ensures err { OnErr result (locks_of names.new.entries ≡ locks_of names.old.entries) }
    ensures there { find holder_cmp (name, txn) (locks_of names.old.entries) ≢ None → IsOk result }
{
    if let Some(bucket) = names.get_mut(&key_of(name)) {
        bucket.keep(txn, mode)?;
        return Ok(true);
    }
    Ok(false)
}

/// Writes the mode of a transaction on a name that nobody holds a lock on.
pub(crate) fn store_new(
    alloc: Global,
    names: &mut Names,
    txn: Txn,
    name: Name,
    mode: Mode,
) -> Result<(), Memory>
    requires in_order { IsNames names.old.entries }
    requires absent { holders_at names.old.entries name ≡ [] }
    ensures in_order { IsNames names.new.entries }
    ensures ok { OnOk result (locks_of names.new.entries ≡ keep (locks_of names.old.entries) txn name mode) }
    ensures err { OnErr result (names.new.entries ≡ names.old.entries) }
{
    names.insert(key_of(name), Bucket::of_one(alloc, txn, mode))?;
    Ok(())
}

/// Writes the mode of a transaction on a name. One that is there takes no memory.
pub(crate) fn store(
    alloc: Global,
    names: &mut Names,
    txn: Txn,
    name: Name,
    mode: Mode,
) -> Result<(), Memory>
    requires { IsNames names.old.entries }
    ensures in_order { IsNames names.new.entries }
    ensures ok { OnOk result (locks_of names.new.entries ≡ keep (locks_of names.old.entries) txn name mode) }
    ensures err { OnErr result (locks_of names.new.entries ≡ locks_of names.old.entries) }
    ensures there { find holder_cmp (name, txn) (locks_of names.old.entries) ≢ None → IsOk result }
{
    if store_there(names, txn, name, mode)? {
        return Ok(());
    }
    store_new(alloc, names, txn, name, mode)?;
    Ok(())
}

/// Takes away the lock of a transaction on a name, and tells whether no lock is left on a name that had one.
fn leave(names: &mut Names, txn: Txn, name: Name) -> bool
    requires { IsNames names.old.entries }
    ensures in_order { IsNames names.new.entries }
    ensures locks { locks_of names.new.entries ≡ forget (locks_of names.old.entries) txn name }
    ensures empty { IsTrue result → holders_at names.new.entries name ≡ [] }
{
    if let Some(bucket) = names.get_mut(&key_of(name)) {
        bucket.forget(txn);
        return bucket.is_empty();
    }
    false
}

/// Takes out a name on which no lock is left.
fn take_out(names: &mut Names, name: Name)
    requires in_order { IsNames names.old.entries }
    requires empty { holders_at names.old.entries name ≡ [] }
    ensures in_order { IsNames names.new.entries }
    ensures locks { locks_of names.new.entries ≡ locks_of names.old.entries }
{
    let _ = names.remove(&key_of(name));
}

/// Takes away the lock of a transaction on a name, and the name where no lock is left on it.
pub(crate) fn drop_lock(names: &mut Names, txn: Txn, name: Name)
    requires { IsNames names.old.entries }
    ensures in_order { IsNames names.new.entries }
    ensures locks { locks_of names.new.entries ≡ forget (locks_of names.old.entries) txn name }
{
    if leave(names, txn, name) {
        take_out(names, name);
    }
}

/// Takes away the locks of a transaction on these names.
pub(crate) fn drop_locks(names: &mut Names, txn: Txn, list: &[Name])
    requires { IsNames names.old.entries }
    ensures in_order { IsNames names.new.entries }
    ensures locks { locks_of names.new.entries ≡ forget_all (locks_of names.old.entries) txn list.now }
{
    for &name in list {
        drop_lock(names, txn, name);
    }
}

/// Whether no other transaction's lock conflicts with a request for a mode on a name.
pub(crate) fn is_free<P: Protocol>(
    names: &Names,
    protocol: &P,
    txn: Txn,
    name: Name,
    mode: Mode,
) -> bool
    requires in_order { IsNames names.now.entries }
    requires asked { mode ≤ (P.table protocol.now).count }
    requires held { AreWithin (P.table protocol.now).count (locks_of names.now.entries) }
    ensures { IsTrue result ↔ (blockers (P.table protocol.now) (locks_of names.now.entries) txn
        ((name, mode, span.Commit) ∷ []) ≡ []) }
{
    match names.get(&key_of(name)) {
        Some(bucket) => {
            let converted = protocol.convert(bucket.own(txn), mode);
            bucket.is_free(protocol, txn, converted)
        }
        None => true,
    }
}

/// The transactions whose locks conflict with a request for a mode on a name, rising.
pub(crate) fn conflicting<P: Protocol>(
    alloc: Global,
    names: &Names,
    protocol: &P,
    txn: Txn,
    name: Name,
    mode: Mode,
) -> Result<Vec<Txn>, Memory>
    requires in_order { IsNames names.now.entries }
    requires asked { mode ≤ (P.table protocol.now).count }
    requires held { AreWithin (P.table protocol.now).count (locks_of names.now.entries) }
    ensures { IfOk result (λ list. list.items ≡ blockers (P.table protocol.now) (locks_of names.now.entries) txn
        ((name, mode, span.Commit) ∷ [])) }
{
    match names.get(&key_of(name)) {
        Some(bucket) => {
            let converted = protocol.convert(bucket.own(txn), mode);
            bucket.conflicting(alloc, protocol, txn, converted)
        }
        None => Ok(Vec::new(alloc)),
    }
}

/// Adds the locks of these holders of a name to a list.
fn add_holders(
    all: &mut Vec<((Name, Txn), Mode)>,
    name: Name,
    holders: &[(Txn, Mode)],
) -> Result<(), Memory>
    ensures { OnOk result (all.new.items ≡ all.old.items ++ locks_at name holders.now) }
{
    for &(txn, mode) in holders {
        all.push(((name, txn), mode))?;
    }
    Ok(())
}

/// All locks, name by name.
fn gather(alloc: Global, names: &Names) -> Result<Vec<((Name, Txn), Mode)>, Memory>
    ensures listed { IfOk result (λ all. all.items ≡ listed names.now.entries) }
    ensures in_order { OnOk result (AreHolders names.now.entries) }
{
    let mut all = Vec::with_capacity(alloc, names.len())?;
    for (key, bucket) in names {
        add_holders(&mut all, name_of(*key), bucket.holders())?;
    }
    Ok(all)
}

/// All locks, by name and then by transaction.
pub(crate) fn all_locks(alloc: Global, names: &Names) -> Result<Vec<((Name, Txn), Mode)>, Memory>
    requires { IsNames names.now.entries }
    ensures { IfOk result (λ list. list.items ≡ locks_of names.now.entries) }
{
    let mut list = gather(alloc, names)?;
    list.sort_unstable();
    Ok(list)
}
