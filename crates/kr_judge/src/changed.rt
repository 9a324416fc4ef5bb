//! The opening map with the keys that programs changed.
ghost use Rattle.std.specs.Prelude.{◌≡◌, None, nat_eq, IfOk, OnOk};
ghost use Rattle.std.specs.HashMap.{IsUnique};
ghost use Rattle.kr_model.specs.Map.{IsMap, get, restore};
ghost use Rattle.kr_model.specs.Serial.{found_or_none, whole_insert, whole_delete, whole_update};
ghost use Rattle.kr_judge.specs.Changed.{changed_map, own_unless_same};

use crate::own::{own_delete, own_fetch, own_insert, own_update};
use crate::whole::{map_of, put, take};
use kr_model::Reply;
use std::alloc::{AllocError, Global};
use std::collections::{BTreeMap, HashMap};
use std::marker::Model;

/// An opening map with the keys that programs changed.
///
/// The opening's pairs are a slice that it borrows, and doesn't change. Beside them a hash table has the keys that were changed,
/// each with its value, or with `None` where the key is deleted. An operation on a key takes one look at the table, and a
/// binary search of the opening where the table doesn't have the key. Contracts see the map.
#[derive(Drop)]
pub(crate) struct Changed<'a> {
    opening: &'a [(u64, u64)],
    changes: HashMap<u64, Option<u64>>,
}

impl<'a> Model for Changed<'a> {
    ghost use Rattle.std.specs.Prelude.{nat_eq};
    ghost use Rattle.std.specs.HashMap.{IsUnique};
    ghost use Rattle.kr_model.specs.Map.{Map, IsMap};
    ghost use Rattle.kr_judge.specs.Changed.{changed_map};

    ghost Value = { Map };

    ghost view = { λ c. changed_map c.opening.now c.changes.entries };

    ghost invariant = { λ c. IsMap c.opening.now × IsUnique nat_eq c.changes };
}

/// The value at a key of pairs whose keys rise, by a binary search.
fn find(pairs: &[(u64, u64)], key: u64) -> Option<u64>
    requires { IsMap pairs.now }
    ensures { result ≡ get pairs.now key }
{
    match pairs.binary_search_by_key(&key, |&(other, _)| other) {
        Ok(place) => Some(pairs[place].1),
        Err(_) => None,
    }
}

/// The value at a key of the opening with its changes.
fn value_in(opening: &[(u64, u64)], changes: &HashMap<u64, Option<u64>>, key: u64) -> Option<u64>
    requires is_map { IsMap opening.now }
    requires unique { IsUnique nat_eq changes.now }
    ensures { result ≡ get (changed_map opening.now changes.now.entries) key }
{
    match changes.get(&key) {
        Some(value) => *value,
        None => find(opening, key),
    }
}

/// Notes a change of a key, to this value or to none, and returns the value before. At an error a growth was refused.
fn change_in(
    opening: &[(u64, u64)],
    changes: &mut HashMap<u64, Option<u64>>,
    key: u64,
    value: Option<u64>,
) -> Result<Option<u64>, AllocError>
    requires is_map { IsMap opening.now }
    requires unique { IsUnique nat_eq changes.old }
    ensures unique { IsUnique nat_eq changes.new }
    ensures before { IfOk result (λ before. before ≡ get (changed_map opening.now changes.old.entries) key) }
    ensures map { OnOk result (changed_map opening.now changes.new.entries ≡ restore (changed_map opening.now changes.old.entries) key value) }
{
    match changes.insert(key, value)? {
        Some(before) => Ok(before),
        None => Ok(find(opening, key)),
    }
}

/// Gives a key of a map this value, or takes the key away where there is none. At an error a growth was refused, and the map's
/// keys still rise.
fn write(map: &mut BTreeMap<u64, u64>, key: u64, value: Option<u64>) -> Result<(), AllocError>
    requires { IsMap map.old.entries }
    ensures is_map { IsMap map.new.entries }
    ensures map { OnOk result (map.new.entries ≡ restore map.old.entries key value) }
{
    match value {
        Some(value) => {
            put(map, key, value)?;
        }
        None => {
            let _ = take(map, key);
        }
    }
    Ok(())
}

impl<'a> Changed<'a> {
    /// The opening map, unchanged. Takes no memory.
    pub(crate) fn new(alloc: Global, opening: &'a [(u64, u64)]) -> Changed<'a>
        requires { IsMap opening.now }
        ensures { result ≡ opening.now }
    {
        Changed {
            opening,
            changes: HashMap::new(alloc),
        }
    }

    /// The same map as a tree of all its pairs.
    pub(crate) fn in_order(&self, alloc: Global) -> Result<BTreeMap<u64, u64>, AllocError>
        ensures is_map { IfOk result (λ map. IsMap map.entries) }
        ensures map { IfOk result (λ map. map.entries ≡ self.now) }
    {
        let mut map = map_of(alloc, self.opening)?;
        for (key, value) in &self.changes {
            write(&mut map, *key, *value)?;
        }
        Ok(map)
    }

    /// The value at a key.
    fn value_at(&self, key: u64) -> Option<u64>
        ensures { result ≡ get self.now key }
    {
        value_in(self.opening, &self.changes, key)
    }

    /// Gives a key this value, or takes the key away where there is none, and returns the value before. At an error a growth was
    /// refused.
    fn change(&mut self, key: u64, value: Option<u64>) -> Result<Option<u64>, AllocError>
        ensures before { IfOk result (λ before. before ≡ get self.old key) }
        ensures map { OnOk result (self.new ≡ restore self.old key value) }
    {
        change_in(self.opening, &mut self.changes, key, value)
    }

    /// A fetch's own answer, where it isn't the one given.
    pub(crate) fn fetch(&self, key: u64, given: &Reply) -> Option<Reply>
        ensures { result ≡ own_unless_same given.now (found_or_none (get self.now key)) }
    {
        own_fetch(given, self.value_at(key))
    }

    /// Inserts, and answers with the insert's own answer, where it isn't the one given. The map may then be another one.
    pub(crate) fn insert(
        &mut self,
        key: u64,
        value: u64,
        given: &Reply,
    ) -> Result<Option<Reply>, AllocError>
        ensures own { IfOk result (λ own. own ≡ own_unless_same given.now (whole_insert self.old key value (get self.old key)).0) }
        ensures map { IfOk result (λ own. own ≡ None → self.new ≡ (whole_insert self.old key value (get self.old key)).1) }
    {
        match given {
            Reply::Done => Ok(own_insert(given, self.change(key, Some(value))?)),
            _ => Ok(own_insert(given, self.value_at(key))),
        }
    }

    /// Deletes, and answers with the delete's own answer, where it isn't the one given. The map may then be another one.
    pub(crate) fn delete(&mut self, key: u64, given: &Reply) -> Result<Option<Reply>, AllocError>
        ensures own { IfOk result (λ own. own ≡ own_unless_same given.now (whole_delete self.old key (get self.old key)).0) }
        ensures map { IfOk result (λ own. own ≡ None → self.new ≡ (whole_delete self.old key (get self.old key)).1) }
    {
        match given {
            Reply::Deleted(_) => Ok(own_delete(given, self.change(key, None)?)),
            _ => Ok(own_delete(given, self.value_at(key))),
        }
    }

    /// Updates, and answers with the update's own answer, where it isn't the one given. The map may then be another one.
    pub(crate) fn update(
        &mut self,
        key: u64,
        value: u64,
        given: &Reply,
    ) -> Result<Option<Reply>, AllocError>
        ensures own { IfOk result (λ own. own ≡ own_unless_same given.now (whole_update self.old key value (get self.old key)).0) }
        ensures map { IfOk result (λ own. own ≡ None → self.new ≡ (whole_update self.old key value (get self.old key)).1) }
    {
        match given {
            Reply::Updated(_) => Ok(own_update(given, self.change(key, Some(value))?)),
            _ => Ok(own_update(given, self.value_at(key))),
        }
    }
}
