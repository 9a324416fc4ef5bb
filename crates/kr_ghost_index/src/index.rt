//! The index: its present keys and its ghosts, each with the count of its changes that are left.
ghost use Rattle.std.specs.Prelude.{◌≡◌, ◌<◌, ℕ, ◌==◌, not, true, None, [], IfOk, OnOk, OnErr, IsTrue, false, filter, is_some, nat_lt};
ghost use Rattle.std.specs.List.Sorted.{IsStrictlyIncreasing};
ghost use Rattle.kr_model.specs.declared.Name.TheVariants.{Key};
ghost use Rattle.kr_model.specs.Map.{IsMap, after, at, get, restore};
ghost use Rattle.kr_ghost.specs.State.{among, ghosts_with, named};
ghost use Rattle.kr_ghost_index.specs.Index.{changes, with_change};

use crate::slots::{
    Slot, change, changes_of, copy_of, first_from, name_past, remove, settle, slots_of, undo,
};
use kr_model::{Items, Memory, Name, Pairs};
use std::alloc::Global;
use std::collections::BTreeMap;
use std::marker::Model;

/// What is found at a key.
#[derive(Clone, Copy, Debug, PartialEq, Eq)]
pub struct Look {
    /// The key's value, if it is present.
    pub value: Option<u64>,
    /// Whether it is a ghost.
    pub is_ghost: bool,
    /// The least name not below it: a present key, a ghost, or the end.
    pub name: Name,
}

/// An index of present keys with their values, and of ghosts, which are deleted keys that haven't been purged.
///
/// It counts the changes of each key that can still be undone: a key with such a change is never purged. `pairs`, `ghosts` and
/// `try_copy` look at all names, and each other call at a logarithmic number of them.
pub struct GhostIndex {
    slots: BTreeMap<u64, Slot>,
}

impl Model for GhostIndex {
    ghost use Rattle.kr_ghost_index.specs.Index.{GhostIndex};
    ghost use Rattle.kr_ghost_index.specs.Slots.{seen, IsInOrder};

    ghost Value = { GhostIndex };

    ghost view = { λ x. seen x.slots.entries };

    ghost invariant = { λ x. IsInOrder x.slots.entries };
}

impl GhostIndex {
    /// The index of these pairs, whose keys rise strictly, with no ghosts. `Memory` comes only where a growth was refused. Its time
    /// is linear in the number of pairs.
    pub fn from_pairs(alloc: Global, pairs: &[(u64, u64)]) -> Result<GhostIndex, Memory>
        requires { IsMap pairs.now }
        ensures map { IfOk result (λ x. x.map ≡ pairs.now) }
        ensures ghosts { IfOk result (λ x. x.ghosts ≡ []) }
        ensures changes { IfOk result (λ x. (q : ℕ) → changes x q ≡ 0) }
    {
        let slots = slots_of(alloc, pairs)?;
        Ok(GhostIndex { slots })
    }

    /// What is found at a key, by one search.
    pub fn look(&self, key: u64) -> Look
        ensures value { result.value ≡ get self.now.map key }
        ensures is_ghost { result.is_ghost ≡ among self.now.ghosts key }
        ensures name { result.name ≡ at (named self.now.map self.now.ghosts) key }
        ensures apart { IsTrue (is_some result.value) → result.is_ghost ≡ false }
    {
        match first_from(&self.slots, key) {
            Some((found, slot)) if found == key => Look {
                value: slot.value,
                is_ghost: slot.value.is_none(),
                name: Name::Key(found),
            },
            Some((found, _)) => Look {
                value: None,
                is_ghost: false,
                name: Name::Key(found),
            },
            None => Look {
                value: None,
                is_ghost: false,
                name: Name::End,
            },
        }
    }

    /// The least name not below `from`, and the value of its key, if that is present.
    pub fn name_from(&self, from: u64) -> (Name, Option<u64>)
        ensures name { result.0 ≡ at (named self.now.map self.now.ghosts) from }
        ensures value { (k : ℕ) → result.0 ≡ Key k → result.1 ≡ get self.now.map k }
    {
        match first_from(&self.slots, from) {
            Some((key, slot)) => (Name::Key(key), slot.value),
            None => (Name::End, None),
        }
    }

    /// The least name above `key`: a present key, a ghost, or the end.
    pub fn name_after(&self, key: u64) -> Name
        ensures { result ≡ after (named self.now.map self.now.ghosts) key }
    {
        name_past(&self.slots, key)
    }

    /// Gives a key this value, or takes its value away, which leaves a ghost, and counts one more change of it. The answer is
    /// `Memory` where a growth is refused, or the key has 4,294,967,295 changes left, and then nothing has changed.
    pub fn change(&mut self, key: u64, value: Option<u64>) -> Result<(), Memory>
        ensures map { OnOk result (self.new.map ≡ restore self.old.map key value) }
        ensures ghosts { OnOk result (self.new.ghosts ≡ ghosts_with self.old.ghosts key value) }
        ensures changes { OnOk result ((q : ℕ) → changes self.new q ≡ with_change (changes self.old) key q) }
        ensures err { OnErr result (self.new ≡ self.old) }
    {
        change(&mut self.slots, key, value)
    }

    /// Undoes a change of a key, which has one left: the key has this value again, or is a ghost where there was none. Takes no
    /// memory.
    pub fn undo(&mut self, key: u64, value: Option<u64>)
        requires { 0 < changes self.old key }
        ensures map { self.new.map ≡ restore self.old.map key value }
        ensures ghosts { self.new.ghosts ≡ ghosts_with self.old.ghosts key value }
        ensures changes { (q : ℕ) → changes self.old q ≡ with_change (changes self.new) key q }
    {
        undo(&mut self.slots, key, value);
    }

    /// Lets a change of a key stand, which has one left.
    pub fn settle(&mut self, key: u64)
        requires { 0 < changes self.old key }
        ensures map { self.new.map ≡ self.old.map }
        ensures ghosts { self.new.ghosts ≡ self.old.ghosts }
        ensures changes { (q : ℕ) → changes self.old q ≡ with_change (changes self.new) key q }
    {
        settle(&mut self.slots, key);
    }

    /// Whether a change of the key is left.
    pub fn is_changed(&self, key: u64) -> bool
        ensures { result ≡ nat_lt 0 (changes self.now key) }
    {
        changes_of(&self.slots, key) > 0
    }

    /// Takes a ghost away of which no change is left. The least name not below its key is then the one that was next above it.
    pub fn purge(&mut self, key: u64)
        requires is_ghost { among self.old.ghosts key ≡ true }
        requires unchanged { changes self.old key ≡ 0 }
        ensures map { self.new.map ≡ self.old.map }
        ensures ghosts { self.new.ghosts ≡ filter (λ g. not (g == key)) self.old.ghosts }
        ensures changes { (q : ℕ) → changes self.new q ≡ changes self.old q }
        ensures next { at (named self.new.map self.new.ghosts) key ≡ after (named self.old.map self.old.ghosts) key }
    {
        remove(&mut self.slots, key);
    }

    /// The pairs of the present keys, keys rising, or `Memory` where a growth is refused.
    pub fn pairs(&self, alloc: Global) -> Result<Pairs, Memory>
        ensures { IfOk result (λ pairs. pairs ≡ self.now.map) }
    {
        let mut list = Vec::with_capacity(alloc, self.slots.len())?;
        for (key, slot) in &self.slots {
            if let Some(value) = slot.value {
                list.push((*key, value))?;
            }
        }
        Ok(Pairs::from_vec(list))
    }

    /// The ghosts, rising, or `Memory` where a growth is refused.
    pub fn ghosts(&self, alloc: Global) -> Result<Items<u64>, Memory>
        ensures { IfOk result (λ ghosts. ghosts ≡ self.now.ghosts) }
    {
        let mut list = Vec::with_capacity(alloc, self.slots.len())?;
        for (key, slot) in &self.slots {
            if slot.value.is_none() {
                list.push(*key)?;
            }
        }
        Ok(Items::from_vec(list))
    }

    /// A copy, with the ghosts and with the count of each key's changes that are left; or `Memory` where a growth is refused. Its
    /// time is linear in the number of names.
    pub fn try_copy(&self, alloc: Global) -> Result<GhostIndex, Memory>
        ensures { IfOk result (λ copy. copy ≡ self.now) }
    {
        let slots = copy_of(alloc, &self.slots)?;
        Ok(GhostIndex { slots })
    }

    /// The keys of the pairs rise, and so do the ghosts, none of which is present. Only proofs need the call, which does nothing.
    pub fn lemma_in_order(&self)
        ensures map { IsMap self.now.map }
        ensures rising { IsStrictlyIncreasing self.now.ghosts }
        ensures absent { (k : ℕ) → among self.now.ghosts k ≡ true → get self.now.map k ≡ None }
    {
        let _ = &self.slots;
    }
}

/// By hand, so that crates above call it by its contract and don't prove a destructor of their own.
impl Drop for GhostIndex {
    fn drop(self) {
        let GhostIndex { slots: _ } = self;
    }
}
