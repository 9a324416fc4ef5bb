//! An index as a balanced tree.
ghost use Rattle.std.specs.Prelude.{◌≡◌, ℕ, ◌+◌, ◌-◌, ◌<◌, ◌^◌, [], None, IfOk, OnOk, OnErr, IsTrue, false, ◌==◌, if◌then◌else◌};
ghost use Rattle.std.specs.Ordering.{nat_cmp};
ghost use Rattle.std.specs.FinMap.{find};
ghost use Rattle.kr_model.specs.Map.{Map, IsMap};
ghost use Rattle.kr_index.specs.Slots.{pairs_of, pins_of, value_in, IsInOrder};
ghost use Rattle.kr_index.specs.Stretches.{IsRising, AreMarked};

use crate::firsts::{pair_from, value_at};
use crate::slots::{Slot, unpinned};
use crate::stretches::{Stretch, cut, enter, grow, join, leave, shrink, tally};
use crate::values::replace;
use crate::walks::{first_past, is_past_all, make_room, name_at, settle};
use crate::{Memory, Ordered};
use kr_model::{Name, Pairs};
use std::alloc::{AllocError, Global};
use std::collections::BTreeMap;

/// An index in a tree of keys.
///
/// A pinned key has a slot, and an absent one has a slot without a value, so `put` and `take` write in place.
/// The keys are cut into stretches of at most 256 slots, and a stretch is marked as bare once none of its keys has a value.
///
/// Each call looks at a logarithmic number of keys. `at` and `after` also step over the absent keys that are pinned right
/// before their answer: one by one in the stretches where they begin and end, and else a stretch at a time. `pin` of a
/// new key may cut its stretch, and `take` and `unpin` may look whether one is bare, which takes as long as `at` there.
pub struct Tree {
    slots: BTreeMap<u64, Slot>,
    stretches: Vec<Stretch>,
    ghost sorted: { IsInOrder slots.entries },
    ghost rising: { IsMap (pairs_of slots.entries) },
    ghost parted: { IsRising stretches.items },
    ghost marked: { AreMarked stretches.items (pairs_of slots.entries) },
}

/// How many slots a stretch has in a tree that is made of pairs, which leaves room for some more.
const FILLED: usize = 192;

/// Stretches for the keys of pairs, the first one from 0 on, and none of them marked as bare.
/// The answer is `Memory` where a growth is refused.
fn stretches_of(alloc: Global, pairs: &[(u64, u64)]) -> Result<Vec<Stretch>, Memory>
    ensures rising { IfOk result (λ stretches. IsRising stretches.items) }
    ensures marked { IfOk result (λ stretches. (m : Map) → AreMarked stretches.items m) }
{
    let mut stretches = Vec::new(alloc);
    for part in pairs.chunks(FILLED) {
        if let Some(&(key, _)) = part.first() {
            let first = if stretches.is_empty() { 0 } else { key };
            cut(&mut stretches, first)?;
            tally(&mut stretches, first, part.len(), part.len());
        }
    }
    Ok(stretches)
}

/// The tree of entries in order.
fn tree_of(alloc: Global, entries: Vec<(u64, Slot)>) -> Result<BTreeMap<u64, Slot>, Memory>
    requires { IsInOrder entries.items }
    ensures { IfOk result (λ slots. slots.entries ≡ entries.items) }
{
    entries.into_iter().collect(alloc)
}

/// Adds a pin to `key` where it has a slot, and tells whether it has one. A slot with 4,294,967,295 pins takes no more: the
/// answer is `Memory`.
fn pin_there(slots: &mut BTreeMap<u64, Slot>, key: u64) -> Result<bool, Memory>
    requires { IsInOrder slots.old.entries }
    ensures in_order { IsInOrder slots.new.entries }
    ensures map { pairs_of slots.new.entries ≡ pairs_of slots.old.entries }
    ensures there { IfOk result (λ there. IsTrue there → (q : ℕ) → pins_of slots.new.entries q ≡ (if q == key then pins_of slots.old.entries q + 1 else pins_of slots.old.entries q)) }
    ensures absent { IfOk result (λ there. there ≡ false → find nat_cmp key slots.old.entries ≡ None) }
    ensures same { IfOk result (λ there. there ≡ false → slots.new.entries ≡ slots.old.entries) }
    ensures err { OnErr result (slots.new.entries ≡ slots.old.entries) }
{
    if is_past_all(slots, key) {
        return Ok(false);
    }
    if let Some(slot) = slots.get_mut(&key) {
        if slot.pins == u32::MAX {
            return Err(AllocError);
        }
        slot.pins += 1;
        return Ok(true);
    }
    Ok(false)
}

/// Adds a slot for `key`, which has none: absent, with one pin.
fn add(slots: &mut BTreeMap<u64, Slot>, key: u64) -> Result<(), Memory>
    requires in_order { IsInOrder slots.old.entries }
    requires absent { find nat_cmp key slots.old.entries ≡ None }
    ensures in_order { IsInOrder slots.new.entries }
    ensures map { pairs_of slots.new.entries ≡ pairs_of slots.old.entries }
    ensures ok { OnOk result ((q : ℕ) → pins_of slots.new.entries q ≡ (if q == key then 1 else pins_of slots.old.entries q)) }
    ensures err { OnErr result (slots.new.entries ≡ slots.old.entries) }
{
    let slot = Slot {
        value: None,
        pins: 1,
    };
    slots.insert(key, slot)?;
    Ok(())
}

/// Gives up a pin of `key` where its slot is kept for another pin or for its value, and tells whether it is.
fn unpin_kept(slots: &mut BTreeMap<u64, Slot>, key: u64) -> bool
    requires in_order { IsInOrder slots.old.entries }
    requires pinned { 0 < pins_of slots.old.entries key }
    ensures in_order { IsInOrder slots.new.entries }
    ensures map { pairs_of slots.new.entries ≡ pairs_of slots.old.entries }
    ensures kept { IsTrue result → (q : ℕ) → pins_of slots.new.entries q ≡ (if q == key then pins_of slots.old.entries q - 1 else pins_of slots.old.entries q) }
    ensures same { result ≡ false → slots.new.entries ≡ slots.old.entries }
    ensures last { result ≡ false → pins_of slots.old.entries key ≡ 1 }
    ensures absent { result ≡ false → value_in (find nat_cmp key slots.old.entries) ≡ None }
{
    if let Some(slot) = slots.get_mut(&key) {
        if slot.pins > 1 || slot.value.is_some() {
            slot.pins -= 1;
            return true;
        }
    }
    false
}

/// Drops the slot of an absent key, with all its pins.
fn remove(slots: &mut BTreeMap<u64, Slot>, key: u64)
    requires in_order { IsInOrder slots.old.entries }
    requires absent { value_in (find nat_cmp key slots.old.entries) ≡ None }
    ensures in_order { IsInOrder slots.new.entries }
    ensures map { pairs_of slots.new.entries ≡ pairs_of slots.old.entries }
    ensures pins { (q : ℕ) → pins_of slots.new.entries q ≡ (if q == key then 0 else pins_of slots.old.entries q) }
{
    let _ = slots.remove(&key);
}

/// Counts the value of `key` as taken away. A stretch where none is left is marked as bare.
fn take_from(slots: &BTreeMap<u64, Slot>, stretches: &mut Vec<Stretch>, key: u64)
    requires in_order { IsInOrder slots.now.entries }
    requires rising { IsRising stretches.old.items }
    requires marked { AreMarked stretches.old.items (pairs_of slots.now.entries) }
    ensures rising { IsRising stretches.new.items }
    ensures marked { AreMarked stretches.new.items (pairs_of slots.now.entries) }
{
    leave(stretches, key);
    settle(slots, stretches, key);
}

/// Counts the slot of `key` as dropped. A stretch that has no slot left is joined to the one before it.
fn drop_from(slots: &BTreeMap<u64, Slot>, stretches: &mut Vec<Stretch>, key: u64)
    requires in_order { IsInOrder slots.now.entries }
    requires rising { IsRising stretches.old.items }
    requires marked { AreMarked stretches.old.items (pairs_of slots.now.entries) }
    ensures rising { IsRising stretches.new.items }
    ensures marked { AreMarked stretches.new.items (pairs_of slots.now.entries) }
{
    if shrink(stretches, key) {
        settle(slots, stretches, key);
        join(stretches, key);
    }
}

impl Tree {
    /// An empty index without pins. It takes no memory yet.
    pub fn new(alloc: Global) -> Tree
        ensures map { ⟦<Tree as Ordered>⟧.map result ≡ [] }
        ensures pins { (q : ℕ) → ⟦<Tree as Ordered>⟧.pins result q ≡ 0 }
    {
        Tree {
            slots: BTreeMap::new(alloc),
            stretches: Vec::new(alloc),
        }
    }

    /// An index of the pairs, whose keys strictly rise, without pins.
    /// The answer is `Memory` where a growth is refused. Its time is linear in the number of pairs.
    pub fn from_pairs(alloc: Global, pairs: &[(u64, u64)]) -> Result<Tree, Memory>
        requires { IsMap pairs.now }
        ensures map { IfOk result (λ index. ⟦<Tree as Ordered>⟧.map index ≡ pairs.now) }
        ensures pins { IfOk result (λ index. (q : ℕ) → ⟦<Tree as Ordered>⟧.pins index q ≡ 0) }
    {
        let entries = unpinned(alloc, pairs)?;
        let stretches = stretches_of(alloc, pairs)?;
        let slots = tree_of(alloc, entries)?;
        Ok(Tree { slots, stretches })
    }
}

impl Ordered for Tree {
    ghost map = { λ t. pairs_of t.slots.entries };

    ghost pins = { λ t k. pins_of t.slots.entries k };

    fn get(&self, key: u64) -> Option<u64> {
        value_at(&self.slots, key)
    }

    fn at(&self, from: u64) -> Name {
        name_at(&self.slots, &self.stretches, from)
    }

    fn after(&self, key: u64) -> Name {
        match key.checked_add(1) {
            Some(past) => name_at(&self.slots, &self.stretches, past),
            None => first_past(&self.slots, key),
        }
    }

    fn look(&self, key: u64) -> (bool, Name) {
        let name = name_at(&self.slots, &self.stretches, key);
        match name {
            Name::Key(found) => (found == key, name),
            Name::End => (false, name),
        }
    }

    fn pair_from(&self, from: u64) -> Option<(u64, u64)> {
        pair_from(&self.slots, &self.stretches, from)
    }

    #[tactic(auto, using(crate::proofs::SlotLaws::pairs_are_map))]
    fn pin(&mut self, key: u64) -> Result<(), Memory> {
        if pin_there(&mut self.slots, key)? {
            return Ok(());
        }
        make_room(&self.slots, &mut self.stretches, key)?;
        add(&mut self.slots, key)?;
        grow(&mut self.stretches, key);
        Ok(())
    }

    #[tactic(auto, using(crate::proofs::SlotLaws::pairs_are_map))]
    fn unpin(&mut self, key: u64) {
        if !unpin_kept(&mut self.slots, key) {
            remove(&mut self.slots, key);
            drop_from(&self.slots, &mut self.stretches, key);
        }
    }

    #[tactic(auto, using(crate::proofs::SlotLaws::pairs_are_map))]
    fn put(&mut self, key: u64, value: u64) {
        let was = replace(&mut self.slots, key, Some(value));
        enter(&mut self.stretches, key, was.is_none());
    }

    #[tactic(auto, using(crate::proofs::SlotLaws::pairs_are_map))]
    fn take(&mut self, key: u64) -> Option<u64> {
        let was = replace(&mut self.slots, key, None);
        if was.is_some() {
            take_from(&self.slots, &mut self.stretches, key);
        }
        was
    }

    fn copy(&self, alloc: Global) -> Result<Pairs, Memory> {
        let mut list = Vec::with_capacity(alloc, self.slots.len())?;
        for (key, slot) in &self.slots {
            if let Some(value) = slot.value {
                list.push((*key, value))?;
            }
        }
        Ok(Pairs::from_vec(list))
    }

    ghost in_order = { λ t. t.rising };
}

/// By hand, so that crates above call it by its contract and don't prove a destructor of their own.
impl Drop for Tree {
    fn drop(self) {
        let Tree {
            slots: _,
            stretches: _,
        } = self;
    }
}
