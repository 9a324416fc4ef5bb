//! Writes of values in a tree's slots.
ghost use Rattle.std.specs.Prelude.{◌≡◌, ℕ, ◌-◌, ◌<◌, Some, IsTrue, slice_get};
ghost use Rattle.std.specs.BTreeMap.{keys, btree_map_len};
ghost use Rattle.kr_model.specs.Map.{get, restore};
ghost use Rattle.kr_index.specs.Slots.{pairs_of, pins_of, IsInOrder};

use crate::slots::Slot;
use std::collections::BTreeMap;

/// Whether `key` is the last key that has a slot. It takes no search.
fn is_last(slots: &BTreeMap<u64, Slot>, key: u64) -> bool
    ensures { IsTrue result → slice_get (keys slots.now) (btree_map_len slots.now - 1) ≡ Some key }
{
    match slots.last_key_value() {
        Some((last, _)) => *last == key,
        None => false,
    }
}

/// Writes the value of the last key that has a slot, or takes it away, and returns the value that it had.
fn replace_last(slots: &mut BTreeMap<u64, Slot>, key: u64, value: Option<u64>) -> Option<u64>
    requires in_order { IsInOrder slots.old.entries }
    requires last { slice_get (keys slots.old) (btree_map_len slots.old - 1) ≡ Some key }
    requires pinned { 0 < pins_of slots.old.entries key }
    ensures was { result ≡ get (pairs_of slots.old.entries) key }
    ensures in_order { IsInOrder slots.new.entries }
    ensures map { pairs_of slots.new.entries ≡ restore (pairs_of slots.old.entries) key value }
    ensures pins { (q : ℕ) → pins_of slots.new.entries q ≡ pins_of slots.old.entries q }
{
    match slots.last_entry() {
        Some(mut last) => {
            let slot = *last.get();
            let _ = last.insert(Slot { value, ..slot });
            slot.value
        }
        None => None,
    }
}

/// Writes the value of a pinned key, or takes it away, and returns the value that it had. The last key takes no search.
pub fn replace(slots: &mut BTreeMap<u64, Slot>, key: u64, value: Option<u64>) -> Option<u64>
    requires in_order { IsInOrder slots.old.entries }
    requires pinned { 0 < pins_of slots.old.entries key }
    ensures was { result ≡ get (pairs_of slots.old.entries) key }
    ensures in_order { IsInOrder slots.new.entries }
    ensures map { pairs_of slots.new.entries ≡ restore (pairs_of slots.old.entries) key value }
    ensures pins { (q : ℕ) → pins_of slots.new.entries q ≡ pins_of slots.old.entries q }
{
    if is_last(slots, key) {
        return replace_last(slots, key, value);
    }
    if let Some(slot) = slots.get_mut(&key) {
        let was = slot.value;
        slot.value = value;
        return was;
    }
    None
}
