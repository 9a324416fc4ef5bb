//! The slots of an index with ghosts, in a tree by key.
ghost use Rattle.std.specs.Prelude.{◌≡◌, ◌<◌, suc, not, ◌==◌, IfOk, OnOk, OnErr, filter};
ghost use Rattle.std.specs.Ordering.{nat_cmp};
ghost use Rattle.std.specs.FinMap.{find};
ghost use Rattle.kr_ghost_index.specs.Slots.{changed, changes_of, first_from, name_of, unchanged, undone, value_in, IsInOrder};

use kr_model::{Memory, Name};
use std::alloc::{AllocError, Global};
use std::collections::BTreeMap;
use std::ops::Bound;

/// What a name has: the value of a present key, and none of a ghost; and how many changes of it are left.
#[derive(Clone, Copy)]
pub struct Slot {
    pub value: Option<u64>,
    pub changes: u32,
}

/// The entries of the pairs, in their order, each with no change.
fn unchanged(alloc: Global, pairs: &[(u64, u64)]) -> Result<Vec<(u64, Slot)>, Memory>
    ensures { IfOk result (λ entries. entries.items ≡ unchanged pairs.now) }
{
    let mut entries = Vec::with_capacity(alloc, pairs.len())?;
    for &(key, value) in pairs {
        let slot = Slot {
            value: Some(value),
            changes: 0,
        };
        entries.push((key, slot))?;
    }
    Ok(entries)
}

/// The tree of entries in order.
fn tree_of(alloc: Global, entries: Vec<(u64, Slot)>) -> Result<BTreeMap<u64, Slot>, Memory>
    requires { IsInOrder entries.items }
    ensures { IfOk result (λ slots. slots.entries ≡ entries.items) }
{
    entries.into_iter().collect(alloc)
}

/// The slots of the pairs, each with no change.
pub fn slots_of(alloc: Global, pairs: &[(u64, u64)]) -> Result<BTreeMap<u64, Slot>, Memory>
    requires { IsInOrder (unchanged pairs.now) }
    ensures { IfOk result (λ slots. slots.entries ≡ unchanged pairs.now) }
{
    let entries = unchanged(alloc, pairs)?;
    tree_of(alloc, entries)
}

/// The entries of a tree, in their order.
fn entries_of(alloc: Global, slots: &BTreeMap<u64, Slot>) -> Result<Vec<(u64, Slot)>, Memory>
    ensures { IfOk result (λ entries. entries.items ≡ slots.now.entries) }
{
    let mut entries = Vec::with_capacity(alloc, slots.len())?;
    for (key, slot) in slots {
        entries.push((*key, *slot))?;
    }
    Ok(entries)
}

/// A tree with the same entries.
pub fn copy_of(alloc: Global, slots: &BTreeMap<u64, Slot>) -> Result<BTreeMap<u64, Slot>, Memory>
    requires { IsInOrder slots.now.entries }
    ensures { IfOk result (λ copy. copy.entries ≡ slots.now.entries) }
{
    let entries = entries_of(alloc, slots)?;
    tree_of(alloc, entries)
}

/// The first key not below `from` that has a slot, with the slot.
pub fn first_from(slots: &BTreeMap<u64, Slot>, from: u64) -> Option<(u64, Slot)>
    ensures { result ≡ first_from slots.now.entries from }
{
    let mut items = slots.range(from..);
    match items.next() {
        Some((key, slot)) => Some((*key, *slot)),
        None => None,
    }
}

/// The least key above `key` that has a slot, or the end.
pub fn name_past(slots: &BTreeMap<u64, Slot>, key: u64) -> Name
    ensures { result ≡ name_of (first_from slots.now.entries (suc key)) }
{
    let mut items = slots.range((Bound::Excluded(key), Bound::Unbounded));
    match items.next() {
        Some((next, _)) => Name::Key(*next),
        None => Name::End,
    }
}

/// How many changes of a key are left.
pub fn changes_of(slots: &BTreeMap<u64, Slot>, key: u64) -> u32
    ensures { result ≡ changes_of slots.now.entries key }
{
    match slots.get(&key) {
        Some(slot) => slot.changes,
        None => 0,
    }
}

/// Gives a key this value, or takes its value away, and counts one more change of it. `Memory` comes where a growth is refused,
/// or the key has 4,294,967,295 changes, and then nothing has changed.
pub fn change(slots: &mut BTreeMap<u64, Slot>, key: u64, value: Option<u64>) -> Result<(), Memory>
    requires { IsInOrder slots.old.entries }
    ensures ok { OnOk result (slots.new.entries ≡ changed slots.old.entries key value) }
    ensures err { OnErr result (slots.new.entries ≡ slots.old.entries) }
{
    if let Some(slot) = slots.get_mut(&key) {
        if slot.changes == u32::MAX {
            return Err(AllocError);
        }
        slot.value = value;
        slot.changes += 1;
        return Ok(());
    }
    slots.insert(key, Slot { value, changes: 1 })?;
    Ok(())
}

/// Gives a key this value, or takes its value away, and counts one change of it less.
pub fn undo(slots: &mut BTreeMap<u64, Slot>, key: u64, value: Option<u64>)
    requires in_order { IsInOrder slots.old.entries }
    requires changed { 0 < changes_of slots.old.entries key }
    ensures { slots.new.entries ≡ undone slots.old.entries key value }
{
    if let Some(slot) = slots.get_mut(&key) {
        *slot = Slot {
            value,
            changes: slot.changes - 1,
        };
    }
}

/// Counts one change of a key less.
pub fn settle(slots: &mut BTreeMap<u64, Slot>, key: u64)
    requires in_order { IsInOrder slots.old.entries }
    requires changed { 0 < changes_of slots.old.entries key }
    ensures { slots.new.entries ≡ undone slots.old.entries key (value_in (find nat_cmp key slots.old.entries)) }
{
    if let Some(slot) = slots.get_mut(&key) {
        slot.changes -= 1;
    }
}

/// Drops the slot of a key.
pub fn remove(slots: &mut BTreeMap<u64, Slot>, key: u64)
    requires { IsInOrder slots.old.entries }
    ensures { slots.new.entries ≡ filter (λ e. not (e.0 == key)) slots.old.entries }
{
    let _ = slots.remove(&key);
}
