//! The entries of a sorted index: each key that is present or pinned, with its slot.
ghost use Rattle.std.specs.Prelude.{◌≡◌, ℕ, Some, None, OnOk, OnErr, IfOk, IfErr, ◌==◌, if◌then◌else◌};
ghost use Rattle.std.specs.Ordering.{nat_cmp};
ghost use Rattle.std.specs.FinMap.{find};
ghost use Rattle.kr_model.specs.Map.{restore};
ghost use Rattle.kr_index.specs.Slots.{pairs_of, pins_of, value_in, least, unpinned, IsInOrder, IsAt, IsGapFor};

use crate::Memory;
use kr_model::Name;
use std::alloc::Global;

/// What stands at a key that is present or pinned.
#[derive(Clone, Copy, Debug, PartialEq, Eq)]
pub struct Slot {
    pub value: Option<u64>,
    pub pins: u32,
}

/// The entries of the pairs, in their order and without pins. The only error is that a growth was refused.
pub fn unpinned(alloc: Global, pairs: &[(u64, u64)]) -> Result<Vec<(u64, Slot)>, Memory>
    ensures { IfOk result (λ entries. entries.items ≡ unpinned pairs.now) }
{
    let mut entries = Vec::with_capacity(alloc, pairs.len())?;
    for &(key, value) in pairs {
        let slot = Slot {
            value: Some(value),
            pins: 0,
        };
        entries.push((key, slot))?;
    }
    Ok(entries)
}

/// The place and the slot of a key, or the place where it would go. Found by bisection.
pub fn search(entries: &[(u64, Slot)], key: u64) -> Result<(usize, Slot), usize>
    requires { IsInOrder entries.now }
    ensures place { IfOk result (λ found. IsAt entries.now key found.0) }
    ensures slot { IfOk result (λ found. find nat_cmp key entries.now ≡ Some found.1) }
    ensures gap { IfErr result (IsGapFor entries.now key) }
    ensures absent { IfErr result (λ _. find nat_cmp key entries.now ≡ None) }
{
    match entries.binary_search_by_key(&key, |&(other, _)| other) {
        Ok(place) => Ok((place, entries[place].1)),
        Err(place) => Err(place),
    }
}

/// The first key with a value. The absent keys before it are stepped over.
pub fn first_present(entries: &[(u64, Slot)]) -> Name
    ensures { result ≡ least (pairs_of entries.now) }
{
    for &(key, slot) in entries {
        if slot.value.is_some() {
            return Name::Key(key);
        }
    }
    Name::End
}

/// Writes the slot of the key at `place`.
pub fn write(entries: &mut Vec<(u64, Slot)>, place: usize, key: u64, slot: Slot)
    requires in_order { IsInOrder entries.old.items }
    requires place { IsAt entries.old.items key place }
    ensures in_order { IsInOrder entries.new.items }
    ensures map { pairs_of entries.new.items ≡ restore (pairs_of entries.old.items) key slot.value }
    ensures same { value_in (find nat_cmp key entries.old.items) ≡ slot.value → pairs_of entries.new.items ≡ pairs_of entries.old.items }
    ensures pins { (q : ℕ) → pins_of entries.new.items q ≡ (if q == key then slot.pins else pins_of entries.old.items q) }
{
    entries[place] = (key, slot);
}

/// Adds the absent key with one pin, at the place where it goes.
pub fn add(entries: &mut Vec<(u64, Slot)>, place: usize, key: u64) -> Result<(), Memory>
    requires in_order { IsInOrder entries.old.items }
    requires gap { IsGapFor entries.old.items key place }
    ensures in_order { IsInOrder entries.new.items }
    ensures map { pairs_of entries.new.items ≡ pairs_of entries.old.items }
    ensures ok { OnOk result ((q : ℕ) → pins_of entries.new.items q ≡ (if q == key then 1 else pins_of entries.old.items q)) }
    ensures err { OnErr result (entries.new.items ≡ entries.old.items) }
{
    let slot = Slot {
        value: None,
        pins: 1,
    };
    entries.insert(place, (key, slot))?;
    Ok(())
}

/// Drops the entry of an absent key, with all its pins.
pub fn remove(entries: &mut Vec<(u64, Slot)>, place: usize, key: u64)
    requires in_order { IsInOrder entries.old.items }
    requires place { IsAt entries.old.items key place }
    requires absent { value_in (find nat_cmp key entries.old.items) ≡ None }
    ensures in_order { IsInOrder entries.new.items }
    ensures map { pairs_of entries.new.items ≡ pairs_of entries.old.items }
    ensures pins { (q : ℕ) → pins_of entries.new.items q ≡ (if q == key then 0 else pins_of entries.old.items q) }
{
    entries.remove(place);
}
