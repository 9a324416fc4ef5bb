//! An index as a sorted vector.
ghost use Rattle.std.specs.Prelude.{◌≡◌, ℕ, [], IfOk};
ghost use Rattle.kr_model.specs.Map.{IsMap};
ghost use Rattle.kr_index.specs.Slots.{pairs_of, pins_of, IsInOrder};

use crate::slots::{Slot, add, first_present, remove, search, unpinned, write};
use crate::{Memory, Ordered};
use kr_model::{Name, Pairs};
use std::alloc::{AllocError, Global};

/// An index in one vector, sorted by key.
///
/// A key is found by bisection, so each call compares it with a logarithmic number of keys.
/// Entries shift only where `pin` adds a new key, and where `unpin` gives up the last pin of an absent one.
/// `at` and `after` also step over the absent keys that are pinned right before their answer.
#[derive(Debug, Drop)]
pub struct Sorted {
    entries: Vec<(u64, Slot)>,
    ghost sorted: { IsInOrder entries.items },
    ghost rising: { IsMap (pairs_of entries.items) },
}

impl Sorted {
    /// An empty index without pins. It takes no memory yet.
    pub fn new(alloc: Global) -> Sorted
        ensures map { ⟦<Sorted as Ordered>⟧.map result ≡ [] }
        ensures pins { (q : ℕ) → ⟦<Sorted as Ordered>⟧.pins result q ≡ 0 }
    {
        Sorted {
            entries: Vec::new(alloc),
        }
    }

    /// An index of the pairs, whose keys strictly rise, without pins.
    /// The answer is `Memory` where a growth is refused. Its time is linear in the number of pairs.
    pub fn from_pairs(alloc: Global, pairs: &[(u64, u64)]) -> Result<Sorted, Memory>
        requires { IsMap pairs.now }
        ensures map { IfOk result (λ index. ⟦<Sorted as Ordered>⟧.map index ≡ pairs.now) }
        ensures pins { IfOk result (λ index. (q : ℕ) → ⟦<Sorted as Ordered>⟧.pins index q ≡ 0) }
    {
        let entries = unpinned(alloc, pairs)?;
        Ok(Sorted { entries })
    }
}

impl Ordered for Sorted {
    ghost map = { λ s. pairs_of s.entries.items };

    ghost pins = { λ s k. pins_of s.entries.items k };

    fn get(&self, key: u64) -> Option<u64> {
        match search(&self.entries, key) {
            Ok((_, slot)) => slot.value,
            Err(_) => None,
        }
    }

    fn at(&self, from: u64) -> Name {
        match search(&self.entries, from) {
            Ok((place, _)) => first_present(&self.entries[place..]),
            Err(place) => first_present(&self.entries[place..]),
        }
    }

    fn after(&self, key: u64) -> Name {
        match search(&self.entries, key) {
            Ok((place, _)) => first_present(&self.entries[place + 1..]),
            Err(place) => first_present(&self.entries[place..]),
        }
    }

    fn pin(&mut self, key: u64) -> Result<(), Memory> {
        match search(&self.entries, key) {
            Ok((place, slot)) => {
                if slot.pins == u32::MAX {
                    return Err(AllocError);
                }
                let pins = slot.pins + 1;
                write(&mut self.entries, place, key, Slot { pins, ..slot });
            }
            Err(place) => add(&mut self.entries, place, key)?,
        }
        Ok(())
    }

    fn unpin(&mut self, key: u64) {
        if let Ok((place, slot)) = search(&self.entries, key) {
            if slot.value.is_none() && slot.pins == 1 {
                remove(&mut self.entries, place, key);
            } else {
                let pins = slot.pins - 1;
                write(&mut self.entries, place, key, Slot { pins, ..slot });
            }
        }
    }

    #[tactic(auto, using(crate::proofs::SlotLaws::pairs_are_map))]
    fn put(&mut self, key: u64, value: u64) {
        if let Ok((place, slot)) = search(&self.entries, key) {
            let value = Some(value);
            write(&mut self.entries, place, key, Slot { value, ..slot });
        }
    }

    #[tactic(auto, using(crate::proofs::SlotLaws::pairs_are_map))]
    fn take(&mut self, key: u64) -> Option<u64> {
        match search(&self.entries, key) {
            Ok((place, slot)) => {
                let value = None;
                write(&mut self.entries, place, key, Slot { value, ..slot });
                slot.value
            }
            Err(_) => None,
        }
    }

    fn copy(&self, alloc: Global) -> Result<Pairs, Memory> {
        let mut list = Vec::new(alloc);
        for &(key, slot) in &self.entries {
            if let Some(value) = slot.value {
                list.push((key, value))?;
            }
        }
        Ok(Pairs::from_vec(list))
    }

    ghost in_order = { λ s. s.rising };
}
