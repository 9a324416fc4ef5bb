//! The changes that no script tells apart yet.

use crate::entry::{ENTRIES, Entry};
use kr_change::Change;
use kr_model::Memory;
use std::alloc::Global;

/// The changes that are open, by the entry that they change.
#[derive(Drop)]
pub(crate) struct Open {
    lists: Vec<Vec<usize>>,
    /// How many there are.
    count: usize,
}

impl Open {
    /// None.
    pub(crate) fn new(alloc: Global) -> Result<Open, Memory> {
        let mut lists = Vec::with_capacity(alloc, ENTRIES)?;
        for _ in 0..ENTRIES {
            lists.push(Vec::new(alloc))?;
        }
        Ok(Open { lists, count: 0 })
    }

    /// The changes of the entry that a change is of.
    fn list(&mut self, change: Change) -> Option<&mut Vec<usize>> {
        self.lists.get_mut(Entry::of(change)?.number())
    }

    /// Puts the change of this number in; one of no entry stays out.
    pub(crate) fn put(&mut self, change: Change, number: usize) -> Result<(), Memory> {
        if let Some(list) = self.list(change) {
            list.push(number)?;
            self.count = self.count.saturating_add(1);
        }
        Ok(())
    }

    /// Takes the change of this number out.
    pub(crate) fn take(&mut self, change: Change, number: usize) {
        if let Some(list) = self.list(change) {
            list.retain(|open| *open != number);
            self.count = self.count.saturating_sub(1);
        }
    }

    /// How many changes of an entry are open.
    pub(crate) fn len_at(&self, entry: Entry) -> usize {
        match self.lists.get(entry.number()) {
            Some(list) => list.len(),
            None => 0,
        }
    }

    /// The open change of an entry at a place of its list.
    pub(crate) fn get(&self, entry: Entry, place: usize) -> Option<usize> {
        self.lists.get(entry.number())?.get(place).copied()
    }

    /// How many are open.
    pub(crate) fn count(&self) -> usize {
        self.count
    }
}
