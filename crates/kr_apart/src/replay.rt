//! A script once more, on light machines.

use crate::entry::ENTRIES;
use crate::flat::Flat;
use crate::keys::opening;
use crate::light::Light;
use crate::part::Script;
use crate::tables::Tables;
use kr_model::{Event, Memory, Txn, is_end};
use std::alloc::Global;

/// A light machine, and which transaction has which seat.
#[derive(Clone, Copy)]
pub(crate) struct Replay {
    light: Light,
    /// The transaction at each seat, 0 where it is free.
    numbers: [Txn; 4],
}

impl Replay {
    /// At the opening of a script.
    pub(crate) fn new(script: &Script) -> Replay {
        Replay {
            light: Light::new(opening(script.opening)),
            numbers: [0; 4],
        }
    }

    /// The seat of a transaction, or the first that is free. There is none where four others are active.
    fn seat_of(&self, txn: Txn) -> Option<usize> {
        let mut free = None;
        for seat in 0..4 {
            let number = self.numbers[seat];
            if number == txn {
                return Some(seat);
            }
            if number == 0 && free.is_none() {
                free = Some(seat);
            }
        }
        free
    }

    /// Takes a step: whether it is granted.
    fn step(&mut self, flat: &Flat, event: Event) -> Option<bool> {
        let seat = self.seat_of(event.txn)?;
        self.numbers[seat % 4] = if is_end(event.op) { 0 } else { event.txn };
        self.light.step(flat, seat, event.op)
    }

    /// Marks the entries that a step looks at.
    fn mark(&self, flat: &Flat, event: Event, marks: &mut Vec<bool>) {
        let Some(seat) = self.seat_of(event.txn) else {
            return;
        };
        let Some(sight) = self.light.look(flat, seat, event.op) else {
            return;
        };
        let entries = sight.entries(flat, &self.light, seat);
        for which in 0..10 {
            if let Some(entry) = entries.get(which) {
                if let Some(mark) = marks.get_mut(entry.number()) {
                    *mark = true;
                }
            }
        }
    }
}

/// Whether a script looks at an entry, for each entry by its number.
pub(crate) fn entries_of(alloc: Global, flat: &Flat, script: &Script) -> Result<Vec<bool>, Memory> {
    let mut marks = vec![in alloc; false; ENTRIES]?;
    let mut replay = Replay::new(script);
    for event in script.events.iter() {
        replay.mark(flat, *event, &mut marks);
        let _ = replay.step(flat, *event);
    }
    Ok(marks)
}

/// Whether all steps of a script but the last are granted under both tables, and the last under one alone.
pub(crate) fn tells(tables: &Tables, script: &Script) -> bool {
    let mut one = Replay::new(script);
    let mut other = one;
    let mut is_told = false;
    for event in script.events.iter() {
        if is_told {
            return false;
        }
        let here = one.step(&tables.one, *event);
        let there = other.step(&tables.other, *event);
        let (Some(here), Some(there)) = (here, there) else {
            return false;
        };
        if here != there {
            is_told = true;
        } else if !here {
            return false;
        }
    }
    is_told
}
