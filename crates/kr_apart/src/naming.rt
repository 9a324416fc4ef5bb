//! The keys, values and transactions of a part, in place of those of the search.

use crate::keys::opening;
use crate::part::Script;
use kr_model::{Event, Memory, Op, Txn};
use std::alloc::Global;

/// The keys and transactions of a script, and the last value that was given.
#[derive(Drop)]
pub(crate) struct Naming {
    /// The keys, rising, each once.
    keys: Vec<u64>,
    /// The transactions, in the order of their first steps.
    txns: Vec<Txn>,
    value: u64,
}

impl Naming {
    /// That of a script.
    pub(crate) fn new(alloc: Global, script: &Script) -> Result<Naming, Memory> {
        let mut naming = Naming {
            keys: Vec::new(alloc),
            txns: Vec::new(alloc),
            value: 0,
        };
        naming.read(script)?;
        Ok(naming)
    }

    /// Notes the keys and the transactions of a script.
    fn read(&mut self, script: &Script) -> Result<(), Memory> {
        for key in opening(script.opening) {
            self.keys.push(*key)?;
        }
        for event in script.events.iter() {
            for key in keys_of(event.op).iter().flatten() {
                self.keys.push(*key)?;
            }
            if !self.txns.contains(&event.txn) {
                self.txns.push(event.txn)?;
            }
        }
        self.keys.sort()?;
        self.keys.dedup();
        Ok(())
    }

    /// The key in place of this one: 10, 20 and so on, in their order.
    pub(crate) fn key(&self, key: u64) -> u64 {
        let mut small: u64 = 10;
        for other in self.keys.iter() {
            if *other < key {
                small = small.saturating_add(10);
            }
        }
        small
    }

    /// A value that wasn't given yet: 1, 2 and so on.
    pub(crate) fn value(&mut self) -> u64 {
        self.value = self.value.saturating_add(1);
        self.value
    }

    /// The transaction in place of this one: 1, 2 and so on, in the order of their first steps.
    fn txn(&self, txn: Txn) -> Txn {
        let mut number: Txn = 1;
        for other in self.txns.iter() {
            if *other == txn {
                break;
            }
            number = number.saturating_add(1);
        }
        number
    }

    /// The step in place of this one.
    pub(crate) fn event(&mut self, event: Event) -> Event {
        let op = match event.op {
            Op::Fetch(key) => Op::Fetch(self.key(key)),
            Op::Scan(lo, hi) => Op::Scan(self.key(lo), self.key(hi)),
            Op::Insert(key, _) => Op::Insert(self.key(key), self.value()),
            Op::Delete(key) => Op::Delete(self.key(key)),
            Op::Update(key, _) => Op::Update(self.key(key), self.value()),
            other => other,
        };
        Event {
            txn: self.txn(event.txn),
            op,
        }
    }
}

/// The keys that a step names.
fn keys_of(op: Op) -> [Option<u64>; 2] {
    match op {
        Op::Scan(lo, hi) => [Some(lo), Some(hi)],
        Op::Fetch(key) | Op::Insert(key, _) | Op::Delete(key) | Op::Update(key, _) => {
            [Some(key), None]
        }
        _ => [None, None],
    }
}
