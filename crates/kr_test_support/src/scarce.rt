//! An index and a lock table that refuse memory once, at a call that is counted out beforehand.
ghost use Rattle.std.specs.Prelude.{◌≡◌, []};

use kr_index::{Ordered, Sorted};
use kr_locks::{Holdings, List, Memory};
use kr_model::{Mode, Name, Pairs, Txn};
use kr_protocol::Protocol;
use std::alloc::{AllocError, Global};
use std::cell::Cell;

/// How many more calls get memory before one doesn't; `None` where all do.
#[derive(Drop)]
pub struct Countdown {
    left: Cell<Option<u32>>,
}

impl Countdown {
    /// So many calls get memory, and then one doesn't; all get it at `None`. No clause sees what a cell holds.
    pub fn new(left: Option<u32>) -> Countdown {
        Countdown {
            left: Cell::new(left),
        }
    }

    /// The next call gets no memory.
    pub fn refuse_next(&self) {
        self.left.set(Some(0));
    }

    /// Counts a call, and answers the error at the one that gets no memory.
    fn count(&self) -> Result<(), AllocError> {
        match self.left.get() {
            Some(0) => {
                self.left.set(None);
                Err(AllocError)
            }
            Some(left) => {
                self.left.set(Some(left - 1));
                Ok(())
            }
            None => Ok(()),
        }
    }
}

/// A sorted index that refuses one pin or copy.
#[derive(Drop)]
pub struct ScarceIndex {
    pub index: Sorted,
    pub memory: Countdown,
}

impl Ordered for ScarceIndex {
    ghost map = { λ s. ⟦<Sorted as Ordered>⟧.map s.index };

    ghost pins = { λ s. ⟦<Sorted as Ordered>⟧.pins s.index };

    fn get(&self, key: u64) -> Option<u64> {
        self.index.get(key)
    }

    fn at(&self, from: u64) -> Name {
        self.index.at(from)
    }

    fn after(&self, key: u64) -> Name {
        self.index.after(key)
    }

    fn pin(&mut self, key: u64) -> Result<(), Memory> {
        self.memory.count()?;
        self.index.pin(key)
    }

    fn unpin(&mut self, key: u64) {
        self.index.unpin(key);
    }

    fn put(&mut self, key: u64, value: u64) {
        self.index.put(key, value);
    }

    fn take(&mut self, key: u64) -> Option<u64> {
        self.index.take(key)
    }

    fn copy(&self, alloc: Global) -> Result<Pairs, Memory> {
        let pairs = self.index.copy(alloc)?;
        self.memory.count()?;
        Ok(pairs)
    }

    ghost in_order = { λ s. s.index.rising };
}

/// A list of locks that refuses one new lock, list of blockers or copy.
#[derive(Drop)]
pub struct ScarceLocks {
    pub list: List,
    pub memory: Countdown,
}

impl ScarceLocks {
    /// No locks, and memory for all calls.
    pub fn new(alloc: Global) -> ScarceLocks
        ensures { result.list ≡ [] }
    {
        ScarceLocks {
            list: List::new(alloc),
            memory: Countdown::new(None),
        }
    }
}

impl Holdings for ScarceLocks {
    ghost locks = { λ s. s.list };

    fn own(&self, txn: Txn, name: Name) -> Mode {
        self.list.own(txn, name)
    }

    fn test<P: Protocol>(&self, protocol: &P, txn: Txn, name: Name, mode: Mode) -> bool {
        self.list.test(protocol, txn, name, mode)
    }

    fn blockers<P: Protocol>(
        &self,
        alloc: Global,
        protocol: &P,
        txn: Txn,
        name: Name,
        mode: Mode,
    ) -> Result<Vec<Txn>, Memory> {
        self.memory.count()?;
        self.list.blockers(alloc, protocol, txn, name, mode)
    }

    fn keep(&mut self, txn: Txn, name: Name, mode: Mode) -> Result<(), Memory> {
        if mode != 0 && self.list.own(txn, name) == 0 {
            self.memory.count()?;
        }
        self.list.keep(txn, name, mode)
    }

    fn release(&mut self, txn: Txn) {
        self.list.release(txn);
    }

    fn copy(&self, alloc: Global) -> Result<Vec<((Name, Txn), Mode)>, Memory> {
        self.memory.count()?;
        self.list.copy(alloc)
    }
}
