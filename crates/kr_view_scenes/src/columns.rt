//! The names that a page draws, each in a column of its own.

use kr_locks::Memory;
use kr_model::{Event, Mode, Name, Op, Reply, Txn};
use std::alloc::Global;
use std::collections::BTreeSet;

/// How many names are drawn, the end among them.
pub const NAMES_DRAWN: usize = 60;

/// The keys that have a column, rising. The last column is that of the end.
#[derive(Drop)]
pub struct Columns {
    pub keys: Vec<u64>,
    /// How many keys are there that have no column.
    pub hidden: usize,
}

/// The key that an operation names.
pub fn key_of(op: Op) -> Option<u64> {
    match op {
        Op::Fetch(key) | Op::Insert(key, _) | Op::Delete(key) | Op::Update(key, _) => Some(key),
        Op::Scan(_, _) | Op::Go | Op::Commit | Op::Abort | Op::Back => None,
    }
}

/// The keys that transactions have deleted by these steps and may yet bring back: those of transactions that haven't ended.
pub fn keys_that_may_return(
    alloc: Global,
    steps: &[Event],
    replies: &[Reply],
) -> Result<Vec<u64>, Memory> {
    let mut deleted = Deleted {
        keys: BTreeSet::new(alloc),
        active: BTreeSet::new(alloc),
    };
    for (step, reply) in steps.iter().zip(replies.iter()) {
        deleted.note(*step, reply)?;
    }
    deleted.of_active(alloc)
}

/// The keys that transactions have deleted, and which transactions that have deleted any haven't ended.
#[derive(Drop)]
struct Deleted {
    keys: BTreeSet<(Txn, u64)>,
    active: BTreeSet<Txn>,
}

impl Deleted {
    /// Takes note of a step and its reply.
    fn note(&mut self, step: Event, reply: &Reply) -> Result<(), Memory> {
        match reply {
            Reply::Committed | Reply::Aborted => {
                self.active.remove(&step.txn);
            }
            Reply::Deleted(_) => {
                if let Op::Delete(key) = step.op {
                    self.active.insert(step.txn)?;
                    self.keys.insert((step.txn, key))?;
                }
            }
            _ => {}
        }
        Ok(())
    }

    /// The keys of the transactions that haven't ended.
    fn of_active(&self, alloc: Global) -> Result<Vec<u64>, Memory> {
        let mut keys = Vec::new(alloc);
        for (txn, key) in &self.keys {
            if self.active.contains(txn) {
                keys.push(*key)?;
            }
        }
        Ok(keys)
    }
}

/// Adds the keys of these pairs, of the names that are locked, of what these steps name, and those that may return.
fn add_keys(
    names: &mut BTreeSet<u64>,
    pairs: &[(u64, u64)],
    locks: &[((Name, Txn), Mode)],
    steps: &[Event],
    back: &[u64],
) -> Result<(), Memory> {
    for (key, _) in pairs {
        names.insert(*key)?;
    }
    for ((name, _), _) in locks {
        if let Name::Key(key) = name {
            names.insert(*key)?;
        }
    }
    for step in steps {
        if let Some(key) = key_of(step.op) {
            names.insert(key)?;
        }
    }
    for key in back {
        names.insert(*key)?;
    }
    Ok(())
}

/// The keys behind so many, rising.
fn keys_behind(alloc: Global, names: &BTreeSet<u64>, hidden: usize) -> Result<Vec<u64>, Memory> {
    let mut keys = Vec::new(alloc);
    for key in names.iter().skip(hidden) {
        keys.push(*key)?;
    }
    Ok(keys)
}

impl Columns {
    /// The columns of these pairs, of the names that are locked, of the keys that these steps name, and of those that may
    /// return; of many keys the last ones.
    pub(crate) fn of_steps(
        alloc: Global,
        pairs: &[(u64, u64)],
        locks: &[((Name, Txn), Mode)],
        steps: &[Event],
        back: &[u64],
    ) -> Result<Columns, Memory> {
        let mut names = BTreeSet::new(alloc);
        add_keys(&mut names, pairs, locks, steps, back)?;
        Columns::new(alloc, &names)
    }

    /// The columns of these keys, of many the last ones. The only error is that a growth was refused.
    pub fn new(alloc: Global, names: &BTreeSet<u64>) -> Result<Columns, Memory> {
        let hidden = names.len().saturating_sub(NAMES_DRAWN - 1);
        let keys = keys_behind(alloc, names, hidden)?;
        Ok(Columns { keys, hidden })
    }

    /// The column of a name, if it has one.
    pub fn of(&self, name: Name) -> Option<usize> {
        match name {
            Name::Key(key) => self.keys.as_slice().binary_search(&key).ok(),
            Name::End => Some(self.keys.len()),
        }
    }
}
