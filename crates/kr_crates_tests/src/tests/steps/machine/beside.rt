//! A list of the changes beside a machine, which tells what a granted operation is answered.

use kr_locks::Memory;
use kr_machine::Txn;
use kr_model::{Op, Refusal, Reply};
use std::alloc::Global;

/// What is known beside a machine.
#[derive(Drop)]
pub struct Beside {
    /// The changes, but for those undone, oldest first; each with what it left under the key.
    changes: Vec<(Txn, u64, Option<u64>)>,
    ended: Vec<Txn>,
    /// The transactions that roll back, each once for each change that was undone.
    rolling: Vec<Txn>,
}

impl Beside {
    /// Nothing has been done.
    pub fn new(alloc: Global) -> Beside {
        Beside {
            changes: Vec::new(alloc),
            ended: Vec::new(alloc),
            rolling: Vec::new(alloc),
        }
    }

    /// What stands under a key.
    fn get(&self, key: u64) -> Option<u64> {
        let mut value = None;
        for &(_, other, left) in &self.changes {
            if other == key {
                value = left;
            }
        }
        value
    }

    /// How many changes of a transaction there are.
    fn left(&self, txn: Txn) -> u64 {
        let mut left = 0u64;
        for change in &self.changes {
            if change.0 == txn {
                left = left.saturating_add(1);
            }
        }
        left
    }

    /// Why an operation is refused, where it is.
    pub fn refusal(&self, txn: Txn, op: Op) -> Option<Refusal> {
        if self.ended.as_slice().contains(&txn) {
            return Some(Refusal::Ended);
        }
        if self.rolling.as_slice().contains(&txn) && !matches!(op, Op::Back | Op::Abort) {
            return Some(Refusal::RollingBack);
        }
        if op == Op::Back && self.left(txn) == 0 {
            return Some(Refusal::NothingLeft);
        }
        None
    }

    /// Whether each of these rows is a pair of the range, and the keys rise.
    fn are_pairs(&self, rows: &[(u64, u64)], lo: u64, hi: u64) -> bool {
        let mut last = None;
        for &(key, value) in rows {
            if key < lo || hi < key || self.get(key) != Some(value) || !is_after(last, key) {
                return false;
            }
            last = Some(key);
        }
        true
    }

    /// Whether each pair of the range has its row.
    fn are_all(&self, rows: &[(u64, u64)], lo: u64, hi: u64) -> bool {
        for &(_, key, _) in &self.changes {
            if lo <= key && key <= hi && self.get(key).is_some() && !has_key(rows, key) {
                return false;
            }
        }
        true
    }

    /// Whether this is the reply of a granted operation, a scan being taken to its end.
    pub fn answers(&self, txn: Txn, op: Op, reply: &Reply) -> bool {
        match op {
            Op::Fetch(key) => match self.get(key) {
                Some(value) => matches!(reply, Reply::Found(found) if *found == value),
                None => matches!(reply, Reply::None),
            },
            Op::Insert(key, _) => match self.get(key) {
                Some(_) => matches!(reply, Reply::Duplicate),
                None => matches!(reply, Reply::Done),
            },
            Op::Delete(key) => match self.get(key) {
                Some(value) => matches!(reply, Reply::Deleted(was) if *was == value),
                None => matches!(reply, Reply::Absent),
            },
            Op::Update(key, _) => match self.get(key) {
                Some(value) => matches!(reply, Reply::Updated(was) if *was == value),
                None => matches!(reply, Reply::Absent),
            },
            Op::Scan(lo, hi) => self.is_scan(reply, lo, hi),
            Op::Commit => matches!(reply, Reply::Committed),
            Op::Abort => matches!(reply, Reply::Aborted),
            Op::Back => match reply {
                Reply::Undone(left) => left.saturating_add(1) == self.left(txn),
                _ => false,
            },
            Op::Go => false,
        }
    }

    /// Whether this is what a scan of a range ends with.
    fn is_scan(&self, reply: &Reply, lo: u64, hi: u64) -> bool {
        match reply {
            Reply::Rows(rows) => {
                let rows = rows.as_slice();
                self.are_pairs(rows, lo, hi) && self.are_all(rows, lo, hi)
            }
            _ => false,
        }
    }

    /// Does a granted operation.
    pub fn follow(&mut self, txn: Txn, op: Op) -> Result<(), Memory> {
        match op {
            Op::Insert(key, value) => {
                if self.get(key).is_none() {
                    self.changes.push((txn, key, Some(value)))?;
                }
            }
            Op::Delete(key) => {
                if self.get(key).is_some() {
                    self.changes.push((txn, key, None))?;
                }
            }
            Op::Update(key, value) => {
                if self.get(key).is_some() {
                    self.changes.push((txn, key, Some(value)))?;
                }
            }
            Op::Commit => self.ended.push(txn)?,
            Op::Abort => {
                self.changes.retain(|change| change.0 != txn);
                self.ended.push(txn)?;
            }
            Op::Back => {
                self.forget_newest(txn);
                self.rolling.push(txn)?;
            }
            Op::Fetch(_) | Op::Scan(_, _) | Op::Go => {}
        }
        Ok(())
    }

    /// Takes out the newest change of a transaction, if it has one.
    fn forget_newest(&mut self, txn: Txn) {
        for i in (0..self.changes.len()).rev() {
            if self.changes[i].0 == txn {
                let _ = self.changes.remove(i);
                return;
            }
        }
    }
}

/// Whether a key is above the last one.
fn is_after(last: Option<u64>, key: u64) -> bool {
    match last {
        Some(last) => last < key,
        None => true,
    }
}

/// Whether a row has this key.
fn has_key(rows: &[(u64, u64)], key: u64) -> bool {
    for row in rows {
        if row.0 == key {
            return true;
        }
    }
    false
}
