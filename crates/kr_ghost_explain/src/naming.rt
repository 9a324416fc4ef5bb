//! Scripts with the keys 10, 20, 30 and so on, and transactions from 1 in the order in which they come.

use crate::draft::{Draft, key_of};
use kr_ghost::Move;
use kr_model::{Event, Memory, Op, Txn};
use std::alloc::Global;

/// What is renamed.
#[derive(Drop)]
struct Names {
    /// The keys, rising.
    keys: Vec<u64>,
    /// The transactions, in the order in which they come.
    txns: Vec<Txn>,
}

/// The same script with other keys and transactions.
pub(crate) fn renamed(alloc: Global, draft: &Draft) -> Result<Draft, Memory> {
    let names = names_in(alloc, draft)?;
    let mut opening = Vec::new(alloc);
    for (key, _) in &draft.opening {
        let number = names.number(*key);
        opening.push((key_of(number), number))?;
    }
    let mut moves = Vec::new(alloc);
    for next in &draft.moves {
        moves.push(names.renamed(*next))?;
    }
    Ok(Draft { opening, moves })
}

/// The keys and transactions of a script.
fn names_in(alloc: Global, draft: &Draft) -> Result<Names, Memory> {
    let mut keys = Vec::new(alloc);
    let mut txns = Vec::new(alloc);
    for (key, _) in &draft.opening {
        put(&mut keys, *key)?;
    }
    for next in &draft.moves {
        match next {
            Move::Purge(key) => put(&mut keys, *key)?,
            Move::Attempt(event) => {
                put_keys(&mut keys, event.op)?;
                put_txn(&mut txns, event.txn)?;
            }
        }
    }
    keys.sort()?;
    Ok(Names { keys, txns })
}

/// Puts a key behind the others, unless it is one of them.
fn put(keys: &mut Vec<u64>, key: u64) -> Result<(), Memory> {
    if keys.contains(&key) {
        return Ok(());
    }
    keys.push(key)?;
    Ok(())
}

/// Puts a transaction behind the others, unless it is one of them.
fn put_txn(txns: &mut Vec<Txn>, txn: Txn) -> Result<(), Memory> {
    if txns.contains(&txn) {
        return Ok(());
    }
    txns.push(txn)?;
    Ok(())
}

/// Puts the keys of an operation behind the others.
fn put_keys(keys: &mut Vec<u64>, op: Op) -> Result<(), Memory> {
    match op {
        Op::Fetch(key) | Op::Insert(key, _) | Op::Delete(key) | Op::Update(key, _) => {
            put(keys, key)
        }
        Op::Scan(lo, hi) => {
            put(keys, lo)?;
            put(keys, hi)
        }
        Op::Go | Op::Commit | Op::Abort | Op::Back => Ok(()),
    }
}

impl Names {
    /// The number of a key, from 1.
    fn number(&self, key: u64) -> u64 {
        let mut number: u64 = 1;
        for other in &self.keys {
            if *other < key {
                number = number.saturating_add(1);
            }
        }
        number
    }

    /// The new name of a key.
    fn key(&self, key: u64) -> u64 {
        key_of(self.number(key))
    }

    /// The new number of a transaction.
    fn txn(&self, txn: Txn) -> Txn {
        let mut number: Txn = 1;
        for other in &self.txns {
            if *other == txn {
                return number;
            }
            number = number.saturating_add(1);
        }
        number
    }

    /// A move with its new names.
    fn renamed(&self, next: Move) -> Move {
        match next {
            Move::Purge(key) => Move::Purge(self.key(key)),
            Move::Attempt(event) => Move::Attempt(Event {
                txn: self.txn(event.txn),
                op: self.renamed_op(event.op),
            }),
        }
    }

    /// An operation with its new keys.
    fn renamed_op(&self, op: Op) -> Op {
        match op {
            Op::Fetch(key) => Op::Fetch(self.key(key)),
            Op::Scan(lo, hi) => Op::Scan(self.key(lo), self.key(hi)),
            Op::Insert(key, value) => Op::Insert(self.key(key), value),
            Op::Delete(key) => Op::Delete(self.key(key)),
            Op::Update(key, value) => Op::Update(self.key(key), value),
            other => other,
        }
    }
}
