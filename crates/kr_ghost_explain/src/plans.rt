//! What a walk attempts. Most schedules that go wrong have one of two forms: a transaction reads, another changes what was read
//! and commits first; or a transaction changes, another reads that and commits, and the change is undone. So the first transaction
//! begins, the second follows, and then their ends come in some order, with purges between. Before it, a fourth may leave ghosts.

use crate::dice::Dice;
use crate::draft::key_of;
use kr_ghost::Move;
use kr_model::{Event, Memory, Op, Txn};
use std::alloc::Global;

/// The moves that a walk over so many keys attempts.
pub(crate) fn plan(alloc: Global, keys: u64, dice: &mut Dice) -> Result<Vec<Move>, Memory> {
    let mut plan = Vec::new(alloc);
    if dice.one_in(2) {
        plan.push(by(4, Op::Delete(some_key(keys, dice))))?;
        plan.push(by(4, Op::Delete(some_key(keys, dice))))?;
        plan.push(by(4, Op::Commit))?;
    }
    let firsts = dice.below(5).saturating_add(1);
    put(&mut plan, 1, firsts, keys, dice)?;
    let seconds = dice.below(3).saturating_add(1);
    put(&mut plan, 2, seconds, keys, dice)?;
    let others = dice.below(2);
    let txn = some_txn(dice);
    put(&mut plan, txn, others, keys, dice)?;
    put_ends(&mut plan, keys, dice)?;
    Ok(plan)
}

/// Puts the ends of the transactions behind the others: that of the first comes last, or it is an abort.
fn put_ends(plan: &mut Vec<Move>, keys: u64, dice: &mut Dice) -> Result<(), Memory> {
    match dice.below(4) {
        0 => plan.push(by(1, Op::Abort))?,
        1 => plan.push(by(3, Op::Commit))?,
        _ => {}
    }
    plan.push(by(2, Op::Commit))?;
    let more = dice.below(2);
    put(plan, 1, more, keys, dice)?;
    plan.push(by(1, Op::Commit))?;
    plan.push(by(3, Op::Commit))?;
    Ok(())
}

/// Puts so many operations of a transaction, or purges, behind the others.
fn put(
    plan: &mut Vec<Move>,
    txn: Txn,
    count: u64,
    keys: u64,
    dice: &mut Dice,
) -> Result<(), Memory> {
    for _ in 0..count {
        let key = some_key(keys, dice);
        if dice.one_in(4) {
            plan.push(Move::Purge(key))?;
        } else {
            put_operation(plan, txn, key, keys, dice)?;
        }
    }
    Ok(())
}

/// Puts an operation behind the others; with a scan some of its steps.
fn put_operation(
    plan: &mut Vec<Move>,
    txn: Txn,
    key: u64,
    keys: u64,
    dice: &mut Dice,
) -> Result<(), Memory> {
    let value = dice.below(6).saturating_add(4);
    let op = match dice.below(16) {
        0..=3 => Op::Fetch(key),
        4..=8 => Op::Insert(key, value),
        9..=11 => Op::Delete(key),
        12 => Op::Update(key, value),
        13..=14 => Op::Scan(key, key.max(some_key(keys, dice))),
        _ => Op::Back,
    };
    plan.push(by(txn, op))?;
    if matches!(op, Op::Scan(_, _)) {
        for _ in 0..dice.below(4) {
            plan.push(by(txn, Op::Go))?;
        }
    }
    Ok(())
}

/// The operation, attempted by a transaction.
fn by(txn: Txn, op: Op) -> Move {
    Move::Attempt(Event { txn, op })
}

/// One of the first three transactions.
fn some_txn(dice: &mut Dice) -> Txn {
    match dice.below(3) {
        0 => 1,
        1 => 2,
        _ => 3,
    }
}

/// A key.
fn some_key(keys: u64, dice: &mut Dice) -> u64 {
    key_of(dice.below(keys).saturating_add(1))
}
