//! Steps: each operation with each boundary key, value and number of a transaction.
use super::numbers::{key_at, txn_at};
use kr_model::{Event, Op, Txn};
use std::alloc::{AllocError, Global};

/// The operation of that index: the first seven are those of format 1.
fn op_of(word: usize, key: u64, value: u64) -> Op {
    match word {
        0 => Op::Fetch(key),
        1 => Op::Scan(key, value),
        2 => Op::Go,
        3 => Op::Insert(key, value),
        4 => Op::Delete(key),
        5 => Op::Commit,
        6 => Op::Abort,
        7 => Op::Update(key, value),
        _ => Op::Back,
    }
}

/// The step of a round: each number of a transaction with each boundary key and each such value, and then the index itself.
fn event_in(round: usize, word: usize, i: usize) -> Event {
    let txn = txn_at(round);
    if round < 48 {
        let op = op_of(word, key_at(round), key_at(round / 4));
        Event { txn, op }
    } else {
        let op = op_of(word, i as u64, !(i as u64));
        Event { txn, op }
    }
}

/// The step at an index, with or without the later words.
pub fn event_at(later: bool, i: usize) -> Event {
    if later {
        event_in(i / 9, i % 9, i)
    } else {
        event_in(i / 7, i % 7, i)
    }
}

/// The text of a step of a word alone.
fn word_text(alloc: Global, txn: Txn, word: &str) -> Result<String, AllocError> {
    format!(in alloc; "[{txn},\"{word}\"]")
}

/// The text of a step of a word and a number.
fn number_text(alloc: Global, txn: Txn, word: &str, number: u64) -> Result<String, AllocError> {
    format!(in alloc; "[{txn},\"{word}\",{number}]")
}

/// The text of a step of a word and two numbers.
fn numbers_text(
    alloc: Global,
    txn: Txn,
    word: &str,
    numbers: (u64, u64),
) -> Result<String, AllocError> {
    let (first, second) = numbers;
    format!(in alloc; "[{txn},\"{word}\",{first},{second}]")
}

/// The text of a step, as it stands in a script.
pub fn step_text(alloc: Global, event: Event) -> Result<String, AllocError> {
    let txn = event.txn;
    match event.op {
        Op::Fetch(key) => number_text(alloc, txn, "fetch", key),
        Op::Scan(lo, hi) => numbers_text(alloc, txn, "scan", (lo, hi)),
        Op::Go => word_text(alloc, txn, "go"),
        Op::Insert(key, value) => numbers_text(alloc, txn, "insert", (key, value)),
        Op::Delete(key) => number_text(alloc, txn, "delete", key),
        Op::Commit => word_text(alloc, txn, "commit"),
        Op::Abort => word_text(alloc, txn, "abort"),
        Op::Update(key, value) => numbers_text(alloc, txn, "update", (key, value)),
        Op::Back => word_text(alloc, txn, "back"),
    }
}
