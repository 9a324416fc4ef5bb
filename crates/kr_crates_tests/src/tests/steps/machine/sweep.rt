//! Sweeps: many steps, each at a place that tells its transaction and its operation.

use kr_machine::Txn;
use kr_model::Op;

/// The ends of the keys, a key in the middle, and some beside them.
const KEYS: [u64; 6] = [0, 1, 7, 1 << 63, u64::MAX - 1, u64::MAX];

/// The ends of the numbers, and one beside them.
const TXNS: [Txn; 3] = [0, 1, u32::MAX];

/// Which steps are attempted.
#[derive(Clone, Copy)]
pub enum Sweep {
    /// Each operation at each key by each number, of which the first commits and the others abort: 183 steps.
    Boundary,
    /// 64 transactions insert a key each, then each reads its own, and then every other one commits, and the rest aborts;
    /// at last one reads all: 193 steps.
    Crowd,
    /// Steps at random, by a few transactions at a time.
    Random(u64),
    /// The same with updates, and changes undone.
    Changes(u64),
}

/// One of the operations on a key.
fn boundary_op(kind: u32, key: u64) -> Op {
    match kind {
        0 | 6 => Op::Fetch(key),
        1 => Op::Insert(key, 0),
        2 => Op::Insert(key, 1),
        3 | 4 => Op::Delete(key),
        5 => Op::Insert(key, u64::MAX),
        7 => Op::Scan(key, key),
        8 => Op::Scan(key, u64::MAX),
        _ => Op::Scan(0, key),
    }
}

/// The step at a place of the first sweep.
fn boundary_step(place: u32) -> (Txn, Op) {
    let txn = TXNS[place as usize / 61 % 3];
    let within = place % 61;
    if within < 60 {
        let key = KEYS[within as usize / 10 % 6];
        return (txn, boundary_op(within % 10, key));
    }
    (txn, if txn == 0 { Op::Commit } else { Op::Abort })
}

/// The step at a place of the second.
fn crowd_step(place: u32) -> (Txn, Op) {
    let txn = place % 64;
    let key = u64::from(txn);
    match place / 64 {
        0 => (txn, Op::Insert(key, 64 - key)),
        1 => (txn, Op::Fetch(key)),
        2 => (txn, if txn % 2 == 0 { Op::Commit } else { Op::Abort }),
        _ => (64, Op::Scan(0, u64::MAX)),
    }
}

/// A number that looks like chance, made of another.
fn mixed(number: u64) -> u64 {
    let mut mixed = number.wrapping_mul(0x9e37_79b9_7f4a_7c15);
    mixed = (mixed ^ (mixed >> 30)).wrapping_mul(0xbf58_476d_1ce4_e5b9);
    mixed = (mixed ^ (mixed >> 27)).wrapping_mul(0x94d0_49bb_1331_11eb);
    mixed ^ (mixed >> 31)
}

/// An operation at a key, by a random number.
fn random_op(random: u64, key: u64) -> Op {
    match random % 10 {
        0 | 1 => Op::Fetch(key),
        2 | 3 | 4 => Op::Insert(key, random),
        5 | 6 => Op::Delete(key),
        7 => Op::Scan(0, key),
        8 => Op::Commit,
        _ => Op::Abort,
    }
}

/// An operation at a key, by a random number, that mostly changes it or undoes a change.
fn random_change(random: u64, key: u64) -> Op {
    match random % 13 {
        0 => Op::Fetch(key),
        1 | 2 | 3 => Op::Insert(key, random),
        4 => Op::Delete(key),
        5 | 6 | 7 => Op::Update(key, random),
        8 | 9 | 10 => Op::Back,
        11 => Op::Commit,
        _ => Op::Abort,
    }
}

/// The step at a place of a sweep at random.
fn random_step(seed: u64, place: u32, changes: bool) -> (Txn, Op) {
    let random = mixed(seed.wrapping_mul(1_000).wrapping_add(u64::from(place)));
    let txn = place / 12 * 4 + (random >> 40) as u32 % 4;
    let key = if random >> 63 == 0 {
        KEYS[place as usize % 6]
    } else {
        random >> 55
    };
    if changes {
        return (txn, random_change(random >> 32, key));
    }
    (txn, random_op(random >> 32, key))
}

/// The step at a place of a sweep.
pub fn step_at(sweep: Sweep, place: u32) -> (Txn, Op) {
    match sweep {
        Sweep::Boundary => boundary_step(place),
        Sweep::Crowd => crowd_step(place),
        Sweep::Random(seed) => random_step(seed, place, false),
        Sweep::Changes(seed) => random_step(seed, place, true),
    }
}
