//! Transactions, keys and values at which a number turns, and some hundred others.

use kr_model::{Event, Op};
use kr_serial::Txn;

/// Keys and values at which a number turns.
pub const KEYS: [u64; 8] = [
    0,
    1,
    7,
    u32::MAX as u64,
    1 << 32,
    1 << 63,
    u64::MAX - 1,
    u64::MAX,
];

/// Numbers of transactions at which a number turns.
const NUMBERS: [Txn; 5] = [0, 1, 7, 1 << 31, u32::MAX];

/// A transaction, a key and a value: below 64 each boundary key with each boundary value and each such transaction, and
/// then small numbers and numbers that look random in turn.
pub fn case(i: u32) -> (Txn, u64, u64) {
    let number = u64::from(i);
    if i < 64 {
        let txn = NUMBERS[(i % 5) as usize];
        return (txn, KEYS[(i / 8) as usize], KEYS[(i % 8) as usize]);
    }
    if i % 2 == 0 {
        return (i, number, number);
    }
    let scattered = number.wrapping_mul(11_400_714_819_323_198_485);
    ((scattered >> 32) as u32, scattered, !scattered)
}

/// How many of them are gone over.
pub const CASES: u32 = 364;

/// A step of a transaction.
pub fn event(txn: Txn, op: Op) -> Event {
    Event { txn, op }
}
