//! Numbers at which a number turns, rising.
use kr_model::Txn;

/// A key or a value, by an index: 0, 7, 2^63 or the greatest.
pub fn key_at(i: usize) -> u64 {
    match i % 4 {
        0 => 0,
        1 => 7,
        2 => 9_223_372_036_854_775_808,
        _ => u64::MAX,
    }
}

/// The number of a transaction, by an index: 0, 7 or the greatest.
pub fn txn_at(i: usize) -> Txn {
    match i % 3 {
        0 => 0,
        1 => 7,
        _ => u32::MAX,
    }
}
