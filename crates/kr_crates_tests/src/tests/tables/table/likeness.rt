//! Whether two protocols answer alike.

use kr_protocol::{Mode, Protocol, Row, Side};

/// Each row of a protocol with each of its sides.
pub const SIDES: [(Row, Side); 14] = [
    (Row::FetchHit, Side::Current),
    (Row::FetchHit, Side::Next),
    (Row::FetchMiss, Side::Current),
    (Row::FetchMiss, Side::Next),
    (Row::ScanKey, Side::Current),
    (Row::ScanKey, Side::Next),
    (Row::ScanStop, Side::Current),
    (Row::ScanStop, Side::Next),
    (Row::Insert, Side::Current),
    (Row::Insert, Side::Next),
    (Row::Delete, Side::Current),
    (Row::Delete, Side::Next),
    (Row::Update, Side::Current),
    (Row::Update, Side::Next),
];

/// Whether two protocols with as many modes request the same where the own mode is this.
fn ask_alike_at<P: Protocol, Q: Protocol>(one: &P, other: &Q, own: Mode) -> bool {
    if own > one.count() || own > other.count() {
        return false;
    }
    for (row, side) in SIDES {
        if one.ask(row, side, own) != other.ask(row, side, own) {
            return false;
        }
    }
    true
}

/// Whether two protocols have as many modes, and request the same at each row and side.
pub fn ask_alike<P: Protocol, Q: Protocol>(one: &P, other: &Q) -> bool {
    for own in 0..one.count() + 1 {
        if !ask_alike_at(one, other, own) {
            return false;
        }
    }
    one.count() == other.count()
}

/// Whether two protocols take two modes to be compatible with one another alike, and convert them alike.
fn agree_on<P: Protocol, Q: Protocol>(one: &P, other: &Q, mode: Mode, second: Mode) -> bool {
    if mode > one.count()
        || mode > other.count()
        || second > one.count()
        || second > other.count()
    {
        return false;
    }
    one.ok(mode, second) == other.ok(mode, second)
        && one.convert(mode, second) == other.convert(mode, second)
}

/// Whether two protocols name a mode alike, and agree on it beside each mode.
fn agree_on_mode<P: Protocol, Q: Protocol>(one: &P, other: &Q, mode: Mode) -> bool {
    if mode > one.count() || mode > other.count() {
        return false;
    }
    for second in 0..one.count() + 1 {
        if !agree_on(one, other, mode, second) {
            return false;
        }
    }
    one.name(mode) == other.name(mode)
}

/// Whether two protocols answer each call alike.
pub fn are_alike<P: Protocol, Q: Protocol>(one: &P, other: &Q) -> bool {
    for mode in 0..one.count() + 1 {
        if !agree_on_mode(one, other, mode) {
            return false;
        }
    }
    one.updates() == other.updates() && ask_alike(one, other)
}
