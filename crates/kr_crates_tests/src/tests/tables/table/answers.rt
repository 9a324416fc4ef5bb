//! What a table that was read answers.

use super::likeness::SIDES;
use super::lines::PLAIN;
use kr_protocol::{Mode, Protocol};
use kr_table::bundled::RANGE_KEY;
use kr_table::read;
use std::process::Abort;
use std::test::Fail;

/// Compares what a protocol requests with nothing.
fn asks_for_nothing<P: Protocol>(rt: &impl Abort, protocol: &P) {
    for own in 0..protocol.count() + 1 {
        for (row, side) in SIDES {
            same!(rt; protocol.ask(row, side, own), None);
        }
    }
}

#[test]
fn the_plain_table_asks_for_nothing(rt: HostRuntime) -> Result<(), Fail> {
    let text = PLAIN.text(rt.alloc())?;
    let table = read(rt.alloc(), text.as_bytes())?;
    assert_eq!(rt; table.count(), 1);
    same!(rt; table.name(1), "A");
    assert!(rt; !table.ok(1, 1));
    asks_for_nothing(&rt, &table);
    Ok(())
}

/// Names of modes in key-range locking by parts, and the numbers of those that there are.
const NAMES: &[(&str, Option<Mode>)] = &[
    ("N-S", Some(1)),
    ("X-X", Some(11)),
    ("S", None),
    ("none", None),
];

#[test]
fn modes_are_found_by_name(rt: HostRuntime) -> Result<(), Fail> {
    let table = read(rt.alloc(), RANGE_KEY.as_bytes())?;
    for (name, mode) in NAMES {
        same!(rt; table.find(*name), *mode, name);
    }
    Ok(())
}
