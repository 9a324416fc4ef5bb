//! The bundled tables are what they stand for, and tables are written and read back.

use super::likeness::{are_alike, ask_alike};
use super::lines::{PLAIN, Table};
use kr_protocol::{Im, Kvl, KvlUpdate, Protocol, RangeKey};
use kr_table::bundled::{IM, KVL, KVL_UPDATE, RANGE_KEY};
use kr_table::{read, write};
use std::alloc::Global;
use std::process::Abort;
use std::test::Fail;

/// Compares the table that a text is with a protocol: whether they answer alike.
fn stands_for<P: Protocol>(
    rt: &impl Abort,
    alloc: Global,
    text: &str,
    protocol: &P,
    expected: bool,
) -> Result<(), Fail> {
    let table = read(alloc, text.as_bytes())?;
    holds!(rt; are_alike(&table, protocol) == expected, text);
    Ok(())
}

#[test]
fn bundled_tables_are_what_they_stand_for(rt: HostRuntime) -> Result<(), Fail> {
    let alloc = rt.alloc();
    stands_for(&rt, alloc, KVL, &Kvl, true)?;
    stands_for(&rt, alloc, KVL_UPDATE, &KvlUpdate, true)?;
    stands_for(&rt, alloc, KVL_UPDATE, &Kvl, false)?;
    stands_for(&rt, alloc, IM, &Im, true)?;
    stands_for(&rt, alloc, RANGE_KEY, &RangeKey, true)?;
    stands_for(&rt, alloc, RANGE_KEY, &Kvl, false)
}

/// Writes the table that a text is, reads that back, and compares the two.
pub fn is_read_back(rt: &impl Abort, alloc: Global, text: &str) -> Result<(), Fail> {
    let table = read(alloc, text.as_bytes())?;
    let written = write(alloc, &table)?;
    let again = read(alloc, written.as_bytes())?;
    holds!(rt; are_alike(&table, &again), text);
    Ok(())
}

#[test]
fn tables_are_read_back(rt: HostRuntime) -> Result<(), Fail> {
    for text in [KVL, KVL_UPDATE, IM, RANGE_KEY] {
        is_read_back(&rt, rt.alloc(), text)?;
    }
    let plain = PLAIN.text(rt.alloc())?;
    is_read_back(&rt, rt.alloc(), plain.as_str())
}

#[test]
fn the_format_alone_makes_two_tables(rt: HostRuntime) -> Result<(), Fail> {
    let first = PLAIN.text(rt.alloc())?;
    let second = Table {
        format: "format = 2",
        ..PLAIN
    };
    let second = second.text(rt.alloc())?;
    let without = read(rt.alloc(), first.as_bytes())?;
    let with = read(rt.alloc(), second.as_bytes())?;
    assert!(rt; !without.updates());
    assert!(rt; with.updates());
    assert!(rt; ask_alike(&without, &with));
    assert!(rt; !are_alike(&without, &with));
    Ok(())
}
