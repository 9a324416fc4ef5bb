//! Tables in memory that answer as protocols of either kind do.

use super::ghosts::have_ghosts_alike;
use super::table::likeness::are_alike;
use kr_change::{Change, Changed};
use kr_ghost_protocol::{GhostProtocol, NextKeyGhost, RangeGhost, RecordGap};
use kr_ghost_table::GhostTable;
use kr_kinds::{Gone, IndexProtocol, Leaves};
use kr_protocol::{Im, Kvl, KvlUpdate, Protocol, RangeKey, Row, Side, Span};
use kr_table::Table;
use kr_table_copy::{Copy, copy_of};
use std::alloc::Global;
use std::process::Abort;
use std::test::Fail;

/// The copy of a protocol whose deleted keys go at once.
fn gone_copy<P: IndexProtocol>(alloc: Global, protocol: &P) -> Result<Table, Fail> {
    match copy_of(alloc, protocol)? {
        Some(Copy::Gone(table)) => Ok(table),
        _ => Err("no copy")?,
    }
}

/// The copy of a protocol whose deleted keys stay as ghosts.
fn leaving_copy<P: IndexProtocol>(alloc: Global, protocol: &P) -> Result<GhostTable, Fail> {
    match copy_of(alloc, protocol)? {
        Some(Copy::Leaving(table)) => Ok(table),
        _ => Err("no copy")?,
    }
}

/// The copy of a protocol without ghosts answers as it does.
fn is_copied<P: Protocol>(rt: &impl Abort, alloc: Global, protocol: &P) -> Result<(), Fail> {
    let copy = gone_copy(alloc, &Gone(protocol))?;
    assert!(rt; are_alike(&copy, protocol));
    same!(rt; copy.name(1), protocol.name(1));
    Ok(())
}

#[test]
fn tables_are_copied(rt: HostRuntime) -> Result<(), Fail> {
    let alloc = rt.alloc();
    is_copied(&rt, alloc, &Im)?;
    is_copied(&rt, alloc, &Kvl)?;
    is_copied(&rt, alloc, &KvlUpdate)?;
    is_copied(&rt, alloc, &RangeKey)?;
    let copy = gone_copy(alloc, &Gone(Im))?;
    same!(rt; copy.count(), 2);
    same!(rt; copy.name(1), "S");
    same!(rt; copy.ask(Row::Delete, Side::Next, 0), Im.ask(Row::Delete, Side::Next, 0));
    Ok(())
}

/// The copy of a protocol with ghosts answers as it does.
fn is_copied_with_ghosts<P: GhostProtocol>(
    rt: &impl Abort,
    alloc: Global,
    protocol: &P,
) -> Result<GhostTable, Fail> {
    let copy = leaving_copy(alloc, &Leaves(protocol))?;
    assert!(rt; are_alike(&copy, protocol) && have_ghosts_alike(&copy, protocol));
    same!(rt; copy.name(1), protocol.name(1));
    Ok(copy)
}

#[test]
fn tables_with_ghosts_are_copied(rt: HostRuntime) -> Result<(), Fail> {
    let alloc = rt.alloc();
    let copy = is_copied_with_ghosts(&rt, alloc, &RecordGap)?;
    same!(rt; copy.revive(), Some((2, Span::Commit)));
    same!(rt; copy.heir(11), 3);
    assert!(rt; copy.inherits());
    let copy = is_copied_with_ghosts(&rt, alloc, &RangeGhost)?;
    same!(rt; copy.revive(), Some((2, Span::Commit)));
    same!(rt; copy.heir(11), 0);
    assert!(rt; !copy.inherits());
    let copy = is_copied_with_ghosts(&rt, alloc, &NextKeyGhost)?;
    same!(rt; copy.revive(), Some((5, Span::Commit)));
    assert!(rt; !copy.inherits());
    Ok(())
}

#[test]
fn a_change_is_copied(rt: HostRuntime) -> Result<(), Fail> {
    let alloc = rt.alloc();
    let change = Change::Heir {
        held: 1 << 4 | 1 << 11,
        mode: 0,
    };
    let base = Leaves(RecordGap);
    let changed = Changed::new(&base, change).ok_or("no change")?;
    let copy = leaving_copy(alloc, &changed)?;
    same!(rt; copy.heir(3), 3);
    same!(rt; copy.heir(4), 0);
    same!(rt; copy.heir(11), 0);
    Ok(())
}
