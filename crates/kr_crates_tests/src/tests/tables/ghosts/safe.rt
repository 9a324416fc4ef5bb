//! Which tables with ghosts are safe, and a hole of those that aren't.

use super::table_of;
use super::texts::{NEXT_KEY_GHOST, RANGE_GHOST, RECORD_GAP};
use kr_ghost_check::failed_cases;
use kr_ghost_decide::{Ask, Hole, KeyUse, find_hole, is_safe_ghost};
use kr_ghost_protocol::{GhostProtocol, NextKeyGhost, RangeGhost, RecordGap};
use kr_protocol::Mode;
use std::alloc::Global;
use std::process::Abort;
use std::test::Fail;

/// What the lock that lets a request through has there, whose requester has nothing.
#[derive(Clone, Copy)]
struct Expected {
    ask: Ask,
    present: bool,
    mode: Mode,
    key: KeyUse,
    gap: bool,
}

/// A read of the gap that no lock protects.
const READ_GAP: Expected = Expected {
    ask: Ask::Insert,
    present: false,
    mode: 0,
    key: KeyUse::Free,
    gap: true,
};

/// A key inserted in this mode, of whose gap its transaction has read.
fn inserted(mode: Mode) -> Expected {
    Expected {
        ask: Ask::Insert,
        present: true,
        mode,
        key: KeyUse::Inserted,
        gap: true,
    }
}

/// The hole of a protocol; both calls say whether there is one.
fn hole_of<P: GhostProtocol>(
    rt: &impl Abort,
    alloc: Global,
    protocol: &P,
) -> Result<Option<Hole>, Fail> {
    let hole = find_hole(alloc, protocol)?;
    same!(rt; is_safe_ghost(alloc, protocol)?, hole.is_none());
    Ok(hole)
}

/// The hole of a bundled table in which one text stands in place of another.
fn hole_of_changed(
    rt: &impl Abort,
    alloc: Global,
    text: &str,
    old: &str,
    new: &str,
) -> Result<Option<Hole>, Fail> {
    let text = text.replace(alloc, old, new)?;
    let table = table_of(rt, alloc, &[text.as_str()])?;
    hole_of(rt, alloc, &table)
}

/// A changed table has this hole.
fn has_hole(
    rt: &impl Abort,
    alloc: Global,
    text: &str,
    old: &str,
    new: &str,
    expected: Expected,
) -> Result<(), Fail> {
    let Some(hole) = hole_of_changed(rt, alloc, text, old, new)? else {
        panic!(rt; "no hole with {new}");
    };
    let (own, other) = (hole.own, hole.other);
    holds!(rt; own.mode == 0 && own.key == KeyUse::Free && !own.gap && !own.rolling, new);
    holds!(rt; hole.ask == expected.ask && hole.present == expected.present, new);
    holds!(rt; other.mode == expected.mode && other.key == expected.key, new);
    holds!(rt; other.gap == expected.gap && !other.rolling, new);
    Ok(())
}

#[test]
fn bundled_tables_with_ghosts_are_safe(rt: HostRuntime) -> Result<(), Fail> {
    let alloc = rt.alloc();
    assert!(rt; hole_of(&rt, alloc, &RecordGap)?.is_none());
    assert!(rt; hole_of(&rt, alloc, &RangeGhost)?.is_none());
    assert!(rt; hole_of(&rt, alloc, &&NextKeyGhost)?.is_none());
    Ok(())
}

/// NS held and KW requested make KS, which doesn't keep the gap; but nobody who holds NS on a name inserts its key.
#[test]
fn safe_with_ghosts_though_a_case_fails(rt: HostRuntime) -> Result<(), Fail> {
    let alloc = rt.alloc();
    let old = "NW = \"KX\", KW = \"KX\", KX = \"KX\" }\nNW";
    let new = "NW = \"KX\", KW = \"KS\", KX = \"KX\" }\nNW";
    let text = NEXT_KEY_GHOST.replace(alloc, old, new)?;
    let table = table_of(&rt, alloc, &[text.as_str()])?;
    same!(rt; failed_cases(alloc, &table)?.len(), 1);
    assert!(rt; hole_of(&rt, alloc, &table)?.is_none());
    Ok(())
}

/// The lock of a fetch on a ghost isn't inherited, or none is: then another may insert into the gap that was read.
#[test]
fn a_purge_that_drops_locks(rt: HostRuntime) -> Result<(), Fail> {
    let alloc = rt.alloc();
    let (old, new) = ("[purge]\nN-S = \"G-N\"", "[purge]\nN-S = \"none\"");
    has_hole(&rt, alloc, RECORD_GAP, old, new, READ_GAP)?;
    let new =
        r#"purge = { N-S = "none", N-X = "none", S-N = "none", S-S = "none", S-X = "none", I-N = "none", I-S = "none", I-X = "none", X-N = "none", X-S = "none", X-X = "none" }"#;
    has_hole(
        &rt,
        alloc,
        RANGE_GHOST,
        "purge = \"unlocked\"",
        new,
        READ_GAP,
    )
}

/// An insert locks its new key alone, though its transaction has read the gap that it splits.
#[test]
fn an_insert_that_locks_its_key_alone(rt: HostRuntime) -> Result<(), Fail> {
    let alloc = rt.alloc();
    let old =
        r#"{ own = ["G-N", "G-S", "G-X", "GI-N", "GI-S", "GI-X"], mode = "G-X", span = "commit" }, "#;
    has_hole(&rt, alloc, RECORD_GAP, old, "", inserted(2))?;
    let old =
        r#"{ own = ["S-N", "S-S", "S-X", "X-N", "X-S", "X-X"], mode = "X-X", span = "commit" }, "#;
    has_hole(&rt, alloc, RANGE_GHOST, old, "", inserted(2))?;
    let old = r#"{ own = ["NS", "KX"], mode = "KX", span = "commit" }, "#;
    has_hole(&rt, alloc, NEXT_KEY_GHOST, old, "", inserted(4))
}

/// An insert of a ghost requests nothing: then its new key may be fetched before it commits.
#[test]
fn an_insert_of_a_ghost_without_a_lock(rt: HostRuntime) -> Result<(), Fail> {
    let old = "[rules.revive]\ncurrent = [{ mode = \"N-X\", span = \"commit\" }]\n";
    let unlocked = Expected {
        ask: Ask::FetchHit,
        present: true,
        mode: 0,
        key: KeyUse::Inserted,
        gap: false,
    };
    has_hole(&rt, rt.alloc(), RECORD_GAP, old, "", unlocked)
}
