//! Changes of one entry of tables with ghosts.

use super::{ONE, VAIN, table_of};
use kr_change::{
    Change, Changed, GhostRow, change_text, changes_of, edit_text, entry_text, ghost_row_word,
    index_changes_of,
};
use kr_ghost::Vain;
use kr_ghost_protocol::{GhostProtocol, NextKeyGhost, RangeGhost, RecordGap};
use kr_kinds::{Gone, IndexProtocol, Leaves};
use kr_protocol::{Kvl, Protocol, Row, Side, Span};
use std::alloc::Global;
use std::process::Abort;
use std::test::Fail;

/// Who has G-S or GI-X on a purged ghost inherits nothing.
const NO_HEIR: Change = Change::Heir {
    held: 1 << 4 | 1 << 11,
    mode: 0,
};

/// An insert of a ghost requests the first mode on it, for an instant.
const REVIVES: Change = Change::GhostRequest {
    row: GhostRow::Revive,
    side: Side::Current,
    request: Some((1, Span::Instant)),
};

/// A vain delete requests nothing.
const MISSES: Change = Change::GhostRequest {
    row: GhostRow::DeleteMiss,
    side: Side::Next,
    request: None,
};

/// How many changes of one entry a protocol has; each is one of its changes, and with it that entry alone differs.
fn count<P: IndexProtocol>(rt: &impl Abort, alloc: Global, protocol: &P) -> Result<usize, Fail> {
    let changes = index_changes_of(alloc, protocol)?;
    for change in &changes {
        let Some(changed) = Changed::new(protocol, *change) else {
            panic!(rt; "no change of the table");
        };
        let again = index_changes_of(alloc, &changed)?;
        holds!(rt; !again.contains(change), *change);
        same!(rt; again.len(), changes.len());
    }
    Ok(changes.len())
}

#[test]
fn tables_have_changes(rt: HostRuntime) -> Result<(), Fail> {
    let alloc = rt.alloc();
    same!(rt; count(&rt, alloc, &Leaves(NextKeyGhost))?, 325);
    same!(rt; index_changes_of(alloc, &Leaves(RecordGap))?.len(), 2156);
    same!(rt; index_changes_of(alloc, &Leaves(RangeGhost))?.len(), 2035);
    same!(rt; index_changes_of(alloc, &Gone(Kvl))?.as_slice(), changes_of(alloc, &Kvl)?.as_slice());
    let table = table_of(&rt, alloc, &[ONE, VAIN])?;
    same!(rt; count(&rt, alloc, &Leaves(&table))?, 32);
    Ok(())
}

/// What a change is called, of which entry it is, and the edit that makes it.
fn words<P: Protocol>(alloc: Global, protocol: &P, change: Change) -> Result<String, Fail> {
    let entry = entry_text(alloc, protocol, change)?;
    let name = change_text(alloc, protocol, change)?;
    let edit = edit_text(alloc, protocol, change)?;
    Ok(format!(in alloc; "{entry} | {name} | {edit}")?)
}

#[test]
fn changes_have_words(rt: HostRuntime) -> Result<(), Fail> {
    let alloc = rt.alloc();
    let heir = "heir of G-S GI-X | heir of G-S GI-X: none | in [purge], G-S GI-X: none";
    same!(rt; words(alloc, &RecordGap, NO_HEIR)?.as_str(), heir);
    let revive =
        "revive current | revive current: N-S instant | in [rules.revive], current: request N-S for instant duration";
    same!(rt; words(alloc, &RecordGap, REVIVES)?.as_str(), revive);
    let miss =
        "delete-miss next | delete-miss next: nothing | in [rules.delete-miss], next: request nothing";
    same!(rt; words(alloc, &RecordGap, MISSES)?.as_str(), miss);
    same!(rt; ghost_row_word(GhostRow::InsertHit), "insert-hit");
    same!(rt; ghost_row_word(GhostRow::UpdateMiss), "update-miss");
    Ok(())
}

#[test]
fn a_change_is_of_one_entry(rt: HostRuntime) -> Result<(), Fail> {
    let record_gap = Leaves(RecordGap);
    let Some(changed) = Changed::new(&record_gap, NO_HEIR) else {
        panic!(rt; "no change of the table");
    };
    same!(rt; changed.heir(4), 0);
    same!(rt; changed.heir(11), 0);
    same!(rt; changed.heir(3), 3);
    same!(rt; changed.revive(), Some((2, Span::Commit)));
    assert!(rt; changed.leaves_ghosts() && changed.inherits());
    let Some(changed) = Changed::new(&record_gap, REVIVES) else {
        panic!(rt; "no change of the table");
    };
    same!(rt; changed.revive(), Some((1, Span::Instant)));
    same!(rt; changed.revive_next(), None);
    same!(rt; changed.heir(4), 3);
    let table = table_of(&rt, rt.alloc(), &[ONE, VAIN])?;
    let table = Leaves(&table);
    let hit = Change::GhostRequest {
        row: GhostRow::InsertHit,
        side: Side::Next,
        request: Some((1, Span::Commit)),
    };
    let Some(changed) = Changed::new(&table, hit) else {
        panic!(rt; "no change of the table");
    };
    same!(rt; changed.insert_hit_next(), Some((1, Span::Commit)));
    same!(rt; changed.vain(Vain::InsertHit), Some(Some((1, Span::Instant))));
    same!(rt; changed.vain(Vain::DeleteMiss), Some(None));
    Ok(())
}

#[test]
fn other_changes_are_none(rt: HostRuntime) {
    // no table of this kind has the row, the heirs or the place
    assert!(rt; Changed::new(&Leaves(RecordGap), MISSES).is_none());
    assert!(rt; Changed::new(&Leaves(RangeGhost), NO_HEIR).is_none());
    assert!(rt; Changed::new(&Gone(Kvl), REVIVES).is_none());
    assert!(rt; Changed::new(&Gone(Kvl), NO_HEIR).is_none());
    let next = Change::Request {
        row: Row::Delete,
        side: Side::Next,
        own_next: None,
        request: None,
    };
    assert!(rt; Changed::new(&Leaves(RecordGap), next).is_none());
    assert!(rt; Changed::new(&Gone(Kvl), next).is_some());
    let of_none = Change::Heir { held: 1, mode: 1 };
    assert!(rt; Changed::new(&Leaves(RecordGap), of_none).is_none());
}
