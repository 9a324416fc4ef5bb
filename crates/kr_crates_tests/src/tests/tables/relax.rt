//! What a table blocks needlessly, compared with what a search in another language found (`tests/relax`).
use kr_change::index_changes_of;
use kr_ghost_protocol::{NextKeyGhost, RecordGap};
use kr_kinds::{Gone, Leaves};
use kr_protocol::{Im, Protocol};
use kr_relax_core::{
    Change, Entry, Judged, Mode, Outcome, Place, Relaxed, Row, Side, Span, Twin, is_safe_index,
    outcomes_of, relaxations, spots_of, twins_of, unused_entries,
};
use kr_relax_text::{
    changes_of_entry, one_relaxes, reasons_for, reasons_text, relaxed_text, unused_text,
    with_scripts,
};
use kr_table::bundled::{IM, KVL, RANGE_KEY};
use kr_table::{Table, read};
use std::alloc::Global;
use std::test::Fail;

/// A table with an insert that holds an X lock on the next key to commit, in place of what it requests there.
fn with_commit(alloc: Global, table: &str, old: &str) -> Result<Table, Fail> {
    let new = r#"next = [{ mode = "X", span = "commit" }]"#;
    let (before, after) = table.split_once(old).ok_or("no such part")?;
    let text = format!(in alloc; "{before}{new}{after}")?;
    Ok(read(alloc, text.as_bytes()).map_err(|_| "no table")?)
}

/// Index-specific locking with such an insert.
fn inserts_to_commit(alloc: Global) -> Result<Table, Fail> {
    with_commit(alloc, IM, r#"next = [{ mode = "X", span = "instant" }]"#)
}

/// The lock on the next key may be instant with an own mode there, 0 for none.
fn instant_with(own: u32) -> Change {
    Change::Request {
        row: Row::Insert,
        side: Side::Next,
        own_next: Some(1 << own),
        request: Some((2, Span::Instant)),
    }
}

#[test]
fn a_needless_lock_is_named(rt: HostRuntime) -> Result<(), Fail> {
    let table = inserts_to_commit(rt.alloc())?;
    let list = relaxations(rt.alloc(), &Gone(&table))?;
    let widest = Relaxed {
        change: instant_with(0),
        width: 9,
    };
    let other = Relaxed {
        change: instant_with(1),
        width: 4,
    };
    same!(rt; list.as_slice(), [widest, other].as_slice());
    let list = with_scripts(rt.alloc(), &Gone(&table), &list)?;
    assert!(rt; list.iter().all(|it| it.script.is_some()));
    let text = relaxed_text(rt.alloc(), &table, &list)?;
    assert!(rt; text.as_str().starts_with(FIRST));
    same!(rt; text.as_str().lines().count(), 8);
    Ok(())
}

/// The first relaxation, up to its script.
const FIRST: &str = "1. insert next own none: X instant
   in [rules.insert], next: request X for instant duration where the own mode on the next key is none
   more granted: 9, among them T2";

#[test]
fn a_tight_table_has_none(rt: HostRuntime) -> Result<(), Fail> {
    let alloc = rt.alloc();
    assert!(rt; relaxations(alloc, &Gone(Im))?.is_empty());
    same!(rt; relaxed_text(alloc, &Im, &[])?.as_str(), "tight: no single entry can be relaxed\n");
    let spots = spots_of(alloc, &Gone(Im))?;
    same!(rt; spots.len(), 59);
    let twins = twins_of(alloc, &Gone(Im), &Gone(Im), &spots)?;
    same!(rt; twins.len(), 3);
    assert!(rt; twins.contains(&Twin { mode: 2, twin: 2 }));
    Ok(())
}

/// What an insert requests on the next key where it has no lock there.
fn without_lock(mode: Mode, span: Span) -> Change {
    Change::Request {
        row: Row::Insert,
        side: Side::Next,
        own_next: Some(1),
        request: Some((mode, span)),
    }
}

#[test]
fn the_widest_come_first(rt: HostRuntime) -> Result<(), Fail> {
    let alloc = rt.alloc();
    let table = with_commit(alloc, KVL, r#"next = [{ mode = "IX", span = "instant" }]"#)?;
    let list = relaxations(alloc, &Gone(&table))?;
    same!(rt; list.len(), 7);
    for (it, width) in list.iter().zip([12, 11, 11, 4, 4, 4, 2].iter()) {
        same!(rt; it.width, *width);
    }
    same!(rt; list[0].change, without_lock(2, Span::Instant));
    same!(rt; list[1].change, without_lock(4, Span::Instant));
    same!(rt; list[2].change, without_lock(5, Span::Instant));
    same!(rt; list[6].change, without_lock(2, Span::Commit));
    Ok(())
}

/// How many of the changes of a table have an outcome.
fn number_of(list: &[Judged], outcome: Outcome) -> usize {
    list.iter().filter(|it| it.outcome == outcome).count()
}

#[test]
fn each_change_has_its_outcome(rt: HostRuntime) -> Result<(), Fail> {
    let alloc = rt.alloc();
    let table = inserts_to_commit(alloc)?;
    let mut changes = index_changes_of(alloc, &Gone(&table))?;
    same!(rt; changes.len(), 72);
    changes.push(Change::Compatible {
        requested: 3,
        held: 1,
        is_compatible: true,
    })?;
    let list = outcomes_of(alloc, &Gone(&table), &changes)?;
    same!(rt; list.len(), 73);
    assert!(rt;
        list.iter()
            .zip(changes.iter())
            .all(|(it, change)| it.change == *change)
    );
    same!(rt; number_of(&list, Outcome::BlocksMore), 16);
    same!(rt; number_of(&list, Outcome::LetsNothingMore), 8);
    same!(rt; number_of(&list, Outcome::Unsafe), 46);
    same!(rt; number_of(&list, Outcome::Relaxes(9)), 1);
    same!(rt; number_of(&list, Outcome::Relaxes(4)), 1);
    same!(rt; number_of(&list, Outcome::NoChange), 1);
    same!(rt; list[0].outcome, Outcome::BlocksMore);
    same!(rt; list[1].outcome, Outcome::Unsafe);
    same!(rt; list[72].outcome, Outcome::NoChange);
    Ok(())
}

/// How many pairs, conversions and requests of a table no schedule comes to.
fn unused_of(alloc: Global, text: &str) -> Result<[usize; 3], Fail> {
    let table = read(alloc, text.as_bytes()).map_err(|_| "no table")?;
    let mut counts = [0; 3];
    for entry in &unused_entries(alloc, &Gone(&table))? {
        match entry {
            Entry::Pair { .. } => counts[0] += 1,
            Entry::Conversion { .. } => counts[1] += 1,
            Entry::Request { .. } => counts[2] += 1,
        }
    }
    Ok(counts)
}

#[test]
fn unused_entries_are_named(rt: HostRuntime) -> Result<(), Fail> {
    let alloc = rt.alloc();
    same!(rt; unused_of(alloc, IM)?, [0, 0, 0]);
    same!(rt; unused_of(alloc, KVL)?, [12, 13, 4]);
    same!(rt; unused_of(alloc, RANGE_KEY)?, [69, 79, 16]);
    let kvl = read(alloc, KVL.as_bytes()).map_err(|_| "no table")?;
    let list = unused_entries(alloc, &Gone(&kvl))?;
    same!(rt; list[0], Entry::Pair { requested: 1, held: 1 });
    same!(rt; list[12], Entry::Conversion { held: 1, requested: 1 });
    same!(rt; list[25], Entry::Request { row: Row::Insert, side: Side::Current, own_next: 1 });
    Ok(())
}

#[test]
fn each_change_of_an_entry_has_a_reason(rt: HostRuntime) -> Result<(), Fail> {
    let alloc = rt.alloc();
    let table = inserts_to_commit(alloc)?;
    assert!(rt; changes_of_entry(alloc, &Gone(&table), "insert next own")?.is_empty());
    let changes = changes_of_entry(alloc, &Gone(&table), "insert next own none")?;
    same!(rt; changes.len(), 4);
    assert!(rt; changes.contains(&instant_with(0)));
    let list = reasons_for(alloc, &Gone(&table), &changes)?;
    same!(rt; list.iter().filter(|it| it.wrong.is_some()).count(), 3);
    assert!(rt; one_relaxes(&list));
    assert!(rt; !one_relaxes(&list[..1]));
    let text = reasons_text(alloc, &table, &list)?;
    assert!(rt; text.as_str().starts_with(UNSAFE));
    assert!(rt; text.as_str().ends_with(RELAXED));
    Ok(())
}

/// The first change of the entry, up to its script, and the last.
const UNSAFE: &str =
    "insert next own none: nothing\n   not safe, as this goes wrong\n   {\"format\":1,";

const RELAXED: &str = "insert next own none: X instant\n   a relaxation, more granted: 9\n";

#[test]
fn unused_entries_are_told_together(rt: HostRuntime) -> Result<(), Fail> {
    let entries = [
        Entry::Pair {
            requested: 1,
            held: 1,
        },
        Entry::Pair {
            requested: 1,
            held: 2,
        },
        Entry::Conversion {
            held: 2,
            requested: 1,
        },
        Entry::Request {
            row: Row::Delete,
            side: Side::Next,
            own_next: 0,
        },
    ];
    let text = unused_text(rt.alloc(), &Im, &entries)?;
    let lines = "unused: S beside S X\nunused: X held, S asked\nunused: delete next own none\n";
    same!(rt; text.as_str(), lines);
    Ok(())
}

/// What an update requests on its key.
fn update_to(request: Option<(Mode, Span)>) -> Change {
    Change::Request {
        row: Row::Update,
        side: Side::Current,
        own_next: None,
        request,
    }
}

#[test]
fn a_table_with_ghosts_has_relaxations(rt: HostRuntime) -> Result<(), Fail> {
    let alloc = rt.alloc();
    let table = Leaves(NextKeyGhost);
    assert!(rt; is_safe_index(alloc, &table)?);
    same!(rt; spots_of(alloc, &table)?.len(), 173);
    let spots = spots_of(alloc, &Leaves(RecordGap))?;
    same!(rt; spots.len(), 354);
    assert!(rt; spots.iter().any(|spot| spot.request.place == Place::Purge));
    let weaker = (1..table.count() + 1)
        .find(|mode| table.name(*mode) == "KW")
        .ok_or("no KW")?;
    let changes = [update_to(Some((weaker, Span::Commit))), update_to(None)];
    let list = outcomes_of(alloc, &table, &changes)?;
    same!(rt; list[0].outcome, Outcome::Relaxes(1));
    same!(rt; list[1].outcome, Outcome::Unsafe);
    same!(rt; unused_entries(alloc, &table)?.len(), 20);
    Ok(())
}
