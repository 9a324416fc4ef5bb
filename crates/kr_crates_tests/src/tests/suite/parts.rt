//! The parts for a table, and whether one script tells two tables apart.
use super::asks_nothing;
use kr_alike::alike;
use kr_apart::{Flat, parts, tells_apart};
use kr_change::{Change, Changed, GhostRow, changes_of};
use kr_ghost_protocol::NextKeyGhost;
use kr_kinds::{Gone, Leaves};
use kr_model::{Event, Op, Row, Side, Span};
use kr_protocol::{Im, Kvl};
use kr_table::Table;
use std::alloc::Global;
use std::test::Fail;

/// The changes of a table that some schedule tells apart. For the others the search goes through all that it may.
fn not_alike(alloc: Global, table: &Table) -> Result<Vec<Change>, Fail> {
    let gone = Gone(table);
    let mut list = Vec::new(alloc);
    for change in changes_of(alloc, table)?.iter() {
        if let Some(changed) = Changed::new(&gone, *change) {
            if !alike(alloc, table, &changed)? {
                list.push(*change)?;
            }
        }
    }
    Ok(list)
}

/// The changes of a table that requests nothing: a lock that one of the eight rows and sides holds to commit is told apart, where its
/// transaction holds none before.
#[test]
fn changes_are_told_apart(rt: HostRuntime) -> Result<(), Fail> {
    let table = asks_nothing(rt.alloc())?;
    let flat = Flat::of(&Gone(&table));
    let changes = not_alike(rt.alloc(), &table)?;
    let parts = parts(rt.alloc(), &flat, &changes)?;
    let mut told = vec![in rt.alloc(); false; changes.len()]?;
    let mut steps: usize = 0;
    for part in parts.iter() {
        steps = steps.saturating_add(part.events.len());
        for number in part.tells.iter() {
            if let Some(is_told) = told.get_mut(*number) {
                *is_told = true;
            }
        }
    }
    let told = told.iter().filter(|is_told| **is_told).count();
    assert_eq!(rt; (changes.len(), told, parts.len(), steps), (8, 8, 7, 18));
    Ok(())
}

/// With intents two may insert into one gap, without them not.
#[test]
fn a_script_tells_two_tables_apart(rt: HostRuntime) -> Result<(), Fail> {
    let alloc = rt.alloc();
    let opening = [(10, 1)];
    let script = [
        Event {
            txn: 1,
            op: Op::Insert(8, 2),
        },
        Event {
            txn: 2,
            op: Op::Insert(6, 3),
        },
    ];
    assert!(rt; tells_apart(alloc, &Gone(Im), &Gone(Kvl), &opening, &script)?);
    assert!(rt; tells_apart(alloc, &Gone(Kvl), &Gone(Im), &opening, &script)?);
    assert!(rt; !tells_apart(alloc, &Gone(Kvl), &Gone(Kvl), &opening, &script)?);
    assert!(rt; !tells_apart(alloc, &Gone(Im), &Gone(Kvl), &opening, &script[..1])?);
    assert!(rt; !tells_apart(alloc, &Gone(Im), &Gone(Kvl), &[(10, 1), (10, 2)], &script)?);
    Ok(())
}

/// Modes of `NextKeyGhost`: KS is 1, KX 5. An insert of a ghost that requests nothing, or tests KX and doesn't keep it; KX beside
/// KX; a fetch of a name that locks it exclusively; and a delete that requests nothing.
#[rattlefmt::skip]
const WITH_GHOSTS: [Change; 5] = [
    Change::GhostRequest { row: GhostRow::Revive, side: Side::Current, request: None },
    Change::GhostRequest { row: GhostRow::Revive, side: Side::Current, request: Some((5, Span::Instant)) },
    Change::Compatible { requested: 5, held: 5, is_compatible: true },
    Change::Request { row: Row::FetchHit, side: Side::Current, own_next: None, request: Some((5, Span::Commit)) },
    Change::Request { row: Row::Delete, side: Side::Current, own_next: None, request: None },
];

/// With ghosts each of some changes has a part, which tells it apart by the machine.
#[test]
fn changes_with_ghosts_are_told_apart(rt: HostRuntime) -> Result<(), Fail> {
    let alloc = rt.alloc();
    let table = Leaves(NextKeyGhost);
    let mut told: usize = 0;
    for part in parts(alloc, &Flat::of(&table), &WITH_GHOSTS)?.iter() {
        for number in part.tells.iter() {
            let Some(change) = WITH_GHOSTS.get(*number).copied() else {
                panic!(rt; "no such number");
            };
            let Some(changed) = Changed::new(&table, change) else {
                panic!(rt; "no change of the table");
            };
            assert!(rt; tells_apart(alloc, &table, &changed, &part.opening, &part.events)?);
            told = told.saturating_add(1);
        }
    }
    assert!(rt; told >= WITH_GHOSTS.len());
    Ok(())
}

/// Transaction 1 deletes a key, and 2 reads the gap below it. Where the key stays as a ghost, its lock blocks the read, and where it goes
/// not. But these are tables of two kinds, which no script tells apart.
#[test]
fn tables_of_two_kinds_are_not_compared(rt: HostRuntime) -> Result<(), Fail> {
    let alloc = rt.alloc();
    let (leaves, gone) = (Leaves(NextKeyGhost), Gone(NextKeyGhost));
    let script = [
        Event {
            txn: 1,
            op: Op::Delete(20),
        },
        Event {
            txn: 2,
            op: Op::Fetch(15),
        },
    ];
    let opening = [(20, 1), (30, 2)];
    assert!(rt; !tells_apart(alloc, &leaves, &gone, &opening, &script)?);
    assert!(rt; !tells_apart(alloc, &gone, &leaves, &opening, &script)?);
    Ok(())
}
