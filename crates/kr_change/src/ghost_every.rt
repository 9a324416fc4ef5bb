//! All changes of one entry of a table with ghosts, and of a table of either kind.
//!
//! The functions put the changes of their entries behind those so far, in order.
ghost use Rattle.std.specs.Prelude.{◌≡◌, ◌≤◌, ◌++◌, IfOk, OnOk};
ghost use Rattle.kr_change.specs.GhostEvery.{all_heirs, ghost_changes_of, ghost_places, ghost_requests, ghost_requests_at, heirs, heirs_from, hits, index_changes_of, is_by_own, misses, own_rows, requests_of, revives};

use crate::change::{Change, GhostRow};
use crate::every::{
    Entry, changes_of, compatibles, conversions, entry_of, only, requests_by_own, requests_to,
};
use kr_ghost::Vain;
use kr_ghost_protocol::GhostProtocol;
use kr_kinds::IndexProtocol;
use kr_model::{Memory, Mode, Row, Side, Span};
use std::alloc::Global;

/// The places at which a protocol requests locks in rows of every table, in order.
fn ghost_places<P: GhostProtocol>(protocol: &P) -> &'static [(Row, Side)]
    ensures { result.now ≡ ghost_places (P.ghosts protocol.now) }
{
    if protocol.updates() {
        &[
            (Row::FetchHit, Side::Current),
            (Row::FetchMiss, Side::Next),
            (Row::ScanKey, Side::Current),
            (Row::ScanStop, Side::Next),
            (Row::Insert, Side::Current),
            (Row::Insert, Side::Next),
            (Row::Delete, Side::Current),
            (Row::Update, Side::Current),
        ]
    } else {
        &[
            (Row::FetchHit, Side::Current),
            (Row::FetchMiss, Side::Next),
            (Row::ScanKey, Side::Current),
            (Row::ScanStop, Side::Next),
            (Row::Insert, Side::Current),
            (Row::Insert, Side::Next),
            (Row::Delete, Side::Current),
        ]
    }
}

/// Whether a row goes by the own mode on the next name.
fn is_by_own(row: Row) -> bool
    ensures { result ≡ is_by_own row }
{
    row == Row::Insert
}

/// The requests of a row at a side.
fn ghost_requests_at<P: GhostProtocol>(
    protocol: &P,
    changes: &mut Vec<Change>,
    row: Row,
    side: Side,
) -> Result<(), Memory>
    ensures { OnOk result (changes.new.items ≡ changes.old.items ++ ghost_requests_at (P.ghosts protocol.now) (row, side)) }
{
    if is_by_own(row) {
        requests_by_own(protocol, changes, row, side)
    } else {
        let now = protocol.ask(row, side, 0);
        requests_to(protocol, changes, entry_of(row, side, None, now))
    }
}

/// The requests of the rows of every table.
fn ghost_requests<P: GhostProtocol>(protocol: &P, changes: &mut Vec<Change>) -> Result<(), Memory>
    ensures { OnOk result (changes.new.items ≡ changes.old.items ++ ghost_requests (P.ghosts protocol.now)) }
{
    for place in ghost_places(protocol) {
        let (row, side) = *place;
        ghost_requests_at(protocol, changes, row, side)?;
    }
    Ok(())
}

/// A row that only tables with ghosts have, with each other request than this.
fn requests_of<P: GhostProtocol>(
    protocol: &P,
    changes: &mut Vec<Change>,
    row: GhostRow,
    side: Side,
    now: Option<(Mode, Span)>,
) -> Result<(), Memory>
    ensures { OnOk result (changes.new.items ≡ changes.old.items ++ requests_of (P.ghosts protocol.now) row side now) }
{
    let change = Change::GhostRequest {
        row,
        side,
        request: None,
    };
    requests_to(protocol, changes, Entry { change, now })
}

/// The requests of an insert of a ghost.
fn revives<P: GhostProtocol>(protocol: &P, changes: &mut Vec<Change>) -> Result<(), Memory>
    ensures { OnOk result (changes.new.items ≡ changes.old.items ++ revives (P.ghosts protocol.now)) }
{
    let current = protocol.revive();
    let next = protocol.revive_next();
    requests_of(protocol, changes, GhostRow::Revive, Side::Current, current)?;
    requests_of(protocol, changes, GhostRow::Revive, Side::Next, next)
}

/// The requests of the row of a vain insert, if there is one.
fn hits<P: GhostProtocol>(
    protocol: &P,
    changes: &mut Vec<Change>,
    row: Option<Option<(Mode, Span)>>,
) -> Result<(), Memory>
    ensures { OnOk result (changes.new.items ≡ changes.old.items ++ hits (P.ghosts protocol.now) row) }
{
    let Some(current) = row else {
        return Ok(());
    };
    let next = protocol.insert_hit_next();
    requests_of(
        protocol,
        changes,
        GhostRow::InsertHit,
        Side::Current,
        current,
    )?;
    requests_of(protocol, changes, GhostRow::InsertHit, Side::Next, next)
}

/// The requests of the row of a vain delete or update, if there is one.
fn misses<P: GhostProtocol>(
    protocol: &P,
    changes: &mut Vec<Change>,
    row: GhostRow,
    asked: Option<Option<(Mode, Span)>>,
) -> Result<(), Memory>
    ensures { OnOk result (changes.new.items ≡ changes.old.items ++ misses (P.ghosts protocol.now) row asked) }
{
    match asked {
        Some(now) => requests_of(protocol, changes, row, Side::Next, now),
        None => Ok(()),
    }
}

/// The requests of the rows that only tables with ghosts have.
fn own_rows<P: GhostProtocol>(protocol: &P, changes: &mut Vec<Change>) -> Result<(), Memory>
    ensures { OnOk result (changes.new.items ≡ changes.old.items ++ own_rows (P.ghosts protocol.now)) }
{
    let hit = protocol.vain(Vain::InsertHit);
    let deleted = protocol.vain(Vain::DeleteMiss);
    let updated = protocol.vain(Vain::UpdateMiss);
    revives(protocol, changes)?;
    hits(protocol, changes, hit)?;
    misses(protocol, changes, GhostRow::DeleteMiss, deleted)?;
    misses(protocol, changes, GhostRow::UpdateMiss, updated)
}

/// Each other mode, or none, inherited by who has this one.
fn heirs_from<P: GhostProtocol>(
    protocol: &P,
    changes: &mut Vec<Change>,
    held: Mode,
) -> Result<(), Memory>
    requires { held ≤ (P.table protocol.now).count }
    ensures { OnOk result (changes.new.items ≡ changes.old.items ++ heirs_from (P.ghosts protocol.now) held) }
{
    let now = protocol.heir(held);
    for mode in 0..protocol.count() + 1 {
        if mode != now {
            changes.push(Change::Heir {
                held: only(held),
                mode,
            })?;
        }
    }
    Ok(())
}

/// What is inherited, where anything is.
fn heirs<P: GhostProtocol>(protocol: &P, changes: &mut Vec<Change>) -> Result<(), Memory>
    ensures { OnOk result (changes.new.items ≡ changes.old.items ++ heirs (P.ghosts protocol.now)) }
{
    if !protocol.inherits() {
        return Ok(());
    }
    all_heirs(protocol, changes)
}

/// What is inherited by who has each mode.
fn all_heirs<P: GhostProtocol>(protocol: &P, changes: &mut Vec<Change>) -> Result<(), Memory>
    ensures { OnOk result (changes.new.items ≡ changes.old.items ++ all_heirs (P.ghosts protocol.now)) }
{
    for held in 1..protocol.count() + 1 {
        heirs_from(protocol, changes, held)?;
    }
    Ok(())
}

/// All changes of one entry of a table with ghosts.
fn ghost_changes_of<P: GhostProtocol>(alloc: Global, protocol: &P) -> Result<Vec<Change>, Memory>
    ensures { IfOk result (λ list. list.items ≡ ghost_changes_of (P.ghosts protocol.now)) }
{
    let mut changes = Vec::new(alloc);
    compatibles(protocol, &mut changes)?;
    conversions(protocol, &mut changes)?;
    ghost_requests(protocol, &mut changes)?;
    own_rows(protocol, &mut changes)?;
    heirs(protocol, &mut changes)?;
    Ok(changes)
}

/// All changes of one entry of a table of either kind, each once, and none that changes nothing: those of `changes_of`; and where
/// deletes leave ghosts none of what a delete requests on the next name or by own modes, but those of each row that only such
/// tables have, and of what is inherited by who has each mode. The only fault is that a growth was refused.
pub fn index_changes_of<P: IndexProtocol>(
    alloc: Global,
    protocol: &P,
) -> Result<Vec<Change>, Memory>
    ensures { IfOk result (λ list. list.items ≡ index_changes_of (P.index protocol.now)) }
{
    if protocol.leaves_ghosts() {
        ghost_changes_of(alloc, protocol)
    } else {
        changes_of(alloc, protocol)
    }
}
