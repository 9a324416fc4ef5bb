//! All changes of one entry of a table.
//!
//! The functions put the changes of their entries behind those so far, in order.
ghost use Rattle.std.specs.Prelude.{◌≡◌, ◌≤◌, ◌++◌, ◌^◌, IfOk, OnOk};
ghost use Rattle.kr_change.specs.Every.{changes_of, compatibles, compatibles_of, conversions, conversions_from, conversions_of, entry_of, is_same_request, offered, places, requests, requests_at, requests_by_own, requests_to, with_request};

use crate::allowed::moves_keys;
use crate::change::Change;
use kr_model::{Memory, Mode, Row, Side, Span};
use kr_protocol::Protocol;
use std::alloc::Global;

/// An entry of a table: what a row requests at a side.
#[derive(Clone, Copy)]
pub(crate) struct Entry {
    /// A change of it, whichever its request is.
    pub change: Change,
    /// What is requested now.
    pub now: Option<(Mode, Span)>,
}

/// What a row requests at a side, with these own modes on the next name, and now this.
pub(crate) fn entry_of(
    row: Row,
    side: Side,
    own_next: Option<u16>,
    now: Option<(Mode, Span)>,
) -> Entry
    ensures { result ≡ entry_of row side own_next now }
{
    Entry {
        change: Change::Request {
            row,
            side,
            own_next,
            request: None,
        },
        now,
    }
}

/// The change with another request, if it is of one.
fn with_request(request: Option<(Mode, Span)>, change: Change) -> Change
    ensures { result ≡ with_request request change }
{
    match change {
        Change::Request {
            row,
            side,
            own_next,
            request: _,
        } => Change::Request {
            row,
            side,
            own_next,
            request,
        },
        Change::GhostRequest {
            row,
            side,
            request: _,
        } => Change::GhostRequest { row, side, request },
        other => other,
    }
}

/// The places at which a protocol requests locks, in order.
fn places<P: Protocol>(protocol: &P) -> &'static [(Row, Side)]
    ensures { result.now ≡ places (P.table protocol.now) }
{
    if protocol.updates() {
        &[
            (Row::FetchHit, Side::Current),
            (Row::FetchMiss, Side::Next),
            (Row::ScanKey, Side::Current),
            (Row::ScanStop, Side::Next),
            (Row::Insert, Side::Current),
            (Row::Insert, Side::Next),
            (Row::Delete, Side::Current),
            (Row::Delete, Side::Next),
            (Row::Update, Side::Current),
        ]
    } else {
        &[
            (Row::FetchHit, Side::Current),
            (Row::FetchMiss, Side::Next),
            (Row::ScanKey, Side::Current),
            (Row::ScanStop, Side::Next),
            (Row::Insert, Side::Current),
            (Row::Insert, Side::Next),
            (Row::Delete, Side::Current),
            (Row::Delete, Side::Next),
        ]
    }
}

/// The own mode alone, as a bit.
pub(crate) fn only(own: Mode) -> u16
    requires { own ≤ 15 }
    ensures { result ≡ 2 ^ own }
{
    1 << own
}

/// Whether two requests are the same. Takes no memory.
pub fn is_same_request(request: Option<(Mode, Span)>, other: Option<(Mode, Span)>) -> bool
    ensures { result ≡ is_same_request request other }
{
    match (request, other) {
        (Some((mode, span)), Some((other_mode, other_span))) => {
            mode == other_mode && span == other_span
        }
        (None, None) => true,
        _ => false,
    }
}

/// The entry with another request, if it is another.
fn offer(
    changes: &mut Vec<Change>,
    entry: Entry,
    request: Option<(Mode, Span)>,
) -> Result<(), Memory>
    ensures { OnOk result (changes.new.items ≡ changes.old.items ++ offered entry request) }
{
    if !is_same_request(request, entry.now) {
        changes.push(with_request(request, entry.change))?;
    }
    Ok(())
}

/// The entry with each other request.
pub(crate) fn requests_to<P: Protocol>(
    protocol: &P,
    changes: &mut Vec<Change>,
    entry: Entry,
) -> Result<(), Memory>
    ensures { OnOk result (changes.new.items ≡ changes.old.items ++ requests_to (P.table protocol.now) entry) }
{
    offer(changes, entry, None)?;
    for mode in 1..protocol.count() + 1 {
        offer(changes, entry, Some((mode, Span::Instant)))?;
        offer(changes, entry, Some((mode, Span::Commit)))?;
    }
    Ok(())
}

/// The requests of a row that moves keys, for each own mode on the next name.
pub(crate) fn requests_by_own<P: Protocol>(
    protocol: &P,
    changes: &mut Vec<Change>,
    row: Row,
    side: Side,
) -> Result<(), Memory>
    ensures { OnOk result (changes.new.items ≡ changes.old.items ++ requests_by_own (P.table protocol.now) row side) }
{
    for own in 0..protocol.count() + 1 {
        let now = protocol.ask(row, side, own);
        let entry = entry_of(row, side, Some(only(own)), now);
        requests_to(protocol, changes, entry)?;
    }
    Ok(())
}

/// The requests of a row at a side.
fn requests_at<P: Protocol>(
    protocol: &P,
    changes: &mut Vec<Change>,
    row: Row,
    side: Side,
) -> Result<(), Memory>
    ensures { OnOk result (changes.new.items ≡ changes.old.items ++ requests_at (P.table protocol.now) (row, side)) }
{
    if moves_keys(row) {
        requests_by_own(protocol, changes, row, side)
    } else {
        let now = protocol.ask(row, side, 0);
        requests_to(protocol, changes, entry_of(row, side, None, now))
    }
}

/// All requests.
fn requests<P: Protocol>(protocol: &P, changes: &mut Vec<Change>) -> Result<(), Memory>
    ensures { OnOk result (changes.new.items ≡ changes.old.items ++ requests (P.table protocol.now)) }
{
    for place in places(protocol) {
        let (row, side) = *place;
        requests_at(protocol, changes, row, side)?;
    }
    Ok(())
}

/// The conversions of a held and a requested mode to each other mode.
fn conversions_from<P: Protocol>(
    protocol: &P,
    changes: &mut Vec<Change>,
    held: Mode,
    requested: Mode,
) -> Result<(), Memory>
    requires held { held ≤ (P.table protocol.now).count }
    requires requested { requested ≤ (P.table protocol.now).count }
    ensures { OnOk result (changes.new.items ≡ changes.old.items ++ conversions_from (P.table protocol.now) held requested) }
{
    let now = protocol.convert(held, requested);
    for mode in 1..protocol.count() + 1 {
        if mode != now {
            changes.push(Change::Convert {
                held,
                requested,
                mode,
            })?;
        }
    }
    Ok(())
}

/// The conversions of a held mode.
fn conversions_of<P: Protocol>(
    protocol: &P,
    changes: &mut Vec<Change>,
    held: Mode,
) -> Result<(), Memory>
    requires { held ≤ (P.table protocol.now).count }
    ensures { OnOk result (changes.new.items ≡ changes.old.items ++ conversions_of (P.table protocol.now) held) }
{
    for requested in 1..protocol.count() + 1 {
        conversions_from(protocol, changes, held, requested)?;
    }
    Ok(())
}

/// All conversions.
pub(crate) fn conversions<P: Protocol>(
    protocol: &P,
    changes: &mut Vec<Change>,
) -> Result<(), Memory>
    ensures { OnOk result (changes.new.items ≡ changes.old.items ++ conversions (P.table protocol.now)) }
{
    for held in 1..protocol.count() + 1 {
        conversions_of(protocol, changes, held)?;
    }
    Ok(())
}

/// The pairs of a requested mode and each held one: compatible where they aren't, and the other way round.
fn compatibles_of<P: Protocol>(
    protocol: &P,
    changes: &mut Vec<Change>,
    requested: Mode,
) -> Result<(), Memory>
    requires { requested ≤ (P.table protocol.now).count }
    ensures { OnOk result (changes.new.items ≡ changes.old.items ++ compatibles_of (P.table protocol.now) requested) }
{
    for held in 1..protocol.count() + 1 {
        changes.push(Change::Compatible {
            requested,
            held,
            is_compatible: !protocol.ok(requested, held),
        })?;
    }
    Ok(())
}

/// All pairs.
pub(crate) fn compatibles<P: Protocol>(
    protocol: &P,
    changes: &mut Vec<Change>,
) -> Result<(), Memory>
    ensures { OnOk result (changes.new.items ≡ changes.old.items ++ compatibles (P.table protocol.now)) }
{
    for requested in 1..protocol.count() + 1 {
        compatibles_of(protocol, changes, requested)?;
    }
    Ok(())
}

/// All changes of one entry of a table whose deletes leave no ghosts, each once, and none that changes nothing: each pair of modes made compatible, or not; each
/// conversion to each other mode; and at each place, for rows that move keys with each own mode on the next name, each
/// other request. They come in this order, rows and modes rising. The only fault is that a growth was refused.
pub fn changes_of<P: Protocol>(alloc: Global, protocol: &P) -> Result<Vec<Change>, Memory>
    ensures { IfOk result (λ list. list.items ≡ changes_of (P.table protocol.now)) }
{
    let mut changes = Vec::new(alloc);
    compatibles(protocol, &mut changes)?;
    conversions(protocol, &mut changes)?;
    requests(protocol, &mut changes)?;
    Ok(changes)
}
