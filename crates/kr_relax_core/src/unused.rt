//! Entries of a table that no schedule comes to.
//!
//! The functions put their entries behind those so far, in order.
ghost use Rattle.std.specs.Prelude.{◌≡◌, ◌++◌, ◌↔◌, ◌≤◌, IsTrue, IfOk, IfSome, OnOk};
ghost use Rattle.std.specs.List.{flat_map};
ghost use Rattle.kr_kinds.specs.Kinds.{table_of};
ghost use Rattle.kr_relax_core.specs.Met.{IsMetBy};
ghost use Rattle.kr_relax_core.specs.Unused.{conversions, conversions_from, deletes, entries_of, inserts, mode_asked, pairs, pairs_with, requests, requests_at, AreUnused, ComesTo, IsAskedAt, IsRequestedAt, IsTestedAt, IsUsed};

use crate::place::{Place, Request, Spot, given_mode, heir, request_at};
use crate::spots::spots_of;
use kr_kinds::IndexProtocol;
use kr_model::{Memory, Mode, Row, Side};
use kr_protocol::Protocol;
use std::alloc::Global;

/// An entry of a table.
#[derive(Clone, Copy, Debug, PartialEq, Eq)]
pub enum Entry {
    /// Whether a requested mode is compatible with another transaction's held one.
    Pair {
        requested: Mode,
        held: Mode,
    },
    /// What a held mode and a requested one convert to.
    Conversion {
        held: Mode,
        requested: Mode,
    },
    /// What an insert or a delete requests at a side with this own mode on the next name, 0 for none.
    Request {
        row: Row,
        side: Side,
        own_next: Mode,
    },
}

/// A requested mode with each held one.
fn pairs_with<P: Protocol>(
    protocol: &P,
    entries: &mut Vec<Entry>,
    requested: Mode,
) -> Result<(), Memory>
    ensures { OnOk result (entries.new.items ≡ entries.old.items ++ pairs_with (P.table protocol.now) requested) }
{
    for held in 1..protocol.count() + 1 {
        entries.push(Entry::Pair { requested, held })?;
    }
    Ok(())
}

/// All pairs.
fn pairs<P: Protocol>(protocol: &P, entries: &mut Vec<Entry>) -> Result<(), Memory>
    ensures { OnOk result (entries.new.items ≡ entries.old.items ++ pairs (P.table protocol.now)) }
{
    for requested in 1..protocol.count() + 1 {
        pairs_with(protocol, entries, requested)?;
    }
    Ok(())
}

/// A held mode with each requested one.
fn conversions_from<P: Protocol>(
    protocol: &P,
    entries: &mut Vec<Entry>,
    held: Mode,
) -> Result<(), Memory>
    ensures { OnOk result (entries.new.items ≡ entries.old.items ++ conversions_from (P.table protocol.now) held) }
{
    for requested in 1..protocol.count() + 1 {
        entries.push(Entry::Conversion { held, requested })?;
    }
    Ok(())
}

/// All conversions.
fn conversions<P: Protocol>(protocol: &P, entries: &mut Vec<Entry>) -> Result<(), Memory>
    ensures { OnOk result (entries.new.items ≡ entries.old.items ++ conversions (P.table protocol.now)) }
{
    for held in 1..protocol.count() + 1 {
        conversions_from(protocol, entries, held)?;
    }
    Ok(())
}

/// What a row requests at a side, with each own mode on the next name.
fn requests_at<P: Protocol>(
    protocol: &P,
    entries: &mut Vec<Entry>,
    row: Row,
    side: Side,
) -> Result<(), Memory>
    ensures { OnOk result (entries.new.items ≡ entries.old.items ++ requests_at (P.table protocol.now) (row, side)) }
{
    for own_next in 0..protocol.count() + 1 {
        entries.push(Entry::Request {
            row,
            side,
            own_next,
        })?;
    }
    Ok(())
}

/// Requests of an insert.
fn insert_requests<P: Protocol>(protocol: &P, entries: &mut Vec<Entry>) -> Result<(), Memory>
    ensures { OnOk result (entries.new.items ≡ entries.old.items ++ flat_map (requests_at (P.table protocol.now)) inserts) }
{
    requests_at(protocol, entries, Row::Insert, Side::Current)?;
    requests_at(protocol, entries, Row::Insert, Side::Next)
}

/// Requests of a delete, where it goes by the own mode on the next name.
fn delete_requests<P: IndexProtocol>(protocol: &P, entries: &mut Vec<Entry>) -> Result<(), Memory>
    ensures { OnOk result (entries.new.items ≡ entries.old.items ++ flat_map (requests_at (table_of (P.index protocol.now))) (deletes (P.index protocol.now))) }
{
    if protocol.leaves_ghosts() {
        return Ok(());
    }
    requests_at(protocol, entries, Row::Delete, Side::Current)?;
    requests_at(protocol, entries, Row::Delete, Side::Next)
}

/// All entries.
fn entries_of<P: IndexProtocol>(alloc: Global, protocol: &P) -> Result<Vec<Entry>, Memory>
    ensures { IfOk result (λ list. list.items ≡ entries_of (P.index protocol.now)) }
{
    let mut entries = Vec::new(alloc);
    pairs(protocol, &mut entries)?;
    conversions(protocol, &mut entries)?;
    insert_requests(protocol, &mut entries)?;
    delete_requests(protocol, &mut entries)?;
    Ok(entries)
}

/// The mode that is requested, or inherited, if any is.
fn mode_asked<P: IndexProtocol>(protocol: &P, request: Request) -> Option<Mode>
    requires own { request.own ≤ (table_of (P.index protocol.now)).count }
    requires next { request.next ≤ (table_of (P.index protocol.now)).count }
    ensures asked { result ≡ mode_asked (P.index protocol.now) request.place request.own request.next }
    ensures in_range { IfSome result (λ m. m ≤ (P.table protocol.now).count) }
{
    if request.place == Place::Purge {
        return Some(heir(protocol, request.next));
    }
    match request_at(protocol, request) {
        Some((mode, _)) => Some(mode),
        None => None,
    }
}

/// Whether a request is tested in this converted mode, beside this lock.
fn is_tested<P: IndexProtocol>(protocol: &P, spot: Spot, requested: Mode, held: Mode) -> bool
    requires own { spot.request.own ≤ (table_of (P.index protocol.now)).count }
    requires next { spot.request.next ≤ (table_of (P.index protocol.now)).count }
    ensures { IsTrue result ↔ IsTestedAt (P.index protocol.now) requested held spot }
{
    match mode_asked(protocol, spot.request) {
        Some(mode) => { spot.held == held && protocol.convert(spot.request.own, mode) == requested }
        None => false,
    }
}

/// Whether one who holds a mode requests this, or inherits it.
fn is_asked<P: IndexProtocol>(protocol: &P, spot: Spot, held: Mode, requested: Mode) -> bool
    requires own { spot.request.own ≤ (table_of (P.index protocol.now)).count }
    requires next { spot.request.next ≤ (table_of (P.index protocol.now)).count }
    ensures { IsTrue result ↔ IsAskedAt (P.index protocol.now) held requested spot }
{
    match mode_asked(protocol, spot.request) {
        Some(mode) => mode == requested && spot.request.own == held,
        None => false,
    }
}

/// Whether a request is of a row at a side, by this own mode on the next name.
fn is_requested(spot: Spot, row: Row, side: Side, own_next: Mode) -> bool
    ensures { IsTrue result ↔ IsRequestedAt row side own_next spot }
{
    spot.request.place == Place::Row(row, side)
        && given_mode(row, side, spot.request.own, spot.request.next) == own_next
}

/// Whether a request comes to an entry.
fn comes_to<P: IndexProtocol>(protocol: &P, entry: Entry, spot: Spot) -> bool
    requires own { spot.request.own ≤ (table_of (P.index protocol.now)).count }
    requires next { spot.request.next ≤ (table_of (P.index protocol.now)).count }
    ensures { IsTrue result ↔ ComesTo (P.index protocol.now) entry spot }
{
    match entry {
        Entry::Pair { requested, held } => is_tested(protocol, spot, requested, held),
        Entry::Conversion { held, requested } => is_asked(protocol, spot, held, requested),
        Entry::Request {
            row,
            side,
            own_next,
        } => is_requested(spot, row, side, own_next),
    }
}

/// Whether some schedule comes to an entry.
fn is_used<P: IndexProtocol>(protocol: &P, spots: &[Spot], entry: Entry) -> bool
    requires { IsMetBy (P.index protocol.now) spots.now }
    ensures { IsTrue result ↔ IsUsed (P.index protocol.now) entry }
{
    for at in 0..spots.len() {
        if comes_to(protocol, entry, spots[at]) {
            return true;
        }
    }
    false
}

/// The entries of a protocol of either kind that no schedule comes to, each once: pairs of modes that no request tests, by the
/// requested mode and then the held one; conversions of modes that nobody who holds the one mode comes to request the other in, or
/// to inherit it, by the held mode and then the requested one; and what inserts request with own modes on the next name with which
/// nobody comes to make the request, and without ghosts what deletes do, of each row the current key before the next one, own
/// modes rising. Schedules are followed by one name and the next one, as in `spots_of`. The error is memory alone.
pub fn unused_entries<P: IndexProtocol>(alloc: Global, protocol: &P) -> Result<Vec<Entry>, Memory>
    ensures { IfOk result (λ list. AreUnused (P.index protocol.now) list.items) }
{
    let spots = spots_of(alloc, protocol)?;
    let entries = entries_of(alloc, protocol)?;
    let mut list = Vec::new(alloc);
    for at in 0..entries.len() {
        let entry = entries[at];
        if !is_used(protocol, &spots, entry) {
            list.push(entry)?;
        }
    }
    Ok(list)
}
