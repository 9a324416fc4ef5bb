//! What a closed engine shows.
ghost use Rattle.std.specs.Prelude.{◌≡◌, ◌<◌, true, false, length, Some, IfOk, All, slice_get};
ghost use Rattle.std.specs.List.{list_all};
ghost use Rattle.kr_model.specs.Protocol.{Protocol};
ghost use Rattle.kr_model.specs.Map.{Map};
ghost use Rattle.kr_model.specs.State.{State};
ghost use Rattle.kr_model.specs.Log.{log_after, no_log};
ghost use Rattle.kr_model.specs.Run.{programs};
ghost use Rattle.kr_records.specs.Cores.{CountsAre};
ghost use Rattle.kr_records.specs.Histories.{IsHistory, events_with_replies};
ghost use Rattle.kr_records.specs.Closed.{fits, StandsIn};

use crate::known::Known;
use crate::name::{EngineName, Entry};
use crate::notes::SeatNote;
use crate::row::PlaceRow;
use crate::seen::Seen;
use crate::share::Share;
use kr_model::{Mode, Name, Pairs, Programs, Txn, Txns};
use kr_txn::Log;
use std::alloc::{AllocError, Global};

/// The history of an engine.
#[derive(Debug, Drop)]
pub struct History {
    /// The entries in order of place.
    pub entries: Vec<Entry>,
    /// The index after them, keys rising.
    pub index: Pairs,
    /// The transactions that are active after them, rising.
    pub unfinished: Txns,
    /// The locks that are held after them, each with its mode, by name, the end last, and then by transaction.
    pub locks: Vec<((Name, Txn), Mode)>,
    /// What is noted of each seat, by its number.
    pub seats: Vec<SeatNote>,
}

impl History {
    /// The programs of the transactions that committed, in commit order; or an error where a growth is refused. They are made
    /// of the entries anew at each call.
    pub fn programs(&self, alloc: Global) -> Result<Programs, AllocError>
        ensures { IfOk result (λ ps. (p : Protocol) (opening : Map) (s : State) → IsHistory p opening self.now.entries.items s → ps ≡ programs (events_with_replies self.now.entries.items)) }
    {
        programs_of(alloc, &self.entries)
    }
}

/// The programs of the transactions that committed in these steps, in commit order, as a log of them has them.
fn programs_of(alloc: Global, entries: &[Entry]) -> Result<Programs, AllocError>
    ensures { IfOk result (λ ps. ps ≡ (log_after no_log (events_with_replies entries.now)).committed) }
{
    let mut log = Log::new(alloc);
    for entry in entries {
        log.make_room(entry.event.txn)?;
        log.note(entry.event, entry.reply.try_copy(alloc)?);
    }
    Ok(log.into_programs())
}

/// Why an engine's history isn't shown.
#[derive(Debug, Drop)]
pub enum CloseFault {
    /// A growth was refused.
    Memory,
    /// A share doesn't fit the engine: its seat wasn't given or hasn't left, the entries of its seat are more or fewer than
    /// its receipts, or it has seen more than there is.
    Place,
}

/// Whether these shares fit. Where they do, and each seat counts its entries, each stands in the history.
pub fn fit_all<K: EngineName>(seats: &[SeatNote], history: &Seen<K>, shares: &[Share<K>]) -> bool
    ensures fits { result ≡ list_all (fits seats.now history.now) shares.now }
    ensures stand { CountsAre seats.now history.now → result ≡ true → All (StandsIn seats.now history.now) shares.now }
{
    for share in shares {
        if !is_fitting(seats, history, share) {
            return false;
        }
    }
    true
}

/// Whether a share fits. Where it does, and each seat counts its entries, it stands in the history.
fn is_fitting<K: EngineName>(seats: &[SeatNote], history: &Seen<K>, share: &Share<K>) -> bool
    ensures fits { result ≡ fits seats.now history.now share.now }
    ensures stands { CountsAre seats.now history.now → result ≡ true → StandsIn seats.now history.now share.now }
{
    if share.seat() >= seats.len() {
        return false;
    }
    let note = seats[share.seat()];
    if !note.left || note.count != share.count() {
        return false;
    }
    if share.view().len() > history.len() {
        return false;
    }
    share.view().lemma_is_prefix_of(history);
    true
}

/// Copies of the entries that are known of this row, in order of place, and of what is noted of seats; or an error where a
/// growth is refused.
pub fn copies_of<K: EngineName>(
    alloc: Global,
    row: &PlaceRow,
    known: &Seen<K>,
    seats: &[SeatNote],
) -> Result<(Vec<Entry>, Vec<SeatNote>), AllocError>
    requires { row.now ≡ K.places }
    ensures entries { IfOk result (λ r. r.0.items ≡ known.now) }
    ensures seats { IfOk result (λ r. r.1.items ≡ seats.now) }
{
    let seats = seats.to_vec(alloc)?;
    let entries = copies(alloc, row, known)?;
    Ok((entries, seats))
}

/// A copy of each entry that is known, in order of place.
fn copies<K: EngineName>(
    alloc: Global,
    row: &PlaceRow,
    view: &Seen<K>,
) -> Result<Vec<Entry>, AllocError>
    requires { row.now ≡ K.places }
    ensures { IfOk result (λ es. es.items ≡ view.now) }
{
    let known = view.len();
    let mut entries = Vec::with_capacity(alloc, known)?;
    for place in 0..known {
        let copy = copy_of(alloc, entry_at(row, view, place))?;
        entries.push(copy)?;
    }
    Ok(entries)
}

/// What stands at a place that is known.
fn entry_at<'a, K: EngineName>(row: &'a PlaceRow, view: &Seen<K>, place: usize) -> &'a Entry
    requires row { row.now ≡ K.places }
    requires place { place < length view.now }
    ensures { slice_get view.now place ≡ Some result.now }
{
    let _within = view.len();
    let cell = row.cell(place);
    let mut note = cell.note();
    Known::inform(&mut note, &view.at(place));
    cell.get_as(&mut note).unwrap()
}

/// A copy of an entry.
fn copy_of(alloc: Global, entry: &Entry) -> Result<Entry, AllocError>
    ensures { IfOk result (λ copy. copy ≡ entry.now) }
{
    Ok(Entry {
        seat: entry.seat,
        event: entry.event,
        reply: entry.reply.try_copy(alloc)?,
    })
}
