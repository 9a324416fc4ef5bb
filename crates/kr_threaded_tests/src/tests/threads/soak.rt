//! Eight threads of three hundred transactions each, on sixteen keys, of which some are undone one change at a time: the
//! closed history is that of one run, and serializable.
ghost use Rattle.std.specs.Prelude.{◌≡◌};
ghost use Rattle.kr_model.specs.Map.{IsMap};
ghost use Rattle.kr_model.specs.KvlUpdate.{kvl_update};

use super::next;
use kr_engine::{
    Engine, EngineFault, EngineName, Entry, History, Op, PlaceRow, Reply, Seat, Share, Txn,
};
use kr_model::{Event, Refusal};
use kr_protocol::KvlUpdate;
use kr_serial::{Ran, judge, run};
use std::alloc::{AllocError, Global};
use std::marker::Brand;
use std::sync::Wait;
use std::test::Fail;
use std::thread;
use std::thread::Threads;

/// How many transactions each thread does. A run under checks takes ten times as long as the program's.
const EACH: u32 = 300;

/// An operation on one of sixteen keys.
fn operation_of(number: u64) -> Op {
    let key = (number >> 33) % 16;
    match (number >> 40) % 4 {
        0 => Op::Insert(key, number >> 50),
        1 => Op::Delete(key),
        2 => Op::Update(key, number >> 50),
        _ => Op::Fetch(key),
    }
}

/// Undoes up to two changes of a transaction, one at a time, and aborts it, which undoes the rest. Whether each
/// was done.
fn roll_back<K: EngineName, R: Wait>(rt: &R, seat: &mut Seat<'_, KvlUpdate, K>) -> bool {
    let mut good = true;
    for _ in 0..2u32 {
        match seat.call(rt, Op::Back) {
            Ok(_) => {}
            Err(EngineFault::Refused(Reply::Refused(Refusal::NothingLeft))) => {}
            Err(_) => good = false,
        }
    }
    seat.call(rt, Op::Abort).is_ok() && good
}

/// Four operations of a transaction and its commit, or an abort where a deadlock is told; every fourth is rolled back.
/// Whether each was done.
fn transact<K: EngineName, R: Wait>(rt: &R, seat: &mut Seat<'_, KvlUpdate, K>, txn: Txn) -> bool {
    if seat.begin(rt, txn).is_err() {
        return false;
    }
    let mut number = next(txn as u64);
    for _ in 0..4u32 {
        number = next(number);
        match seat.call(rt, operation_of(number)) {
            Ok(_) => {}
            Err(EngineFault::Deadlock(_)) => return seat.call(rt, Op::Abort).is_ok(),
            Err(_) => {
                // Others would wait for its locks.
                let _ = seat.call(rt, Op::Abort);
                return false;
            }
        }
    }
    if txn % 4 == 0 {
        return roll_back(rt, seat);
    }
    seat.call(rt, Op::Commit).is_ok()
}

/// A seat, and the first of its three hundred numbers.
#[derive(Drop)]
struct Job<'a, K: EngineName> {
    first: Txn,
    seat: Seat<'a, KvlUpdate, K>,
}

/// A seat's transactions, one after another. Its share, if each was ended.
fn work<K: EngineName, R: Wait>(rt: &R, job: Job<'_, K>) -> Option<Share<K>> {
    let Job { first, mut seat } = job;
    for number in 0..EACH {
        if !transact(rt, &mut seat, first.wrapping_add(number)) {
            return None;
        }
    }
    Some(seat.leave(rt))
}

/// Eight seats, with so many numbers each.
fn jobs_of<'a, K: EngineName, R: Wait>(
    rt: &R,
    alloc: Global,
    engine: &'a Engine<KvlUpdate, K>,
) -> Result<Vec<Job<'a, K>>, AllocError> {
    let mut jobs = Vec::new(alloc);
    for worker in 0..8u32 {
        jobs.push(Job {
            first: worker * EACH,
            seat: engine.seat(rt)?,
        })?;
    }
    Ok(jobs)
}

/// The shares, if all are there.
fn all_of<K: EngineName>(
    alloc: Global,
    shares: Vec<Option<Share<K>>>,
) -> Result<Option<Vec<Share<K>>>, AllocError> {
    let mut all = Vec::new(alloc);
    for share in shares {
        match share {
            Some(share) => all.push(share)?,
            None => return Ok(None),
        }
    }
    Ok(Some(all))
}

fn events_of(alloc: Global, entries: &[Entry]) -> Result<Vec<Event>, AllocError> {
    let mut events = Vec::with_capacity(alloc, entries.len())?;
    for entry in entries {
        events.push(entry.event)?;
    }
    Ok(events)
}

/// Whether two replies, neither of them a list, are the same.
fn is_same(one: &Reply, other: &Reply) -> bool {
    match (one, other) {
        (Reply::Found(value), Reply::Found(found)) => value == found,
        (Reply::Deleted(value), Reply::Deleted(deleted)) => value == deleted,
        (Reply::Updated(value), Reply::Updated(updated)) => value == updated,
        (Reply::Undone(left), Reply::Undone(remaining)) => left == remaining,
        (Reply::None, Reply::None)
        | (Reply::Done, Reply::Done)
        | (Reply::Duplicate, Reply::Duplicate)
        | (Reply::Absent, Reply::Absent)
        | (Reply::Committed, Reply::Committed)
        | (Reply::Aborted, Reply::Aborted) => true,
        (_, _) => false,
    }
}

/// Whether the entries have these replies.
fn have_replies(entries: &[Entry], replies: &[Reply]) -> bool {
    if entries.len() != replies.len() {
        return false;
    }
    for place in 0..entries.len() {
        if !is_same(&entries[place].reply, &replies[place]) {
            return false;
        }
    }
    true
}

/// Whether a history is the run of its events from the opening, with the same replies, index, locks and programs, and a
/// serial one.
fn is_replayed(alloc: Global, history: &History) -> Result<bool, Fail> {
    let entries = history.entries.as_slice();
    let events = events_of(alloc, entries)?;
    let ran = run(
        alloc,
        &KvlUpdate,
        &[(3, 1), (7, 2), (11, 3)],
        events.as_slice(),
    )
    .ok()
    .ok_or("run")?;
    let verdict = judge(alloc, &ran).ok().ok_or("judge")?;
    Ok(
        verdict.is_serial()
            && is_left(alloc, &ran, history)?
            && have_replies(entries, ran.replies.as_slice()),
    )
}

/// Whether a history has the index, the locks and the programs of a run, and neither has an unfinished transaction.
fn is_left(alloc: Global, ran: &Ran, history: &History) -> Result<bool, Fail> {
    let programs = format!(in alloc; "{:?}", ran.programs)?;
    let committed = format!(in alloc; "{:?}", history.programs(alloc)?)?;
    Ok(
        ran.index.as_slice() == history.index.as_slice()
            && ran.locks.as_slice() == history.locks.as_slice()
            && programs == committed
            && ran.unfinished.as_slice().is_empty()
            && history.unfinished.as_slice().is_empty(),
    )
}

/// Whether a key was updated, and a change undone before the last of its transaction.
fn has_both(entries: &[Entry]) -> bool {
    let mut updated = false;
    let mut undone = false;
    for entry in entries {
        match entry.reply {
            Reply::Updated(_) => updated = true,
            Reply::Undone(left) if left > 0 => undone = true,
            _ => {}
        }
    }
    updated && undone
}

/// The closed history of an engine in which eight threads have done their transactions, or nothing where one wasn't ended.
fn soaked<K: EngineName + Send + Sync, R: Threads + Wait + Sync>(
    rt: &R,
    alloc: Global,
    opening: &[(u64, u64)],
    row: PlaceRow,
) -> Result<Option<History>, AllocError>
    requires row { row ≡ K.places }
    requires opening { opening.now ≡ K.opening }
    requires table { kvl_update ≡ K.table }
    requires is_map { IsMap opening.now }
{
    let mut engine = Engine::<KvlUpdate, K>::new(alloc, KvlUpdate, opening, row)?;
    match worked(rt, alloc, &engine)? {
        Some(shares) => Ok(engine.close(&shares).ok()),
        None => Ok(None),
    }
}

/// The shares of the eight, if each did its transactions.
fn worked<K: EngineName + Send + Sync, R: Threads + Wait + Sync>(
    rt: &R,
    alloc: Global,
    engine: &Engine<KvlUpdate, K>,
) -> Result<Option<Vec<Share<K>>>, AllocError> {
    let jobs = jobs_of(rt, alloc, engine)?;
    let shares = thread::map_vec(rt, jobs, &|job| work(rt, job))?;
    all_of(alloc, shares)
}

#[test]
fn eight_threads(rt: HostRuntime) -> Result<(), Fail> {
    let alloc = rt.alloc();
    let row = PlaceRow::new(alloc, 100_000).ok().ok_or("row")?;
    let history = soaked::<Brand, _>(&rt, alloc, &[(3, 1), (7, 2), (11, 3)], row)?.ok_or(
        "history",
    )?;
    assert!(rt; has_both(&history.entries));
    assert!(rt; is_replayed(alloc, &history)?);
    Ok(())
}
