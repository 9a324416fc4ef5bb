//! What seats do in threads of their own.

use super::gates::{Gate, comes};
use super::stories::{Act, Fate, Part};
use kr_engine::{Engine, EngineFault, EngineName, Op, Reply, Seat, Txn, Txns};
use kr_protocol::Covered;
use std::alloc::{AllocError, Global};
use std::sync::Wait;
use std::thread;
use std::thread::Threads;

/// A seat, and its part.
#[derive(Drop)]
struct Job<'a, P: Covered, K: EngineName> {
    seat: Seat<'a, P, K>,
    part: Part,
}

/// Whether one of these became of the seats, each of which does its part in a thread of its own.
pub fn races<P: Covered + Send, K: EngineName + Send + Sync, R: Threads + Wait + Sync>(
    rt: &R,
    alloc: Global,
    engine: &Engine<P, K>,
    gate: &Gate,
    seats: Vec<Seat<'_, P, K>>,
    parts: &[Part],
    expected: &[&[Fate]],
) -> Result<bool, AllocError> {
    let mut jobs = Vec::new(alloc);
    let mut parts = parts.iter();
    for seat in seats {
        match parts.next() {
            Some(part) => jobs.push(Job { seat, part: *part })?,
            None => return Ok(false),
        }
    }
    let fates = thread::map_vec(rt, jobs, &|job| act(rt, engine, gate, job))?;
    for all in expected {
        if fates.as_slice() == *all {
            return Ok(!*gate.late.lock(rt));
        }
    }
    Ok(false)
}

/// Does a part.
fn act<P: Covered, K: EngineName, R: Wait>(
    rt: &R,
    engine: &Engine<P, K>,
    gate: &Gate,
    job: Job<'_, P, K>,
) -> Fate {
    let Job { mut seat, part } = job;
    if !are_seen_waiting(rt, engine, part.once) {
        // Others may wait for its locks.
        let _ = seat.call(rt, Op::Abort);
        return Fate::Other;
    }
    match part.act {
        Act::Do(op, deleted) => does(rt, &mut seat, op, deleted),
        Act::Fetch(key) => fetches(rt, gate, &mut seat, key),
        Act::End(op) => ends(rt, &mut seat, op, Fate::Ended),
        Act::Back => goes_back(rt, gate, &mut seat),
        Act::Read => reads(rt, engine, gate),
    }
}

/// Whether the engine says, within 1,000,000 looks, that just these transactions wait. It isn't asked about none.
fn are_seen_waiting<P: Covered, K: EngineName, R: Wait>(
    rt: &R,
    engine: &Engine<P, K>,
    waiters: &[Txn],
) -> bool {
    if waiters.is_empty() {
        return true;
    }
    for _ in 0..1_000_000u32 {
        match engine.waiting(rt) {
            Ok(txns) => {
                if txns.as_slice() == waiters {
                    return true;
                }
            }
            Err(_) => return false,
        }
        thread::yield_now();
    }
    false
}

/// Does an operation, and ends.
fn does<P: Covered, K: EngineName, R: Wait>(
    rt: &R,
    seat: &mut Seat<'_, P, K>,
    op: Op,
    deleted: Option<u64>,
) -> Fate {
    match seat.call(rt, op) {
        Ok(receipt) => {
            let told = has_deleted(&receipt.reply, deleted);
            ends(rt, seat, Op::Commit, told)
        }
        Err(EngineFault::Deadlock(cycle)) => ends(rt, seat, Op::Abort, deadlock_of(&cycle)),
        Err(_) => ends(rt, seat, Op::Abort, Fate::Other),
    }
}

/// Does the operation. The fate if it was done.
fn ends<P: Covered, K: EngineName, R: Wait>(
    rt: &R,
    seat: &mut Seat<'_, P, K>,
    op: Op,
    fate: Fate,
) -> Fate {
    match seat.call(rt, op) {
        Ok(_) => fate,
        Err(_) => Fate::Other,
    }
}

/// Committed, if the reply deleted this value, where that is looked at.
fn has_deleted(reply: &Reply, deleted: Option<u64>) -> Fate {
    match (reply, deleted) {
        (_, None) => Fate::Committed,
        (Reply::Deleted(value), Some(expected)) if *value == expected => Fate::Committed,
        (_, Some(_)) => Fate::Other,
    }
}

fn deadlock_of(cycle: &Txns) -> Fate {
    match cycle.as_slice() {
        [asker, other] => Fate::Deadlock(*asker, *other),
        _ => Fate::Other,
    }
}

/// Fetches a key, and notes that it has answered.
fn fetches<P: Covered, K: EngineName, R: Wait>(
    rt: &R,
    gate: &Gate,
    seat: &mut Seat<'_, P, K>,
    key: u64,
) -> Fate {
    let fate = match seat.call(rt, Op::Fetch(key)) {
        Ok(receipt) => match receipt.reply {
            Reply::Found(value) => Fate::Found(value),
            Reply::None => Fate::Missed,
            _ => Fate::Other,
        },
        Err(_) => Fate::Other,
    };
    *gate.answered.lock(rt) = true;
    fate
}

/// Takes one change back, and aborts once a fetch has answered, or after 1,000,000 looks. The fate if the fetch answered
/// before the abort.
fn goes_back<P: Covered, K: EngineName, R: Wait>(
    rt: &R,
    gate: &Gate,
    seat: &mut Seat<'_, P, K>,
) -> Fate {
    let undone = seat.call(rt, Op::Back).is_ok();
    let went_on = comes(rt, &gate.answered, 1_000_000);
    let fate = if undone && went_on {
        Fate::Ended
    } else {
        Fate::Other
    };
    ends(rt, seat, Op::Abort, fate)
}

/// Reads place 0 while another thread is inside the engine's lock, and opens the gate then.
fn reads<P: Covered, K: EngineName, R: Wait>(rt: &R, engine: &Engine<P, K>, gate: &Gate) -> Fate {
    let inside = comes(rt, &gate.inside, 100_000_000);
    let shown = match engine.watch() {
        Ok(mut watch) => watch.entry(0).is_some(),
        Err(_) => false,
    };
    *gate.open.lock(rt) = true;
    if inside && shown {
        Fate::Shown
    } else {
        Fate::Other
    }
}
