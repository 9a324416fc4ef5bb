//! Runs of 64 active transactions with ample memory, none of which answers out of memory.
use super::super::ways::{LOCKED, Way, ran_by};
use super::inputs::event;
use kr_index::Memory;
use kr_model::{Event, Op, Refusal};
use kr_serial::{Ran, Reply, Txn, judge};
use std::alloc::Global;

/// The number of one who comes when 64 are active, of which the greatest number is `last`.
fn late(last: Txn) -> Txn {
    last ^ 65_536
}

/// 64 transactions fetch an absent key; one more comes, and then one of the 64 inserts that key; all 64 commit, and the one
/// who came late inserts it.
fn crowd(last: Txn) -> [Event; 131] {
    let mut events = [event(late(last), Op::Insert(7, 8)); 131];
    for below in 0..64_u32 {
        let txn = last.saturating_sub(below);
        events[below as usize] = event(txn, Op::Fetch(7));
        events[below as usize + 66] = event(txn, Op::Commit);
    }
    events[64] = event(late(last), Op::Fetch(7));
    events[65] = event(last, Op::Insert(7, 7));
    events
}

/// Whether these are the others of the 64.
fn are_others(txns: &[Txn], last: Txn) -> bool {
    let mut below: Txn = 63;
    for txn in txns {
        if *txn != last.saturating_sub(below) {
            return false;
        }
        below = below.saturating_sub(1);
    }
    txns.len() == 63
}

/// Whether this is the reply to the step of that run at an index.
fn is_crowd(reply: &Reply, step: usize, last: Txn) -> bool {
    match (step, reply) {
        (0..=63, Reply::None) | (66..=129, Reply::Committed) | (130, Reply::Done) => true,
        (64, Reply::Refused(refusal)) => *refusal == Refusal::Full,
        (65, Reply::Blocked(txns)) => are_others(txns.as_slice(), last),
        _ => false,
    }
}

/// Whether such a run has these replies, and leaves what it should.
fn was_crowd(ran: &Ran, last: Txn) -> bool {
    let replies = ran.replies.as_slice();
    for step in 0..replies.len() {
        if !is_crowd(&replies[step], step, last) {
            return false;
        }
    }
    replies.len() == 131
        && ran.index.as_slice() == [(7, 8)].as_slice()
        && ran.unfinished.as_slice() == [late(last)].as_slice()
        && ran.programs.as_slice().len() == 64
}

/// Whether such a run in one of the ways does, and is serializable.
fn is_crowded(alloc: Global, way: Way, last: Txn) -> Result<bool, Memory> {
    let ran = ran_by(alloc, way, &[], &crowd(last))?;
    let verdict = judge(alloc, &ran)?;
    Ok(was_crowd(&ran, last) & verdict.is_serial())
}

#[test]
fn crowds_of_64(rt: HostRuntime) -> Result<(), Memory> {
    for last in [63, 64, 1000, u32::MAX - 1, u32::MAX] {
        for way in LOCKED {
            let crowded = is_crowded(rt.alloc(), way, last)?;
            assert!(rt; crowded, "{way:?} {last}");
        }
    }
    Ok(())
}
