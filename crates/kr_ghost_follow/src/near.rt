//! The ghosts whose purge may matter to a line. Which are tried is a matter of search alone: whatever is purged, a run with
//! purges leads there.

use crate::line::Logged;
use crate::stand::Stand;
use crate::steps::{first_op, is_whole};
use kr_ghost_protocol::GhostProtocol;
use kr_model::{Memory, Op};
use kr_trace_follow::scans::{Progress, noted_of};
use std::alloc::Global;

/// The keys that the first step of a line looks from, and up to which the line looks: none where it requests nothing. An insert
/// looks above its key where one that finds it asks for a lock there. What a change undone does depends on the locks on any ghost.
fn range(scans: &[Progress], line: Logged, looks_above: bool) -> Option<(u64, u64)> {
    match first_op(scans, line) {
        Op::Insert(key, _) if looks_above => Some((key, key.saturating_add(1))),
        Op::Fetch(key) | Op::Insert(key, _) | Op::Delete(key) | Op::Update(key, _) => {
            Some((key, key))
        }
        Op::Scan(hi, lo) if lo < hi => Some((lo, hi)),
        Op::Scan(lo, hi) => Some((lo, if is_whole(line) { hi } else { lo })),
        Op::Go => match noted_of(scans, line.event.txn) {
            Some(progress) => {
                let lo = progress.read.saturating_add(1);
                Some((lo, if is_whole(line) { progress.hi } else { lo }))
            }
            None => None,
        },
        Op::Back => Some((0, u64::MAX)),
        Op::Commit | Op::Abort => None,
    }
}

/// The greatest present key below this one.
fn last_below(pairs: &[(u64, u64)], lo: u64) -> Option<u64> {
    let mut last = None;
    for i in 0..pairs.len() {
        let (key, _) = pairs[i];
        if key < lo {
            last = Some(key);
        }
    }
    last
}

/// The least present key not below this one.
fn first_from(pairs: &[(u64, u64)], hi: u64) -> Option<u64> {
    for i in 0..pairs.len() {
        let (key, _) = pairs[i];
        if key >= hi {
            return Some(key);
        }
    }
    None
}

/// Whether a ghost is between two present keys, of which either may be missing.
fn is_between(key: u64, below: Option<u64>, above: Option<u64>) -> bool {
    let is_above = match below {
        Some(least) => least < key,
        None => true,
    };
    let is_below = match above {
        Some(most) => key < most,
        None => true,
    };
    is_above && is_below
}

/// Those of the ghosts from which to a range there is no present key.
fn beside(
    alloc: Global,
    ghosts: &[u64],
    pairs: &[(u64, u64)],
    (lo, hi): (u64, u64),
) -> Result<Vec<u64>, Memory> {
    let below = last_below(pairs, lo);
    let above = first_from(pairs, hi);
    let mut keys = Vec::new(alloc);
    for at in ghosts {
        if is_between(*at, below, above) {
            keys.push(*at)?;
        }
    }
    Ok(keys)
}

/// The ghosts whose purge may matter to a line, rising: those from which to its range there is no present key. It looks at all
/// names.
pub(crate) fn near<P: GhostProtocol>(
    alloc: Global,
    stand: &Stand<P>,
    line: Logged,
) -> Result<Vec<u64>, Memory> {
    let ghosts = stand.stepper.ghosts()?;
    let looks_above = stand.stepper.protocol().insert_hit_next().is_some();
    match range(&stand.scans, line, looks_above) {
        Some(ends) if !ghosts.as_slice().is_empty() => {
            let pairs = stand.stepper.index()?;
            beside(alloc, ghosts.as_slice(), pairs.as_slice(), ends)
        }
        _ => Ok(Vec::new(alloc)),
    }
}
