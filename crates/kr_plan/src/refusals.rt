//! The refusals of a step, `Memory` aside.
ghost use Rattle.std.specs.Prelude.{◌≡◌, []};
ghost use Rattle.kr_model.specs.Step.{refusal_of};
ghost use Rattle.kr_txn.specs.Numbered.{IsPosition};
ghost use Rattle.kr_txn.specs.Standings.{entries, number_of};
ghost use Rattle.kr_plan.specs.Refusals.{scan_refusal, refusal_in};

use kr_model::{Op, Refusal, Txn};
use kr_protocol::Protocol;
use kr_txn::{Ended, Standing, position};

/// The refusal of an operation by whether updates are offered, and whether its transaction has a scan in progress, and has
/// changes left.
fn scan_refusal(updates: bool, is_scanning: bool, is_unchanged: bool, op: Op) -> Option<Refusal>
    ensures { result ≡ scan_refusal updates is_scanning is_unchanged op }
{
    match op {
        Op::Go if is_scanning => None,
        Op::Go => Some(Refusal::NoScan),
        Op::Abort => None,
        Op::Back if is_unchanged => Some(Refusal::NothingLeft),
        Op::Back => None,
        Op::Scan(lo, hi) => {
            if is_scanning {
                Some(Refusal::Busy)
            } else if hi < lo {
                Some(Refusal::BadRange)
            } else {
                None
            }
        }
        Op::Update(_, _) => {
            if is_scanning {
                Some(Refusal::Busy)
            } else if !updates {
                Some(Refusal::NoUpdate)
            } else {
                None
            }
        }
        Op::Fetch(_) | Op::Insert(_, _) | Op::Delete(_) | Op::Commit => {
            if is_scanning {
                Some(Refusal::Busy)
            } else {
                None
            }
        }
    }
}

/// The same, by whether the transaction rolls back too: then only its changes may be undone.
fn standing_refusal(
    updates: bool,
    is_rolling: bool,
    is_scanning: bool,
    is_unchanged: bool,
    op: Op,
) -> Option<Refusal>
    ensures { result ≡ refusal_in updates is_rolling is_scanning is_unchanged op }
{
    if !is_rolling {
        return scan_refusal(updates, is_scanning, is_unchanged, op);
    }
    match op {
        Op::Back | Op::Abort => scan_refusal(updates, is_scanning, is_unchanged, op),
        Op::Fetch(_)
        | Op::Scan(_, _)
        | Op::Go
        | Op::Insert(_, _)
        | Op::Delete(_)
        | Op::Update(_, _)
        | Op::Commit => Some(Refusal::RollingBack),
    }
}

/// The first refusal that applies, `Memory` aside.
pub fn refusal<P: Protocol>(
    protocol: &P,
    ended: &Ended,
    active: &[Standing],
    txn: Txn,
    op: Op,
) -> Option<Refusal>
    ensures { result ≡ refusal_of (P.table protocol.now) (record { map = []; locks = []; ended = ended.now.numbers; active = entries active.now }) txn op }
{
    match position(active, txn) {
        None => {
            if ended.has(txn) {
                return Some(Refusal::Ended);
            }
            if active.len() >= 64 {
                return Some(Refusal::Full);
            }
            scan_refusal(protocol.updates(), false, true, op)
        }
        Some(place) => refusal_at(protocol, ended, active, place, txn, op),
    }
}

/// The same of the active transaction at this place.
pub fn refusal_at<P: Protocol>(
    protocol: &P,
    ended: &Ended,
    active: &[Standing],
    place: usize,
    txn: Txn,
    op: Op,
) -> Option<Refusal>
    requires { IsPosition number_of txn active.now place }
    ensures { result ≡ refusal_of (P.table protocol.now) (record { map = []; locks = []; ended = ended.now.numbers; active = entries active.now }) txn op }
{
    let updates = protocol.updates();
    if ended.has(txn) {
        return Some(Refusal::Ended);
    }
    let standing = &active[place];
    let is_scanning = standing.scan.is_some();
    let is_unchanged = standing.changes.is_empty();
    standing_refusal(updates, standing.rolling, is_scanning, is_unchanged, op)
}
