//! How far the scans in progress are.
ghost use Rattle.std.specs.Prelude.{◌≡◌, OnOk};
ghost use Rattle.kr_trace_follow.specs.Scans.{noted_of, forgotten, range_of, noted_at, noted_after};

use kr_index::Memory;
use kr_model::{Op, Reply, Txn};

/// How far the scan of a transaction is.
#[derive(Clone, Copy, PartialEq, Eq)]
pub struct Progress {
    pub txn: Txn,
    /// The lower end of its range.
    pub lo: u64,
    /// The upper end of its range.
    pub hi: u64,
    /// The key that it read last.
    pub read: u64,
}

/// What is noted of a transaction, if anything is.
pub fn noted_of(scans: &[Progress], txn: Txn) -> Option<Progress>
    ensures { result ≡ noted_of scans.now txn }
{
    for i in 0..scans.len() {
        if scans[i].txn == txn {
            return Some(scans[i]);
        }
    }
    None
}

/// The range of a step of a scan: its own where it begins the scan, and the noted one where it goes on.
pub fn range_of(scans: &[Progress], txn: Txn, op: Op) -> Option<(u64, u64)>
    ensures { result ≡ range_of scans.now txn op }
{
    match op {
        Op::Scan(lo, hi) => Some((lo, hi)),
        Op::Go => match noted_of(scans, txn) {
            Some(progress) => Some((progress.lo, progress.hi)),
            None => None,
        },
        _ => None,
    }
}

/// Takes away what is noted of a transaction.
fn forget(scans: &mut Vec<Progress>, txn: Txn)
    ensures { scans.new.items ≡ forgotten scans.old.items txn }
{
    scans.retain(|progress| progress.txn != txn);
}

/// Notes that the scan of a transaction over a range has read this key, if there is a range.
fn note_read(
    scans: &mut Vec<Progress>,
    txn: Txn,
    range: Option<(u64, u64)>,
    read: u64,
) -> Result<(), Memory>
    ensures { OnOk result (scans.new.items ≡ noted_at scans.old.items txn range read) }
{
    if let Some((lo, hi)) = range {
        forget(scans, txn);
        scans.push(Progress { txn, lo, hi, read })?;
    }
    Ok(())
}

/// Notes a step with its reply.
pub fn note(scans: &mut Vec<Progress>, txn: Txn, op: Op, reply: &Reply) -> Result<(), Memory>
    ensures { OnOk result (scans.new.items ≡ noted_after scans.old.items txn op reply.now) }
{
    match reply {
        Reply::Going(key) => {
            let range = range_of(scans, txn, op);
            note_read(scans, txn, range, *key)
        }
        Reply::Blocked(_) | Reply::Refused(_) => Ok(()),
        _ => {
            forget(scans, txn);
            Ok(())
        }
    }
}
