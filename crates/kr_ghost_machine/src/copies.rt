//! Copies of the locks and of the active transactions.
ghost use Rattle.std.specs.Prelude.{◌≡◌, IfOk, length, vec_len};
ghost use Rattle.kr_model.specs.Locks.{IsLocks, HasNoNone};
ghost use Rattle.kr_txn.specs.Standings.{active_of, entries, scan_of};

use kr_locks::{Buckets, Holdings, Memory};
use kr_txn::{Scan, Standing};
use std::alloc::Global;

/// A copy of a scan in progress.
fn scan(alloc: Global, scan: &Scan) -> Result<Scan, Memory>
    ensures { IfOk result (λ copy. scan_of copy ≡ scan_of scan.now) }
{
    let rows = scan.rows.as_slice().to_vec(alloc)?;
    Ok(Scan {
        lo: scan.lo,
        hi: scan.hi,
        rows,
    })
}

/// A copy of an active transaction.
fn standing(alloc: Global, standing: &Standing) -> Result<Standing, Memory>
    ensures txn { IfOk result (λ copy. copy.txn ≡ standing.now.txn) }
    ensures same { IfOk result (λ copy. active_of copy ≡ active_of standing.now) }
{
    let changes = standing.changes.as_slice().to_vec(alloc)?;
    let scan = match &standing.scan {
        Some(running) => Some(scan(alloc, running)?),
        None => None,
    };
    Ok(Standing {
        txn: standing.txn,
        scan,
        changes,
        rolling: standing.rolling,
    })
}

/// A copy of the active transactions.
pub(crate) fn active(alloc: Global, active: &[Standing]) -> Result<Vec<Standing>, Memory>
    ensures entries { IfOk result (λ copy. entries copy.items ≡ entries active.now) }
    ensures len { IfOk result (λ copy. vec_len copy ≡ length active.now) }
{
    let mut copy = Vec::with_capacity(alloc, active.len())?;
    for one in active {
        copy.push(standing(alloc, one)?)?;
    }
    Ok(copy)
}

/// A copy of the locks.
pub(crate) fn locks<L: Holdings>(alloc: Global, locks: &L) -> Result<Buckets, Memory>
    requires order { IsLocks (L.locks locks.now) }
    requires no_none { HasNoNone (L.locks locks.now) }
    ensures { IfOk result (λ copy. copy ≡ L.locks locks.now) }
{
    let list = locks.copy(alloc)?;
    let mut copy = Buckets::new(alloc);
    for &((name, txn), mode) in &list {
        copy.keep(txn, name, mode)?;
    }
    Ok(copy)
}
