//! The conflicts of key-value locking, mode by mode, in each lock table.
ghost use Rattle.std.specs.Prelude.{◌≡◌, ◌≤◌, []};
ghost use Rattle.kr_model.specs.Locks.{AreWithin};

use super::MIDDLE;
use kr_locks::{Buckets, Holdings, List, Memory, Mode, Name, Txn};
use kr_protocol::Kvl;
use std::alloc::Global;
use std::process::Abort;
use std::test::Fail;

/// For each mode requested, from none on, the modes that it conflicts with, each as a bit: IS is 1, IX 2, S 3, SIX 4, X 5.
const ROWS: [u16; 6] = [0, 32, 56, 52, 60, 62];

/// Makes a mode that of a transaction on a name.
fn hold<H: Holdings>(locks: &mut H, txn: Txn, name: Name, mode: Mode) -> Result<(), Memory>
    requires held { AreWithin 5 (H.locks locks.old) }
    requires mode { mode ≤ 5 }
    ensures { AreWithin 5 (H.locks locks.new) }
{
    locks.keep(txn, name, mode)?;
    Ok(())
}

/// One transaction holds a mode, and another, which holds none, requests one; so does the first.
fn conflicts<H: Holdings>(
    rt: &impl Abort,
    alloc: Global,
    mut locks: H,
    held: Mode,
    requested: Mode,
) -> Result<(), Fail>
    requires locks { H.locks locks ≡ [] }
    requires held { held ≤ 5 }
    requires requested { requested ≤ 5 }
{
    hold(&mut locks, 1, MIDDLE, held)?;
    let free = ROWS[requested as usize] & 1 << held == 0;
    same!(rt; locks.test(&Kvl, 2, MIDDLE, requested), free);
    let blockers = locks.blockers(alloc, &Kvl, 2, MIDDLE, requested)?;
    same!(rt; blockers.is_empty(), free);
    assert!(rt; locks.test(&Kvl, 1, MIDDLE, requested));
    Ok(())
}

#[test]
fn list_conflicts(rt: HostRuntime) -> Result<(), Fail> {
    for held in 0..6_u8 {
        for requested in 0..6_u8 {
            conflicts(&rt, rt.alloc(), List::new(rt.alloc()), held, requested)?;
        }
    }
    Ok(())
}

#[test]
fn buckets_conflict(rt: HostRuntime) -> Result<(), Fail> {
    for held in 0..6_u8 {
        for requested in 0..6_u8 {
            conflicts(&rt, rt.alloc(), Buckets::new(rt.alloc()), held, requested)?;
        }
    }
    Ok(())
}
