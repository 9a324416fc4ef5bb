//! Attempts under key-value locking, at two protocol types, with answers worked out by hand.
//!
//! Modes: IS is 1, IX 2, S 3, SIX 4, X 5. The index has 10, 20 and 30. Transaction 1 holds S on 20, transaction 2 IX on
//! the end, and transaction 4 S on 30.
ghost use Rattle.std.specs.Prelude.{◌≡◌, ◌≤◌, []};
ghost use Rattle.kr_model.specs.Locks.{AreWithin};

use kr_index::{Ordered, Sorted};
use kr_locks::{Holdings, List, Memory};
use kr_model::{Mode, Name, Plan, Row, Span, Step, Txn};
use kr_plan::{blockers, granted, plan, plan_at};
use kr_protocol::{Kvl, KvlUpdate, Protocol};
use std::alloc::Global;
use std::process::Abort;
use std::test::Fail;

const IX: Mode = 2;

const S: Mode = 3;

const X: Mode = 5;

/// A request for a mode to commit.
fn to_commit(name: Name, mode: Mode) -> Option<(Name, Mode, Span)> {
    Some((name, mode, Span::Commit))
}

/// A request for a mode for an instant.
fn at_once(name: Name, mode: Mode) -> Option<(Name, Mode, Span)> {
    Some((name, mode, Span::Instant))
}

fn sample(alloc: Global) -> Result<Sorted, Memory> {
    Sorted::from_pairs(alloc, &[(10, 1), (20, 2), (30, 3)])
}

/// Gives a transaction a mode on a name.
fn hold<P: Protocol, L: Holdings>(
    protocol: &P,
    locks: &mut L,
    txn: Txn,
    name: Name,
    mode: Mode,
) -> Result<(), Memory>
    requires held { AreWithin (P.table protocol.now).count (L.locks locks.old) }
    requires mode { mode ≤ (P.table protocol.now).count }
    ensures { AreWithin (P.table protocol.now).count (L.locks locks.new) }
{
    locks.keep(txn, name, mode)?;
    Ok(())
}

/// Gives out the locks of the sample.
fn fill<P: Protocol, L: Holdings>(rt: &impl Abort, protocol: &P, locks: &mut L) -> Result<(), Fail>
    requires { L.locks locks.old ≡ [] }
    ensures { AreWithin (P.table protocol.now).count (L.locks locks.new) }
{
    assert!(rt; X <= protocol.count());
    hold(protocol, locks, 1, Name::Key(20), S)?;
    hold(protocol, locks, 2, Name::End, IX)?;
    hold(protocol, locks, 4, Name::Key(30), S)?;
    Ok(())
}

/// What attempts request.
fn plans<P: Protocol, I: Ordered, L: Holdings>(
    rt: &impl Abort,
    protocol: &P,
    index: &I,
    mut locks: L,
) -> Result<(), Fail>
    requires { L.locks locks ≡ [] }
{
    fill(rt, protocol, &mut locks)?;
    for (txn, step, row, current, next) in [
        (
            1,
            Step::Fetch(12),
            Row::FetchMiss,
            None,
            to_commit(Name::Key(20), S),
        ),
        (
            1,
            Step::Fetch(10),
            Row::FetchHit,
            to_commit(Name::Key(10), S),
            None,
        ),
        (
            1,
            Step::Insert(12),
            Row::Insert,
            to_commit(Name::Key(12), X),
            at_once(Name::Key(20), IX),
        ),
        (
            3,
            Step::Insert(12),
            Row::Insert,
            to_commit(Name::Key(12), IX),
            at_once(Name::Key(20), IX),
        ),
        (
            3,
            Step::Insert(20),
            Row::FetchHit,
            to_commit(Name::Key(20), S),
            None,
        ),
        (
            3,
            Step::Delete(30),
            Row::Delete,
            at_once(Name::Key(30), X),
            to_commit(Name::End, X),
        ),
        (
            3,
            Step::Delete(25),
            Row::FetchMiss,
            None,
            to_commit(Name::Key(30), S),
        ),
        (
            3,
            Step::Look(Name::Key(20), 25),
            Row::ScanKey,
            to_commit(Name::Key(20), S),
            None,
        ),
        (
            3,
            Step::Look(Name::Key(30), 25),
            Row::ScanStop,
            None,
            to_commit(Name::Key(30), S),
        ),
        (
            3,
            Step::Look(Name::End, 25),
            Row::ScanStop,
            None,
            to_commit(Name::End, S),
        ),
    ] {
        same!(rt;
            plan(protocol, index, &locks, txn, step),
            Plan { row, current, next },
            step
        );
    }
    let (row, key, name) = (Row::Insert, Some(Name::Key(12)), Some(Name::Key(20)));
    let current = to_commit(Name::Key(12), X);
    let next = at_once(Name::Key(20), IX);
    same!(rt;
        plan_at(protocol, &locks, 1, row, key, name),
        Plan { row, current, next },
    );
    Ok(())
}

/// Who conflicts with attempts.
fn conflicts<P: Protocol, I: Ordered, L: Holdings>(
    rt: &impl Abort,
    alloc: Global,
    protocol: &P,
    index: &I,
    mut locks: L,
) -> Result<(), Fail>
    requires { L.locks locks ≡ [] }
{
    fill(rt, protocol, &mut locks)?;
    for (txn, step, conflicting) in [
        (2, Step::Fetch(12), Vec::new(alloc)),
        (1, Step::Insert(12), Vec::new(alloc)),
        (2, Step::Insert(12), vec![in alloc; 1]?),
        (3, Step::Delete(30), vec![in alloc; 2, 4]?),
        (4, Step::Delete(30), vec![in alloc; 2]?),
        (2, Step::Look(Name::End, 99), Vec::new(alloc)),
        (3, Step::Look(Name::End, 99), vec![in alloc; 2]?),
    ] {
        let plan = plan(protocol, index, &locks, txn, step);
        same!(rt;
            granted(protocol, &locks, txn, &plan),
            conflicting.is_empty(),
            step
        );
        same!(rt;
            blockers(alloc, protocol, &locks, txn, &plan)?,
            conflicting,
            step
        );
    }
    Ok(())
}

#[test]
fn plans_under_key_value_locking(rt: HostRuntime) -> Result<(), Fail> {
    plans(&rt, &Kvl, &sample(rt.alloc())?, List::new(rt.alloc()))?;
    plans(&rt, &&Kvl, &sample(rt.alloc())?, List::new(rt.alloc()))
}

#[test]
fn conflicts_under_key_value_locking(rt: HostRuntime) -> Result<(), Fail> {
    let alloc = rt.alloc();
    conflicts(&rt, alloc, &Kvl, &sample(alloc)?, List::new(alloc))?;
    conflicts(&rt, alloc, &&Kvl, &sample(alloc)?, List::new(alloc))
}

/// An update of a present key goes by its own row, which requests nothing where no updates are offered.
#[test]
fn plans_of_updates(rt: HostRuntime) -> Result<(), Fail> {
    let index = sample(rt.alloc())?;
    let locks = List::new(rt.alloc());
    let row = Row::Update;
    let current = to_commit(Name::Key(20), X);
    same!(rt;
        plan(&KvlUpdate, &index, &locks, 1, Step::Update(20)),
        Plan {
            row,
            current,
            next: None
        }
    );
    same!(rt;
        plan(&Kvl, &index, &locks, 1, Step::Update(20)),
        Plan {
            row,
            current: None,
            next: None
        }
    );
    let row = Row::FetchMiss;
    let next = to_commit(Name::Key(30), S);
    same!(rt;
        plan(&KvlUpdate, &index, &locks, 1, Step::Update(25)),
        Plan {
            row,
            current: None,
            next
        }
    );
    Ok(())
}
