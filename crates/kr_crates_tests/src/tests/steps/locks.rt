// Each call once with ample memory, at three kinds of lock table, against answers worked out by hand.

ghost use Rattle.std.specs.Prelude.{◌≡◌, ◌≤◌, []};
ghost use Rattle.kr_model.specs.Locks.{AreWithin};

mod conflicts;
mod shared_exclusive;

use kr_locks::{Buckets, Holdings, List, Memory, Mode, Name, Txn};
use kr_test_support::ScarceLocks;
use shared_exclusive::{EXCLUSIVE, SHARED, SharedExclusive};
use std::alloc::Global;
use std::process::Abort;
use std::test::Fail;

const LOW: Name = Name::Key(3);

const MIDDLE: Name = Name::Key(7);

const HIGH: Name = Name::Key(900);

/// Makes one of the two modes, or 0, that of a transaction on a name.
fn hold<H: Holdings>(locks: &mut H, txn: Txn, name: Name, mode: Mode) -> Result<(), Memory>
    requires held { AreWithin 2 (H.locks locks.old) }
    requires mode { mode ≤ 2 }
    ensures { AreWithin 2 (H.locks locks.new) }
{
    locks.keep(txn, name, mode)?;
    Ok(())
}

/// Two readers of a key, a reader of a lower one, a writer of a higher one, and a writer of the end.
fn fill<H: Holdings>(locks: &mut H) -> Result<(), Memory>
    requires { H.locks locks.old ≡ [] }
    ensures { AreWithin 2 (H.locks locks.new) }
{
    hold(locks, 5, MIDDLE, SHARED)?;
    hold(locks, 1, Name::End, EXCLUSIVE)?;
    hold(locks, 2, MIDDLE, SHARED)?;
    hold(locks, 3, HIGH, EXCLUSIVE)?;
    hold(locks, 2, LOW, SHARED)?;
    Ok(())
}

/// What the filled table answers.
fn answers<H: Holdings>(rt: &impl Abort, alloc: Global, mut locks: H) -> Result<(), Fail>
    requires { H.locks locks ≡ [] }
{
    fill(&mut locks)?;
    assert_eq!(rt; locks.own(5, MIDDLE), SHARED);
    assert_eq!(rt; locks.own(1, Name::End), EXCLUSIVE);
    assert_eq!(rt; locks.own(3, MIDDLE), 0);

    let requests = [
        (9, MIDDLE, SHARED, Vec::new(alloc)),
        (9, MIDDLE, EXCLUSIVE, vec![in alloc; 2, 5]?),
        (2, MIDDLE, EXCLUSIVE, vec![in alloc; 5]?),
        (2, LOW, EXCLUSIVE, Vec::new(alloc)),
        (1, Name::End, SHARED, Vec::new(alloc)),
        (9, Name::End, SHARED, vec![in alloc; 1]?),
        (9, Name::Key(8), EXCLUSIVE, Vec::new(alloc)),
    ];
    for (txn, name, mode, conflicting) in requests {
        assert_eq!(rt;
            locks.test(&SharedExclusive, txn, name, mode),
            conflicting.is_empty()
        );
        assert_eq!(rt;
            locks.blockers(alloc, &SharedExclusive, txn, name, mode)?,
            conflicting
        );
    }
    Ok(())
}

/// What a raised mode was, and what it is then: by a conversion that leaves it, and of one who holds none.
fn raises<H: Holdings>(
    rt: &impl Abort,
    alloc: Global,
    mut empty: H,
    mut locks: H,
) -> Result<(), Fail>
    requires empty { H.locks empty ≡ [] }
    requires locks { H.locks locks ≡ [] }
{
    assert_eq!(rt; empty.raise(&SharedExclusive, 1, Name::End, EXCLUSIVE)?, 0);
    assert_eq!(rt; empty.own(1, Name::End), EXCLUSIVE);
    fill(&mut locks)?;
    assert_eq!(rt;
        locks.raise(&SharedExclusive, 1, Name::End, SHARED)?,
        EXCLUSIVE
    );
    let kept = [
        ((LOW, 2), SHARED),
        ((MIDDLE, 2), SHARED),
        ((MIDDLE, 5), SHARED),
        ((HIGH, 3), EXCLUSIVE),
        ((Name::End, 1), EXCLUSIVE),
    ];
    same!(rt; locks.copy(alloc)?.as_slice(), kept.as_slice());
    Ok(())
}

/// What a kept mode, a mode taken away and a release leave.
fn changes<H: Holdings>(rt: &impl Abort, alloc: Global, mut locks: H) -> Result<(), Fail>
    requires { H.locks locks ≡ [] }
{
    fill(&mut locks)?;
    hold(&mut locks, 2, MIDDLE, EXCLUSIVE)?;
    hold(&mut locks, 5, HIGH, SHARED)?;
    hold(&mut locks, 5, MIDDLE, 0)?;
    let kept = [
        ((LOW, 2), SHARED),
        ((MIDDLE, 2), EXCLUSIVE),
        ((HIGH, 3), EXCLUSIVE),
        ((HIGH, 5), SHARED),
        ((Name::End, 1), EXCLUSIVE),
    ];
    same!(rt; locks.copy(alloc)?.as_slice(), kept.as_slice());

    // A writer that asks to read stays a writer, beside which no reader stands.
    assert!(rt; !locks.test(&SharedExclusive, 3, HIGH, SHARED));
    same!(rt;
        locks
            .blockers(alloc, &SharedExclusive, 3, HIGH, SHARED)?
            .as_slice(),
        [5].as_slice()
    );

    locks.release(2);
    same!(rt; locks.copy(alloc)?.as_slice(), &kept[2..]);
    locks.release(4);
    same!(rt; locks.copy(alloc)?.as_slice(), &kept[2..]);
    Ok(())
}

#[test]
fn list_answers(rt: HostRuntime) -> Result<(), Fail> {
    answers(&rt, rt.alloc(), List::new(rt.alloc()))
}

#[test]
fn list_changes(rt: HostRuntime) -> Result<(), Fail> {
    changes(&rt, rt.alloc(), List::new(rt.alloc()))
}

#[test]
fn list_raises(rt: HostRuntime) -> Result<(), Fail> {
    raises(
        &rt,
        rt.alloc(),
        List::new(rt.alloc()),
        List::new(rt.alloc()),
    )
}

#[test]
fn buckets_answer(rt: HostRuntime) -> Result<(), Fail> {
    answers(&rt, rt.alloc(), Buckets::new(rt.alloc()))
}

#[test]
fn buckets_change(rt: HostRuntime) -> Result<(), Fail> {
    changes(&rt, rt.alloc(), Buckets::new(rt.alloc()))
}

#[test]
fn buckets_raise(rt: HostRuntime) -> Result<(), Fail> {
    raises(
        &rt,
        rt.alloc(),
        Buckets::new(rt.alloc()),
        Buckets::new(rt.alloc()),
    )
}

#[test]
fn scarce_answers(rt: HostRuntime) -> Result<(), Fail> {
    answers(&rt, rt.alloc(), ScarceLocks::new(rt.alloc()))
}

#[test]
fn scarce_changes(rt: HostRuntime) -> Result<(), Fail> {
    changes(&rt, rt.alloc(), ScarceLocks::new(rt.alloc()))
}

#[test]
fn refusals_change_nothing(rt: HostRuntime) -> Result<(), Fail> {
    let mut locks = ScarceLocks::new(rt.alloc());
    fill(&mut locks)?;
    locks.memory.refuse_next();
    assert!(rt; locks.copy(rt.alloc()).is_err());
    locks.memory.refuse_next();
    assert!(rt;
        locks
            .blockers(rt.alloc(), &SharedExclusive, 9, MIDDLE, EXCLUSIVE)
            .is_err()
    );
    locks.memory.refuse_next();
    assert!(rt; locks.keep(9, MIDDLE, SHARED).is_err());
    locks.memory.refuse_next();
    assert!(rt; locks.keep(9, MIDDLE, 0).is_ok());
    assert!(rt; locks.keep(2, LOW, EXCLUSIVE).is_ok());
    same!(rt; locks.own(9, MIDDLE), 0);
    same!(rt; locks.own(2, LOW), EXCLUSIVE);
    Ok(())
}
