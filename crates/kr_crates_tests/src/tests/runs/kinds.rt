//! Protocols and machines of either kind of index: the kind of each bundled table, purges, and a failed allocation.

use kr_ghost::Vain;
use kr_ghost_index::GhostIndex;
use kr_ghost_protocol::{GhostProtocol, NextKeyGhost, RangeGhost, RecordGap};
use kr_index::Sorted;
use kr_kinds::{Gone, IndexProtocol, Leaves, Stepping};
use kr_locks::{List, Memory};
use kr_model::{Mode, Name, Op, Refusal, Txn};
use kr_protocol::{Im, Kvl, KvlUpdate, Protocol, RangeKey, Row, Side, Span};
use kr_stepping::{GoneStepper, LeavingStepper};
use kr_test_support::{Answer, Countdown, ScarceIndex};
use std::process::Abort;
use std::test::Fail;

/// Whether a protocol is of this kind, and answers as another one, with ghosts, does.
fn is_of_kind<P: IndexProtocol, Q: GhostProtocol>(one: &P, other: &Q, leaves: bool) -> bool {
    let count = one.count();
    for mode in 0..count + 1 {
        if mode > other.count()
            || one.row(mode) != other.row(mode)
            || one.name(mode) != other.name(mode)
            || one.heir(mode) != other.heir(mode)
            || one.ok(mode, mode) != other.ok(mode, mode)
            || one.convert(0, mode) != other.convert(0, mode)
        {
            return false;
        }
    }
    for vain in [Vain::InsertHit, Vain::DeleteMiss, Vain::UpdateMiss] {
        if one.vain(vain) != other.vain(vain) {
            return false;
        }
    }
    count == other.count()
        && one.updates() == other.updates()
        && one.ask(Row::Insert, Side::Current, 0) == other.ask(Row::Insert, Side::Current, 0)
        && one.revive() == other.revive()
        && one.revive_next() == other.revive_next()
        && one.insert_hit_next() == other.insert_hit_next()
        && one.inherits() == other.inherits()
        && one.leaves_ghosts() == leaves
}

/// Whether deletes leave no ghosts under a protocol made of this one, which has the same tables and nothing for ghosts.
fn leaves_none<P: Protocol>(protocol: &P, gone: &Gone<P>) -> bool {
    let mut alike = gone.count() == protocol.count() && gone.updates() == protocol.updates();
    for mode in 0..gone.count() + 1 {
        alike = alike && gone.heir(mode) == 0;
    }
    alike
        && !gone.leaves_ghosts()
        && !gone.inherits()
        && gone.revive().is_none()
        && gone.revive_next().is_none()
        && gone.vain(Vain::InsertHit).is_none()
        && gone.insert_hit_next().is_none()
}

#[test]
fn kinds_of_bundled_tables(rt: HostRuntime) -> Result<(), Fail> {
    assert!(rt; leaves_none(&Kvl, &Gone(Kvl)));
    assert!(rt; leaves_none(&KvlUpdate, &Gone(KvlUpdate)));
    assert!(rt; leaves_none(&Im, &Gone(Im)));
    assert!(rt; leaves_none(&RangeKey, &Gone(RangeKey)));
    assert!(rt; is_of_kind(&Leaves(RecordGap), &RecordGap, true));
    assert!(rt; is_of_kind(&Leaves(RangeGhost), &RangeGhost, true));
    assert!(rt; is_of_kind(&Leaves(NextKeyGhost), &NextKeyGhost, true));
    assert!(rt; is_of_kind(&Gone(Kvl), &Gone(Kvl), false));
    let fetch = Gone(Kvl).ask(Row::FetchHit, Side::Current, 0);
    same!(rt; fetch, Kvl.ask(Row::FetchHit, Side::Current, 0));
    same!(rt; Leaves(RecordGap).revive(), Some((2, Span::Commit)));
    Ok(())
}

/// What a machine shows of itself.
fn shows<M: Stepping>(
    rt: &impl Abort,
    machine: &M,
    pairs: &[(u64, u64)],
    ghosts: &[u64],
    locks: &[((Name, Txn), Mode)],
    active: &[Txn],
) -> Result<(), Memory> {
    same!(*rt; machine.pairs()?.as_slice(), pairs);
    same!(*rt; machine.ghosts()?.as_slice(), ghosts);
    same!(*rt; machine.locks()?.as_slice(), locks);
    same!(*rt; machine.unfinished()?.as_slice(), active);
    for &((name, txn), mode) in locks {
        same!(*rt; machine.own(txn, name), mode);
    }
    same!(*rt; machine.own(9, Name::End), 0);
    Ok(())
}

/// Attempts a step, and compares its reply.
fn answers<M: Stepping>(
    rt: &impl Abort,
    machine: &mut M,
    txn: Txn,
    op: Op,
    told: Answer<'_>,
) -> Result<(), Memory> {
    let reply = machine.step(txn, op)?;
    holds!(*rt; told.is(&reply), txn);
    Ok(())
}

#[test]
fn a_purge_in_an_index_without_ghosts(rt: HostRuntime) -> Result<(), Fail> {
    let alloc = rt.alloc();
    let index = Sorted::from_pairs(alloc, &[(10, 1), (20, 2), (30, 3)])?;
    let mut machine = GoneStepper::new(alloc, Kvl, index, List::new(alloc));
    answers(&rt, &mut machine, 1, Op::Delete(20), Answer::Deleted(2))?;
    assert!(rt; !machine.purge(20)?);
    answers(&rt, &mut machine, 1, Op::Commit, Answer::Committed)?;
    assert!(rt; !machine.purge(20)? && !machine.purge(10)?);
    shows(&rt, &machine, &[(10, 1), (30, 3)], &[], &[], &[])?;
    answers(
        &rt,
        &mut machine,
        1,
        Op::Fetch(10),
        Answer::Refused(Refusal::Ended),
    )?;
    Ok(())
}

/// By the definitions: 2 locks 20 in N-S, which 30 inherits as G-N.
#[test]
fn a_purge_of_a_ghost(rt: HostRuntime) -> Result<(), Fail> {
    let alloc = rt.alloc();
    let index = GhostIndex::from_pairs(alloc, &[(10, 1), (20, 2), (30, 3)])?;
    let mut machine = LeavingStepper::new(alloc, RecordGap, index, List::new(alloc));
    answers(&rt, &mut machine, 1, Op::Delete(20), Answer::Deleted(2))?;
    assert!(rt; !machine.purge(20)?);
    answers(&rt, &mut machine, 1, Op::Commit, Answer::Committed)?;
    answers(&rt, &mut machine, 2, Op::Fetch(20), Answer::None)?;
    shows(
        &rt,
        &machine,
        &[(10, 1), (30, 3)],
        &[20],
        &[((Name::Key(20), 2), 1)],
        &[2],
    )?;
    assert!(rt; machine.purge(20)? && !machine.purge(20)?);
    shows(
        &rt,
        &machine,
        &[(10, 1), (30, 3)],
        &[],
        &[((Name::Key(30), 2), 3)],
        &[2],
    )?;
    Ok(())
}

#[test]
fn a_step_without_memory_is_an_error(rt: HostRuntime) -> Result<(), Fail> {
    let alloc = rt.alloc();
    let index = ScarceIndex {
        index: Sorted::from_pairs(alloc, &[(10, 1), (20, 2), (30, 3)])?,
        memory: Countdown::new(Some(0)),
    };
    let mut machine = GoneStepper::new(alloc, Kvl, index, List::new(alloc));
    assert!(rt; machine.step(1, Op::Insert(25, 5)).is_err());
    shows(&rt, &machine, &[(10, 1), (20, 2), (30, 3)], &[], &[], &[])?;
    answers(&rt, &mut machine, 1, Op::Insert(25, 5), Answer::Done)?;
    answers(&rt, &mut machine, 1, Op::Abort, Answer::Aborted)?;
    shows(&rt, &machine, &[(10, 1), (20, 2), (30, 3)], &[], &[], &[])?;
    Ok(())
}
