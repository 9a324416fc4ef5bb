//! Steps that look random, from a small generator.

use super::super::ways::{KEY_VALUE_WITH_UPDATES, LOCKED, Way, judged_by, ran_by};
use super::inputs::{KEYS, event};
use kr_index::Memory;
use kr_model::{Event, Op};
use kr_serial::{Ran, Txn, Verdict, judge};
use std::alloc::Global;
use std::process::Abort;

/// The number after this one in a sequence that looks random.
fn after(number: u64) -> u64 {
    let number = number ^ (number << 13);
    let number = number ^ (number >> 7);
    number ^ (number << 17)
}

/// One of the keys, by a number.
fn key_by(number: u64) -> u64 {
    KEYS[(number % 8) as usize]
}

/// An operation that looks random.
fn random_op(number: u64) -> Op {
    let key = key_by(number >> 8);
    match (number >> 16) % 9 {
        0 | 1 => Op::Fetch(key),
        2 | 3 => Op::Scan(key, key_by(number >> 24)),
        4 => Op::Go,
        5 | 6 => Op::Insert(key, number),
        7 => Op::Delete(key),
        _ => Op::Commit,
    }
}

/// An operation that looks random, with updates and backs among them.
fn random_change(number: u64) -> Op {
    let key = key_by(number >> 8);
    match (number >> 16) % 12 {
        0 => Op::Fetch(key),
        1 => Op::Scan(key, key_by(number >> 24)),
        2 | 3 => Op::Go,
        4 | 5 => Op::Insert(key, number),
        6 => Op::Delete(key),
        7..=9 => Op::Update(key, number),
        10 => Op::Back,
        _ => Op::Commit,
    }
}

/// 400 steps that look random, with updates and backs or without: five transactions at a time take 30 steps, and then each
/// commits, or aborts where it can't.
fn random_steps(seed: u64, later: bool) -> [Event; 400] {
    let mut events = [event(0, Op::Commit); 400];
    let mut number = seed;
    for step in 0..400_u32 {
        number = after(number);
        let first = step / 40 * 5;
        events[step as usize] = match step % 40 {
            30..=34 => event(first + step % 5, Op::Commit),
            35..=39 => event(first + step % 5, Op::Abort),
            _ if later => event(first + (number % 5) as u32, random_change(number)),
            _ => event(first + (number % 5) as u32, random_op(number)),
        };
    }
    events
}

/// Whether a run is serializable, with each transaction at its end.
fn is_serial(alloc: Global, ran: &Ran) -> Result<bool, Memory> {
    let is_over = ran.unfinished.as_slice().is_empty() && ran.locks.as_slice().is_empty();
    let verdict = judge(alloc, ran)?;
    Ok(is_over & verdict.is_serial())
}

/// Runs such steps in each of these ways, which are covered protocols' and so serializable.
fn are_serial(
    rt: &impl Abort,
    alloc: Global,
    ways: &[Way],
    seed: u64,
    later: bool,
) -> Result<(), Memory> {
    let events = random_steps(seed, later);
    for way in ways {
        let ran = ran_by(alloc, *way, &[], &events)?;
        let serial = is_serial(alloc, &ran)?;
        assert!(rt; serial, "{way:?} {seed}");
    }
    Ok(())
}

#[test]
fn random_steps_under_covered_protocols(rt: HostRuntime) -> Result<(), Memory> {
    for seed in 1..=20 {
        are_serial(&rt, rt.alloc(), &LOCKED, seed, false)?;
    }
    Ok(())
}

#[test]
fn random_updates_and_backs_under_covered_protocols(rt: HostRuntime) -> Result<(), Memory> {
    for seed in 1..=20 {
        are_serial(&rt, rt.alloc(), &LOCKED, seed, true)?;
        are_serial(&rt, rt.alloc(), KEY_VALUE_WITH_UPDATES, seed, true)?;
    }
    Ok(())
}

/// Worked out by another program: for each seed from 1 how many programs such steps leave where no lock keeps them apart, and
/// the first answer that differs.
#[rattlefmt::skip]
const DIFFERENCES: [(usize, Txn, u64); 20] = [
    (39, 4, 1), (42, 4, 3), (28, 7, 8), (36, 3, 1), (37, 5, 1),
    (35, 0, 1), (37, 2, 5), (40, 2, 1), (39, 0, 3), (37, 1, 7),
    (36, 2, 2), (39, 6, 5), (32, 0, 2), (39, 1, 1), (34, 4, 3),
    (34, 4, 2), (36, 1, 3), (42, 0, 3), (39, 24, 1), (42, 9, 2),
];

/// The transaction and the number of the first operation whose answer isn't the one of the commit order, if there is one.
fn place_of(verdict: &Verdict) -> (Txn, u64) {
    match verdict {
        Verdict::Serial => (0, 0),
        Verdict::NotSerial { txn, operation, .. } => (*txn, *operation),
    }
}

/// How many programs such steps leave without locks, and where they differ first: by `judge`, and by `judge_run`.
fn difference(alloc: Global, seed: u64) -> Result<(usize, (Txn, u64), (Txn, u64)), Memory> {
    let events = random_steps(seed, false);
    let ran = ran_by(alloc, Way::WithoutLocks, &[], &events)?;
    let judged = judged_by(alloc, Way::WithoutLocks, &[], &events)?;
    let programs = ran.programs.as_slice().len();
    Ok((programs, place_of(&judge(alloc, &ran)?), place_of(&judged)))
}

#[test]
fn random_steps_without_locks(rt: HostRuntime) -> Result<(), Memory> {
    for seed in 1..=20_u64 {
        let (programs, judged, judged_at_once) = difference(rt.alloc(), seed)?;
        let (count, txn, operation) = DIFFERENCES[seed as usize - 1];
        assert_eq!(rt; programs, count, "{seed}");
        assert_eq!(rt; judged, (txn, operation), "{seed}");
        assert_eq!(rt; judged_at_once, judged, "{seed}");
    }
    Ok(())
}
