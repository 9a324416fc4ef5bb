//! Runs, with what they tell and leave, as rows.
ghost use Rattle.kr_model.specs.Map.{IsMap};

use super::telling::{Did, Told, are_programs};
use super::ways::{Way, judged_by, played_by, ran_by};
use kr_index::Memory;
use kr_model::{Event, Op};
use kr_serial::{Mode, Name, Played, Ran, Reply, Txn, judge};
use kr_test_support::Answer;
use std::alloc::Global;
use std::process::Abort;

/// A run: its steps, each with its answer, what it leaves, and the verdict on it.
#[derive(Clone, Copy)]
pub struct Run<'s, 'a> {
    pub ways: &'a [Way],
    pub opening: Opening,
    pub steps: &'s [Step<'a>],
    /// What it leaves, where that is compared.
    pub left: Option<Left<'a>>,
    pub told: Told<'a>,
}

/// Who attempts what, and the answer.
#[derive(Clone, Copy)]
pub struct Step<'a>(pub Txn, pub Op, pub Answer<'a>);

/// What the index holds before the first step.
#[derive(Clone, Copy)]
pub enum Opening {
    Empty,
    /// A key with a value.
    Pair(u64, u64),
    /// 10, 20 and 30, with the values 1, 2 and 3.
    ThreePairs,
}

/// 10, 20 and 30, with the values 1, 2 and 3.
pub const THREE_PAIRS: &[(u64, u64)] = &[(10, 1), (20, 2), (30, 3)];

/// What a run leaves.
#[derive(Clone, Copy)]
pub struct Left<'a> {
    /// The pairs of a key and its value, keys rising.
    pub index: &'a [(u64, u64)],
    /// The locks by name, and then by transaction.
    pub locks: &'a [((Name, Txn), Mode)],
    /// The transactions that have begun and not ended, rising.
    pub unfinished: &'a [Txn],
    /// What those that committed did, in commit order, where that is compared.
    pub programs: Option<&'a [Did<'a>]>,
}

/// Whether the replies are the answers of the steps.
fn are_answers(replies: &[Reply], steps: &[Step]) -> bool {
    if replies.len() != steps.len() {
        return false;
    }
    for (reply, step) in replies.iter().zip(steps) {
        if !step.2.is(reply) {
            return false;
        }
    }
    true
}

/// Whether a run left that.
fn has_left(ran: &Ran, left: Left) -> bool {
    let does = match left.programs {
        Some(programs) => are_programs(ran.programs.as_slice(), programs),
        None => true,
    };
    does && ran.index.as_slice() == left.index
        && ran.locks.as_slice() == left.locks
        && ran.unfinished.as_slice() == left.unfinished
}

/// Compares a run with a row, and judges it.
fn compare(
    rt: &impl Abort,
    alloc: Global,
    run: &Run,
    opening: &[(u64, u64)],
    ran: &Ran,
) -> Result<(), Memory> {
    let leaves = match run.left {
        Some(left) => has_left(ran, left),
        None => true,
    };
    let answers = are_answers(ran.replies.as_slice(), run.steps);
    assert!(rt; answers && leaves, "{ran:?}");
    assert_eq!(rt; ran.opening.as_slice(), opening);
    let verdict = judge(alloc, ran)?;
    assert!(rt; run.told.is(&verdict), "{verdict:?}");
    Ok(())
}

/// Compares a run of which no programs were kept with the same run.
fn compare_played(rt: &impl Abort, run: &Run, ran: &Ran, played: &Played) {
    let leaves = played.index.as_slice() == ran.index.as_slice()
        && played.locks.as_slice() == ran.locks.as_slice()
        && played.unfinished.as_slice() == ran.unfinished.as_slice();
    let answers = are_answers(played.replies.as_slice(), run.steps);
    assert!(rt; answers && leaves, "{played:?}");
}

/// The steps as events.
fn events_of(alloc: Global, steps: &[Step]) -> Result<Vec<Event>, Memory> {
    let mut events = Vec::new(alloc);
    for step in steps {
        events.push(Event {
            txn: step.0,
            op: step.1,
        })?;
    }
    Ok(events)
}

/// Runs a row in each of its ways from these pairs.
fn tells_from(
    rt: &impl Abort,
    alloc: Global,
    run: &Run,
    opening: &[(u64, u64)],
) -> Result<(), Memory>
    requires { IsMap opening.now }
{
    let events = events_of(alloc, run.steps)?;
    for way in run.ways {
        let ran = ran_by(alloc, *way, opening, events.as_slice())?;
        compare(rt, alloc, run, opening, &ran)?;
        let played = played_by(alloc, *way, opening, events.as_slice())?;
        compare_played(rt, run, &ran, &played);
        let verdict = judged_by(alloc, *way, opening, events.as_slice())?;
        assert!(rt; run.told.is(&verdict), "{verdict:?}");
    }
    Ok(())
}

/// Runs a row in each of its ways.
pub fn tells(rt: &impl Abort, alloc: Global, run: &Run) -> Result<(), Memory> {
    match run.opening {
        Opening::Empty => tells_from(rt, alloc, run, &[]),
        Opening::Pair(key, value) => tells_from(rt, alloc, run, &[(key, value)]),
        Opening::ThreePairs => tells_from(rt, alloc, run, THREE_PAIRS),
    }
}

/// Runs each row in each of its ways.
pub fn each_tells(rt: &impl Abort, alloc: Global, runs: &[Run]) -> Result<(), Memory> {
    for run in runs {
        tells(rt, alloc, run)?;
    }
    Ok(())
}
