//! The choice of few scripts.

use crate::entry::Entry;
use crate::flat::Flat;
use crate::part::{Part, Script};
use crate::replay::{entries_of, tells};
use crate::tables::Tables;
use crate::trail::MOST_STEPS;
use kr_change::Change;
use kr_model::{Memory, Op};
use std::alloc::Global;

/// A script, and the numbers of the changes that it tells apart.
#[derive(Drop)]
struct Candidate<'a> {
    script: &'a Script,
    tells: Vec<usize>,
}

impl Candidate<'_> {
    fn len(&self) -> usize {
        self.script.events.len()
    }

    /// Whether a step takes a change back.
    fn takes_back(&self) -> bool {
        for event in self.script.events.iter() {
            if event.op == Op::Back {
                return true;
            }
        }
        false
    }
}

/// A candidate that was chosen.
#[derive(Clone, Copy)]
struct Picked<'a> {
    candidate: &'a Candidate<'a>,
    /// Whether some change is told apart by it alone, of those that are needed.
    is_needed: bool,
}

/// Few of the scripts that tell apart all that they tell together: one after another that which tells most of what is left
/// for its length, and then without those that the others make needless. Those that take changes back come last.
pub(crate) fn choice(
    alloc: Global,
    flat: &Flat,
    changes: &[Change],
    scripts: &[Script],
) -> Result<Vec<Part>, Memory> {
    let mut candidates = Vec::new(alloc);
    choose(alloc, flat, changes, scripts, &mut candidates)
}

/// The same. The candidates are none at first.
fn choose<'a>(
    alloc: Global,
    flat: &Flat,
    changes: &[Change],
    scripts: &'a [Script],
    candidates: &mut Vec<Candidate<'a>>,
) -> Result<Vec<Part>, Memory> {
    for script in scripts {
        put_candidate(alloc, flat, changes, script, candidates)?;
    }
    let mut chosen = chosen(alloc, candidates, changes.len())?;
    mark_needless(alloc, &mut chosen, changes.len())?;
    parts_of(alloc, &chosen)
}

/// Puts a script behind the candidates, if it isn't one of them.
fn put_candidate<'a>(
    alloc: Global,
    flat: &Flat,
    changes: &[Change],
    script: &'a Script,
    candidates: &mut Vec<Candidate<'a>>,
) -> Result<(), Memory> {
    if has(candidates, script) {
        return Ok(());
    }
    let tells = told_by(alloc, flat, changes, script)?;
    candidates.push(Candidate { script, tells })?;
    Ok(())
}

/// Whether a script is one of the candidates.
fn has(candidates: &[Candidate<'_>], script: &Script) -> bool {
    for candidate in candidates {
        if candidate.script == script {
            return true;
        }
    }
    false
}

/// The parts of those that are needed: those that take changes back come last.
fn parts_of(alloc: Global, chosen: &[Picked<'_>]) -> Result<Vec<Part>, Memory> {
    let mut parts = Vec::new(alloc);
    put_parts(alloc, chosen, false, &mut parts)?;
    put_parts(alloc, chosen, true, &mut parts)?;
    Ok(parts)
}

/// Puts the parts of those that are needed behind the others: of those that take changes back, or of those that don't.
fn put_parts(
    alloc: Global,
    chosen: &[Picked<'_>],
    takes_back: bool,
    parts: &mut Vec<Part>,
) -> Result<(), Memory> {
    for one in chosen {
        if one.is_needed && one.candidate.takes_back() == takes_back {
            put_part(alloc, one.candidate, parts)?;
        }
    }
    Ok(())
}

/// Puts the part of a candidate behind the others.
fn put_part(alloc: Global, candidate: &Candidate<'_>, parts: &mut Vec<Part>) -> Result<(), Memory> {
    let part = Part::new(alloc, candidate.script, &candidate.tells)?;
    parts.push(part)?;
    Ok(())
}

/// The numbers of the changes that a script tells apart.
fn told_by(
    alloc: Global,
    flat: &Flat,
    changes: &[Change],
    script: &Script,
) -> Result<Vec<usize>, Memory> {
    let marks = entries_of(alloc, flat, script)?;
    let mut told = Vec::new(alloc);
    put_told(flat, changes, script, &marks, &mut told)?;
    Ok(told)
}

/// Puts the numbers into the list, of those changes whose entries are marked.
fn put_told(
    flat: &Flat,
    changes: &[Change],
    script: &Script,
    marks: &[bool],
    told: &mut Vec<usize>,
) -> Result<(), Memory> {
    let mut tables = Tables::new(flat);
    for (number, change) in changes.iter().enumerate() {
        if is_marked(marks, *change) {
            tables.change(*change);
            if tells(&tables, script) {
                told.push(number)?;
            }
        }
    }
    Ok(())
}

/// Whether the entry of a change is marked.
fn is_marked(marks: &[bool], change: Change) -> bool {
    match Entry::of(change) {
        Some(entry) => matches!(marks.get(entry.number()), Some(true)),
        None => false,
    }
}

/// Scripts that together tell apart all that is told: again and again the best of them.
fn chosen<'a>(
    alloc: Global,
    candidates: &'a [Candidate<'a>],
    changes: usize,
) -> Result<Vec<Picked<'a>>, Memory> {
    let mut left = vec![in alloc; true; changes]?;
    let mut chosen = Vec::new(alloc);
    for _ in 0..candidates.len() {
        let Some(place) = best(candidates, &left) else {
            break;
        };
        let Some(candidate) = candidates.get(place) else {
            break;
        };
        mark_told(&mut left, candidate);
        chosen.push(Picked {
            candidate,
            is_needed: true,
        })?;
    }
    Ok(chosen)
}

/// Marks what a script tells apart as left no more.
fn mark_told(left: &mut Vec<bool>, candidate: &Candidate<'_>) {
    for number in candidate.tells.iter() {
        if let Some(is_left) = left.get_mut(*number) {
            *is_left = false;
        }
    }
}

/// The place of the script that tells most of what is left for its length, the shorter where two do.
fn best(candidates: &[Candidate<'_>], left: &[bool]) -> Option<usize> {
    let mut best: Option<(usize, usize, usize)> = None;
    for (place, candidate) in candidates.iter().enumerate() {
        let gain = gain(candidate, left);
        let cost = candidate.len().saturating_add(1);
        let is_better = match best {
            None => gain > 0,
            Some((_, best_gain, best_cost)) => {
                let one = gain.saturating_mul(best_cost);
                let other = best_gain.saturating_mul(cost);
                one > other || one == other && cost < best_cost
            }
        };
        if is_better {
            best = Some((place, gain, cost));
        }
    }
    let (place, _, _) = best?;
    Some(place)
}

/// How many changes that are left a script tells apart.
fn gain(candidate: &Candidate<'_>, left: &[bool]) -> usize {
    let mut gain: usize = 0;
    for number in candidate.tells.iter() {
        if matches!(left.get(*number), Some(true)) {
            gain = gain.saturating_add(1);
        }
    }
    gain
}

/// Marks the chosen that the others make needless, the longest first. How often a change is told apart is counted.
fn mark_needless(alloc: Global, chosen: &mut [Picked<'_>], changes: usize) -> Result<(), Memory> {
    let mut times: Vec<usize> = vec![in alloc; 0; changes]?;
    for one in chosen.iter() {
        count_all(&mut times, one.candidate, true);
    }
    for shorter in 0..MOST_STEPS {
        for one in chosen.iter_mut() {
            drop_needless(one, MOST_STEPS - shorter, &mut times);
        }
    }
    Ok(())
}

/// Marks one of the chosen, if it has this length and the others make it needless.
fn drop_needless(one: &mut Picked<'_>, length: usize, times: &mut Vec<usize>) {
    if one.candidate.len() == length && is_needless(one.candidate, times) {
        count_all(times, one.candidate, false);
        one.is_needed = false;
    }
}

/// Counts each change that a script tells apart once more, or once less.
fn count_all(times: &mut Vec<usize>, candidate: &Candidate<'_>, is_more: bool) {
    for number in candidate.tells.iter() {
        count(times, *number, is_more);
    }
}

/// Counts a change once more, or once less.
fn count(times: &mut Vec<usize>, number: usize, is_more: bool) {
    if let Some(times) = times.get_mut(number) {
        *times = if is_more {
            times.saturating_add(1)
        } else {
            times.saturating_sub(1)
        };
    }
}

/// Whether each change that a script tells apart is told apart by another too.
fn is_needless(candidate: &Candidate<'_>, times: &[usize]) -> bool {
    for number in candidate.tells.iter() {
        let Some(times) = times.get(*number) else {
            return false;
        };
        if *times < 2 {
            return false;
        }
    }
    true
}
