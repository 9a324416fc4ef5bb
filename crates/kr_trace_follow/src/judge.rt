//! Judging committed programs by the answers that were observed, one after another, as they commit.
ghost use Rattle.std.specs.Prelude.{◌≡◌, IfOk, OnOk, OnErr, true, false};
ghost use Rattle.kr_model.specs.Map.{IsMap};
ghost use Rattle.kr_trace_follow.specs.Given.{difference_at, difference_in, map_after, or_later};

use kr_index::Memory;
use kr_judge::{answer, follow, map_of};
use kr_model::{Op, Reply};
use kr_trace_lines::{Observed, fits};
use std::alloc::{AllocError, Global};
use std::collections::BTreeMap;
use std::marker::Model;

/// An answer that isn't that of the serial run.
#[derive(Drop)]
pub struct Difference {
    /// The number of the operation in its program, from 1.
    pub operation: u64,
    /// The answer of the operation run whole, on the map that all before it left.
    pub serial: Reply,
}

/// The map that the committed programs so far leave, run whole one after another. Nothing else of them is kept.
#[derive(Drop)]
pub struct Judge {
    map: BTreeMap<u64, u64>,
    /// Whether it was given up, for want of memory.
    lost: bool,
}

impl Model for Judge {
    ghost use Rattle.kr_model.specs.Map.{IsMap};
    ghost use Rattle.kr_trace_follow.specs.Judged.{Judged};

    ghost Value = { Judged };

    ghost view = { λ j. record { map = j.map.entries; lost = j.lost } };

    ghost invariant = { λ j. IsMap j.map.entries };
}

impl Judge {
    ghost use Rattle.kr_trace_follow.specs.Judged.{unjudged, judged};
    ghost use Rattle.kr_trace_follow.specs.Given.{difference_in, map_after};

    /// No program has committed: the opening map, whose keys rise strictly. The only fault is `Memory`.
    pub fn new(alloc: Global, opening: &[(u64, u64)]) -> Result<Judge, Memory>
        requires { IsMap opening.now }
        ensures { IfOk result (λ j. j ≡ unjudged opening.now) }
    {
        Ok(Judge {
            map: map_of(alloc, opening)?,
            lost: false,
        })
    }

    /// Judges the next program in commit order: the first of its answers that isn't, as far as it was given, the answer of
    /// the operation run whole on the map that all operations before it left, or `None` where there is none. Whether
    /// answers differ or not, the map is then the one that the program leaves, run whole.
    ///
    /// After `Memory` the judge is given up, and answers `Memory` from then on.
    pub fn commit(
        &mut self,
        alloc: Global,
        program: &[(Op, Observed)],
    ) -> Result<Option<Difference>, Memory>
        ensures differs { IfOk result (λ d. d ≡ difference_in self.old.map 1 program.now) }
        ensures judged { OnOk result (self.new ≡ judged self.old program.now) }
        ensures works { OnOk result (self.old.lost ≡ false) }
        ensures lost { OnErr result (self.new.lost ≡ true) }
    {
        if self.lost {
            return Err(AllocError);
        }
        self.lost = true;
        let first = judge_program(alloc, &mut self.map, program)?;
        self.lost = false;
        Ok(first)
    }
}

/// Runs a program whole on a map, and answers the first of its answers that differs, as far as it was given.
fn judge_program(
    alloc: Global,
    map: &mut BTreeMap<u64, u64>,
    program: &[(Op, Observed)],
) -> Result<Option<Difference>, Memory>
    requires { IsMap map.old.entries }
    ensures is_map { IsMap map.new.entries }
    ensures differs { IfOk result (λ d. d ≡ difference_in map.old.entries 1 program.now) }
    ensures left { OnOk result (map.new.entries ≡ map_after map.old.entries program.now) }
{
    let mut first = None;
    for i in 0..program.len() {
        let (op, observed) = &program[i];
        let serial = answer(alloc, map, *op)?;
        follow(map, *op, &serial)?;
        first = or_later(first, difference_at(i as u64 + 1, serial, observed));
    }
    Ok(first)
}

/// The difference of an operation with this number and this answer in the serial run, if the answer isn't what was given.
fn difference_at(operation: u64, serial: Reply, observed: &Observed) -> Option<Difference>
    ensures { result ≡ difference_at operation serial observed.now }
{
    if fits(&serial, observed) {
        return None;
    }
    Some(Difference { operation, serial })
}

/// The first difference, or else the later one.
fn or_later(first: Option<Difference>, later: Option<Difference>) -> Option<Difference>
    ensures { result ≡ or_later first later }
{
    match first {
        Some(first) => Some(first),
        None => later,
    }
}
