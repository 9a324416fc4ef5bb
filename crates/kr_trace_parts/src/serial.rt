//! Whether what committed is serializable in commit order.
ghost use Rattle.std.specs.Prelude.{◌≡◌, ◌<◌, ◌≤◌, ◌+◌, length, ◌↔◌, ◌++◌, ◌∷◌, [], ℕ, List, IfOk, OnOk, IsTrue, Some, None};
ghost use Rattle.kr_model.specs.Map.{Map, IsMap};
ghost use Rattle.kr_trace_follow.specs.Judged.{judged};
ghost use Rattle.kr_trace_follow.specs.Lines.{Line};
ghost use Rattle.kr_trace_follow.specs.Given.{IsFirstDifference, Given};
ghost use Rattle.kr_model.specs.declared.Op.{Op};
ghost use Rattle.kr_trace_lines.specs.declared.observed.Observed.{Observed};
ghost use Rattle.kr_trace_parts.specs.Committed.{Committed, IsFirstFound, IsFound, IsVerdict, or_later};
ghost use Rattle.kr_trace_parts.specs.Judged.{AreJudged};
ghost use Rattle.kr_trace_parts.specs.Printed.{IsPrintedInCommitOrder, IsSerialVerdict};

use crate::asking::{Asks, Part};
use crate::tales::{Answered, Tale, note};
use kr_model::{Event, Memory, Pairs, Txn, Txns};
use kr_trace_follow::{Difference, Judge, differences_are_first};
use kr_trace_lines::{Observed, TraceVerdict, write_judged};
use std::alloc::Global;
use std::collections::BTreeMap;

/// The committed programs of a part, judged as they commit.
#[derive(Drop)]
pub struct Judging {
    pub judge: Judge,
    pub tales: BTreeMap<Txn, Tale>,
    /// The first answer that isn't the serial one.
    pub found: Option<TraceVerdict>,
}

impl Judging {
    /// No step was taken.
    pub fn new(alloc: Global, opening: &[(u64, u64)]) -> Result<Judging, Memory>
        requires { IsMap opening.now }
        ensures { IfOk result (λ j. AreJudged opening.now [] j.tales j.judge.map j.found) }
    {
        Ok(Judging {
            judge: Judge::new(alloc, opening)?,
            tales: BTreeMap::new(alloc),
            found: None,
        })
    }

    /// Takes one more step with its reply.
    pub fn take(&mut self, alloc: Global, event: Event, observed: Observed) -> Result<(), Memory>
        ensures { (opening : Map) (steps : List Line) (n : ℕ)
            → AreJudged opening steps self.old.tales self.old.judge.map self.old.found
            → OnOk result (AreJudged opening (steps ++ record { number = n; event = event; observed = observed } ∷ []) self.new.tales self.new.judge.map self.new.found) }
    {
        if let Some(program) = note(alloc, &mut self.tales, event, observed)? {
            let found = judge_program(alloc, &mut self.judge, event.txn, program)?;
            self.found = or_later(self.found.take(), found);
        }
        Ok(())
    }
}

/// The verdict, by the first wrong answer, if one was found.
pub fn verdict_of(found: Option<TraceVerdict>) -> TraceVerdict
    ensures { (m : Map) (cs : List Committed) → IsFirstFound m cs found → IsVerdict m cs result }
{
    match found {
        Some(found) => found,
        None => TraceVerdict::Serial,
    }
}

/// The first found, or else the later.
fn or_later(first: Option<TraceVerdict>, later: Option<TraceVerdict>) -> Option<TraceVerdict>
    ensures { result ≡ or_later first later }
{
    match first {
        Some(first) => Some(first),
        None => later,
    }
}

/// Judges the next program, of this transaction, and answers with its first answer that isn't the serial one.
fn judge_program(
    alloc: Global,
    judge: &mut Judge,
    txn: Txn,
    program: Vec<Answered>,
) -> Result<Option<TraceVerdict>, Memory>
    ensures found { IfOk result (IsFound judge.old.map txn program.items) }
    ensures left { OnOk result (judge.new ≡ judged judge.old program.items) }
{
    let difference = judge.commit(alloc, program.as_slice())?;
    differences_are_first();
    match difference {
        Some(difference) => Ok(Some(wrong_answer(txn, program, difference))),
        None => Ok(None),
    }
}

/// The answer that was given to the operation with this number, from 1.
fn given_at(program: Vec<Answered>, operation: u64) -> Observed
    requires { (0 < operation) × (operation ≤ length program.items) }
    ensures { (before rest : List Given) (op : Op) (given : Observed) → program.items ≡ before ++ (op, given) ∷ rest → operation ≡ length before + 1 → result ≡ given }
{
    let mut program = program;
    let (_, given) = program.swap_remove(operation as usize - 1);
    given
}

/// The verdict that says this first difference of a program.
pub fn wrong_answer(txn: Txn, program: Vec<Answered>, difference: Difference) -> TraceVerdict
    requires { (m : Map) × IsFirstDifference m program.items difference }
    ensures { (m : Map) → IsFirstDifference m program.items difference → IsFound m txn program.items (Some result) }
{
    TraceVerdict::NotSerial {
        txn,
        operation: difference.operation,
        given: given_at(program, difference.operation),
        serial: difference.serial,
    }
}

/// Whether a verdict says that the answers are serializable.
pub fn is_serial(verdict: &TraceVerdict) -> bool
    ensures { IsTrue result ↔ IsSerialVerdict verdict.now }
{
    match verdict {
        TraceVerdict::Serial | TraceVerdict::SerialInOrder(_) => true,
        TraceVerdict::NotSerial {
            txn: _,
            operation: _,
            given: _,
            serial: _,
        } => false,
        TraceVerdict::Unknown => false,
    }
}

/// Asks whether what committed is serializable in commit order.
#[derive(Drop)]
pub struct InCommitOrder;

impl Asks for InCommitOrder {
    type Part = Judging;

    ghost is_printed = { λ _. IsPrintedInCommitOrder };

    fn begin(
        &self,
        alloc: Global,
        number: u64,
        opening: Pairs,
        tests: Vec<String>,
    ) -> Result<Judging, Memory> {
        let _ = number;
        let _ = tests;
        Judging::new(alloc, opening.as_slice())
    }
}

impl Part for Judging {
    ghost asked = { λ _. IsPrintedInCommitOrder };

    ghost stands_for = { λ j _ s. AreJudged s.opening s.steps j.tales j.judge.map j.found };

    fn step(
        &mut self,
        alloc: Global,
        number: u64,
        event: Event,
        observed: Observed,
    ) -> Result<(), Memory> {
        let _ = number;
        self.take(alloc, event, observed)
    }

    fn order(&mut self, txns: Txns) {
        let _ = txns;
    }

    fn end(self, alloc: Global, part: u64) -> Result<(Option<String>, bool), Memory> {
        let verdict = verdict_of(self.found);
        let line = write_judged(alloc, part, &verdict)?;
        Ok((Some(line), is_serial(&verdict)))
    }
}
