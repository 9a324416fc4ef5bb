//! Judging committed programs.
ghost use Rattle.std.specs.Prelude.{◌≡◌, ◌↔◌, IfOk};
ghost use Rattle.kr_model.specs.Map.{IsMap};
ghost use Rattle.kr_model.specs.Serial.{AreSerial, map_left};
ghost use Rattle.kr_model.specs.Difference.{difference_in, first_difference};
ghost use Rattle.kr_judge.specs.declared.verdict.Verdict.TheVariants as verdict;
ghost use Rattle.kr_judge.specs.Verdicts.{verdict_of};

use crate::current::Current;
use crate::{Ran, Verdict};
use kr_model::{Memory, Program};
use std::alloc::Global;

/// Judges a run: the operations of its committed programs are run whole on the opening map, one after another in commit
/// order, and each answer is compared with the one given. It tells that they are serializable, or the first answer that
/// differs. The only fault is `Memory`.
///
/// The opening map isn't copied: beside it a hash table keeps the keys that the programs changed. An operation takes one look
/// at the table, and a binary search of the opening where its key was not changed. The first scan puts all pairs into a tree;
/// from then on an operation takes one look at that, and a scan is compared in place.
pub fn judge(alloc: Global, ran: &Ran) -> Result<Verdict, Memory>
    ensures verdict { IfOk result (λ v. v ≡ verdict_of (first_difference ran.now.opening ran.now.programs)) }
    ensures serial { IfOk result (λ v. (v ≡ verdict.Serial) ↔ AreSerial ran.now.opening ran.now.programs) }
{
    judge_programs(alloc, ran.opening.as_slice(), ran.programs.as_slice())
}

/// Judges committed programs, in the order of the list, against an opening map whose keys rise strictly, as `judge` does. The only
/// fault is `Memory`.
pub fn judge_programs(
    alloc: Global,
    opening: &[(u64, u64)],
    programs: &[Program],
) -> Result<Verdict, Memory>
    requires { IsMap opening.now }
    ensures { IfOk result (λ v. v ≡ verdict_of (first_difference opening.now programs.now)) }
{
    let mut map = Current::new(alloc, opening);
    for program in programs {
        let verdict = judge_program(alloc, &mut map, program)?;
        if !verdict.is_serial() {
            return Ok(verdict);
        }
    }
    Ok(Verdict::Serial)
}

/// Judges one program against the map that the programs before it left. Where it is serializable, the map is then the one
/// that the program leaves.
fn judge_program(alloc: Global, map: &mut Current<'_>, program: &Program) -> Result<Verdict, Memory>
    ensures verdict { IfOk result (λ v. v ≡ verdict_of (difference_in program.now.txn map.old 1 program.now.operations)) }
    ensures left { IfOk result (λ v. v ≡ verdict.Serial → map.new ≡ map_left map.old program.now.operations) }
{
    let operations = program.operations.as_slice();
    for i in 0..operations.len() {
        let (op, given) = &operations[i];
        if let Some(serial) = map.differs(alloc, *op, given)? {
            return Ok(Verdict::NotSerial {
                txn: program.txn,
                operation: i as u64 + 1,
                given: given.try_copy(alloc)?,
                serial,
            });
        }
    }
    Ok(Verdict::Serial)
}
