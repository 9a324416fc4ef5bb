//! Moves with their answers, and a log of what the transactions did, on a machine of either kind.
ghost use Rattle.std.specs.Prelude.{◌≡◌, [], IfOk, OnOk};
ghost use Rattle.kr_model.specs.Log.{log_after, no_log};
ghost use Rattle.kr_kinds.specs.Runs.{run};
ghost use Rattle.kr_stepping.specs.Answers.{answers};

use kr_ghost::Move;
use kr_ghost_run::Answer;
use kr_judge::note;
use kr_kinds::Stepping;
use kr_model::{Items, Memory, Programs};
use kr_txn::Log;
use std::alloc::Global;

/// The answer to each move, in the order of the moves, and what each transaction that committed did, in commit order.
#[derive(Drop)]
pub struct Noted {
    pub answers: Items<Answer>,
    pub programs: Programs,
}

/// Does the moves one after another, and notes what the transactions did. The machine keeps its protocol. The error is that an
/// allocation failed; how many of the moves are done then is left open.
pub fn note_all<M: Stepping>(
    alloc: Global,
    stepper: &mut M,
    moves: &[Move],
) -> Result<Noted, Memory>
    ensures index { M.index stepper.new ≡ M.index stepper.old }
    ensures answers { IfOk result (λ n. n.answers ≡ answers (M.index stepper.old) (M.state stepper.old) moves.now) }
    ensures last { OnOk result (let r = run (M.index stepper.old) (M.state stepper.old) moves.now in M.state stepper.new ≡ r.last) }
    ensures programs { IfOk result (λ n. let r = run (M.index stepper.old) (M.state stepper.old) moves.now in let log = log_after no_log r.history in n.programs ≡ log.committed) }
{
    let mut answers = Vec::with_capacity(alloc, moves.len())?;
    let mut log = Log::new(alloc);
    note_each(alloc, stepper, moves, &mut log, &mut answers)?;
    Ok(Noted {
        answers: Items::from_vec(answers),
        programs: log.into_programs(),
    })
}

/// The same, with the log and the answers of the caller.
fn note_each<M: Stepping>(
    alloc: Global,
    stepper: &mut M,
    moves: &[Move],
    log: &mut Log,
    given: &mut Vec<Answer>,
) -> Result<(), Memory>
    requires { given.old.items ≡ [] }
    ensures index { M.index stepper.new ≡ M.index stepper.old }
    ensures answers { OnOk result (given.new.items ≡ answers (M.index stepper.old) (M.state stepper.old) moves.now) }
    ensures last { OnOk result (let r = run (M.index stepper.old) (M.state stepper.old) moves.now in M.state stepper.new ≡ r.last) }
    ensures log { OnOk result (let r = run (M.index stepper.old) (M.state stepper.old) moves.now in log.new.log ≡ log_after log.old.log r.history) }
{
    for next in moves {
        match next {
            Move::Attempt(event) => {
                let reply = stepper.step(event.txn, event.op)?;
                note(alloc, log, *event, &reply)?;
                given.push(Answer::Step(reply))?;
            }
            Move::Purge(key) => {
                let is_purged = stepper.purge(*key)?;
                given.push(Answer::Purge(is_purged))?;
            }
        }
    }
    Ok(())
}
