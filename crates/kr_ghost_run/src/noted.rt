//! Moves with their answers, and a log of what the transactions did.
ghost use Rattle.std.specs.Prelude.{◌≡◌, [], IfOk, OnOk};
ghost use Rattle.kr_model.specs.Log.{log_after, no_log};
ghost use Rattle.kr_ghost.specs.Run.{run};
ghost use Rattle.kr_ghost_run.specs.Ran.{answers};

use crate::Answer;
use kr_ghost::Move;
use kr_ghost_machine::GhostStepper;
use kr_ghost_protocol::GhostProtocol;
use kr_judge::note;
use kr_locks::Holdings;
use kr_model::{Items, Memory, Programs};
use kr_txn::Log;
use std::alloc::Global;

/// The answer to each move, in the order of the moves, and what each transaction that committed did, in commit order.
#[derive(Drop)]
pub(crate) struct Noted {
    pub(crate) answers: Items<Answer>,
    pub(crate) programs: Programs,
}

/// Does the moves one after another, and notes what the transactions did. Ends with `Memory` at the first move that is refused
/// memory, or where an answer can't be kept.
pub(crate) fn note_all<P: GhostProtocol, L: Holdings>(
    alloc: Global,
    stepper: &mut GhostStepper<P, L>,
    moves: &[Move],
) -> Result<Noted, Memory>
    ensures protocol { stepper.new.protocol ≡ stepper.old.protocol }
    ensures answers { IfOk result (λ n. n.answers ≡ answers (P.ghosts stepper.old.protocol) stepper.old.state moves.now) }
    ensures last { OnOk result (let r = run (P.ghosts stepper.old.protocol) stepper.old.state moves.now in stepper.new.state ≡ r.last) }
    ensures programs { IfOk result (λ n. let r = run (P.ghosts stepper.old.protocol) stepper.old.state moves.now in let log = log_after no_log r.history in n.programs ≡ log.committed) }
{
    let mut answers = Vec::with_capacity(alloc, moves.len())?;
    let mut log = Log::new(alloc);
    note_each(alloc, stepper, moves, &mut log, &mut answers)?;
    Ok(Noted {
        answers: Items::from_vec(answers),
        programs: log.into_programs(),
    })
}

/// The same, with the log and the answers of the caller.
fn note_each<P: GhostProtocol, L: Holdings>(
    alloc: Global,
    stepper: &mut GhostStepper<P, L>,
    moves: &[Move],
    log: &mut Log,
    given: &mut Vec<Answer>,
) -> Result<(), Memory>
    requires { given.old.items ≡ [] }
    ensures protocol { stepper.new.protocol ≡ stepper.old.protocol }
    ensures answers { OnOk result (given.new.items ≡ answers (P.ghosts stepper.old.protocol) stepper.old.state moves.now) }
    ensures last { OnOk result (let r = run (P.ghosts stepper.old.protocol) stepper.old.state moves.now in stepper.new.state ≡ r.last) }
    ensures log { OnOk result (let r = run (P.ghosts stepper.old.protocol) stepper.old.state moves.now in log.new.log ≡ log_after log.old.log r.history) }
{
    for next in moves {
        match next {
            Move::Attempt(event) => {
                let reply = stepper.step(event.txn, event.op)?;
                note(alloc, log, *event, &reply)?;
                given.push(Answer::Step(reply))?;
            }
            Move::Purge(key) => {
                let is_purged = stepper.purge(*key)?;
                given.push(Answer::Purge(is_purged))?;
            }
        }
    }
    Ok(())
}
