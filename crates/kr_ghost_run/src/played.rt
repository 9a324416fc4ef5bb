//! Runs of which the answers and the end are kept, and not what the transactions did.
ghost use Rattle.std.specs.Prelude.{◌≡◌, ◌≤◌, IfOk, OnOk, All, map};
ghost use Rattle.kr_model.specs.Map.{IsMap};
ghost use Rattle.kr_ghost.specs.Run.{run};
ghost use Rattle.kr_ghost.specs.State.{opened};
ghost use Rattle.kr_ghost_run.specs.Ran.{answers};

use crate::{Answer, GhostPlayed, Triples};
use kr_ghost::Move;
use kr_ghost_index::GhostIndex;
use kr_ghost_machine::GhostStepper;
use kr_ghost_protocol::GhostProtocol;
use kr_locks::{Buckets, Holdings};
use kr_model::{Items, Memory};
use std::alloc::Global;

/// Does the moves as `run_moves` does, and keeps no log of what the transactions did: for a run whose verdict is known
/// beforehand. The only fault is `Memory`: a move that was refused memory ends the run, and nothing of it is shown.
pub fn play_moves<P: GhostProtocol>(
    alloc: Global,
    protocol: &P,
    opening: &[(u64, u64)],
    moves: &[Move],
) -> Result<GhostPlayed, Memory>
    requires { IsMap opening.now }
    ensures answers { IfOk result (λ played. played.answers ≡ answers (P.ghosts protocol.now) (opened opening.now) moves.now) }
    ensures index { IfOk result (λ played. let r = run (P.ghosts protocol.now) (opened opening.now) moves.now in let s = r.last in played.index ≡ s.state.map) }
    ensures ghosts { IfOk result (λ played. let r = run (P.ghosts protocol.now) (opened opening.now) moves.now in let s = r.last in played.ghosts ≡ s.ghosts) }
    ensures locks { IfOk result (λ played. let r = run (P.ghosts protocol.now) (opened opening.now) moves.now in let s = r.last in played.locks ≡ s.state.locks) }
    ensures modes { IfOk result (λ played. All (λ l. l.1 ≤ (P.ghosts protocol.now).table.count) played.locks) }
    ensures unfinished { IfOk result (λ played. let r = run (P.ghosts protocol.now) (opened opening.now) moves.now in let s = r.last in played.unfinished ≡ map (λ a. a.0) s.state.active) }
{
    let index = GhostIndex::from_pairs(alloc, opening)?;
    let mut stepper = GhostStepper::new(alloc, protocol, index, Buckets::new(alloc));
    play_on(alloc, &mut stepper, moves)
}

/// The same on a machine, from the state that it is in.
fn play_on<P: GhostProtocol, L: Holdings>(
    alloc: Global,
    stepper: &mut GhostStepper<P, L>,
    moves: &[Move],
) -> Result<GhostPlayed, Memory>
    ensures answers { IfOk result (λ played. played.answers ≡ answers (P.ghosts stepper.old.protocol) stepper.old.state moves.now) }
    ensures index { IfOk result (λ played. let r = run (P.ghosts stepper.old.protocol) stepper.old.state moves.now in let s = r.last in played.index ≡ s.state.map) }
    ensures ghosts { IfOk result (λ played. let r = run (P.ghosts stepper.old.protocol) stepper.old.state moves.now in let s = r.last in played.ghosts ≡ s.ghosts) }
    ensures locks { IfOk result (λ played. let r = run (P.ghosts stepper.old.protocol) stepper.old.state moves.now in let s = r.last in played.locks ≡ s.state.locks) }
    ensures modes { IfOk result (λ played. All (λ l. l.1 ≤ (P.ghosts stepper.old.protocol).table.count) played.locks) }
    ensures unfinished { IfOk result (λ played. let r = run (P.ghosts stepper.old.protocol) stepper.old.state moves.now in let s = r.last in played.unfinished ≡ map (λ a. a.0) s.state.active) }
{
    let answers = answer_all(alloc, stepper, moves)?;
    show(stepper, answers)
}

/// Does the moves one after another, and gives the answers. Ends with `Memory` at the first move that is refused memory, or
/// where an answer can't be kept.
fn answer_all<P: GhostProtocol, L: Holdings>(
    alloc: Global,
    stepper: &mut GhostStepper<P, L>,
    moves: &[Move],
) -> Result<Items<Answer>, Memory>
    ensures protocol { stepper.new.protocol ≡ stepper.old.protocol }
    ensures answers { IfOk result (λ given. given ≡ answers (P.ghosts stepper.old.protocol) stepper.old.state moves.now) }
    ensures last { OnOk result (let r = run (P.ghosts stepper.old.protocol) stepper.old.state moves.now in stepper.new.state ≡ r.last) }
{
    let mut given = Vec::with_capacity(alloc, moves.len())?;
    for next in moves {
        match next {
            Move::Attempt(event) => {
                let reply = stepper.step(event.txn, event.op)?;
                given.push(Answer::Step(reply))?;
            }
            Move::Purge(key) => {
                let is_purged = stepper.purge(*key)?;
                given.push(Answer::Purge(is_purged))?;
            }
        }
    }
    Ok(Items::from_vec(given))
}

/// What is shown of a run with these answers.
pub(crate) fn show<P: GhostProtocol, L: Holdings>(
    stepper: &GhostStepper<P, L>,
    answers: Items<Answer>,
) -> Result<GhostPlayed, Memory>
    ensures answers { IfOk result (λ played. played.answers ≡ answers) }
    ensures index { IfOk result (λ played. played.index ≡ stepper.now.state.state.map) }
    ensures ghosts { IfOk result (λ played. played.ghosts ≡ stepper.now.state.ghosts) }
    ensures locks { IfOk result (λ played. played.locks ≡ stepper.now.state.state.locks) }
    ensures modes { IfOk result (λ played. All (λ l. l.1 ≤ (P.ghosts stepper.now.protocol).table.count) played.locks) }
    ensures unfinished { IfOk result (λ played. played.unfinished ≡ map (λ a. a.0) stepper.now.state.state.active) }
{
    let index = stepper.index()?;
    let ghosts = stepper.ghosts()?;
    let locks = Triples::from_vec(stepper.locks()?);
    let unfinished = stepper.unfinished()?;
    Ok(GhostPlayed {
        answers,
        index,
        ghosts,
        locks,
        unfinished,
    })
}
