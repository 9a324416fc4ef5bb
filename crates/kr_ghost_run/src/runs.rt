//! Whole runs.
ghost use Rattle.std.specs.Prelude.{◌≡◌, ◌↔◌, ◌≤◌, IfOk, All, map};
ghost use Rattle.kr_model.specs.Map.{IsMap};
ghost use Rattle.kr_model.specs.Log.{log_after, no_log};
ghost use Rattle.kr_model.specs.Run.{programs};
ghost use Rattle.kr_model.specs.Serial.{AreSerial};
ghost use Rattle.kr_judge.specs.declared.verdict.Verdict.TheVariants as verdict;
ghost use Rattle.kr_ghost.specs.Run.{run};
ghost use Rattle.kr_ghost.specs.Safe.{IsSafeGhost};
ghost use Rattle.kr_ghost.specs.State.{opened};
ghost use Rattle.kr_ghost_run.specs.Ran.{IsGhostRan, answers, verdict_of_moves};

use crate::noted::{Noted, note_all};
use crate::played::show;
use crate::{GhostRan, Verdict};
use kr_ghost::Move;
use kr_ghost_index::GhostIndex;
use kr_ghost_machine::GhostStepper;
use kr_ghost_protocol::GhostProtocol;
use kr_judge::judge_programs;
use kr_locks::{Buckets, Holdings};
use kr_model::Memory;
use std::alloc::Global;

/// Does the moves one after another under a protocol, from an opening map whose keys rise strictly, with no ghosts. The only
/// fault is `Memory`: a move that was refused memory ends the run, and nothing of it is shown.
///
/// Where the protocol is safe the run is serializable in commit order. A covered protocol is safe.
pub fn run_moves<P: GhostProtocol>(
    alloc: Global,
    protocol: &P,
    opening: &[(u64, u64)],
    moves: &[Move],
) -> Result<GhostRan, Memory>
    requires { IsMap opening.now }
    ensures ran { IfOk result (λ ran. IsGhostRan (P.ghosts protocol.now) opening.now moves.now ran) }
    ensures safe { IsSafeGhost (P.ghosts protocol.now) → IfOk result (λ ran. AreSerial opening.now ran.programs) }
{
    let index = GhostIndex::from_pairs(alloc, opening)?;
    let mut stepper = GhostStepper::new(alloc, protocol, index, Buckets::new(alloc));
    ran_on(alloc, &mut stepper, moves)
}

/// What the moves leave on a machine, from the state that it is in.
fn ran_on<P: GhostProtocol, L: Holdings>(
    alloc: Global,
    stepper: &mut GhostStepper<P, L>,
    moves: &[Move],
) -> Result<GhostRan, Memory>
    ensures answers { IfOk result (λ ran. ran.answers ≡ answers (P.ghosts stepper.old.protocol) stepper.old.state moves.now) }
    ensures programs { IfOk result (λ ran. let r = run (P.ghosts stepper.old.protocol) stepper.old.state moves.now in let log = log_after no_log r.history in ran.programs ≡ log.committed) }
    ensures index { IfOk result (λ ran. let r = run (P.ghosts stepper.old.protocol) stepper.old.state moves.now in let s = r.last in ran.index ≡ s.state.map) }
    ensures ghosts { IfOk result (λ ran. let r = run (P.ghosts stepper.old.protocol) stepper.old.state moves.now in let s = r.last in ran.ghosts ≡ s.ghosts) }
    ensures locks { IfOk result (λ ran. let r = run (P.ghosts stepper.old.protocol) stepper.old.state moves.now in let s = r.last in ran.locks ≡ s.state.locks) }
    ensures modes { IfOk result (λ ran. All (λ l. l.1 ≤ (P.ghosts stepper.old.protocol).table.count) ran.locks) }
    ensures unfinished { IfOk result (λ ran. let r = run (P.ghosts stepper.old.protocol) stepper.old.state moves.now in let s = r.last in ran.unfinished ≡ map (λ a. a.0) s.state.active) }
{
    let Noted { answers, programs } = note_all(alloc, stepper, moves)?;
    let played = show(stepper, answers)?;
    Ok(GhostRan {
        answers: played.answers,
        programs,
        index: played.index,
        ghosts: played.ghosts,
        locks: played.locks,
        unfinished: played.unfinished,
    })
}

/// The verdict on such a run: the operations of its committed programs are run whole on the opening map, one after another in
/// commit order, and each answer is compared with the one given. It copies nothing of the state after the last move. The only
/// fault is `Memory`.
///
/// Where the protocol is safe the verdict is `Serial`. A covered protocol is safe.
pub fn judge_moves<P: GhostProtocol>(
    alloc: Global,
    protocol: &P,
    opening: &[(u64, u64)],
    moves: &[Move],
) -> Result<Verdict, Memory>
    requires { IsMap opening.now }
    ensures verdict { IfOk result (λ v. v ≡ verdict_of_moves (P.ghosts protocol.now) opening.now moves.now) }
    ensures serial { IfOk result (λ v. (v ≡ verdict.Serial) ↔ AreSerial opening.now (let r = run (P.ghosts protocol.now) (opened opening.now) moves.now in programs r.history)) }
    ensures safe { IsSafeGhost (P.ghosts protocol.now) → IfOk result (λ v. v ≡ verdict.Serial) }
{
    let index = GhostIndex::from_pairs(alloc, opening)?;
    let mut stepper = GhostStepper::new(alloc, protocol, index, Buckets::new(alloc));
    judge_on(alloc, &mut stepper, opening, moves)
}

/// The verdict on the programs that the moves commit on a machine that has done none, over an index that has this opening.
#[tactic(auto, using(crate::proofs::Logs::programs_of_run))]
fn judge_on<P: GhostProtocol, L: Holdings>(
    alloc: Global,
    stepper: &mut GhostStepper<P, L>,
    opening: &[(u64, u64)],
    moves: &[Move],
) -> Result<Verdict, Memory>
    requires is_map { IsMap opening.now }
    requires opened { stepper.old.state ≡ opened opening.now }
    ensures { IfOk result (λ v. v ≡ verdict_of_moves (P.ghosts stepper.old.protocol) opening.now moves.now) }
{
    let Noted {
        answers: _,
        programs,
    } = note_all(alloc, stepper, moves)?;
    judge_programs(alloc, opening, programs.as_slice())
}
