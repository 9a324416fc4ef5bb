//! Whole runs under a protocol of either kind.
ghost use Rattle.std.specs.Prelude.{◌≡◌, ◌≤◌, false, true, All, IfOk, OnOk, map};
ghost use Rattle.kr_model.specs.Map.{IsMap};
ghost use Rattle.kr_model.specs.Log.{log_after, no_log};
ghost use Rattle.kr_model.specs.Serial.{AreSerial};
ghost use Rattle.kr_kinds.specs.Kinds.{IsSafeIndex, leaves_ghosts, table_of};
ghost use Rattle.kr_kinds.specs.Runs.{IsSerialIndexRun, run};
ghost use Rattle.kr_stepping.specs.Answers.{answers};
ghost use Rattle.kr_stepping.specs.Ran.{IsIndexRan};

use crate::gone::GoneStepper;
use crate::leaves::LeavingStepper;
use crate::noted::{Noted, note_all};
use kr_ghost::Move;
use kr_ghost_index::GhostIndex;
use kr_ghost_run::GhostRan;
use kr_index::Tree;
use kr_judge::Triples;
use kr_kinds::{IndexProtocol, Stepping};
use kr_locks::Buckets;
use kr_model::Memory;
use std::alloc::Global;

/// Does the moves one after another under a protocol of either kind, from an opening map whose keys rise strictly, with no ghosts.
/// Where deletes leave no ghosts a purge does nothing. The only error is `Memory`: an allocation failed, and nothing of the run is
/// shown.
///
/// Under a safe protocol the run is serializable in commit order: so are its committed programs, and the index with the
/// unfinished transactions rolled back, in any order, is the map that they leave. A covered protocol is safe.
pub fn run_any<P: IndexProtocol>(
    alloc: Global,
    protocol: &P,
    opening: &[(u64, u64)],
    moves: &[Move],
) -> Result<GhostRan, Memory>
    requires { IsMap opening.now }
    ensures ran { IfOk result (λ ran. IsIndexRan (P.index protocol.now) opening.now moves.now ran) }
    ensures safe { IsSafeIndex (P.index protocol.now) → IfOk result (λ ran. AreSerial opening.now ran.programs) }
    ensures safe_run { IsSafeIndex (P.index protocol.now) → OnOk result (IsSerialIndexRun (P.index protocol.now) opening.now moves.now) }
{
    run_by_kind(alloc, protocol, opening, moves)
}

/// The same, without what holds under a safe protocol. The kind is asked here, and nowhere below.
fn run_by_kind<P: IndexProtocol>(
    alloc: Global,
    protocol: &P,
    opening: &[(u64, u64)],
    moves: &[Move],
) -> Result<GhostRan, Memory>
    requires { IsMap opening.now }
    ensures { IfOk result (λ ran. IsIndexRan (P.index protocol.now) opening.now moves.now ran) }
{
    if protocol.leaves_ghosts() {
        run_leaving(alloc, protocol, opening, moves)
    } else {
        run_gone(alloc, protocol, opening, moves)
    }
}

/// The same where a deleted key stays as a ghost.
fn run_leaving<P: IndexProtocol>(
    alloc: Global,
    protocol: &P,
    opening: &[(u64, u64)],
    moves: &[Move],
) -> Result<GhostRan, Memory>
    requires is_map { IsMap opening.now }
    requires leaves { leaves_ghosts (P.index protocol.now) ≡ true }
    ensures { IfOk result (λ ran. IsIndexRan (P.index protocol.now) opening.now moves.now ran) }
{
    let index = GhostIndex::from_pairs(alloc, opening)?;
    let mut stepper = LeavingStepper::new(alloc, protocol, index, Buckets::new(alloc));
    ran_on(alloc, &mut stepper, moves)
}

/// The same where a deleted key goes at once.
fn run_gone<P: IndexProtocol>(
    alloc: Global,
    protocol: &P,
    opening: &[(u64, u64)],
    moves: &[Move],
) -> Result<GhostRan, Memory>
    requires is_map { IsMap opening.now }
    requires gone { leaves_ghosts (P.index protocol.now) ≡ false }
    ensures { IfOk result (λ ran. IsIndexRan (P.index protocol.now) opening.now moves.now ran) }
{
    let index = Tree::from_pairs(alloc, opening)?;
    let mut stepper = GoneStepper::new(alloc, protocol, index, Buckets::new(alloc));
    ran_on(alloc, &mut stepper, moves)
}

/// What the moves leave on a machine, from the state that it is in.
fn ran_on<M: Stepping>(alloc: Global, stepper: &mut M, moves: &[Move]) -> Result<GhostRan, Memory>
    ensures answers { IfOk result (λ ran. ran.answers ≡ answers (M.index stepper.old) (M.state stepper.old) moves.now) }
    ensures programs { IfOk result (λ ran. let r = run (M.index stepper.old) (M.state stepper.old) moves.now in let log = log_after no_log r.history in ran.programs ≡ log.committed) }
    ensures index { IfOk result (λ ran. let r = run (M.index stepper.old) (M.state stepper.old) moves.now in let s = r.last in ran.index ≡ s.state.map) }
    ensures ghosts { IfOk result (λ ran. let r = run (M.index stepper.old) (M.state stepper.old) moves.now in let s = r.last in ran.ghosts ≡ s.ghosts) }
    ensures locks { IfOk result (λ ran. let r = run (M.index stepper.old) (M.state stepper.old) moves.now in let s = r.last in ran.locks ≡ s.state.locks) }
    ensures modes { IfOk result (λ ran. All (λ l. l.1 ≤ (table_of (M.index stepper.old)).count) ran.locks) }
    ensures unfinished { IfOk result (λ ran. let r = run (M.index stepper.old) (M.state stepper.old) moves.now in let s = r.last in ran.unfinished ≡ map (λ a. a.0) s.state.active) }
{
    let Noted { answers, programs } = note_all(alloc, stepper, moves)?;
    let index = stepper.pairs()?;
    let ghosts = stepper.ghosts()?;
    let locks = Triples::from_vec(stepper.locks()?);
    let unfinished = stepper.unfinished()?;
    Ok(GhostRan {
        answers,
        programs,
        index,
        ghosts,
        locks,
        unfinished,
    })
}
