//! The page of a run.
ghost use Rattle.std.specs.Prelude.{◌↔◌, IfOk, IsTrue, string_bytes};
ghost use Rattle.kr_model.specs.Run.{programs};
ghost use Rattle.kr_model.specs.Serial.{AreSerial};
ghost use Rattle.kr_ghost.specs.Covers.{IsCoveredGhost};
ghost use Rattle.kr_ghost.specs.Run.{run};
ghost use Rattle.kr_ghost.specs.Safe.{IsSafeGhost};
ghost use Rattle.kr_ghost.specs.State.{opened};
ghost use Rattle.kr_view_run.specs.Page.{IsPage};
ghost use Rattle.kr_ghost_view.specs.Moves.{drawn_moves};

use crate::scenes::ghost_scenes_of;
use kr_ghost::Move;
use kr_ghost_protocol::GhostProtocol;
use kr_ghost_run::{Answer, GhostRan, Verdict, run_moves};
use kr_judge::judge_programs;
use kr_model::Memory;
use kr_script::GhostScript;
use kr_view_run::page_of_run;
use kr_view_scenes::{Act, Run};
use std::alloc::Global;

/// The page of a script's run under a protocol with ghosts, whose table has this name, and whether the run is serializable: the
/// programs of the transactions that commit are serializable in commit order. Under a safe protocol they are, and so under a
/// covered one.
///
/// The page is that of a run without ghosts (`kr_view_run::picture`), and has a band for each purge too: at most 200 moves and 60
/// names are drawn, the last ones. The only error is that a growth was refused.
pub fn ghost_picture<P: GhostProtocol>(
    alloc: Global,
    protocol: &P,
    table: &str,
    script: &GhostScript,
) -> Result<(String, bool), Memory>
    ensures page { IfOk result (λ told. IsPage table.now
        (drawn_moves (P.ghosts protocol.now) script.now.opening script.now.moves) told.1 (string_bytes told.0)) }
    ensures serial { IfOk result (λ told. IsTrue told.1 ↔ AreSerial script.now.opening
        (let r = run (P.ghosts protocol.now) (opened script.now.opening) script.now.moves in programs r.history)) }
    ensures safe { IsSafeGhost (P.ghosts protocol.now) → IfOk result (λ told. IsTrue told.1) }
    ensures covered { IsCoveredGhost (P.ghosts protocol.now) → IfOk result (λ told. IsTrue told.1) }
{
    let ran = run_moves(alloc, protocol, script.opening(), script.moves())?;
    judged(alloc, protocol, table, script, ran)
}

/// The page of a script's run, which is judged, and whether it is serializable.
fn judged<P: GhostProtocol>(
    alloc: Global,
    protocol: &P,
    table: &str,
    script: &GhostScript,
    ran: GhostRan,
) -> Result<(String, bool), Memory>
    ensures page { IfOk result (λ told. IsPage table.now
        (drawn_moves (P.ghosts protocol.now) script.now.opening script.now.moves) told.1 (string_bytes told.0)) }
    ensures serial { IfOk result (λ told. IsTrue told.1 ↔ AreSerial script.now.opening ran.programs) }
{
    let verdict = judge_programs(alloc, script.opening(), ran.programs.as_slice())?;
    let is_serial = verdict.is_serial();
    let run = run_told(alloc, script, ran, verdict)?;
    let page = page(alloc, protocol, table, script, &run, is_serial)?;
    Ok((page, is_serial))
}

/// The page of a script's run, which has been judged.
fn page<P: GhostProtocol>(
    alloc: Global,
    protocol: &P,
    table: &str,
    script: &GhostScript,
    run: &Run<'_>,
    is_serial: bool,
) -> Result<String, Memory>
    ensures { IfOk result (λ page. IsPage table.now
        (drawn_moves (P.ghosts protocol.now) script.now.opening script.now.moves) is_serial (string_bytes page)) }
{
    let drawn = ghost_scenes_of(alloc, protocol, script.opening(), script.moves())?;
    page_of_run(alloc, protocol, table, run, &drawn, is_serial)
}

/// A script's run as a page tells it, by what it left and the verdict on it.
fn run_told(
    alloc: Global,
    script: &GhostScript,
    ran: GhostRan,
    verdict: Verdict,
) -> Result<Run<'_>, Memory> {
    let acts = acts_of(alloc, script.moves(), ran.answers.into_vec())?;
    Ok(Run {
        opening: script.opening(),
        acts,
        programs: ran.programs,
        unfinished: ran.unfinished,
        verdict,
        has_ghosts: true,
    })
}

/// Moves with the answers to them, in order.
fn acts_of(alloc: Global, moves: &[Move], answers: Vec<Answer>) -> Result<Vec<Act>, Memory> {
    let mut acts = Vec::with_capacity(alloc, answers.len())?;
    let mut left = moves.iter();
    for answer in answers {
        match (left.next(), answer) {
            (Some(Move::Attempt(event)), Answer::Step(reply)) => {
                acts.push(Act::Attempt(*event, reply))?;
            }
            (Some(Move::Purge(key)), Answer::Purge(is_purged)) => {
                acts.push(Act::Purge(*key, is_purged))?;
            }
            _ => {}
        }
    }
    Ok(acts)
}
