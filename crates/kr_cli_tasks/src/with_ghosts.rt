//! Tasks under a table with ghosts.
ghost use Rattle.std.specs.Prelude.{◌≡◌, ◌⊎◌, IfOk, IfErr, IsTrue};
ghost use Rattle.kr_sink.specs.Puts.{HasCause};
ghost use Rattle.kr_ghost.specs.Covers.{IsCoveredGhost};
ghost use Rattle.kr_cli.specs.Endings.{is_output};
ghost use Rattle.kr_cli_tasks.specs.Tasks.{ReportsGhosts, UndoneGhosts};

use crate::asked::Task;
use crate::checks::check_ghosts;
use crate::ghost_runs::{judge_ghosts, run_ghosts};
use kr_cli::{Ending, Files};
use kr_ghost_protocol::GhostProtocol;
use kr_sink::Sink;
use std::alloc::Global;

/// Does a task under a protocol with ghosts, and answers whether the table is accepted, or each run is serializable; under a
/// covered protocol that is so, whatever the task. Scripts may have purges. At a fault of scripts or memory nothing is written on
/// `out`.
pub fn under_ghosts<P: GhostProtocol, F: Files, W: Sink>(
    alloc: Global,
    protocol: &P,
    task: &Task,
    files: &F,
    out: &mut W,
) -> Result<bool, Ending>
    ensures reports { IfOk result (ReportsGhosts (F.may_give files.now) (P.ghosts protocol.now) (P.names protocol.now) task.now (W.taken out.old) (W.taken out.new)) }
    ensures covered { IsCoveredGhost (P.ghosts protocol.now) → IfOk result (λ is_well. IsTrue is_well) }
    ensures err { IfErr result (UndoneGhosts (F.may_give files.now) task.now) }
    ensures nothing { IfErr result (λ e. IsTrue (is_output e) ⊎ (out.new ≡ out.old)) }
    ensures cause { IfErr result (λ e. IsTrue (is_output e) → HasCause (W.failures out.old) (W.failures out.new)) }
{
    match task {
        Task::Check => Ok(check_ghosts(alloc, protocol, out)?),
        Task::Run(script) => run_ghosts(alloc, protocol, script, files, out),
        Task::Judge(words) => judge_ghosts(alloc, protocol, words.as_slice(), files, out),
    }
}
