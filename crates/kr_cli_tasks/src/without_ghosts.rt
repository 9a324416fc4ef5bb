//! Tasks under a table without ghosts.
ghost use Rattle.std.specs.Prelude.{◌≡◌, ◌⊎◌, IfOk, IfErr, IsTrue};
ghost use Rattle.kr_model.specs.Covers.{IsCovered};
ghost use Rattle.kr_sink.specs.Puts.{HasCause};
ghost use Rattle.kr_cli.specs.Endings.{is_output};
ghost use Rattle.kr_cli_tasks.specs.Tasks.{Reports, Undone};

use crate::asked::Task;
use crate::checks::check_over;
use crate::runs::run_script;
use crate::scripts::judge_scripts;
use kr_cli::{Ending, Files};
use kr_protocol::Protocol;
use kr_sink::Sink;
use std::alloc::Global;
use std::thread::Threads;

/// Does a task under a protocol, and answers whether the table is accepted, or each run is serializable; under a covered
/// protocol that is so, whatever the task. At a fault of scripts or memory nothing is written on `out`.
pub fn under<T: Threads + Sync, P: Protocol + Sync, F: Files + Sync, W: Sink>(
    threads: &T,
    alloc: Global,
    protocol: P,
    task: &Task,
    files: &F,
    out: &mut W,
) -> Result<bool, Ending>
    ensures reports { IfOk result (Reports (F.may_give files.now) (P.table protocol) (P.names protocol) task.now (W.taken out.old) (W.taken out.new)) }
    ensures covered { IsCovered (P.table protocol) → IfOk result (λ is_well. IsTrue is_well) }
    ensures err { IfErr result (Undone (F.may_give files.now) task.now) }
    ensures nothing { IfErr result (λ e. IsTrue (is_output e) ⊎ (out.new ≡ out.old)) }
    ensures cause { IfErr result (λ e. IsTrue (is_output e) → HasCause (W.failures out.old) (W.failures out.new)) }
{
    match task {
        Task::Check => Ok(check_over(alloc, protocol, out)?),
        Task::Run(script) => run_script(alloc, &protocol, script, files, out),
        Task::Judge(words) => judge_scripts(
            threads,
            alloc,
            &protocol,
            words.as_slice(),
            files,
            out,
        ),
    }
}
