//! Tasks under the table that a word names.
ghost use Rattle.std.specs.Prelude.{◌≡◌, ◌⊎◌, IfOk, IfErr, IsTrue};
ghost use Rattle.kr_sink.specs.Puts.{HasCause};
ghost use Rattle.kr_cli.specs.Endings.{is_output};
ghost use Rattle.kr_cli_tasks.specs.Tasks.{DoesTask, EndsTask};

use crate::asked::Task;
use crate::with_ghosts::under_ghosts;
use crate::without_ghosts::under;
use kr_cli::{Ending, Files, Named, named_at};
use kr_sink::Sink;
use std::alloc::Global;
use std::thread::Threads;

/// Does a task under the table that a word names, and answers whether the table is accepted, or each run is serializable. Under
/// a table with ghosts scripts may have purges. Scripts are read only where the word names a table. At a fault of the table, of
/// scripts or of memory nothing is written on `out`.
pub fn task_at<T: Threads + Sync, F: Files + Sync, W: Sink>(
    threads: &T,
    alloc: Global,
    table: &str,
    task: &Task,
    files: &F,
    out: &mut W,
) -> Result<bool, Ending>
    ensures does { IfOk result (DoesTask (F.may_give files.now) table.now task.now (W.taken out.old) (W.taken out.new)) }
    ensures err { IfErr result (EndsTask (F.may_give files.now) table.now task.now) }
    ensures nothing { IfErr result (λ e. IsTrue (is_output e) ⊎ (out.new ≡ out.old)) }
    ensures cause { IfErr result (λ e. IsTrue (is_output e) → HasCause (W.failures out.old) (W.failures out.new)) }
{
    match named_at(alloc, table, files)? {
        Named::Table(table) => under(threads, alloc, table, task, files, out),
        Named::Ghosts(table) => under_ghosts(alloc, &table, task, files, out),
    }
}
