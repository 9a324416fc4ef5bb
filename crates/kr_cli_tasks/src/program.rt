//! From words to the report of the task that they ask for, on a sink.
ghost use Rattle.std.specs.Prelude.{◌≡◌, ◌⊎◌, IfOk, IfErr, IsTrue, map, string_bytes};
ghost use Rattle.kr_sink.specs.Puts.{HasCause};
ghost use Rattle.kr_cli.specs.Endings.{is_output};
ghost use Rattle.kr_cli_tasks.specs.Endings.{UnreportedThreads};
ghost use Rattle.kr_cli_tasks.specs.Program.{DoesThreads, Ends, TellsThreads, WritesReport};

use crate::asked::{Asked, Form, Workers};
use crate::ghost_threads::check_and_thread_ghosts;
use crate::named_tasks::task_at;
use crate::threads::check_and_thread;
use crate::words::read_words;
use kr_cli::{Ending, Files, Named, named_at};
use kr_sink::Sink;
use std::alloc::Global;
use std::sync::Wait;
use std::thread::Threads;

/// Runs a script by several threads under the table that a word names, and answers whether the run of its history is serializable,
/// which it is. Where the table is rejected the report of the check is written, and the script isn't read.
fn threads_at<T: Threads + Wait + Sync, F: Files, W: Sink>(
    threads: &T,
    alloc: Global,
    table: &str,
    script: &str,
    workers: Workers,
    files: &F,
    out: &mut W,
) -> Result<bool, Ending>
    ensures does { IfOk result (DoesThreads (F.may_give files.now) table.now script.now (W.taken out.old) (W.taken out.new)) }
    ensures err { IfErr result (UnreportedThreads (TellsThreads (F.may_give files.now) table.now script.now)) }
    ensures nothing { IfErr result (λ e. IsTrue (is_output e) ⊎ (out.new ≡ out.old)) }
    ensures cause { IfErr result (λ e. IsTrue (is_output e) → HasCause (W.failures out.old) (W.failures out.new)) }
{
    match named_at(alloc, table, files)? {
        Named::Table(table) => check_and_thread(threads, alloc, table, script, workers, files, out),
        Named::Ghosts(table) => check_and_thread_ghosts(
            threads, alloc, &table, script, workers, files, out,
        ),
    }
}

/// Does what the words ask, which are `check`, `run`, `judge` or `threads` and what stands behind it, and answers whether the
/// table is accepted, or each run is serializable. Under a table with ghosts scripts may have purges. Scripts are read only where
/// that word names a table.
pub fn task<T: Threads + Wait + Sync, F: Files + Sync, W: Sink>(
    threads: &T,
    alloc: Global,
    words: &[String],
    files: &F,
    out: &mut W,
) -> Result<bool, Ending>
    ensures answers { IfOk result (WritesReport (F.may_give files.now) (map string_bytes words.now) (W.taken out.old) (W.taken out.new)) }
    ensures err { IfErr result (Ends (F.may_give files.now) (map string_bytes words.now)) }
    ensures nothing { IfErr result (λ e. IsTrue (is_output e) ⊎ (out.new ≡ out.old)) }
    ensures cause { IfErr result (λ e. IsTrue (is_output e) → HasCause (W.failures out.old) (W.failures out.new)) }
{
    let Asked { table, form } = read_words(alloc, words)?;
    match form {
        Form::Plain(task) => task_at(threads, alloc, table, &task, files, out),
        Form::Threads(script, workers) => {
            threads_at(threads, alloc, table, script, workers, files, out)
        }
    }
}
