//! From the word of a script to the report of its run by several threads under a table with ghosts, on a sink.
ghost use Rattle.std.specs.Prelude.{◌≡◌, ◌⊎◌, ◌++◌, ◌∷◌, [], IfOk, IfErr, IsTrue, string_bytes};
ghost use Rattle.std.specs.Io.KnownBytes.{Appends};
ghost use Rattle.kr_sink.specs.Puts.{HasCause};
ghost use Rattle.kr_ghost.specs.Covers.{IsCoveredGhost};
ghost use Rattle.kr_script.specs.GhostScript.{GhostScript};
ghost use Rattle.kr_ghost_threads.specs.declared.made.GhostThreaded.{GhostThreaded};
ghost use Rattle.kr_ghost_threads.specs.Threaded.{IsGhostThreaded};
ghost use Rattle.kr_cli.specs.Endings.{is_output};
ghost use Rattle.kr_cli.specs.GhostScripts.{NamesGhostScript, TellsNoGhostScript};
ghost use Rattle.kr_cli_tasks.specs.Endings.{UnreportedThreads, ghost_threads_ending};
ghost use Rattle.kr_cli_tasks.specs.Program.{GhostThreadsReported};
ghost use Rattle.kr_cli_tasks.specs.Threads.{ghost_threads_line};

use crate::asked::Workers;
use crate::checks::check_ghosts;
use kr_cli::{Ending, Files, ghost_script_at};
use kr_ghost_check::failed_cases;
use kr_ghost_protocol::GhostProtocol;
use kr_ghost_threads::{GhostRunFault, report_ghost_threads, run_ghost_threads};
use kr_judge::Verdict;
use kr_sink::{Sink, print};
use kr_workers::Passage;
use std::alloc::Global;
use std::sync::Wait;
use std::thread::Threads;

/// The report of what several threads did under a covered protocol, with the verdict on the run of its history, which is
/// serializable.
fn told<T: Threads + Wait + Sync, P: GhostProtocol + Sync>(
    threads: &T,
    alloc: Global,
    protocol: &P,
    script: &kr_script::GhostScript,
    workers: Workers,
) -> Result<String, GhostRunFault>
    requires { IsCoveredGhost (P.ghosts protocol.now) }
    ensures { IfOk result (λ text. (d : GhostThreaded) × (IsGhostThreaded (P.ghosts protocol.now) script.now.opening script.now.moves d
        × (string_bytes text ++ 10 ∷ [] ≡ ghost_threads_line (P.ghosts protocol.now) script.now.opening d))) }
{
    let workers = workers.count();
    let threaded = run_ghost_threads(threads, alloc, protocol, script, workers, &Passage)?;
    Ok(report_ghost_threads(alloc, &threaded, &Verdict::Serial)?)
}

/// How the program ends at a fault of a run by several threads.
fn ending_of(fault: GhostRunFault) -> Ending
    ensures { result ≡ ghost_threads_ending fault }
{
    match fault {
        GhostRunFault::Memory => Ending::Memory,
        GhostRunFault::Place => Ending::Place,
    }
}

/// Runs the script in the file that a word names by several threads, writes the report of what they did, and answers that the
/// run of its history is serializable.
fn thread_ghosts<T: Threads + Wait + Sync, P: GhostProtocol + Sync, F: Files, W: Sink>(
    threads: &T,
    alloc: Global,
    protocol: &P,
    word: &str,
    workers: Workers,
    files: &F,
    out: &mut W,
) -> Result<bool, Ending>
    requires covered { IsCoveredGhost (P.ghosts protocol.now) }
    ensures reports { IfOk result (λ _. (s : GhostScript) × (NamesGhostScript (F.may_give files.now) word.now s
        × ((d : GhostThreaded) × (IsGhostThreaded (P.ghosts protocol.now) s.opening s.moves d
        × Appends (W.taken out.old) (W.taken out.new) (ghost_threads_line (P.ghosts protocol.now) s.opening d))))) }
    ensures serial { IfOk result (λ serial. IsTrue serial) }
    ensures err { IfErr result (UnreportedThreads (TellsNoGhostScript (F.may_give files.now) word.now)) }
    ensures nothing { IfErr result (λ e. IsTrue (is_output e) ⊎ (out.new ≡ out.old)) }
    ensures cause { IfErr result (λ e. IsTrue (is_output e) → HasCause (W.failures out.old) (W.failures out.new)) }
{
    let script = ghost_script_at(alloc, word, files)?;
    let text = match told(threads, alloc, protocol, &script, workers) {
        Ok(text) => text,
        Err(fault) => return Err(ending_of(fault)),
    };
    print(out, text.as_str())?;
    Ok(true)
}

/// Checks a table with ghosts, and where it is accepted runs the script in the file that a word names by several threads under
/// it. Where it is rejected the report of the check is written, and the script isn't read.
pub(crate) fn check_and_thread_ghosts<
    T: Threads + Wait + Sync,
    P: GhostProtocol + Sync,
    F: Files,
    W: Sink,
>(
    threads: &T,
    alloc: Global,
    protocol: &P,
    word: &str,
    workers: Workers,
    files: &F,
    out: &mut W,
) -> Result<bool, Ending>
    ensures reports { IfOk result (GhostThreadsReported (F.may_give files.now) (P.ghosts protocol.now) (P.names protocol.now) word.now (W.taken out.old) (W.taken out.new)) }
    ensures covered { IsCoveredGhost (P.ghosts protocol.now) → IfOk result (λ is_well. IsTrue is_well) }
    ensures err { IfErr result (UnreportedThreads (TellsNoGhostScript (F.may_give files.now) word.now)) }
    ensures nothing { IfErr result (λ e. IsTrue (is_output e) ⊎ (out.new ≡ out.old)) }
    ensures cause { IfErr result (λ e. IsTrue (is_output e) → HasCause (W.failures out.old) (W.failures out.new)) }
{
    let failed = failed_cases(alloc, protocol)?;
    if failed.is_empty() {
        return thread_ghosts(threads, alloc, protocol, word, workers, files, out);
    }
    Ok(check_ghosts(alloc, protocol, out)?)
}
