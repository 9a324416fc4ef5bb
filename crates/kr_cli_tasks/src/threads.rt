//! From the word of a script to the report of its run by several threads, on a sink.
ghost use Rattle.std.specs.Prelude.{◌≡◌, ◌⊎◌, List, ◌++◌, ◌∷◌, [], IfOk, IfErr, IsTrue, string_bytes};
ghost use Rattle.kr_model.specs.declared.Event.{Event};
ghost use Rattle.kr_model.specs.Map.{Map};
ghost use Rattle.kr_model.specs.Protocol.{Protocol};
ghost use Rattle.std.specs.Io.KnownBytes.{Appends};
ghost use Rattle.kr_sink.specs.Puts.{AppendsFront, HasCause};
ghost use Rattle.kr_model.specs.Covers.{IsCovered};
ghost use Rattle.kr_script.specs.Script.{Script};
ghost use Rattle.kr_report.specs.declared.threaded.Threaded.{Threaded as Outcome};
ghost use Rattle.kr_threads.specs.Threaded.{IsThreaded, ShowsThreads};
ghost use Rattle.kr_cli.specs.Endings.{is_output};
ghost use Rattle.kr_cli.specs.Named.{NamesScript, TellsNoScript};
ghost use Rattle.kr_cli_tasks.specs.Endings.{UnreportedThreads, threads_ending};
ghost use Rattle.kr_cli_tasks.specs.Program.{ThreadsReported};
ghost use Rattle.kr_cli_tasks.specs.Threads.{threads_line};

use crate::asked::Workers;
use crate::checks::write_check;
use kr_cases::{Rejected, WhyRejected, check};
use kr_cli::{Ending, Files, script_at};
use kr_judge::Verdict;
use kr_protocol::{Covered, Protocol};
use kr_report::{ThreadsShown, report_threads_shown};
use kr_sink::{Sink, print};
use kr_threads::{Passage, RunFault, show_threads};
use std::alloc::{AllocError, Global};
use std::sync::Wait;
use std::thread::Threads;

/// The report of what several threads did, with the verdict on the run of its history, which is serializable.
fn report_of(alloc: Global, shown: &ThreadsShown) -> Result<String, AllocError>
    ensures { IfOk result (λ text. (p : Protocol) (opening : Map) (steps : List Event) → (shows : ShowsThreads p opening steps shown.now) → string_bytes text ++ 10 ∷ [] ≡ threads_line shows.whole) }
{
    report_threads_shown(alloc, shown, &Verdict::Serial)
}

/// What several threads did under a covered protocol, as `report_of` reports it.
fn told<T: Threads + Wait + Sync, P: Covered + Sync>(
    threads: &T,
    alloc: Global,
    protocol: &P,
    script: &kr_script::Script,
    workers: Workers,
) -> Result<String, RunFault>
    ensures { IfOk result (λ text. (d : Outcome) × (IsThreaded (P.table protocol.now) script.now.opening script.now.steps d
        × (string_bytes text ++ 10 ∷ [] ≡ threads_line d))) }
{
    let shown = show_threads(threads, alloc, protocol, script, workers.count(), &Passage)?;
    Ok(report_of(alloc, &shown)?)
}

/// How the program ends at a fault of a run by several threads.
fn ending_of(fault: RunFault) -> Ending
    ensures { result ≡ threads_ending fault }
{
    match fault {
        RunFault::Memory => Ending::Memory,
        RunFault::Place => Ending::Place,
    }
}

/// Runs the script in the file that a word names by several threads, writes the report of what they did, with the verdict on the
/// run of its history and a line feed, and answers whether that run is serializable, which it is. At a fault of the file, of its
/// bytes, of memory or of a place nothing is written; where printing fails, a prefix of the report was.
fn thread_script<T: Threads + Wait + Sync, P: Covered + Sync, F: Files, W: Sink>(
    threads: &T,
    alloc: Global,
    protocol: &P,
    word: &str,
    workers: Workers,
    files: &F,
    out: &mut W,
) -> Result<bool, Ending>
    ensures reports { IfOk result (λ serial. IsTrue serial × ((s : Script) × (NamesScript (F.may_give files.now) word.now s
        × ((d : Outcome) × (IsThreaded (P.table protocol.now) s.opening s.steps d × Appends (W.taken out.old) (W.taken out.new) (threads_line d)))))) }
    ensures err { IfErr result (UnreportedThreads (TellsNoScript (F.may_give files.now) word.now)) }
    ensures front { IfErr result (λ e. IsTrue (is_output e) → (s : Script) × (NamesScript (F.may_give files.now) word.now s
        × ((d : Outcome) × (IsThreaded (P.table protocol.now) s.opening s.steps d × AppendsFront (W.taken out.old) (W.taken out.new) (threads_line d))))) }
    ensures nothing { IfErr result (λ e. IsTrue (is_output e) ⊎ (out.new ≡ out.old)) }
    ensures cause { IfErr result (λ e. IsTrue (is_output e) → HasCause (W.failures out.old) (W.failures out.new)) }
{
    let script = script_at(alloc, word, files)?;
    let text = match told(threads, alloc, protocol, &script, workers) {
        Ok(text) => text,
        Err(fault) => return Err(ending_of(fault)),
    };
    print(out, text.as_str())?;
    Ok(true)
}

/// Checks a table, and where it is accepted runs the script in the file that a word names by several threads under it. Where
/// it is rejected the report of the check is written, and the script isn't read.
pub(crate) fn check_and_thread<T: Threads + Wait + Sync, P: Protocol + Sync, F: Files, W: Sink>(
    threads: &T,
    alloc: Global,
    protocol: P,
    word: &str,
    workers: Workers,
    files: &F,
    out: &mut W,
) -> Result<bool, Ending>
    ensures reports { IfOk result (ThreadsReported (F.may_give files.now) (P.table protocol) (P.names protocol) word.now (W.taken out.old) (W.taken out.new)) }
    ensures covered { IsCovered (P.table protocol) → IfOk result (λ is_well. IsTrue is_well) }
    ensures err { IfErr result (UnreportedThreads (TellsNoScript (F.may_give files.now) word.now)) }
    ensures nothing { IfErr result (λ e. IsTrue (is_output e) ⊎ (out.new ≡ out.old)) }
    ensures cause { IfErr result (λ e. IsTrue (is_output e) → HasCause (W.failures out.old) (W.failures out.new)) }
{
    match check(alloc, protocol) {
        Ok(checked) => thread_script(threads, alloc, &checked, word, workers, files, out),
        Err(Rejected { protocol, cause }) => match cause {
            WhyRejected::Failed(failed) => Ok(write_check(
                alloc,
                &protocol,
                failed.as_slice(),
                out,
            )?),
            WhyRejected::Memory => Err(Ending::Memory),
        },
    }
}
