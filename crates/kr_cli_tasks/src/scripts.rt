//! Scripts in the files that words name, judged; and how the program ends where they aren't.
ghost use Rattle.std.specs.Prelude.{◌≡◌, ◌⊎◌, ◌↔◌, List, All, false, IfOk, IfErr, IsTrue, map};
ghost use Rattle.std.specs.Io.KnownBytes.{Appends};
ghost use Rattle.kr_model.specs.Covers.{IsCovered};
ghost use Rattle.kr_sink.specs.Puts.{HasCause};
ghost use Rattle.kr_script.specs.Script.{Script};
ghost use Rattle.kr_cli.specs.Endings.{is_output};
ghost use Rattle.kr_cli.specs.Files.{MayBeScript};
ghost use Rattle.kr_batch.specs.Names.{AreNamed, ExplainsNames};
ghost use Rattle.kr_cli_tasks.specs.Endings.{Unreported};
ghost use Rattle.kr_cli_tasks.specs.Runs.{IsSerialScript};
ghost use Rattle.kr_cli_tasks.specs.Judges.{judge_lines, TellsFirst};

use crate::judges::{LinesFault, judge_over};
use kr_batch::{JudgeFault, TextFault, Texts};
use kr_cli::{Ending, FileFault, Files, SCRIPT_BYTES, at_fault, read_file, unreadable};
use kr_protocol::Protocol;
use kr_sink::Sink;
use std::alloc::Global;
use std::thread::Threads;

/// The files that words name, as the texts of scripts.
#[derive(Drop)]
struct Scripts<'a, F> {
    files: &'a F,
}

impl<F: Files> Texts for Scripts<'_, F> {
    ghost may_be = { λ s. MayBeScript (F.may_give s.files.now) };

    fn text(&self, alloc: Global, name: &str) -> Result<Vec<u8>, TextFault> {
        match read_file(alloc, name, self.files, SCRIPT_BYTES) {
            Ok(bytes) => Ok(bytes),
            Err(FileFault::Memory) => Err(TextFault::Memory),
            Err(_) => Err(TextFault::Unreadable),
        }
    }
}

impl<F: Files> Scripts<'_, F> {
    /// How the program ends at this fault of the first of the words that names no script.
    fn ending_for(&self, alloc: Global, words: &[&str], judge_fault: JudgeFault) -> Ending
        requires { ExplainsNames (MayBeScript (F.may_give self.now.files.now)) (map (λ w. w.now) words.now) judge_fault }
        ensures ends { Unreported (TellsFirst (F.may_give self.now.files.now) (map (λ w. w.now) words.now)) result }
        ensures other { is_output result ≡ false }
    {
        match judge_fault {
            JudgeFault::Unreadable(at) => unreadable(alloc, words[at]),
            JudgeFault::Script(at, fault) => at_fault(alloc, words[at], fault),
            JudgeFault::Memory => Ending::Memory,
        }
    }
}

/// Judges the scripts in the files that words name, writes the lines of their verdicts, and answers whether all are
/// serializable. Each thread reads the files of its scripts; of several faults the first in the order of the words is told.
pub fn judge_scripts<T: Threads + Sync, P: Protocol + Sync, F: Files + Sync, W: Sink>(
    threads: &T,
    alloc: Global,
    protocol: &P,
    words: &[&str],
    files: &F,
    out: &mut W,
) -> Result<bool, Ending>
    ensures reports { IfOk result (λ serial. (ss : List Script) × (AreNamed (MayBeScript (F.may_give files.now)) (map (λ w. w.now) words.now) ss
        × (Appends (W.taken out.old) (W.taken out.new) (judge_lines (P.table protocol.now) (map (λ w. w.now) words.now) ss)
        × (IsTrue serial ↔ All (IsSerialScript (P.table protocol.now)) ss)))) }
    ensures covered { IsCovered (P.table protocol.now) → IfOk result (λ serial. IsTrue serial) }
    ensures err { IfErr result (Unreported (TellsFirst (F.may_give files.now) (map (λ w. w.now) words.now))) }
    ensures nothing { IfErr result (λ e. IsTrue (is_output e) ⊎ (out.new ≡ out.old)) }
    ensures cause { IfErr result (λ e. IsTrue (is_output e) → HasCause (W.failures out.old) (W.failures out.new)) }
{
    let scripts = Scripts { files };
    match judge_over(threads, alloc, protocol, &scripts, words, out) {
        Ok(serial) => Ok(serial),
        Err(LinesFault::Print) => Err(Ending::Output),
        Err(LinesFault::Judge(fault)) => Err(scripts.ending_for(alloc, words, fault)),
    }
}
