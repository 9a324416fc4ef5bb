//! Runs of scripts under a table with ghosts, and the verdicts on them, on a sink.
ghost use Rattle.std.specs.Prelude.{◌≡◌, ◌⊎◌, ◌↔◌, ◌++◌, ◌∷◌, [], List, All, false, IfErr, IfOk, IsTrue, map, string_bytes};
ghost use Rattle.std.specs.Io.KnownBytes.{Appends};
ghost use Rattle.kr_sink.specs.Puts.{AppendsFront, HasCause};
ghost use Rattle.kr_judge.specs.declared.verdict.Verdict.TheVariants as verdict;
ghost use Rattle.kr_ghost.specs.Covers.{IsCoveredGhost};
ghost use Rattle.kr_ghost.specs.Safe.{IsSafeGhost};
ghost use Rattle.kr_script.specs.GhostScript.{GhostScript};
ghost use Rattle.kr_ghost_run.specs.Ran.{verdict_of_moves};
ghost use Rattle.kr_report.specs.Report.{verdict_text};
ghost use Rattle.kr_cli.specs.Endings.{MemoryOrTold, is_output};
ghost use Rattle.kr_cli.specs.GhostScripts.{IsSerialGhosts, NamesGhostScript, NameGhostScripts, TellsNoGhostScript, TellsFirstGhost};
ghost use Rattle.kr_cli_tasks.specs.Endings.{Unreported};
ghost use Rattle.kr_cli_tasks.specs.GhostRuns.{ghost_report_text, ghost_report_line, ghost_judge_lines, AreJudged};

use kr_cli::{Ending, Files, ghost_script_at};
use kr_ghost_check::failed_cases;
use kr_ghost_protocol::GhostProtocol;
use kr_ghost_report::{report_ghost_played, report_ghost_run};
use kr_ghost_run::{judge_moves, play_moves, run_moves};
use kr_judge::{Verdict, judge_programs};
use kr_report::report_verdict;
use kr_sink::{Sink, print, put_all};
use std::alloc::{AllocError, Global};

/// Whether all cases of a protocol hold, so that it is covered.
fn all_cases_hold<P: GhostProtocol>(alloc: Global, protocol: &P) -> bool
    ensures { IsTrue result ↔ IsCoveredGhost (P.ghosts protocol.now) }
{
    match failed_cases(alloc, protocol) {
        Ok(failed) => failed.is_empty(),
        Err(_) => false,
    }
}

/// The report of the run of a script under a covered protocol. By the main theorem the run is serializable, so nothing is
/// judged, and what its transactions did isn't kept.
fn report_covered<P: GhostProtocol>(
    alloc: Global,
    protocol: &P,
    script: &kr_script::GhostScript,
) -> Result<String, AllocError>
    requires { IsCoveredGhost (P.ghosts protocol.now) }
    ensures text { IfOk result (λ text. string_bytes text ≡ ghost_report_text (P.ghosts protocol.now) (P.names protocol.now) script.now) }
    ensures serial { IsSerialGhosts (P.ghosts protocol.now) script.now }
{
    let played = play_moves(alloc, protocol, script.opening(), script.moves())?;
    report_ghost_played(alloc, protocol, &played, &Verdict::Serial)
}

/// The report of the run of a script under any protocol, which is judged, and whether the run is serializable in commit order;
/// under a safe protocol it is.
fn report_judged<P: GhostProtocol>(
    alloc: Global,
    protocol: &P,
    script: &kr_script::GhostScript,
) -> Result<(String, bool), AllocError>
    ensures text { IfOk result (λ told. string_bytes told.0 ≡ ghost_report_text (P.ghosts protocol.now) (P.names protocol.now) script.now) }
    ensures serial { IfOk result (λ told. IsTrue told.1 ↔ IsSerialGhosts (P.ghosts protocol.now) script.now) }
    ensures safe { IsSafeGhost (P.ghosts protocol.now) → IfOk result (λ told. IsTrue told.1) }
{
    let ran = run_moves(alloc, protocol, script.opening(), script.moves())?;
    let verdict = judge_programs(alloc, script.opening(), ran.programs.as_slice())?;
    let text = report_ghost_run(alloc, protocol, &ran, &verdict)?;
    Ok((text, verdict.is_serial()))
}

/// The report of the run of a script with the verdict on it, and whether the run is serializable in commit order; under a safe
/// protocol it is.
fn reported<P: GhostProtocol>(
    alloc: Global,
    protocol: &P,
    script: &kr_script::GhostScript,
) -> Result<(String, bool), AllocError>
    ensures text { IfOk result (λ told. string_bytes told.0 ≡ ghost_report_text (P.ghosts protocol.now) (P.names protocol.now) script.now) }
    ensures serial { IfOk result (λ told. IsTrue told.1 ↔ IsSerialGhosts (P.ghosts protocol.now) script.now) }
    ensures safe { IsSafeGhost (P.ghosts protocol.now) → IfOk result (λ told. IsTrue told.1) }
{
    if all_cases_hold(alloc, protocol) {
        let text = report_covered(alloc, protocol, script)?;
        return Ok((text, true));
    }
    report_judged(alloc, protocol, script)
}

/// Runs the script in the file that a word names under a protocol with ghosts, writes its report and a line feed, and answers
/// whether the run is serializable in commit order; under a safe protocol it is. At a fault of the file, of its bytes or of
/// memory nothing is written; where printing fails, a prefix of the report was.
pub fn run_ghosts<P: GhostProtocol, F: Files, W: Sink>(
    alloc: Global,
    protocol: &P,
    word: &str,
    files: &F,
    out: &mut W,
) -> Result<bool, Ending>
    ensures reports { IfOk result (λ serial. (s : GhostScript) × (NamesGhostScript (F.may_give files.now) word.now s
        × (Appends (W.taken out.old) (W.taken out.new) (ghost_report_line (P.ghosts protocol.now) (P.names protocol.now) s)
        × (IsTrue serial ↔ IsSerialGhosts (P.ghosts protocol.now) s)))) }
    ensures safe { IsSafeGhost (P.ghosts protocol.now) → IfOk result (λ serial. IsTrue serial) }
    ensures err { IfErr result (Unreported (TellsNoGhostScript (F.may_give files.now) word.now)) }
    ensures front { IfErr result (λ e. IsTrue (is_output e) → (s : GhostScript) × (NamesGhostScript (F.may_give files.now) word.now s
        × AppendsFront (W.taken out.old) (W.taken out.new) (ghost_report_line (P.ghosts protocol.now) (P.names protocol.now) s))) }
    ensures nothing { IfErr result (λ e. IsTrue (is_output e) ⊎ (out.new ≡ out.old)) }
    ensures cause { IfErr result (λ e. IsTrue (is_output e) → HasCause (W.failures out.old) (W.failures out.new)) }
{
    let script = ghost_script_at(alloc, word, files)?;
    let (text, is_serial) = reported(alloc, protocol, &script)?;
    print(out, text.as_str())?;
    Ok(is_serial)
}

/// The verdict on the run of a script. Under a covered protocol the run is serializable by the main theorem, and isn't made.
fn verdict_on<P: GhostProtocol>(
    alloc: Global,
    protocol: &P,
    is_covered: bool,
    script: &kr_script::GhostScript,
) -> Result<Verdict, AllocError>
    requires { IsTrue is_covered → IsCoveredGhost (P.ghosts protocol.now) }
    ensures verdict { IfOk result (λ v. v ≡ verdict_of_moves (P.ghosts protocol.now) script.now.opening script.now.moves) }
    ensures serial { IfOk result (λ v. (v ≡ verdict.Serial) ↔ IsSerialGhosts (P.ghosts protocol.now) script.now) }
    ensures safe { IsSafeGhost (P.ghosts protocol.now) → IfOk result (λ v. v ≡ verdict.Serial) }
{
    let opening = script.opening();
    if is_covered {
        return Ok(Verdict::Serial);
    }
    judge_moves(alloc, protocol, opening, script.moves())
}

/// Judges the run of the script in the file that a word names, writes the report of the verdict with the word and a line feed
/// behind a text, and answers whether the run is serializable in commit order; under a safe protocol it is.
fn judge_onto<P: GhostProtocol, F: Files>(
    alloc: Global,
    protocol: &P,
    is_covered: bool,
    word: &str,
    files: &F,
    text: &mut String,
) -> Result<bool, Ending>
    requires { IsTrue is_covered → IsCoveredGhost (P.ghosts protocol.now) }
    ensures line { IfOk result (λ serial. (s : GhostScript) × (NamesGhostScript (F.may_give files.now) word.now s
        × ((string_bytes text.new ≡ string_bytes text.old ++ (verdict_text word.now (verdict_of_moves (P.ghosts protocol.now) s.opening s.moves) ++ 10 ∷ []))
        × (IsTrue serial ↔ IsSerialGhosts (P.ghosts protocol.now) s)))) }
    ensures safe { IsSafeGhost (P.ghosts protocol.now) → IfOk result (λ serial. IsTrue serial) }
    ensures fault { IfErr result (λ e. MemoryOrTold e (TellsNoGhostScript (F.may_give files.now) word.now)) }
    ensures other { IfErr result (λ e. is_output e ≡ false) }
{
    let script = ghost_script_at(alloc, word, files)?;
    let verdict = verdict_on(alloc, protocol, is_covered, &script)?;
    let report = report_verdict(alloc, word, &verdict)?;
    text.push_str(report.as_str())?;
    text.push_str("\n")?;
    Ok(verdict.is_serial())
}

/// The reports of the verdicts on the runs of the scripts in the files that words name, each with its word and a line feed, in
/// their order, and whether all runs are serializable in commit order; under a safe protocol they are. Under a covered one the
/// scripts are read and not run. Of several faults the first in the order of the words is told.
fn judged<P: GhostProtocol, F: Files>(
    alloc: Global,
    protocol: &P,
    words: &[&str],
    files: &F,
) -> Result<(String, bool), Ending>
    ensures judged { IfOk result (λ told. AreJudged (F.may_give files.now) (P.ghosts protocol.now) (map (λ w. w.now) words.now) (string_bytes told.0) told.1) }
    ensures safe { IsSafeGhost (P.ghosts protocol.now) → IfOk result (λ told. IsTrue told.1) }
    ensures fault { IfErr result (λ e. MemoryOrTold e (TellsFirstGhost (F.may_give files.now) (map (λ w. w.now) words.now))) }
    ensures other { IfErr result (λ e. is_output e ≡ false) }
{
    let is_covered = all_cases_hold(alloc, protocol);
    let mut text = String::new(alloc);
    let mut are_serial = true;
    for word in words {
        let is_serial = judge_onto(alloc, protocol, is_covered, word, files, &mut text)?;
        are_serial &= is_serial;
    }
    Ok((text, are_serial))
}

/// Judges the runs of the scripts in the files that words name under a protocol with ghosts, writes for each word in their order
/// the report of the verdict with the word and a line feed, and answers whether all runs are serializable in commit order; under
/// a safe protocol they are. Nothing is written before all are judged; of several faults the first in the order of the words is
/// told. Where printing fails, a prefix of the lines was written.
pub fn judge_ghosts<P: GhostProtocol, F: Files, W: Sink>(
    alloc: Global,
    protocol: &P,
    words: &[&str],
    files: &F,
    out: &mut W,
) -> Result<bool, Ending>
    ensures reports { IfOk result (λ serial. (ss : List GhostScript) × (NameGhostScripts (F.may_give files.now) (map (λ w. w.now) words.now) ss
        × (Appends (W.taken out.old) (W.taken out.new) (ghost_judge_lines (P.ghosts protocol.now) (map (λ w. w.now) words.now) ss)
        × (IsTrue serial ↔ All (IsSerialGhosts (P.ghosts protocol.now)) ss)))) }
    ensures safe { IsSafeGhost (P.ghosts protocol.now) → IfOk result (λ serial. IsTrue serial) }
    ensures err { IfErr result (Unreported (TellsFirstGhost (F.may_give files.now) (map (λ w. w.now) words.now))) }
    ensures front { IfErr result (λ e. IsTrue (is_output e) → (ss : List GhostScript) × (NameGhostScripts (F.may_give files.now) (map (λ w. w.now) words.now) ss
        × AppendsFront (W.taken out.old) (W.taken out.new) (ghost_judge_lines (P.ghosts protocol.now) (map (λ w. w.now) words.now) ss))) }
    ensures nothing { IfErr result (λ e. IsTrue (is_output e) ⊎ (out.new ≡ out.old)) }
    ensures cause { IfErr result (λ e. IsTrue (is_output e) → HasCause (W.failures out.old) (W.failures out.new)) }
{
    let (text, are_serial) = judged(alloc, protocol, words, files)?;
    put_all(out, text.as_bytes())?;
    Ok(are_serial)
}
