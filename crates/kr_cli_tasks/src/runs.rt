//! From the word of a script to the report of its run, on a sink.
ghost use Rattle.std.specs.Prelude.{◌≡◌, ◌⊎◌, ◌↔◌, IfOk, IfErr, IsTrue, string_bytes};
ghost use Rattle.std.specs.Io.KnownBytes.{Appends};
ghost use Rattle.kr_sink.specs.Puts.{AppendsFront, HasCause};
ghost use Rattle.kr_model.specs.Covers.{IsCovered};
ghost use Rattle.kr_model.specs.Safe.{IsSafe};
ghost use Rattle.kr_model.specs.Difference.{first_difference};
ghost use Rattle.kr_model.specs.Serial.{AreSerial};
ghost use Rattle.kr_judge.specs.Verdicts.{verdict_of};
ghost use Rattle.kr_script.specs.Script.{Script};
ghost use Rattle.kr_report.specs.Report.{run_text};
ghost use Rattle.kr_cli.specs.Endings.{is_output};
ghost use Rattle.kr_cli.specs.Named.{NamesScript, TellsNoScript};
ghost use Rattle.kr_cli_tasks.specs.Endings.{Unreported};
ghost use Rattle.kr_cli_tasks.specs.Runs.{report_text, report_line, IsSerialScript};

use kr_cases::check;
use kr_cli::{Ending, Files, script_at};
use kr_protocol::Protocol;
use kr_report::{report_played, report_run};
use kr_serial::{Ran, Verdict, judge, play, run_any};
use kr_sink::{Sink, print};
use std::alloc::{AllocError, Global};

/// The report of the run of a script under a covered protocol. By the main theorem the run is serializable, so nothing is
/// judged, and what its transactions did isn't kept.
fn report_covered<P: Protocol>(
    alloc: Global,
    protocol: &P,
    script: &kr_script::Script,
) -> Result<String, AllocError>
    requires { IsCovered (P.table protocol.now) }
    ensures text { IfOk result (λ text. string_bytes text ≡ report_text (P.table protocol.now) (P.names protocol.now) script.now) }
    ensures serial { IsSerialScript (P.table protocol.now) script.now }
{
    let played = play(alloc, protocol, script.opening(), script.steps())?;
    report_played(alloc, protocol, &played, &Verdict::Serial)
}

/// The report of the run of a script under any protocol, which is judged, and whether the run is serializable.
fn report_judged<P: Protocol>(
    alloc: Global,
    protocol: &P,
    script: &kr_script::Script,
) -> Result<(String, bool), AllocError>
    ensures text { IfOk result (λ told. string_bytes told.0 ≡ report_text (P.table protocol.now) (P.names protocol.now) script.now) }
    ensures serial { IfOk result (λ told. IsTrue told.1 ↔ IsSerialScript (P.table protocol.now) script.now) }
    ensures safe { IsSafe (P.table protocol.now) → IfOk result (λ told. IsTrue told.1) }
{
    let ran = run_any(alloc, protocol, script.opening(), script.steps())?;
    judged(alloc, protocol, &ran)
}

/// The report of a run, which is judged, and whether it is serializable.
fn judged<P: Protocol>(alloc: Global, protocol: &P, ran: &Ran) -> Result<(String, bool), AllocError>
    ensures text { IfOk result (λ told. string_bytes told.0 ≡ run_text (P.names protocol.now) ran.now.index ran.now.locks
        ran.now.replies ran.now.unfinished (verdict_of (first_difference ran.now.opening ran.now.programs))) }
    ensures serial { IfOk result (λ told. IsTrue told.1 ↔ AreSerial ran.now.opening ran.now.programs) }
{
    let verdict = judge(alloc, ran)?;
    let text = report_run(alloc, protocol, ran, &verdict)?;
    Ok((text, verdict.is_serial()))
}

/// Runs a script under a protocol, and gives the report of the run with its verdict, and whether the run is serializable in
/// commit order.
fn reported<P: Protocol>(
    alloc: Global,
    protocol: &P,
    script: &kr_script::Script,
) -> Result<(String, bool), AllocError>
    ensures text { IfOk result (λ told. string_bytes told.0 ≡ report_text (P.table protocol.now) (P.names protocol.now) script.now) }
    ensures serial { IfOk result (λ told. IsTrue told.1 ↔ IsSerialScript (P.table protocol.now) script.now) }
    ensures safe { IsSafe (P.table protocol.now) → IfOk result (λ told. IsTrue told.1) }
    ensures covered { IsCovered (P.table protocol.now) → IfOk result (λ told. IsTrue told.1) }
{
    if check(alloc, protocol).is_ok() {
        let text = report_covered(alloc, protocol, script)?;
        return Ok((text, true));
    }
    report_judged(alloc, protocol, script)
}

/// Runs the script in the file that a word names under a protocol, writes the report of the run with its verdict and a line feed,
/// and answers whether the run is serializable in commit order; under a safe protocol it is, and so under a covered one. At a
/// fault of the file, of its bytes or of memory nothing is written; where printing fails, a prefix of the report was.
pub fn run_script<P: Protocol, F: Files, W: Sink>(
    alloc: Global,
    protocol: &P,
    word: &str,
    files: &F,
    out: &mut W,
) -> Result<bool, Ending>
    ensures reports { IfOk result (λ serial. (s : Script) × (NamesScript (F.may_give files.now) word.now s
        × (Appends (W.taken out.old) (W.taken out.new) (report_line (P.table protocol.now) (P.names protocol.now) s)
        × (IsTrue serial ↔ IsSerialScript (P.table protocol.now) s)))) }
    ensures safe { IsSafe (P.table protocol.now) → IfOk result (λ serial. IsTrue serial) }
    ensures covered { IsCovered (P.table protocol.now) → IfOk result (λ serial. IsTrue serial) }
    ensures err { IfErr result (Unreported (TellsNoScript (F.may_give files.now) word.now)) }
    ensures front { IfErr result (λ e. IsTrue (is_output e) → (s : Script) × (NamesScript (F.may_give files.now) word.now s
        × AppendsFront (W.taken out.old) (W.taken out.new) (report_line (P.table protocol.now) (P.names protocol.now) s))) }
    ensures nothing { IfErr result (λ e. IsTrue (is_output e) ⊎ (out.new ≡ out.old)) }
    ensures cause { IfErr result (λ e. IsTrue (is_output e) → HasCause (W.failures out.old) (W.failures out.new)) }
{
    let script = script_at(alloc, word, files)?;
    let (text, is_serial) = reported(alloc, protocol, &script)?;
    print(out, text.as_str())?;
    Ok(is_serial)
}
