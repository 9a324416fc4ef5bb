//! From scripts that words name to the lines of the verdicts on them, on a sink.
ghost use Rattle.std.specs.Prelude.{◌≡◌, ◌⊎◌, ◌↔◌, List, All, IfOk, IfErr, IsTrue, length, map, string_bytes};
ghost use Rattle.std.specs.List.{list_all};
ghost use Rattle.std.specs.Io.KnownBytes.{Appends};
ghost use Rattle.kr_model.specs.Covers.{IsCovered};
ghost use Rattle.kr_model.specs.Safe.{IsSafe};
ghost use Rattle.kr_script.specs.Script.{Script};
ghost use Rattle.kr_batch.specs.Names.{AreNamed};
ghost use Rattle.kr_batch.specs.declared.named.JudgeFault.TheVariants as judge_fault;
ghost use Rattle.kr_cli_tasks.specs.Runs.{IsSerialScript};
ghost use Rattle.kr_cli_tasks.specs.Judges.{is_serial, reports_of, lines, judge_lines, ExplainsLines};
ghost use Rattle.kr_cli_tasks.specs.declared.judges.LinesFault.TheVariants as fault;

use kr_batch::{JudgeFault, Texts, judge_texts};
use kr_cli::lemma_lawful;
use kr_judge::Verdict;
use kr_protocol::Protocol;
use kr_report::report_verdict;
use kr_sink::{PrintFault, Sink, put_all};
use std::alloc::{AllocError, Global};
use std::thread::Threads;

/// Why no lines of verdicts, or not all, were written.
#[derive(Drop)]
pub enum LinesFault {
    /// There are no verdicts, or a growth was refused.
    Judge(JudgeFault),
    /// The sink didn't take all lines.
    Print,
}

impl From<JudgeFault> for LinesFault {
    ghost from_gives = { λ f e. e ≡ fault.Judge f };

    fn from(f: JudgeFault) -> LinesFault {
        LinesFault::Judge(f)
    }
}

impl From<AllocError> for LinesFault {
    ghost from_gives = { λ _ e. e ≡ fault.Judge judge_fault.Memory };

    fn from(_e: AllocError) -> LinesFault {
        LinesFault::Judge(JudgeFault::Memory)
    }
}

impl From<PrintFault> for LinesFault {
    ghost from_gives = { λ _ e. e ≡ fault.Print };

    fn from(_e: PrintFault) -> LinesFault {
        LinesFault::Print
    }
}

/// The reports of the verdicts, each with its script's name and a line feed, in their order.
fn lines_of(alloc: Global, names: &[&str], verdicts: &[Verdict]) -> Result<String, AllocError>
    requires { length names.now ≡ length verdicts.now }
    ensures { IfOk result (λ text. string_bytes text ≡ lines (reports_of (map (λ n. n.now) names.now) verdicts.now)) }
{
    let mut text = String::new(alloc);
    for i in 0..verdicts.len() {
        let report = report_verdict(alloc, names[i], &verdicts[i])?;
        text.push_str(report.as_str())?;
        text.push_str("\n")?;
    }
    Ok(text)
}

/// Whether all verdicts are serializable.
fn are_serial(verdicts: &[Verdict]) -> bool
    ensures { result ≡ list_all is_serial verdicts.now }
{
    for verdict in verdicts {
        if !verdict.is_serial() {
            return false;
        }
    }
    true
}

/// Judges the runs of the scripts that names stand for under a protocol, on several threads, writes for each name in their
/// order the report of the verdict with the name and a line feed, and answers whether all runs are serializable in commit
/// order; under a safe protocol they are, and so under a covered one. Where a name stands for no script, or a growth was
/// refused, nothing is written; where printing fails, a prefix of the lines was.
pub fn judge_over<P: Protocol + Sync, T: Texts + Sync, W: Sink>(
    threads: &(impl Threads + Sync),
    alloc: Global,
    protocol: &P,
    texts: &T,
    names: &[&str],
    out: &mut W,
) -> Result<bool, LinesFault>
    ensures ok { IfOk result (λ serial. (ss : List Script) × (AreNamed (T.may_be texts.now) (map (λ n. n.now) names.now) ss
        × (Appends (W.taken out.old) (W.taken out.new) (judge_lines (P.table protocol.now) (map (λ n. n.now) names.now) ss)
        × (IsTrue serial ↔ All (IsSerialScript (P.table protocol.now)) ss)))) }
    ensures safe { IsSafe (P.table protocol.now) → IfOk result (λ serial. IsTrue serial) }
    ensures covered { IsCovered (P.table protocol.now) → IfOk result (λ serial. IsTrue serial) }
    ensures err { IfErr result (ExplainsLines (P.table protocol.now) (T.may_be texts.now) (map (λ n. n.now) names.now)
        (W.taken out.old) (W.taken out.new) (W.failures out.old) (W.failures out.new)) }
    ensures nothing { IfErr result (λ e. (e ≡ fault.Print) ⊎ (out.new ≡ out.old)) }
{
    lemma_lawful(protocol);
    let verdicts = judge_texts(threads, alloc, protocol, texts, names)?;
    let text = lines_of(alloc, names, verdicts.as_slice())?;
    put_all(out, text.as_bytes())?;
    Ok(are_serial(verdicts.as_slice()))
}
