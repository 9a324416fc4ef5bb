//! The report of a run in several threads, as JSON on one line.
ghost use Rattle.std.specs.Prelude.{◌≡◌, ◌++◌, IfOk, OnOk, string_bytes};
ghost use Rattle.serde_json.specs.Written.{compact_text};
ghost use Rattle.kr_report.specs.ThreadsReport.{answered_data, history_data, cause_data, fault_data, faults_data, threads_text};

use crate::replies::write_verdict;
use crate::threaded::{Answered, Threaded, ThreadsShown};
use crate::writing::write_place;
use crate::{StepFault, WhyNotDone};
use kr_judge::Verdict;
use kr_model::Txn;
use kr_script::{
    separator, write_numbers, write_pairs, write_reply, write_step, write_with_numbers,
};
use std::alloc::{AllocError, Global};

/// Writes a step that was done, with its reply.
#[tactic(auto, unfolding(serde_json::proofs::OnLiterals::serde_json_on_literals))]
fn write_answered(out: &mut String, answered: &Answered) -> Result<(), AllocError>
    ensures { OnOk result (string_bytes out.new ≡ string_bytes out.old ++ compact_text (answered_data answered.now)) }
{
    out.push_str("[")?;
    write_step(out, answered.event)?;
    out.push_str(",")?;
    write_reply(out, &answered.reply)?;
    out.push_str("]")
}

/// Writes the steps that were done, with their replies.
fn write_history(out: &mut String, history: &[Answered]) -> Result<(), AllocError>
    ensures { OnOk result (string_bytes out.new ≡ string_bytes out.old ++ compact_text (history_data history.now)) }
{
    out.push_str("[")?;
    let mut later = false;
    for answered in history {
        out.push_str(separator(later))?;
        write_answered(out, answered)?;
        later = true;
    }
    out.push_str("]")
}

/// Writes why a step wasn't done.
#[tactic(auto, unfolding(serde_json::proofs::OnLiterals::serde_json_on_literals))]
fn write_cause(out: &mut String, cause: &WhyNotDone) -> Result<(), AllocError>
    ensures { OnOk result (string_bytes out.new ≡ string_bytes out.old ++ compact_text (cause_data cause.now)) }
{
    match cause {
        WhyNotDone::Deadlock(txns) => write_with_numbers(out, r#"["deadlock","#, txns.as_slice()),
        WhyNotDone::Refused(reply) => write_reply(out, reply),
    }
}

/// Writes a step that wasn't done: whose it is, its number, and why.
#[tactic(auto, unfolding(serde_json::proofs::OnLiterals::serde_json_on_literals))]
fn write_fault(out: &mut String, fault: &StepFault) -> Result<(), AllocError>
    ensures { OnOk result (string_bytes out.new ≡ string_bytes out.old ++ compact_text (fault_data fault.now)) }
{
    write_place(out, "[", fault.txn, fault.step)?;
    write_cause(out, &fault.cause)?;
    out.push_str("]")
}

/// Writes an array of the steps that weren't done.
pub fn write_faults(out: &mut String, faults: &[StepFault]) -> Result<(), AllocError>
    ensures { OnOk result (string_bytes out.new ≡ string_bytes out.old ++ compact_text (faults_data faults.now)) }
{
    out.push_str("[")?;
    let mut later = false;
    for fault in faults {
        out.push_str(separator(later))?;
        write_fault(out, fault)?;
        later = true;
    }
    out.push_str("]")
}

/// The report of a run in several threads with the verdict on it: compact JSON on one line, with no line feed. Its members
/// are the steps that weren't done and those that were with their replies, each in the order given, the index and the
/// transactions that are unfinished at the end of the run, and the verdict as it is given. The error is memory alone.
pub fn report_threads(
    alloc: Global,
    threaded: &Threaded,
    verdict: &Verdict,
) -> Result<String, AllocError>
    ensures text { IfOk result (λ text. string_bytes text ≡ threads_text threaded.now.faults.items
        threaded.now.history.items threaded.now.ran.index threaded.now.ran.unfinished verdict.now) }
{
    report_parts(
        alloc,
        threaded.faults.as_slice(),
        threaded.history.as_slice(),
        threaded.ran.index.as_slice(),
        threaded.ran.unfinished.as_slice(),
        verdict,
    )
}

/// The same report of what is shown of a run.
pub fn report_threads_shown(
    alloc: Global,
    shown: &ThreadsShown,
    verdict: &Verdict,
) -> Result<String, AllocError>
    ensures text { IfOk result (λ text. string_bytes text ≡ threads_text shown.now.faults.items
        shown.now.history.items shown.now.index shown.now.unfinished verdict.now) }
{
    report_parts(
        alloc,
        shown.faults.as_slice(),
        shown.history.as_slice(),
        shown.index.as_slice(),
        shown.unfinished.as_slice(),
        verdict,
    )
}

/// The report with these members.
fn report_parts(
    alloc: Global,
    faults: &[StepFault],
    history: &[Answered],
    index: &[(u64, u64)],
    unfinished: &[Txn],
    verdict: &Verdict,
) -> Result<String, AllocError>
    ensures text { IfOk result (λ text. string_bytes text ≡ threads_text faults.now history.now index.now unfinished.now verdict.now) }
{
    let mut out = String::new(alloc);
    out.push_str(r#"{"faults":"#)?;
    write_faults(&mut out, faults)?;
    out.push_str(r#","history":"#)?;
    write_history(&mut out, history)?;
    out.push_str(r#","index":"#)?;
    write_pairs(&mut out, index)?;
    out.push_str(r#","unfinished":"#)?;
    write_numbers(&mut out, unfinished)?;
    out.push_str(r#","verdict":"#)?;
    write_verdict(&mut out, verdict)?;
    out.push_str("}")?;
    Ok(out)
}
