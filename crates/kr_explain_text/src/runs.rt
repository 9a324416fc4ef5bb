//! What is said of the schedule of a cause, and where none is known.
ghost use Rattle.std.specs.Prelude.{OnOk, string_bytes};
ghost use Rattle.kr_explain_text.specs.Lines.{Adds};
ghost use Rattle.kr_explain_text.specs.Steps.{IsSchedule};

use crate::anomalies::anomaly;
use crate::lists::joined;
use crate::seen::seen;
use crate::spoken::{origin_text, pairs_text};
use crate::steps::write_steps;
use crate::verdict::write_verdict;
use crate::wrap::{INDENT, write_joined, write_paragraph};
use kr_cases::Memory;
use kr_explain_runs::Counterexample;
use kr_model::{FailedCase, cover_code, rule_code};
use kr_protocol::Protocol;
use std::alloc::Global;

/// How many of a cause's cases were tried.
#[derive(Clone, Copy)]
pub struct Tries {
    /// How many cases the cause has.
    pub cases: usize,
    /// How many of them were tried.
    pub tried: usize,
    /// How many of those gave a run.
    pub runs: usize,
}

/// A case, by its code, its cover and the modes that it is taken at.
fn case_text<P: Protocol>(
    alloc: Global,
    protocol: &P,
    case: &FailedCase,
) -> Result<String, Memory> {
    let from = origin_text(alloc, protocol, case)?;
    case_words(
        alloc,
        rule_code(case.case),
        cover_code(case.cover),
        from.as_str(),
    )
}

/// The same, where these are the modes that it is taken at.
fn case_words(alloc: Global, rule: &str, cover: &str, from: &str) -> Result<String, Memory> {
    joined(alloc, &[rule, " for ", cover, ", ", from, "."])
}

/// Writes the schedule of a cause: its anomaly, its steps, what is wrong with it, and the verdict. The only fault is that a
/// growth was refused.
pub fn write_run<P: Protocol>(
    alloc: Global,
    protocol: &P,
    out: &mut String,
    script: &Counterexample,
) -> Result<(), Memory>
    ensures { OnOk result (Adds (IsSchedule (P.table protocol.now) (P.names protocol.now) script.now) (string_bytes out.old) (string_bytes out.new)) }
{
    let before = run_head(alloc, script)?;
    let behind = run_end(alloc, protocol, script)?;
    out.push_str(before.as_str())?;
    write_steps(alloc, protocol, out, script)?;
    out.push_str(behind.as_str())?;
    Ok(())
}

/// What is above a schedule: its anomaly and the initial index.
pub fn run_head(alloc: Global, script: &Counterexample) -> Result<String, Memory> {
    let opening = pairs_text(alloc, script.opening.as_slice())?;
    head_words(alloc, anomaly(script.ending), opening.as_str())
}

/// The same, of this anomaly and these pairs.
fn head_words(alloc: Global, anomaly: &str, opening: &str) -> Result<String, Memory> {
    joined(
        alloc,
        &["\n\n   ", anomaly, ". Initial index: ", opening, ".\n"],
    )
}

/// What is below a schedule: what is wrong with it, and the verdict.
pub fn run_end<P: Protocol>(
    alloc: Global,
    protocol: &P,
    script: &Counterexample,
) -> Result<String, Memory> {
    let mut out = String::from_str(alloc, "\n")?;
    write_end(alloc, protocol, &mut out, script)?;
    Ok(out)
}

/// Writes what is wrong with a schedule, and the verdict.
fn write_end<P: Protocol>(
    alloc: Global,
    protocol: &P,
    out: &mut String,
    script: &Counterexample,
) -> Result<(), Memory> {
    let seen = seen(alloc, script)?;
    write_paragraph(out, seen.as_str(), INDENT, INDENT)?;
    write_verdict(alloc, protocol, out, script)
}

/// Writes the case that a schedule was made from, whether the holder comes to its mode in another way than the case says, and
/// how many of the cause's cases gave a schedule, unless all did. The only fault is that a growth was refused.
pub fn write_case<P: Protocol>(
    alloc: Global,
    protocol: &P,
    out: &mut String,
    case: &FailedCase,
    is_as_case: bool,
    tries: Tries,
) -> Result<(), Memory> {
    let case = case_text(alloc, protocol, case)?;
    let share = share_text(alloc, tries)?;
    write_case_of(
        alloc,
        out,
        case.as_str(),
        way_words(is_as_case),
        share.as_str(),
    )
}

/// The same, of these texts.
fn write_case_of(
    alloc: Global,
    out: &mut String,
    case: &str,
    way: &str,
    share: &str,
) -> Result<(), Memory> {
    write_joined(alloc, out, &["Case: ", case, way, share])
}

/// That the holder comes to its mode in another way than the case says, unless it does as the case says.
fn way_words(is_as_case: bool) -> &'static str {
    if is_as_case {
        ""
    } else {
        " Its mode is reached in another way here."
    }
}

/// How many of the cause's cases gave a schedule, behind a space; nothing where all did.
fn share_text(alloc: Global, tries: Tries) -> Result<String, Memory> {
    let Tries { cases, tried, runs } = tries;
    if tried < cases {
        share_of_tried(alloc, runs, tried, cases - tried)
    } else if runs < cases {
        share_of_all(alloc, runs, cases)
    } else {
        Ok(String::new(alloc))
    }
}

/// How many of the cases that were tried gave a schedule, and how many were not tried.
fn share_of_tried(alloc: Global, runs: usize, tried: usize, rest: usize) -> Result<String, Memory> {
    let give = give_word(runs);
    format!(in alloc;
        " {runs} of the {tried} cases that were tried {give} a schedule; not tried: {rest}."
    )
}

/// How many of all the cases gave a schedule.
fn share_of_all(alloc: Global, runs: usize, cases: usize) -> Result<String, Memory> {
    let give = give_word(runs);
    format!(in alloc; " {runs} of the {cases} cases {give} a schedule.")
}

/// The verb for so many cases.
fn give_word(runs: usize) -> &'static str {
    if runs == 1 { "gives" } else { "give" }
}

/// Writes that no schedule is known, where `case` is the first of the cause, and `is_reached` says whether one transaction
/// comes to the modes of a case that was tried. The only fault is that a growth was refused.
pub fn write_no_run<P: Protocol>(
    alloc: Global,
    protocol: &P,
    out: &mut String,
    case: &FailedCase,
    is_reached: bool,
    tries: Tries,
) -> Result<(), Memory> {
    let left_out = left_out_text(alloc, tries)?;
    let case = case_text(alloc, protocol, case)?;
    out.push_str("\n")?;
    write_no_run_of(
        alloc,
        out,
        why_words(is_reached),
        left_out.as_str(),
        case.as_str(),
    )
}

/// The same, without the empty line before it, of these texts.
fn write_no_run_of(
    alloc: Global,
    out: &mut String,
    why: &str,
    left_out: &str,
    case: &str,
) -> Result<(), Memory> {
    write_joined(
        alloc,
        out,
        &[
            "No schedule that goes wrong is known for this cause: ",
            why,
            ". That does not prove that no schedule does.",
            left_out,
            " First case: ",
            case,
        ],
    )
}

/// Why no schedule is known.
fn why_words(is_reached: bool) -> &'static str {
    if is_reached {
        "none of those tried gets past its locks and goes wrong"
    } else {
        "none of those tried reaches the modes of its cases"
    }
}

/// How many cases were tried, behind a space; nothing where all were.
fn left_out_text(alloc: Global, tries: Tries) -> Result<String, Memory> {
    let Tries { cases, tried, .. } = tries;
    if tried < cases {
        tried_words(alloc, tried, cases)
    } else {
        Ok(String::new(alloc))
    }
}

/// How many of the cases were tried, behind a space.
fn tried_words(alloc: Global, tried: usize, cases: usize) -> Result<String, Memory> {
    format!(in alloc; " Tried: {tried} of its {cases} cases.")
}
