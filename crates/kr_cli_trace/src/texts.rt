//! The text of a part: its steps, how it deviates, and its verdict.
ghost use Rattle.std.specs.Prelude.{◌≡◌, ◌++◌, ◌∷◌, ℕ, List, [], Some, IfOk, OnOk, map, string_bytes};
ghost use Rattle.kr_model.specs.Map.{Map, IsMap};
ghost use Rattle.kr_trace_parts.specs.Committed.{IsVerdict};
ghost use Rattle.kr_trace_parts.specs.Judged.{AreJudged};
ghost use Rattle.kr_trace_parts.specs.Parts as spec;
ghost use Rattle.kr_trace_parts.specs.Printed.{printed};
ghost use Rattle.kr_trace_parts.specs.Tales.{committed_in};
ghost use Rattle.kr_cli_trace.specs.OnePart.{IsShown, cut_words, left_out_words, line_of, logged};

use kr_model::Memory;
use kr_protocol::Protocol;
use kr_trace_lines::{Deviation, TraceVerdict};
use kr_trace_parts::{Judging, is_well, verdict_of};
use kr_trace_text::{LoggedStep, part_text, verdict_text};
use std::alloc::Global;

/// The text of a part of which this is the line that deviates, and whether all is well with it.
pub(crate) fn text_of<P: Protocol>(
    alloc: Global,
    protocol: &P,
    part: u64,
    found: &Option<Deviation>,
    opening: &[(u64, u64)],
    steps: Vec<LoggedStep>,
) -> Result<(String, bool), Memory>
    requires { IsMap opening.now }
    ensures { (s : spec.Part) → opening.now ≡ s.opening → steps.items ≡ map logged s.steps
        → IfOk result (λ end. IsShown (P.names protocol.now) part s found.now (printed (Some end.0)) end.1) }
{
    let mut text = part_text(
        alloc,
        protocol,
        part,
        opening,
        steps.as_slice(),
        found.as_ref(),
    )?;
    let verdict = judged(alloc, opening, steps)?;
    let sentence = verdict_text(alloc, &verdict)?;
    text.push_str("\n")?;
    text.push_str(sentence.as_str())?;
    Ok((text, is_well(found, &verdict)))
}

/// Whether the committed answers of the steps are serializable in commit order.
fn judged(
    alloc: Global,
    opening: &[(u64, u64)],
    steps: Vec<LoggedStep>,
) -> Result<TraceVerdict, Memory>
    requires { IsMap opening.now }
    ensures { IfOk result (IsVerdict opening.now (committed_in (map line_of steps.items))) }
{
    let mut judging = Judging::new(alloc, opening)?;
    take_all(alloc, &mut judging, steps)?;
    Ok(verdict_of(judging.found))
}

/// Judges the steps, of which none was judged before.
fn take_all(alloc: Global, judging: &mut Judging, steps: Vec<LoggedStep>) -> Result<(), Memory>
    ensures { (opening : Map) → AreJudged opening [] judging.old.tales judging.old.judge.map judging.old.found
        → OnOk result (AreJudged opening (map line_of steps.items) judging.new.tales judging.new.judge.map judging.new.found) }
{
    for step in steps {
        judging.take(alloc, step.event, step.observed)?;
    }
    Ok(())
}

/// The sentence where states were left out before a line.
fn left_out_text(alloc: Global, line: u64) -> Result<String, Memory>
    ensures { IfOk result (λ text. string_bytes text ≡ left_out_words line) }
{
    format!(in alloc; "States were left out before line {line}: one of them may have this answer.")
}

/// A text with the sentence below it that states were left out before a line.
fn with_left_out(alloc: Global, text: String, line: u64) -> Result<String, Memory>
    ensures { IfOk result (λ longer. string_bytes longer ≡ string_bytes text ++ 10 ∷ left_out_words line) }
{
    let sentence = left_out_text(alloc, line)?;
    let mut longer = text;
    longer.push_str("\n")?;
    longer.push_str(sentence.as_str())?;
    Ok(longer)
}

/// The text of a part with the line that follows a deviation where states were left out.
pub(crate) fn with_cut(
    alloc: Global,
    text: String,
    found: &Option<Deviation>,
    cut: Option<u64>,
) -> Result<String, Memory>
    ensures { IfOk result (λ longer. printed (Some longer) ≡ printed (Some text) ++ cut_words found.now cut) }
{
    match found {
        None => Ok(text),
        Some(_) => match cut {
            None => Ok(text),
            Some(line) => with_left_out(alloc, text, line),
        },
    }
}
