//! A part of a trace as a text.
ghost use Rattle.std.specs.Prelude.{◌≡◌, IfOk, string_bytes};
ghost use Rattle.std.specs.Option.{option_map};
ghost use Rattle.kr_trace_text.specs.Whole.{beginning_words, deviations_words, differing_words, each_differing, marked_by, opening_words, part_words};

use crate::deviation::deviation_text;
use crate::steps::{LoggedStep, write_steps};
use kr_explain_text::pairs_text;
use kr_model::Memory;
use kr_protocol::Protocol;
use kr_trace_lines::Deviation;
use std::alloc::Global;

/// The index with which a part begins.
fn opening_text(alloc: Global, opening: &[(u64, u64)]) -> Result<String, Memory>
    ensures { IfOk result (λ text. string_bytes text ≡ opening_words opening.now) }
{
    if opening.is_empty() {
        return String::from_str(alloc, "The initial index is empty.");
    }
    let pairs = pairs_text(alloc, opening)?;
    format!(in alloc; "Initial index: {pairs}.")
}

/// The number of a part, and the index with which it begins.
fn beginning_text(alloc: Global, part: u64, opening: &[(u64, u64)]) -> Result<String, Memory>
    ensures { IfOk result (λ text. string_bytes text ≡ beginning_words part opening.now) }
{
    let opening = opening_text(alloc, opening)?;
    format!(in alloc; "Part {part}. {opening}\n")
}

/// How a step differs, if its line is the one of the deviation.
#[tactic(auto, unfolding(crate::specs::Whole::differing_words))]
fn differing_text<P: Protocol>(
    alloc: Global,
    protocol: &P,
    deviation: &Deviation,
    step: &LoggedStep,
) -> Result<String, Memory>
    ensures { IfOk result (λ text. string_bytes text ≡ differing_words (P.names protocol.now) deviation.now step.now) }
{
    if step.number == deviation.line {
        deviation_text(alloc, protocol, step, &deviation.kind)
    } else {
        Ok(String::new(alloc))
    }
}

/// How the line of the deviation differs.
fn each_differing<P: Protocol>(
    alloc: Global,
    protocol: &P,
    deviation: &Deviation,
    steps: &[LoggedStep],
) -> Result<String, Memory>
    ensures { IfOk result (λ text. string_bytes text ≡ each_differing (P.names protocol.now) deviation.now steps.now) }
{
    let mut out = String::new(alloc);
    for step in steps {
        let text = differing_text(alloc, protocol, deviation, step)?;
        out.push_str(text.as_str())?;
    }
    Ok(out)
}

/// How the steps differ from what the table answers: that none does, or how the line of the deviation does.
fn deviations_text<P: Protocol>(
    alloc: Global,
    protocol: &P,
    deviation: Option<&Deviation>,
    steps: &[LoggedStep],
) -> Result<String, Memory>
    ensures { IfOk result (λ text. string_bytes text ≡ deviations_words (P.names protocol.now) (option_map (λ d. d.now) deviation.entry) steps.now) }
{
    match deviation {
        None => String::from_str(alloc, "Each answer is the table's."),
        Some(deviation) => each_differing(alloc, protocol, deviation, steps),
    }
}

/// The line that is marked: the one that differs, if one does.
fn marked_by(deviation: Option<&Deviation>) -> Option<u64>
    ensures { result ≡ marked_by (option_map (λ d. d.now) deviation.entry) }
{
    match deviation {
        None => None,
        Some(deviation) => Some(deviation.line),
    }
}

/// A part with this number, as `kr explain` writes a run: the index with which it begins; its steps, each with the number of its
/// line and the engine's answer, and a mark at the line that differs from what the table answers; and in a sentence how it
/// differs, with each lock in the way, or that none does. There is no line feed at the end. The error is memory alone.
pub fn part_text<P: Protocol>(
    alloc: Global,
    protocol: &P,
    part: u64,
    opening: &[(u64, u64)],
    steps: &[LoggedStep],
    deviation: Option<&Deviation>,
) -> Result<String, Memory>
    ensures { IfOk result (λ text. string_bytes text
        ≡ part_words (P.names protocol.now) part opening.now steps.now (option_map (λ d. d.now) deviation.entry)) }
{
    let differs = deviations_text(alloc, protocol, deviation, steps)?;
    let mut out = beginning_text(alloc, part, opening)?;
    write_steps(alloc, &mut out, marked_by(deviation), steps)?;
    out.push_str("\n\n")?;
    out.push_str(differs.as_str())?;
    Ok(out)
}
