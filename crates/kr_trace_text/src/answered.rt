//! What an engine answered, in words.
ghost use Rattle.std.specs.Prelude.{◌≡◌, IfOk, string_bytes};
ghost use Rattle.kr_trace_text.specs.Answered.{answered_words, blocked_words, number_words, observed_words, step_words};

use crate::steps::LoggedStep;
use kr_explain_text::{op_text, rows_text, txns_text};
use kr_model::{Memory, Txn};
use kr_trace_lines::Observed;
use std::alloc::Global;

/// A word, and behind it the number that the engine gives, if it gives one.
fn number_text(alloc: Global, word: &str, number: Option<u64>) -> Result<String, Memory>
    ensures { IfOk result (λ text. string_bytes text ≡ number_words word.now number) }
{
    match number {
        None => String::from_str(alloc, word),
        Some(number) => format!(in alloc; "{word} {number}"),
    }
}

/// The word of a blocked step, and behind it those that the engine names as blockers, if it names any.
fn blocked_text(alloc: Global, txns: &[Txn]) -> Result<String, Memory>
    ensures { IfOk result (λ text. string_bytes text ≡ blocked_words txns.now) }
{
    if txns.is_empty() {
        return String::from_str(alloc, "blocked");
    }
    let txns = txns_text(alloc, txns)?;
    format!(in alloc; "blocked by {txns}")
}

/// What an engine answered, by its word and what the engine gives behind it. The error is memory alone.
pub(crate) fn observed_text(alloc: Global, observed: &Observed) -> Result<String, Memory>
    ensures { IfOk result (λ text. string_bytes text ≡ observed_words observed.now) }
{
    match observed {
        Observed::Found(value) => format!(in alloc; "found {value}"),
        Observed::None => String::from_str(alloc, "none"),
        Observed::Going(key) => format!(in alloc; "going {key}"),
        Observed::Rows(rows) => rows_text(alloc, rows.as_slice()),
        Observed::Done => String::from_str(alloc, "done"),
        Observed::Duplicate => String::from_str(alloc, "duplicate"),
        Observed::Deleted(value) => number_text(alloc, "deleted", *value),
        Observed::Absent => String::from_str(alloc, "absent"),
        Observed::Updated(value) => number_text(alloc, "updated", *value),
        Observed::Undone(left) => number_text(alloc, "undone", *left),
        Observed::Committed => String::from_str(alloc, "committed"),
        Observed::Aborted => String::from_str(alloc, "aborted"),
        Observed::Blocked(txns) => blocked_text(alloc, txns.as_slice()),
    }
}

/// The number of a line, and whose step it is.
fn step_text(alloc: Global, step: &LoggedStep) -> Result<String, Memory>
    ensures { IfOk result (λ text. string_bytes text ≡ step_words step.now) }
{
    let number = step.number;
    let txn = step.event.txn;
    let op = op_text(alloc, step.event.op)?;
    format!(in alloc; "Line {number}: T{txn}'s {op}")
}

/// The number of a line, whose step it is, and what the engine answered. The error is memory alone.
pub(crate) fn answered_text(alloc: Global, step: &LoggedStep) -> Result<String, Memory>
    ensures { IfOk result (λ text. string_bytes text ≡ answered_words step.now) }
{
    let of_step = step_text(alloc, step)?;
    let answer = observed_text(alloc, &step.observed)?;
    format!(in alloc; "{of_step} was answered {answer}")
}
