//! The top of a page: what the verdict says behind its first words, the opening map, and what isn't drawn.

use crate::act::Act;
use crate::columns::NAMES_DRAWN;
use crate::run::{Difference, Run, STEPS_DRAWN};
use crate::words::{write_op, write_pairs, write_reply};
use crate::{Html, Mark, Part};
use kr_model::{Op, Reply, Txn};
use std::alloc::AllocError;

/// Writes the top of a page behind the first words of its verdict.
pub fn write_summary(run: &Run<'_>, hidden: usize, out: &mut Html) -> Result<(), AllocError> {
    write_verdict(run, out)?;
    out.put(&[Part::Mark(Mark::Paragraph), Part::Text("Opening map: ")])?;
    write_pairs(out, run.opening)?;
    write_end(out)?;
    write_unfinished(run.unfinished.as_slice(), out)?;
    write_limits(run, hidden, out)
}

/// Writes the end of a sentence that ends its paragraph.
fn write_end(out: &mut Html) -> Result<(), AllocError> {
    out.put(&[Part::Text("."), Part::Mark(Mark::EndParagraph)])
}

/// Writes the last sentence of a paragraph, but its full stop.
fn write_last(out: &mut Html, sentence: &str) -> Result<(), AllocError> {
    out.text(sentence)?;
    write_end(out)
}

/// Writes what the verdict says behind its first words.
fn write_verdict(run: &Run<'_>, out: &mut Html) -> Result<(), AllocError> {
    match (run.difference(), run.programs.as_slice().len()) {
        (Some(difference), _) => write_difference(run, difference, out),
        (None, 0) => write_last(out, "No transaction committed"),
        (None, 1) => write_last(
            out,
            "The transaction that committed was answered as it is when it runs alone",
        ),
        (None, count) => {
            out.put(&[Part::Text("The "), Part::Number(count as u64)])?;
            write_last(
                out,
                " transactions that committed were answered as they are one after another, in commit order",
            )
        }
    }
}

/// The operation of a step.
fn operation_of(run: &Run<'_>, number: u64) -> Option<Op> {
    match run.acts.get((number as usize).checked_sub(1)?)? {
        Act::Attempt(event, _) => Some(event.op),
        Act::Purge(_, _) => None,
    }
}

/// Writes which operation was answered otherwise than in a serial run.
fn write_difference(
    run: &Run<'_>,
    difference: Difference<'_>,
    out: &mut Html,
) -> Result<(), AllocError> {
    let Difference { txn, operation, .. } = difference;
    out.put(&[
        Part::Text("Operation "),
        Part::Number(operation),
        Part::Text(" of transaction "),
        Part::Number(u64::from(txn)),
        Part::Text(", "),
    ])?;
    if let Some(op) = operation_of(run, difference.asked) {
        write_op(out, op)?;
    }
    write_placed(run, difference.asked, out)?;
    out.text(", was answered ")?;
    write_strong(out, difference.given)?;
    if difference.answered != difference.asked {
        write_placed(run, difference.answered, out)?;
    }
    out.text(". After the transactions that committed before it, the answer is ")?;
    write_strong(out, difference.serial)?;
    out.put(&[
        Part::Text(". Transaction "),
        Part::Number(u64::from(txn)),
        Part::Text(" committed at "),
    ])?;
    run.write_step(out, difference.committed)?;
    write_end(out)
}

/// Writes the name of a step in brackets.
fn write_placed(run: &Run<'_>, number: u64, out: &mut Html) -> Result<(), AllocError> {
    out.text(" (")?;
    run.write_step(out, number)?;
    out.text(")")
}

/// Writes an answer that stands out.
fn write_strong(out: &mut Html, reply: &Reply) -> Result<(), AllocError> {
    out.mark(Mark::Strong)?;
    write_reply(out, reply)?;
    out.mark(Mark::EndStrong)
}

/// Writes which transactions are unfinished.
fn write_unfinished(unfinished: &[Txn], out: &mut Html) -> Result<(), AllocError> {
    if unfinished.is_empty() {
        return Ok(());
    }
    out.put(&[
        Part::Mark(Mark::Paragraph),
        Part::Text("Unfinished at the end: "),
    ])?;
    let mut separator = "";
    for txn in unfinished {
        out.put(&[
            Part::Text(separator),
            Part::Text("T"),
            Part::Number(u64::from(*txn)),
        ])?;
        separator = ", ";
    }
    write_end(out)
}

/// Writes what isn't drawn.
fn write_limits(run: &Run<'_>, hidden: usize, out: &mut Html) -> Result<(), AllocError> {
    let skipped = run.skipped();
    if skipped > 0 {
        write_limit(out, STEPS_DRAWN, " steps are drawn: ", skipped)?;
        write_last(out, " come before them")?;
    }
    if hidden > 0 {
        let words = " names are drawn, the end among them: ";
        write_limit(out, NAMES_DRAWN, words, hidden)?;
        write_last(out, " keys are below them")?;
    }
    Ok(())
}

/// Writes the beginning of a paragraph that says how many are drawn and how many aren't.
fn write_limit(out: &mut Html, drawn: usize, words: &str, hidden: usize) -> Result<(), AllocError> {
    out.put(&[
        Part::Mark(Mark::Limit),
        Part::Text("Only the last "),
        Part::Number(drawn as u64),
        Part::Text(words),
        Part::Number(hidden as u64),
    ])
}
