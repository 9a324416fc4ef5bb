//! The steps of a part as a table, as `kr explain` writes those of a run.
ghost use Rattle.std.specs.Prelude.{◌≡◌, ◌++◌, IfOk, OnOk, string_bytes};
ghost use Rattle.kr_explain_text.specs.Steps.{rows_of, texts};
ghost use Rattle.kr_trace_text.specs.Steps.{head_cells, is_marked, step_cells, step_rows, steps_text};

use crate::answered::observed_text;
use kr_explain_text::{op_text, write_rows};
use kr_model::{Event, Memory};
use kr_trace_lines::Observed;
use std::alloc::Global;

/// So many columns has the table of a part: for the line, the transaction, the operation, the answer and the mark.
const COLUMNS: usize = 5;

/// A step of a part, as its line has it.
#[derive(Drop)]
pub struct LoggedStep {
    /// The number of the line in its file, from 1.
    pub number: u64,
    /// The transaction, and its operation.
    pub event: Event,
    /// What the engine answered.
    pub observed: Observed,
}

/// Whether the line of this number is the one that is marked, if one is.
fn is_marked(marked: Option<u64>, number: u64) -> bool
    ensures { result ≡ is_marked marked number }
{
    match marked {
        None => false,
        Some(line) => line == number,
    }
}

/// The cells above the steps.
fn head_cells(alloc: Global) -> Result<Vec<String>, Memory>
    ensures { IfOk result (λ cells. texts cells.items ≡ head_cells) }
{
    let line = String::from_str(alloc, "line")?;
    let txn = String::new(alloc);
    let op = String::from_str(alloc, "operation")?;
    let answer = String::from_str(alloc, "answer")?;
    Ok(vec![in alloc; line, txn, op, answer]?)
}

/// The cells of a step: the number of its line, its transaction, its operation and the answer, and a mark if it is marked.
fn step_cells(alloc: Global, marked: Option<u64>, step: &LoggedStep) -> Result<Vec<String>, Memory>
    ensures { IfOk result (λ cells. texts cells.items ≡ step_cells marked step.now) }
{
    let number = step.number;
    let txn = step.event.txn;
    let is_marked = is_marked(marked, number);
    let line = format!(in alloc; "{number}")?;
    let txn = format!(in alloc; "T{txn}")?;
    let op = op_text(alloc, step.event.op)?;
    let answer = observed_text(alloc, &step.observed)?;
    if is_marked {
        let mark = String::from_str(alloc, "<- differs")?;
        return Ok(vec![in alloc; line, txn, op, answer, mark]?);
    }
    Ok(vec![in alloc; line, txn, op, answer]?)
}

/// The rows of the table: one above the steps, and one for each step.
fn step_rows(
    alloc: Global,
    marked: Option<u64>,
    steps: &[LoggedStep],
) -> Result<Vec<Vec<String>>, Memory>
    ensures { IfOk result (λ rows. rows_of rows.items ≡ step_rows marked steps.now) }
{
    let mut rows = Vec::new(alloc);
    let head = head_cells(alloc)?;
    rows.push(head)?;
    for step in steps {
        let cells = step_cells(alloc, marked, step)?;
        rows.push(cells)?;
    }
    Ok(rows)
}

/// Writes the steps as a table, behind a line feed; the line of the number `marked` has a mark.
#[tactic(auto, unfolding(crate::specs::Steps::steps_text))]
pub(crate) fn write_steps(
    alloc: Global,
    out: &mut String,
    marked: Option<u64>,
    steps: &[LoggedStep],
) -> Result<(), Memory>
    ensures { OnOk result (string_bytes out.new ≡ string_bytes out.old ++ steps_text marked steps.now) }
{
    let rows = step_rows(alloc, marked, steps)?;
    write_rows(alloc, out, rows.as_slice(), COLUMNS)
}
