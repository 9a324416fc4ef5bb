//! The schedule of a cause, drawn step by step and folded.
ghost use Rattle.std.specs.Prelude.{◌≡◌, IfOk, string_bytes};
ghost use Rattle.kr_view_table.specs.Causes.{IsDrawn, IsFolded};

use crate::causes::write_paragraph;
use kr_explain_core::Run;
use kr_explain_text::{anomaly, run_end, run_head};
use kr_model::Memory;
use kr_protocol::Protocol;
use kr_view_run::bands_of_run;
use kr_view_scenes::{Html, Part};
use std::alloc::Global;

/// The schedules of so many causes are drawn at most.
pub const MOST_DRAWN: usize = 16;

/// What stands in place of the schedule of a cause that comes behind them.
pub const UNDRAWN: &str =
    "<p class=\"limit\">The schedules of the first 16 causes are drawn. kr explain prints that of this one.</p>\n";

/// The schedule of the cause of a number, if it has one.
pub fn schedule<P: Protocol>(
    alloc: Global,
    protocol: &P,
    number: usize,
    run: &Option<Run>,
) -> Result<String, Memory>
    ensures { IfOk result (λ text. IsDrawn (P.table protocol.now) number run.now (string_bytes text)) }
{
    match run {
        None => Ok(String::new(alloc)),
        Some(run) => {
            if number <= MOST_DRAWN {
                folded(alloc, protocol, number, run)
            } else {
                String::from_str(alloc, UNDRAWN)
            }
        }
    }
}

/// The schedule of the cause of a number: its anomaly, a band for each step, and what is wrong with it.
fn folded<P: Protocol>(
    alloc: Global,
    protocol: &P,
    number: usize,
    run: &Run,
) -> Result<String, Memory>
    ensures { IfOk result (λ text. IsFolded (P.table protocol.now) number run.now (string_bytes text)) }
{
    let (opening, steps) = (run.script.opening.as_slice(), run.script.events.as_slice());
    let summary = summary(alloc, run)?;
    let head = paragraph(alloc, run_head(alloc, &run.script)?.as_str())?;
    let end = paragraph(alloc, run_end(alloc, protocol, &run.script)?.as_str())?;
    let (seen, before, behind) = (summary.as_str(), head.as_str(), end.as_str());
    let ids = format!(in alloc; "c{number}s")?;
    let bands = bands_of_run(alloc, protocol, opening, steps, ids.as_str())?;
    let text = format!(in alloc;
        "<details>\n<summary>{seen}</summary>\n{before}{bands}{behind}</details>\n"
    )?;
    Ok(text)
}

/// A text as a paragraph.
fn paragraph(alloc: Global, text: &str) -> Result<Html, Memory> {
    let mut out = Html::new(alloc);
    write_paragraph(&mut out, text)?;
    Ok(out)
}

/// What is seen of a schedule while it is folded.
fn summary(alloc: Global, run: &Run) -> Result<Html, Memory> {
    let mut out = Html::new(alloc);
    out.put(&[
        Part::Text(anomaly(run.script.ending)),
        Part::Text(": a schedule of "),
        Part::Number(run.script.events.len() as u64),
        Part::Text(" steps"),
    ])?;
    Ok(out)
}
