//! The text of what is explained of a table with ghosts.
ghost use Rattle.std.specs.Prelude.{◌≡◌, ◌<◌, ◌+◌, ◌++◌, ◌^◌, IfOk, length, string_bytes};
ghost use Rattle.kr_ghost_explain_text.specs.Told.{AreGhostBlocks, IsEnd, IsGhostBlock, IsGhostText, TellsGhostCauses, TellsGhosts, replay_words};

use crate::body::{body, harmless_body};
use crate::run::run_text;
use crate::titles::title;
use crate::verdict::verdict_text;
use kr_explain_text::{fixes_text, joined};
use kr_ghost_explain::{GhostCause, GhostExplanation, GhostFailures, GhostSchedule, MendedCause};
use kr_ghost_protocol::GhostProtocol;
use kr_model::Memory;
use std::alloc::Global;

/// The text for a person, each line ended by a line feed: the verdict, and where cases fail, each cause with its fixes, and a
/// schedule that goes wrong where one was found, with the commands that run it, in which `word` names the table. The table is to be
/// the one that was explained. The only fault is that a growth was refused.
pub fn ghost_text<P: GhostProtocol>(
    alloc: Global,
    protocol: &P,
    explanation: &GhostExplanation,
    word: &str,
) -> Result<String, Memory>
    ensures { IfOk result (λ text. IsGhostText (P.names protocol.now) word.now explanation.now (string_bytes text)) }
{
    let verdict = verdict_text(alloc, explanation)?;
    let telling = telling(alloc, protocol, explanation, word)?;
    format!(in alloc; "{verdict}{telling}\n")
}

/// What comes between the verdict and the last line feed.
fn telling<P: GhostProtocol>(
    alloc: Global,
    protocol: &P,
    explanation: &GhostExplanation,
    word: &str,
) -> Result<String, Memory>
    ensures { IfOk result (λ text. TellsGhosts (P.names protocol.now) word.now explanation.now (string_bytes text)) }
{
    match explanation {
        GhostExplanation::Accepted { .. } => Ok(String::new(alloc)),
        GhostExplanation::Safe(failures) => {
            let text = causes_text(alloc, protocol, failures, true, "")?;
            Ok(text)
        }
        GhostExplanation::Rejected(failures) => {
            let end = end_text(alloc, protocol, &failures.schedule, word)?;
            let text = causes_text(alloc, protocol, failures, false, end.as_str())?;
            Ok(text)
        }
    }
}

/// What is said of each cause, which is harmless or isn't, and behind that an end.
fn causes_text<P: GhostProtocol>(
    alloc: Global,
    protocol: &P,
    failures: &GhostFailures,
    is_harmless: bool,
    end: &str,
) -> Result<String, Memory>
    ensures { IfOk result (λ text. TellsGhostCauses (P.names protocol.now) is_harmless failures.now.causes.items end.now (string_bytes text)) }
{
    let blocks = blocks(alloc, protocol, is_harmless, 1, failures.causes.as_slice())?;
    format!(in alloc; "{blocks}{end}")
}

/// A block for each of these causes, which are harmless or aren't; the first has this number.
fn blocks<P: GhostProtocol>(
    alloc: Global,
    protocol: &P,
    is_harmless: bool,
    number: usize,
    causes: &[MendedCause],
) -> Result<String, Memory>
    requires { number + length causes.now < 2 ^ 64 }
    ensures { IfOk result (λ text. AreGhostBlocks (P.names protocol.now) is_harmless number causes.now (string_bytes text)) }
{
    match causes {
        [] => Ok(String::new(alloc)),
        [cause, others @ ..] => {
            let block = block(alloc, protocol, is_harmless, number, cause)?;
            let rest = blocks(alloc, protocol, is_harmless, number + 1, others)?;
            format!(in alloc; "{block}{rest}")
        }
    }
}

/// The block of the cause of this number, which is harmless or isn't: its title behind an empty line, what is said of it, and its
/// fixes.
fn block<P: GhostProtocol>(
    alloc: Global,
    protocol: &P,
    is_harmless: bool,
    number: usize,
    mended: &MendedCause,
) -> Result<String, Memory>
    ensures { IfOk result (λ text. IsGhostBlock (P.names protocol.now) is_harmless number mended.now (string_bytes text)) }
{
    let title = title(alloc, protocol, number, &mended.cause)?;
    let said = said(alloc, protocol, &mended.cause, is_harmless)?;
    let fixes = fixes_text(alloc, protocol, &mended.mend, is_harmless)?;
    let text = format!(in alloc; "\n\n{title}{said}{fixes}")?;
    Ok(text)
}

/// What is said of a cause below its title: that of its first case.
fn said<P: GhostProtocol>(
    alloc: Global,
    protocol: &P,
    cause: &GhostCause,
    is_harmless: bool,
) -> Result<String, Memory> {
    match cause.cases.first() {
        Some(case) if is_harmless => harmless_body(alloc, protocol, case),
        Some(case) => body(alloc, protocol, case, "can"),
        None => Ok(String::new(alloc)),
    }
}

/// The schedule that goes wrong, and how to replay it; or that none was found.
fn end_text<P: GhostProtocol>(
    alloc: Global,
    protocol: &P,
    schedule: &Option<GhostSchedule>,
    word: &str,
) -> Result<String, Memory>
    ensures { IfOk result (λ end. IsEnd word.now schedule.now (string_bytes end)) }
{
    match schedule {
        Some(schedule) => {
            let run = run_text(alloc, protocol, &schedule.script)?;
            with_commands(alloc, run.as_str(), word)
        }
        None => String::from_str(
            alloc,
            "\n\nNo schedule that goes wrong was found. That does not prove that no schedule does.",
        ),
    }
}

/// A schedule, and behind it the commands that replay it, where `word` names the table.
fn with_commands(alloc: Global, run: &str, word: &str) -> Result<String, Memory>
    ensures { IfOk result (λ text. string_bytes text ≡ run.now ++ replay_words word.now) }
{
    joined(
        alloc,
        &[
            run,
            "\n\nTo replay the schedule:\n    kr explain ",
            word,
            " --script 1 >schedule.json\n    kr run ",
            word,
            " schedule.json",
        ],
    )
}
