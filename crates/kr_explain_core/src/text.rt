//! The text of an explanation.
ghost use Rattle.std.specs.Prelude.{◌≡◌, ◌++◌, IfOk, string_bytes, vec_len};
ghost use Rattle.kr_explain_text.specs.Steps.{IsSchedule};
ghost use Rattle.kr_explain_text.specs.Titles.{IsTitle};
ghost use Rattle.kr_explain_core.specs.Blocks.{AreBlocks, IsBlock, IsSaid, TellsAll, TellsCauses, end_words};
ghost use Rattle.kr_explain_core.specs.Told.{IsText};

use crate::explanation::{Explained, Explanation, Failures};
use crate::harmless::Harmless;
use crate::run::Run;
use crate::verdict::verdict_text;
use kr_cases::Memory;
use kr_explain_causes::Cause;
use kr_explain_text::{
    Tries, command_text, fixes_text, write_body, write_case, write_never_held, write_never_let_in,
    write_no_run, write_run, write_title,
};
use kr_protocol::Protocol;
use std::alloc::Global;

impl Explanation {
    /// The text for a person, each line ended by a line feed: the verdict, and where cases fail, each cause with why it is
    /// harmless or with its schedule, and its fixes; and where there is a schedule, the commands that run it, in which `word`
    /// names the table. The table is to be the one that was explained: its names, steps and answers are written. The only fault is that a growth was refused.
    pub fn text<P: Protocol>(
        &self,
        alloc: Global,
        protocol: &P,
        word: &str,
    ) -> Result<String, Memory>
        ensures { IfOk result (λ text. IsText (P.table protocol.now) (P.names protocol.now) word.now self.now (string_bytes text)) }
    {
        let telling = self.telling(alloc, protocol, word)?;
        let mut out = verdict_text(alloc, self)?;
        out.push_str(telling.as_str())?;
        out.push_str("\n")?;
        Ok(out)
    }

    /// What comes between the verdict and the last line feed.
    fn telling<P: Protocol>(
        &self,
        alloc: Global,
        protocol: &P,
        word: &str,
    ) -> Result<String, Memory>
        ensures { IfOk result (λ text. TellsAll (P.table protocol.now) (P.names protocol.now) word.now self.now (string_bytes text)) }
    {
        match self {
            Explanation::Accepted { .. } => Ok(String::new(alloc)),
            Explanation::Safe(failures) | Explanation::Rejected(failures) => {
                causes_text(alloc, protocol, failures, word)
            }
        }
    }
}

/// What is said of each cause of a table, and how to run its schedule.
fn causes_text<P: Protocol>(
    alloc: Global,
    protocol: &P,
    failures: &Failures,
    word: &str,
) -> Result<String, Memory>
    ensures { IfOk result (λ text. TellsCauses (P.table protocol.now) (P.names protocol.now) word.now failures.now (string_bytes text)) }
{
    let blocks = blocks(alloc, protocol, &failures.causes)?;
    let end = end_text(alloc, failures.has_run(), word)?;
    let text = two(alloc, &blocks, &end)?;
    Ok(text)
}

/// How to run the schedule of a cause, where there is one.
fn end_text(alloc: Global, is_known: bool, word: &str) -> Result<String, Memory>
    ensures { IfOk result (λ text. string_bytes text ≡ end_words is_known word.now) }
{
    if is_known {
        return command_text(alloc, word);
    }
    Ok(String::new(alloc))
}

/// Two texts, one behind the other.
fn two(alloc: Global, first: &str, second: &str) -> Result<String, Memory>
    ensures { IfOk result (λ text. string_bytes text ≡ first.now ++ second.now) }
{
    format!(in alloc; "{first}{second}")
}

/// A block for each of the causes, in their order.
fn blocks<P: Protocol>(alloc: Global, protocol: &P, causes: &[Explained]) -> Result<String, Memory>
    ensures { IfOk result (λ text. AreBlocks (P.table protocol.now) (P.names protocol.now) 1 causes.now (string_bytes text)) }
{
    let mut out = String::new(alloc);
    for at in 0..causes.len() {
        let block = block(alloc, protocol, at + 1, &causes[at])?;
        out.push_str(block.as_str())?;
    }
    Ok(out)
}

/// The block of the cause of this number, from 1: its title, what is said of it, why it is harmless or its schedule, and its
/// fixes.
fn block<P: Protocol>(
    alloc: Global,
    protocol: &P,
    number: usize,
    explained: &Explained,
) -> Result<String, Memory>
    ensures { IfOk result (λ text. IsBlock (P.table protocol.now) (P.names protocol.now) number explained.now (string_bytes text)) }
{
    let is_harmless = explained.harmless.is_some();
    let title = title_text(alloc, protocol, number, &explained.cause)?;
    let said = said(alloc, protocol, explained)?;
    let fixes = fixes_text(alloc, protocol, &explained.mend, is_harmless)?;
    let behind = two(alloc, &said, &fixes)?;
    let text = two(alloc, &title, &behind)?;
    Ok(text)
}

/// The title of the cause of this number, from 1, behind an empty line. The only fault is that a growth was refused.
pub fn title_text<P: Protocol>(
    alloc: Global,
    protocol: &P,
    number: usize,
    cause: &Cause,
) -> Result<String, Memory>
    ensures { IfOk result (λ text. IsTitle (P.table protocol.now) (P.names protocol.now) number cause.now (string_bytes text)) }
{
    let mut out = String::new(alloc);
    write_title(alloc, protocol, &mut out, number, cause)?;
    Ok(out)
}

/// What is said of a cause below its title, up to its fixes.
fn said<P: Protocol>(alloc: Global, protocol: &P, explained: &Explained) -> Result<String, Memory>
    ensures { IfOk result (λ text. IsSaid (P.table protocol.now) (P.names protocol.now) explained.now.run (string_bytes text)) }
{
    match &explained.run {
        Some(run) => {
            let text = with_run(alloc, protocol, explained, run)?;
            Ok(text)
        }
        None => {
            let text = without_run(alloc, protocol, explained)?;
            Ok(text)
        }
    }
}

/// How many of a cause's cases were tried, and gave a schedule.
fn tries_of(explained: &Explained) -> Tries
    ensures cases { result.cases ≡ vec_len explained.now.cause.cases }
    ensures tried { result.tried ≡ explained.now.tried }
    ensures runs { result.runs ≡ explained.now.runs }
{
    Tries {
        cases: explained.cause.cases.len(),
        tried: explained.tried,
        runs: explained.runs,
    }
}

/// What is said of a cause with its schedule.
fn with_run<P: Protocol>(
    alloc: Global,
    protocol: &P,
    explained: &Explained,
    run: &Run,
) -> Result<String, Memory>
    ensures { IfOk result (λ text. IsSchedule (P.table protocol.now) (P.names protocol.now) run.now.script (string_bytes text)) }
{
    let mut out = body_text(alloc, protocol, explained, run)?;
    write_run(alloc, protocol, &mut out, &run.script)?;
    let case = case_text(alloc, protocol, explained, run)?;
    out.push_str(case.as_str())?;
    Ok(out)
}

/// What is said of a cause between its title and its fixes, but its schedule. The only fault is that a growth was refused.
pub fn prose_text<P: Protocol>(
    alloc: Global,
    protocol: &P,
    explained: &Explained,
) -> Result<String, Memory> {
    let Some(run) = &explained.run else {
        return without_run(alloc, protocol, explained);
    };
    let mut out = body_text(alloc, protocol, explained, run)?;
    let case = case_text(alloc, protocol, explained, run)?;
    out.push_str(case.as_str())?;
    Ok(out)
}

/// What is wrong in the case that a schedule was made from.
fn body_text<P: Protocol>(
    alloc: Global,
    protocol: &P,
    explained: &Explained,
    run: &Run,
) -> Result<String, Memory> {
    let mut out = String::new(alloc);
    let cause = &explained.cause;
    write_body(alloc, protocol, &mut out, cause, &run.case, "can")?;
    Ok(out)
}

/// The case that a schedule was made from.
fn case_text<P: Protocol>(
    alloc: Global,
    protocol: &P,
    explained: &Explained,
    run: &Run,
) -> Result<String, Memory> {
    let mut out = String::new(alloc);
    let tries = tries_of(explained);
    write_case(alloc, protocol, &mut out, &run.case, run.is_as_case, tries)?;
    Ok(out)
}

/// What is said of a cause that has no schedule.
fn without_run<P: Protocol>(
    alloc: Global,
    protocol: &P,
    explained: &Explained,
) -> Result<String, Memory> {
    let mut out = String::new(alloc);
    write_without_run(alloc, protocol, &mut out, explained)?;
    Ok(out)
}

/// Writes what is said of a cause that has no schedule: why it is harmless, or that none is known.
fn write_without_run<P: Protocol>(
    alloc: Global,
    protocol: &P,
    out: &mut String,
    explained: &Explained,
) -> Result<(), Memory> {
    let cases = explained.cause.cases.as_slice();
    let Some(first) = cases.first() else {
        return Ok(());
    };
    match &explained.harmless {
        Some(Harmless::NeverHeld) => {
            write_body(alloc, protocol, out, &explained.cause, first, "could")?;
            write_never_held(alloc, protocol, out, cases)
        }
        Some(Harmless::NeverLetIn(held)) => {
            write_body(alloc, protocol, out, &explained.cause, held, "could")?;
            write_never_let_in(alloc, protocol, out, cases, held)
        }
        None => {
            write_body(alloc, protocol, out, &explained.cause, first, "can")?;
            let tries = tries_of(explained);
            write_no_run(alloc, protocol, out, first, explained.is_reached, tries)
        }
    }
}
