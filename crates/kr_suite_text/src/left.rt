//! What is said of the changes that no part of a suite tells apart.
ghost use Rattle.std.specs.Prelude.{◌≡◌, IfOk, string_bytes, length};
ghost use Rattle.kr_kinds.specs.Kinds.{table_of};
ghost use Rattle.kr_suite_text.specs.Whole.{change_line, change_lines, counts_words, is_unreached, is_unsurveyed, left_text, parts_words, rest_words, steps_from, told_count, told_words, verdict_end, verdict_word, why_words};

use crate::either::name_of;
use kr_change::{Change, index_changes_of};
use kr_decide::Survey;
use kr_kinds::IndexProtocol;
use kr_model::Memory;
use kr_suite_core::{Suite, Tested};
use std::alloc::Global;

/// What is known of a change that no part tells apart.
#[derive(Clone, Copy, Drop)]
enum Verdict {
    /// Each schedule has the same replies with it.
    Alike,
    /// Nothing: it is left.
    Left,
}

/// Whether no schedule comes to the entry that a change is of, by a survey. Of requests and heirs it says nothing.
fn is_unsurveyed(survey: &Survey, change: Change) -> bool
    ensures { result ≡ is_unsurveyed survey.now change }
{
    match change {
        Change::Compatible {
            requested,
            held,
            ..
        } => !survey.is_tested(requested, held),
        Change::Convert {
            held,
            requested,
            ..
        } => !survey.is_asked(held, requested),
        Change::Request { .. } | Change::GhostRequest { .. } | Change::Heir { .. } => false,
    }
}

/// The same, if there is a survey.
fn is_unreached(survey: &Option<Survey>, change: Change) -> bool
    ensures { result ≡ is_unreached survey.now change }
{
    match survey {
        Some(survey) => is_unsurveyed(survey, change),
        None => false,
    }
}

/// Why the replies of each schedule are the same with a change.
fn why_text(survey: &Option<Survey>, change: Change) -> &'static str
    ensures { result.now ≡ why_words survey.now change }
{
    if is_unreached(survey, change) {
        ". No schedule comes to it."
    } else {
        ". No reply differs."
    }
}

/// What is said of a change before its name.
fn verdict_word(verdict: Verdict) -> &'static str
    ensures { result.now ≡ verdict_word verdict }
{
    match verdict {
        Verdict::Alike => "alike",
        Verdict::Left => "left",
    }
}

/// And behind it.
fn verdict_end(survey: &Option<Survey>, verdict: Verdict, change: Change) -> &'static str
    ensures { result.now ≡ verdict_end survey.now verdict change }
{
    match verdict {
        Verdict::Alike => why_text(survey, change),
        Verdict::Left => "",
    }
}

/// A change that no part tells apart, on a line.
fn change_line<P: IndexProtocol>(
    alloc: Global,
    protocol: &P,
    survey: &Option<Survey>,
    verdict: Verdict,
    change: Change,
) -> Result<String, Memory>
    ensures { IfOk result (λ text. string_bytes text ≡ change_line (table_of (P.index protocol.now)) (P.names protocol.now) survey.now verdict change) }
{
    let name = name_of(alloc, protocol, change)?;
    let word = verdict_word(verdict);
    let end = verdict_end(survey, verdict, change);
    format!(in alloc; "{word}: {name}{end}\n")
}

/// Changes, each on a line.
fn change_lines<P: IndexProtocol>(
    alloc: Global,
    protocol: &P,
    survey: &Option<Survey>,
    verdict: Verdict,
    changes: &[Change],
) -> Result<String, Memory>
    ensures { IfOk result (λ text. string_bytes text ≡ change_lines (table_of (P.index protocol.now)) (P.names protocol.now) survey.now verdict changes.now) }
{
    let mut out = String::new(alloc);
    for change in changes {
        let text = change_line(alloc, protocol, survey, verdict, *change)?;
        out.push_str(text.as_str())?;
    }
    Ok(out)
}

/// How many steps the parts have, at most the greatest number of 64 bits.
fn steps_of(parts: &[Tested]) -> usize
    ensures { result ≡ steps_from 0 parts.now }
{
    let mut steps = 0usize;
    for part in parts {
        steps = steps.saturating_add(part.events.len());
    }
    steps
}

/// How many entries with another value there are, and how many of them the parts tell apart.
fn told_text<P: IndexProtocol>(alloc: Global, protocol: &P, suite: &Suite) -> Result<String, Memory>
    ensures { IfOk result (λ text. string_bytes text ≡ told_words (P.index protocol.now) suite.now) }
{
    let all = index_changes_of(alloc, protocol)?.len();
    let told = all
        .saturating_sub(suite.alike.len())
        .saturating_sub(suite.left.len());
    format!(in alloc; "{all} entries with another value: {told} told apart by ")
}

/// How many parts there are, and how many steps they have.
fn parts_text(alloc: Global, suite: &Suite) -> Result<String, Memory>
    ensures { IfOk result (λ text. string_bytes text ≡ parts_words suite.now) }
{
    let parts = suite.parts.len();
    let steps = steps_of(suite.parts.as_slice());
    format!(in alloc; "{parts} parts of {steps} steps, ")
}

/// How many changes are alike, and how many are left.
fn rest_text(alloc: Global, suite: &Suite) -> Result<String, Memory>
    ensures { IfOk result (λ text. string_bytes text ≡ rest_words suite.now) }
{
    let alike = suite.alike.len();
    let left = suite.left.len();
    format!(in alloc; "{alike} alike, {left} left\n")
}

/// How many changes there are of each kind.
fn counts_text<P: IndexProtocol>(
    alloc: Global,
    protocol: &P,
    suite: &Suite,
) -> Result<String, Memory>
    ensures { IfOk result (λ text. string_bytes text ≡ counts_words (P.index protocol.now) suite.now) }
{
    let told = told_text(alloc, protocol, suite)?;
    let parts = parts_text(alloc, suite)?;
    let rest = rest_text(alloc, suite)?;
    format!(in alloc; "{told}{parts}{rest}")
}

/// The changes that give the same replies in every schedule, each with why, those that are left, each on a line, and a line
/// with how many there are of each kind. The survey is that of the protocol; where deletes leave ghosts there is none. The error is
/// memory alone.
pub fn left_text<P: IndexProtocol>(
    alloc: Global,
    protocol: &P,
    suite: &Suite,
    survey: &Option<Survey>,
) -> Result<String, Memory>
    ensures { IfOk result (λ text. string_bytes text ≡ left_text (P.index protocol.now) (P.names protocol.now) suite.now survey.now) }
{
    let alike = change_lines(alloc, protocol, survey, Verdict::Alike, &suite.alike)?;
    let left = change_lines(alloc, protocol, survey, Verdict::Left, &suite.left)?;
    let counts = counts_text(alloc, protocol, suite)?;
    format!(in alloc; "{alike}{left}{counts}")
}
