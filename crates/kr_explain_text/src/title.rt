//! The title of a cause: what is to blame, and the groups of its cases.
ghost use Rattle.std.specs.Prelude.{◌≡◌, ◌++◌, IfOk, OnOk, codes, count_by, string_bytes};
ghost use Rattle.kr_explain_text.specs.Lines.{Adds};
ghost use Rattle.kr_explain_text.specs.Titles.{IsTitle, blame_words, count_of, counts_of, group_behind, groups_of, place_words, request_words, title_words};
ghost use Rattle.kr_explain_causes.specs.declared.blame.Blame.TheVariants as blame;

use crate::groups::{cases_word, counted, is_none_yet};
use crate::lists::joined;
use crate::requested::{early_sentence, nothing_sentence, weak_sentence};
use crate::words::side_words;
use crate::wrap::{INDENT, write_paragraph};
use kr_cases::Memory;
use kr_explain_causes::{Blame, Cause};
use kr_model::{FailedCase, Mode, Row, Rule, Side, Span, row_word, rule_code, rule_number};
use kr_protocol::{Protocol, asked, converted, name_or_empty};
use std::alloc::Global;

/// The groups of cases, in their order.
const RULES: [Rule; 9] = [
    Rule::Conversion,
    Rule::FetchHit,
    Rule::FetchMiss,
    Rule::ScanKey,
    Rule::ScanStop,
    Rule::Insert,
    Rule::Split,
    Rule::Delete,
    Rule::Update,
];

/// Writes the title of the cause of this number, from 1, behind an empty line. The only fault is that a growth was refused.
pub fn write_title<P: Protocol>(
    alloc: Global,
    protocol: &P,
    out: &mut String,
    number: usize,
    cause: &Cause,
) -> Result<(), Memory>
    ensures { OnOk result (Adds (IsTitle (P.table protocol.now) (P.names protocol.now) number cause.now) (string_bytes out.old) (string_bytes out.new)) }
{
    let title = title(alloc, protocol, number, cause)?;
    out.push_str("\n")?;
    write_paragraph(out, title.as_str(), 0, INDENT)
}

/// The title of the cause of this number, from 1.
fn title<P: Protocol>(
    alloc: Global,
    protocol: &P,
    number: usize,
    cause: &Cause,
) -> Result<String, Memory>
    ensures { IfOk result (λ text. string_bytes text ≡ title_words (P.table protocol.now) (P.names protocol.now) number cause.now) }
{
    let blame = blame_sentence(alloc, protocol, cause.blame)?;
    let groups = groups(alloc, cause.cases.as_slice())?;
    format!(in alloc; "{number}. {blame} [{groups}]")
}

/// How many of the cases are of a group.
fn count_of(cases: &[FailedCase], rule: Rule) -> usize
    ensures { result ≡ count_of cases.now rule }
{
    let number = rule_number(rule);
    cases
        .iter()
        .filter(|case| rule_number(case.case) == number)
        .count()
}

/// A group of so many cases, behind a comma unless it is the first; nothing where there are none.
fn group(alloc: Global, is_first: bool, rule: Rule, count: usize) -> Result<String, Memory>
    ensures { IfOk result (λ text. string_bytes text ≡ group_behind is_first rule count) }
{
    counted(alloc, is_first, rule_code(rule), count)
}

/// How many of the cases are of each group, with their word.
#[tactic(auto, unfolding(crate::specs::Titles::groups_of))]
fn groups(alloc: Global, cases: &[FailedCase]) -> Result<String, Memory>
    ensures { IfOk result (λ text. string_bytes text ≡ groups_of cases.now) }
{
    let counts = counts(alloc, cases)?;
    let word = cases_word(cases.len());
    format!(in alloc; "{counts}{word}")
}

/// How many of the cases are of each group.
fn counts(alloc: Global, cases: &[FailedCase]) -> Result<String, Memory>
    ensures { IfOk result (λ text. string_bytes text ≡ counts_of cases.now) }
{
    let mut out = String::new(alloc);
    let mut is_first = true;
    for rule in RULES {
        let count = count_of(cases, rule);
        let group = group(alloc, is_first, rule, count)?;
        out.push_str(group.as_str())?;
        is_first = is_none_yet(is_first, count);
    }
    Ok(out)
}

/// What is to blame.
fn blame_sentence<P: Protocol>(alloc: Global, protocol: &P, blame: Blame) -> Result<String, Memory>
    ensures { IfOk result (λ text. string_bytes text ≡ blame_words (P.table protocol.now) (P.names protocol.now) blame) }
{
    match blame {
        Blame::Place { row, side } => place_sentence(alloc, protocol, row, side),
        Blame::Request { row, side, asked } => {
            request_sentence(alloc, protocol, row, side, asked)
        }
        Blame::Conversion { held, requested } => {
            conversion_sentence(alloc, protocol, held, requested)
        }
        Blame::Pair { requested, held } => pair_sentence(alloc, protocol, requested, held),
    }
}

/// A conversion to a weaker mode.
fn conversion_sentence<P: Protocol>(
    alloc: Global,
    protocol: &P,
    held: Mode,
    requested: Mode,
) -> Result<String, Memory>
    ensures { IfOk result (λ text. string_bytes text ≡ blame_words (P.table protocol.now) (P.names protocol.now) (blame.Conversion held requested)) }
{
    let made = name_or_empty(protocol, converted(protocol, held, requested));
    let held = name_or_empty(protocol, held);
    let requested = name_or_empty(protocol, requested);
    joined(
        alloc,
        &[
            held,
            " held and ",
            requested,
            " requested convert to ",
            made,
            ", a weaker mode.",
        ],
    )
}

/// A requested and a held mode that are compatible.
fn pair_sentence<P: Protocol>(
    alloc: Global,
    protocol: &P,
    requested: Mode,
    held: Mode,
) -> Result<String, Memory>
    ensures { IfOk result (λ text. string_bytes text ≡ blame_words (P.table protocol.now) (P.names protocol.now) (blame.Pair requested held)) }
{
    let held = name_or_empty(protocol, held);
    let requested = name_or_empty(protocol, requested);
    joined(
        alloc,
        &[
            "Requested ",
            requested,
            " is compatible with held ",
            held,
            ".",
        ],
    )
}

/// A request that conflicts with no lock.
fn place_sentence<P: Protocol>(
    alloc: Global,
    protocol: &P,
    row: Row,
    side: Side,
) -> Result<String, Memory>
    ensures { IfOk result (λ text. string_bytes text ≡ blame_words (P.table protocol.now) (P.names protocol.now) (blame.Place row side)) }
{
    match asked(protocol, row, side, 0) {
        None => nothing_sentence(alloc, row_word(row), side_words(side)),
        Some((mode, _)) => {
            let mode = name_or_empty(protocol, mode);
            void_sentence(alloc, row_word(row), side_words(side), mode)
        }
    }
}

/// That a row requests a mode that conflicts with none.
fn void_sentence(alloc: Global, row: &str, side: &str, mode: &str) -> Result<String, Memory>
    ensures { IfOk result (λ text. string_bytes text ≡ codes "`" ++ (row.now ++ (codes "` requests " ++ (mode.now ++ (codes " on " ++ (side.now ++ codes ", which conflicts with no mode.")))))) }
{
    joined(
        alloc,
        &[
            "`",
            row,
            "` requests ",
            mode,
            " on ",
            side,
            ", which conflicts with no mode.",
        ],
    )
}

/// A request that is too weak, or whose lock is released too early.
fn request_sentence<P: Protocol>(
    alloc: Global,
    protocol: &P,
    row: Row,
    side: Side,
    asked: Option<(Mode, Span)>,
) -> Result<String, Memory>
    ensures { IfOk result (λ text. string_bytes text ≡ request_words (P.names protocol.now) row side asked) }
{
    match asked {
        None => nothing_sentence(alloc, row_word(row), side_words(side)),
        Some((_, Span::Instant)) => early_sentence(alloc, row_word(row), side_words(side)),
        Some((mode, Span::Commit)) => {
            let mode = name_or_empty(protocol, mode);
            weak_sentence(alloc, row_word(row), side_words(side), mode)
        }
    }
}
