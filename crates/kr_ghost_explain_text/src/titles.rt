//! The title of a cause: what is to blame, and the groups of its cases.
ghost use Rattle.std.specs.Prelude.{◌≡◌, ◌++◌, true, IfOk, OnOk, codes, string_bytes};
ghost use Rattle.kr_ghost_explain.specs.declared.blame.GhostBlame.TheVariants as blame;
ghost use Rattle.kr_ghost_explain_text.specs.Titles.{all_groups, blame_words, count_of, counts_from, group_words, groups_of, request_words, title_words};

use crate::words::{access_side, row_words, rule_number, side_words};
use kr_explain_text::{
    cases_word, counted, early_sentence, is_none_yet, joined, nothing_sentence, weak_sentence,
};
use kr_ghost::{FailedCase, Rule, access_words, rule_code};
use kr_ghost_explain::{GhostBlame, GhostCause};
use kr_model::{Memory, Mode, Span};
use kr_protocol::{Protocol, name_or_empty};
use std::alloc::Global;

/// The title of the cause of this number, from 1.
pub(crate) fn title<P: Protocol>(
    alloc: Global,
    protocol: &P,
    number: usize,
    cause: &GhostCause,
) -> Result<String, Memory>
    ensures { IfOk result (λ text. string_bytes text ≡ title_words (P.names protocol.now) number cause.now) }
{
    let blame = blame_sentence(alloc, protocol, cause.blame)?;
    let groups = groups(alloc, cause.cases.as_slice())?;
    format!(in alloc; "{number}. {blame} [{groups}]")
}

/// How many of the cases are of each group, with their word.
#[tactic(auto, unfolding(crate::specs::Titles::groups_of))]
fn groups(alloc: Global, cases: &[FailedCase]) -> Result<String, Memory>
    ensures { IfOk result (λ text. string_bytes text ≡ groups_of cases.now) }
{
    let counts = counts(alloc, cases)?;
    let word = cases_word(cases.len());
    format!(in alloc; "{counts}{word}")
}

/// The groups of cases, in their order.
fn all_groups() -> &'static [Rule]
    ensures { result.now ≡ all_groups }
{
    &[
        Rule::Conversion,
        Rule::FetchHit,
        Rule::FetchMiss,
        Rule::ScanName,
        Rule::ScanStop,
        Rule::Insert,
        Rule::Split,
        Rule::Delete,
        Rule::Update,
        Rule::Revive,
        Rule::Heir,
        Rule::InsertHit,
        Rule::DeleteMiss,
        Rule::UpdateMiss,
    ]
}

/// How many of the cases are of each group.
fn counts(alloc: Global, cases: &[FailedCase]) -> Result<String, Memory>
    ensures { IfOk result (λ text. string_bytes text ≡ counts_from true all_groups cases.now) }
{
    let mut out = String::new(alloc);
    write_counts(alloc, &mut out, true, all_groups(), cases)?;
    Ok(out)
}

/// Writes how many of the cases are of each of these groups, the first with no comma where none came before.
fn write_counts(
    alloc: Global,
    out: &mut String,
    is_first: bool,
    groups: &[Rule],
    cases: &[FailedCase],
) -> Result<(), Memory>
    ensures { OnOk result (string_bytes out.new ≡ string_bytes out.old ++ counts_from is_first groups.now cases.now) }
{
    match groups {
        [] => Ok(()),
        [rule, rest @ ..] => {
            let count = count_of(cases, *rule);
            let group = group(alloc, is_first, *rule, count)?;
            out.push_str(group.as_str())?;
            write_counts(alloc, out, is_none_yet(is_first, count), rest, cases)
        }
    }
}

/// How many of the cases are of a group.
fn count_of(cases: &[FailedCase], rule: Rule) -> usize
    ensures { result ≡ count_of cases.now rule }
{
    let number = rule_number(rule);
    cases
        .iter()
        .filter(|case| rule_number(case.case) == number)
        .count()
}

/// A group of so many cases, behind a comma unless it is the first; nothing where there are none.
fn group(alloc: Global, is_first: bool, rule: Rule, count: usize) -> Result<String, Memory>
    ensures { IfOk result (λ text. string_bytes text ≡ group_words is_first rule count) }
{
    counted(alloc, is_first, rule_code(rule), count)
}

/// What is to blame.
fn blame_sentence<P: Protocol>(
    alloc: Global,
    protocol: &P,
    blame: GhostBlame,
) -> Result<String, Memory>
    ensures { IfOk result (λ text. string_bytes text ≡ blame_words (P.names protocol.now) blame) }
{
    match blame {
        GhostBlame::Void(access) => {
            let (row, _) = access_words(access);
            nothing_sentence(alloc, row, access_side(access))
        }
        GhostBlame::Request { rule, asked } => request_sentence(alloc, protocol, rule, asked),
        GhostBlame::NewKey(0) => String::from_str(alloc, "`insert` keeps no lock on its new key."),
        GhostBlame::NewKey(mode) => {
            let lead = "`insert` requests too weak a lock on its new key: ";
            mode_sentence(alloc, lead, name_or_empty(protocol, mode))
        }
        GhostBlame::Heir(0) => String::from_str(
            alloc,
            "A purge leaves no lock on the next name for one on its ghost.",
        ),
        GhostBlame::Heir(mode) => {
            let lead = "A purge leaves too weak a lock on the next name: ";
            mode_sentence(alloc, lead, name_or_empty(protocol, mode))
        }
        GhostBlame::Conversion {
            held,
            requested,
            made,
        } => conversion_sentence(alloc, protocol, held, requested, made),
        GhostBlame::Pair { requested, held } => pair_sentence(alloc, protocol, requested, held),
    }
}

/// A sentence that ends in a mode.
fn mode_sentence(alloc: Global, lead: &str, mode: &str) -> Result<String, Memory>
    ensures { IfOk result (λ text. string_bytes text ≡ lead.now ++ (mode.now ++ codes ".")) }
{
    joined(alloc, &[lead, mode, "."])
}

/// A requested and a held mode that are compatible.
fn pair_sentence<P: Protocol>(
    alloc: Global,
    protocol: &P,
    requested: Mode,
    held: Mode,
) -> Result<String, Memory>
    ensures { IfOk result (λ text. string_bytes text ≡ blame_words (P.names protocol.now) (blame.Pair requested held)) }
{
    let held = name_or_empty(protocol, held);
    let requested = name_or_empty(protocol, requested);
    joined(
        alloc,
        &[
            "Requested ",
            requested,
            " is compatible with held ",
            held,
            ".",
        ],
    )
}

/// A conversion to a weaker mode.
fn conversion_sentence<P: Protocol>(
    alloc: Global,
    protocol: &P,
    held: Mode,
    requested: Mode,
    made: Mode,
) -> Result<String, Memory>
    ensures { IfOk result (λ text. string_bytes text ≡ blame_words (P.names protocol.now) (blame.Conversion held requested made)) }
{
    let held = name_or_empty(protocol, held);
    let requested = name_or_empty(protocol, requested);
    let made = name_or_empty(protocol, made);
    joined(
        alloc,
        &[
            held,
            " held and ",
            requested,
            " requested convert to ",
            made,
            ", a weaker mode.",
        ],
    )
}

/// A request that is too weak, or whose lock is released too early, or none.
fn request_sentence<P: Protocol>(
    alloc: Global,
    protocol: &P,
    rule: Rule,
    asked: Option<(Mode, Span)>,
) -> Result<String, Memory>
    ensures { IfOk result (λ text. string_bytes text ≡ request_words (P.names protocol.now) rule asked) }
{
    let row = row_words(rule);
    let side = side_words(rule);
    match asked {
        None => nothing_sentence(alloc, row, side),
        Some((_, Span::Instant)) => early_sentence(alloc, row, side),
        Some((mode, Span::Commit)) => {
            weak_sentence(alloc, row, side, name_or_empty(protocol, mode))
        }
    }
}
