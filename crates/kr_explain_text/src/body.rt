//! The sentences under the title of a cause: what its lock must protect, what is wrong with it, and which request is then
//! granted.

use crate::granted::write_granted;
use crate::lists::{listed, put_once};
use crate::requests::write_request;
use crate::words::{cover_words, deed_words, rule_step};
use crate::wrap::{INDENT, write_joined, write_paragraph};
use kr_cases::Memory;
use kr_explain_causes::{Blame, Cause, must_conflict};
use kr_model::{Cover, FailedCase, Mode, Row, Side};
use kr_protocol::{Protocol, name_or_empty};
use std::alloc::Global;

/// The covers, in their order.
const COVERS: [Cover; 5] = [
    Cover::ReadKey,
    Cover::ReadGap,
    Cover::InsertedKey,
    Cover::DeletedGap,
    Cover::UpdatedKey,
];

/// Writes the paragraphs under the title, where `case` is the one whose schedule is shown, and `can` says whether another
/// transaction can come to be granted what the lock doesn't block, or only could. The only fault is that a growth was refused.
pub fn write_body<P: Protocol>(
    alloc: Global,
    protocol: &P,
    out: &mut String,
    cause: &Cause,
    case: &FailedCase,
    can: &str,
) -> Result<(), Memory> {
    write_blame(alloc, protocol, out, cause, can)?;
    if matches!(cause.blame, Blame::Place { .. }) {
        return Ok(());
    }
    write_granted(alloc, protocol, out, case, can)
}

/// Writes what must be protected, and what is wrong with the lock.
fn write_blame<P: Protocol>(
    alloc: Global,
    protocol: &P,
    out: &mut String,
    cause: &Cause,
    can: &str,
) -> Result<(), Memory> {
    let cases = cause.cases.as_slice();
    match cause.blame {
        Blame::Place { row, side } => { write_void(alloc, protocol, out, cases, row, side, can) }
        Blame::Request { row, side, asked } => {
            write_request(alloc, protocol, out, cases, row, side, asked)
        }
        Blame::Conversion { .. } => write_conversion(alloc, out, cases),
        Blame::Pair { held, .. } => write_pair(alloc, protocol, out, cases, held),
    }
}

/// Writes after which steps a conversion is wrong, and what must be protected then.
fn write_conversion(alloc: Global, out: &mut String, cases: &[FailedCase]) -> Result<(), Memory> {
    let covers = protected(alloc, cases, "and")?;
    let steps = steps_of(alloc, cases)?;
    write_conversion_of(alloc, out, steps.as_str(), covers.as_str())
}

/// The same, of these steps and covers.
fn write_conversion_of(
    alloc: Global,
    out: &mut String,
    steps: &str,
    covers: &str,
) -> Result<(), Memory> {
    write_joined(
        alloc,
        out,
        &[
            "Locks are tested and held in the converted mode. After ",
            steps,
            " a transaction must protect ",
            covers,
            ".",
        ],
    )
}

/// Writes after which steps the held mode of a pair is held, and what it must protect then.
fn write_pair<P: Protocol>(
    alloc: Global,
    protocol: &P,
    out: &mut String,
    cases: &[FailedCase],
    held: Mode,
) -> Result<(), Memory> {
    let covers = protected(alloc, cases, "and")?;
    let steps = steps_of(alloc, cases)?;
    let held = name_or_empty(protocol, held);
    write_pair_of(alloc, out, steps.as_str(), held, covers.as_str())
}

/// The same, of these steps and covers.
fn write_pair_of(
    alloc: Global,
    out: &mut String,
    steps: &str,
    held: &str,
    covers: &str,
) -> Result<(), Memory> {
    write_joined(
        alloc,
        out,
        &[
            "After ",
            steps,
            " a transaction that holds ",
            held,
            " must protect ",
            covers,
            ".",
        ],
    )
}

/// What the locks of the cases must protect, in the order of the covers.
pub fn protected(alloc: Global, cases: &[FailedCase], last: &str) -> Result<String, Memory> {
    let words = covers_of(alloc, cases)?;
    listed(alloc, &words, last)
}

/// The words of the covers of the cases, each once, in their order.
fn covers_of(alloc: Global, cases: &[FailedCase]) -> Result<Vec<&'static str>, Memory> {
    let mut words = Vec::new(alloc);
    for cover in &COVERS {
        if has_cover(cases, *cover) {
            words.push(cover_words(*cover))?;
        }
    }
    Ok(words)
}

/// Whether one of the cases is of this cover.
fn has_cover(cases: &[FailedCase], cover: Cover) -> bool {
    cases.iter().any(|case| case.cover == cover)
}

/// The steps after which the cases require their covers, each once.
fn steps_of(alloc: Global, cases: &[FailedCase]) -> Result<String, Memory> {
    let mut words = Vec::new(alloc);
    for case in cases {
        put_once(&mut words, rule_step(case.case))?;
    }
    listed(alloc, &words, "or")
}

/// Writes what no lock blocks, and what can't be protected then.
fn write_void<P: Protocol>(
    alloc: Global,
    protocol: &P,
    out: &mut String,
    cases: &[FailedCase],
    row: Row,
    side: Side,
    can: &str,
) -> Result<(), Memory> {
    let others = let_in(alloc, protocol, cases, row, side)?;
    if !others.is_empty() {
        write_unprotected(alloc, out, &others, can, deed_words(row, side))?;
    }
    if others.len() < cases.len() {
        write_paragraph(out, unprotected_words(row), INDENT, INDENT)?;
    }
    Ok(())
}

/// The cases whose covers a request of this row and side must conflict with.
fn let_in<P: Protocol>(
    alloc: Global,
    protocol: &P,
    cases: &[FailedCase],
    row: Row,
    side: Side,
) -> Result<Vec<FailedCase>, Memory> {
    let mut others = Vec::new(alloc);
    for case in cases {
        if must_conflict(protocol, case.cover).contains(&(row, side)) {
            others.push(*case)?;
        }
    }
    Ok(others)
}

/// Writes that no transaction can protect the covers of the cases.
fn write_unprotected(
    alloc: Global,
    out: &mut String,
    cases: &[FailedCase],
    can: &str,
    deed: &str,
) -> Result<(), Memory> {
    let covers = protected(alloc, cases, "or")?;
    write_unprotected_of(alloc, out, can, deed, covers.as_str())
}

/// The same, of these covers.
fn write_unprotected_of(
    alloc: Global,
    out: &mut String,
    can: &str,
    deed: &str,
    covers: &str,
) -> Result<(), Memory> {
    write_joined(
        alloc,
        out,
        &[
            "So whatever locks are held, another transaction ",
            can,
            " ",
            deed,
            ": no transaction can protect ",
            covers,
            ".",
        ],
    )
}

/// That what a transaction does by a row is not protected.
fn unprotected_words(row: Row) -> &'static str {
    if row == Row::Insert {
        "The key that it inserts is not protected."
    } else {
        "What it reads is not protected."
    }
}
