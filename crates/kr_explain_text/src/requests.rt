//! The sentences under the title of a cause whose request is too weak, or whose lock is released too early.

use crate::body::protected;
use crate::lists::{joined, modes_listed};
use crate::words::side_words;
use crate::wrap::write_joined;
use kr_cases::Memory;
use kr_explain_causes::own_next;
use kr_model::{FailedCase, Mode, Origin, Row, Rule, Side, Span, row_word};
use kr_protocol::{Protocol, name_or_empty};
use std::alloc::Global;

/// Writes what must be protected after a row, what is wrong with its request, and for which own modes.
pub fn write_request<P: Protocol>(
    alloc: Global,
    protocol: &P,
    out: &mut String,
    cases: &[FailedCase],
    row: Row,
    side: Side,
    asked: Option<(Mode, Span)>,
) -> Result<(), Memory> {
    write_must_protect(alloc, out, cases, row)?;
    let owns = owns_words(alloc, protocol, cases, row)?;
    match asked {
        Some((mode, Span::Instant)) => {
            let owns = if row == Row::Delete {
                ""
            } else {
                owns.as_str()
            };
            write_instant(alloc, protocol, out, cases, side, mode, owns)
        }
        _ => write_kept(alloc, protocol, out, side, asked, owns.as_str()),
    }
}

/// Writes what a transaction must protect after a row.
fn write_must_protect(
    alloc: Global,
    out: &mut String,
    cases: &[FailedCase],
    row: Row,
) -> Result<(), Memory> {
    let covers = protected(alloc, cases, "and")?;
    write_must_protect_of(
        alloc,
        out,
        row_word(row),
        covers.as_str(),
        split_words(cases),
    )
}

/// The same, of these covers.
fn write_must_protect_of(
    alloc: Global,
    out: &mut String,
    row: &str,
    covers: &str,
    split: &str,
) -> Result<(), Memory> {
    write_joined(
        alloc,
        out,
        &[
            "After `",
            row,
            "` a transaction must protect, until it ends, ",
            covers,
            split,
            ".",
        ],
    )
}

/// That an insert splits what is to be protected, where all cases are of that; else nothing.
fn split_words(cases: &[FailedCase]) -> &'static str {
    if cases.iter().all(|case| case.case == Rule::Split) {
        ", which the insert splits"
    } else {
        ""
    }
}

/// Writes that a mode is requested for instant duration, with these own modes, and what is held then.
fn write_instant<P: Protocol>(
    alloc: Global,
    protocol: &P,
    out: &mut String,
    cases: &[FailedCase],
    side: Side,
    mode: Mode,
    owns: &str,
) -> Result<(), Memory> {
    let held = held_words(alloc, protocol, cases)?;
    let mode = name_or_empty(protocol, mode);
    write_instant_of(alloc, out, mode, side_words(side), owns, held.as_str())
}

/// The same, where this is held then.
fn write_instant_of(
    alloc: Global,
    out: &mut String,
    mode: &str,
    side: &str,
    owns: &str,
    held: &str,
) -> Result<(), Memory> {
    write_joined(
        alloc,
        out,
        &[
            "It requests ",
            mode,
            " on ",
            side,
            " for instant duration",
            owns,
            ", so it then holds ",
            held,
            ".",
        ],
    )
}

/// Writes that no lock is requested, or too weak a one, where only some own modes have that.
fn write_kept<P: Protocol>(
    alloc: Global,
    protocol: &P,
    out: &mut String,
    side: Side,
    asked: Option<(Mode, Span)>,
    owns: &str,
) -> Result<(), Memory> {
    if owns.is_empty() {
        return Ok(());
    }
    match asked {
        Some((mode, _)) => {
            let mode = name_or_empty(protocol, mode);
            write_only(alloc, out, "only ", mode, side_words(side), owns)
        }
        None => write_only(alloc, out, "no lock", "", side_words(side), owns),
    }
}

/// Writes what is requested with these own modes: so much of a mode.
fn write_only(
    alloc: Global,
    out: &mut String,
    only: &str,
    mode: &str,
    side: &str,
    owns: &str,
) -> Result<(), Memory> {
    write_joined(
        alloc,
        out,
        &["It requests ", only, mode, " on ", side, owns, "."],
    )
}

/// The own modes on the next key that the cases of a row are taken at; nothing where these are all, or where the row doesn't
/// go by them.
fn owns_words<P: Protocol>(
    alloc: Global,
    protocol: &P,
    cases: &[FailedCase],
    row: Row,
) -> Result<String, Memory> {
    if !matches!(row, Row::Insert | Row::Delete) {
        return Ok(String::new(alloc));
    }
    let owns = owns_of(alloc, protocol.count(), cases)?;
    owns_listed(alloc, protocol, &owns)
}

/// These own modes; nothing where they are all.
fn owns_listed<P: Protocol>(alloc: Global, protocol: &P, owns: &[Mode]) -> Result<String, Memory> {
    if owns.len() > protocol.count() as usize {
        return Ok(String::new(alloc));
    }
    let owns = modes_listed(alloc, protocol, owns)?;
    behind(
        alloc,
        " where its own mode on the next key is ",
        owns.as_str(),
    )
}

/// What the transactions of the cases hold after a request for instant duration: what they held before.
fn held_words<P: Protocol>(
    alloc: Global,
    protocol: &P,
    cases: &[FailedCase],
) -> Result<String, Memory> {
    let owns = held_before(alloc, protocol.count(), cases)?;
    held_listed(alloc, protocol, &owns)
}

/// These modes, as what was held before.
fn held_listed<P: Protocol>(alloc: Global, protocol: &P, owns: &[Mode]) -> Result<String, Memory> {
    if owns.iter().all(|own| *own == 0) {
        return String::from_str(alloc, "no lock there");
    }
    let owns = modes_listed(alloc, protocol, owns)?;
    behind(alloc, "only what it held before: ", owns.as_str())
}

/// A text behind another.
fn behind(alloc: Global, before: &str, text: &str) -> Result<String, Memory> {
    joined(alloc, &[before, text])
}

/// The modes of a list, of a protocol of so many modes, rising and each once.
fn rising(alloc: Global, count: Mode, modes: &[Mode]) -> Result<Vec<Mode>, Memory> {
    let mut rising = Vec::new(alloc);
    for mode in 0..=count {
        if modes.contains(&mode) {
            rising.push(mode)?;
        }
    }
    Ok(rising)
}

/// The own modes on the next key that the cases are taken at, rising.
fn owns_of(alloc: Global, count: Mode, cases: &[FailedCase]) -> Result<Vec<Mode>, Memory> {
    let mut owns = Vec::new(alloc);
    for case in cases {
        owns.push(own_next(case))?;
    }
    rising(alloc, count, &owns)
}

/// The modes that the transactions of the cases held on the name before, rising.
fn held_before(alloc: Global, count: Mode, cases: &[FailedCase]) -> Result<Vec<Mode>, Memory> {
    let mut modes = Vec::new(alloc);
    for case in cases {
        modes.push(held_at(case.from))?;
    }
    rising(alloc, count, &modes)
}

/// The mode that was held on the name before.
fn held_at(from: Origin) -> Mode {
    match from {
        Origin::Own(own) => own,
        Origin::Conversion { held, .. } => held,
        Origin::Insert { own, .. } => own,
    }
}
