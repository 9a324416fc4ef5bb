//! The sentence that says which request is granted beside the mode of a case: its first open place.

use crate::lists::joined;
use crate::words::{deed_words, side_words};
use crate::wrap::write_joined;
use kr_cases::Memory;
use kr_model::{FailedCase, Mode, row_word};
use kr_protocol::{Protocol, asked, converted, name_or_empty};
use std::alloc::Global;

/// Writes which request is granted to another transaction beside the mode of a case, and what that one can do then, or could.
pub fn write_granted<P: Protocol>(
    alloc: Global,
    protocol: &P,
    out: &mut String,
    case: &FailedCase,
    can: &str,
) -> Result<(), Memory> {
    let deed = can_do(alloc, can, deed_words(case.hole.row, case.hole.side))?;
    write_granted_of(alloc, protocol, out, case, deed.as_str())
}

/// What a transaction can do, or could, up to the end of a sentence.
fn can_do(alloc: Global, can: &str, deed: &str) -> Result<String, Memory> {
    joined(alloc, &[can, " ", deed, "."])
}

/// The same, where it can do this.
fn write_granted_of<P: Protocol>(
    alloc: Global,
    protocol: &P,
    out: &mut String,
    case: &FailedCase,
    deed: &str,
) -> Result<(), Memory> {
    let hole = case.hole;
    match asked(protocol, hole.row, hole.side, hole.own_next) {
        None => write_unasked(alloc, out, row_word(hole.row), side_words(hole.side), deed),
        Some((mode, _)) if hole.own == 0 => write_asked(alloc, protocol, out, case, mode, deed),
        Some((mode, _)) => write_converted(alloc, protocol, out, case, mode, deed),
    }
}

/// Writes that no lock is requested.
fn write_unasked(
    alloc: Global,
    out: &mut String,
    row: &str,
    side: &str,
    deed: &str,
) -> Result<(), Memory> {
    write_joined(
        alloc,
        out,
        &[
            "`",
            row,
            "` requests no lock on ",
            side,
            ": another transaction ",
            deed,
        ],
    )
}

/// Writes that the mode of a case doesn't conflict with the mode that is requested.
fn write_asked<P: Protocol>(
    alloc: Global,
    protocol: &P,
    out: &mut String,
    case: &FailedCase,
    mode: Mode,
    deed: &str,
) -> Result<(), Memory> {
    let request = request_text(alloc, protocol, case, mode)?;
    let held = held_words(alloc, protocol, case.mode)?;
    write_asked_of(alloc, out, held.as_str(), request.as_str(), deed)
}

/// The same, of this request.
fn write_asked_of(
    alloc: Global,
    out: &mut String,
    held: &str,
    request: &str,
    deed: &str,
) -> Result<(), Memory> {
    write_joined(
        alloc,
        out,
        &[held, " ", request, ": another transaction ", deed],
    )
}

/// Writes that the mode of a case doesn't conflict with the mode that a request converts to.
fn write_converted<P: Protocol>(
    alloc: Global,
    protocol: &P,
    out: &mut String,
    case: &FailedCase,
    mode: Mode,
    deed: &str,
) -> Result<(), Memory> {
    let own = case.hole.own;
    let request = request_text(alloc, protocol, case, mode)?;
    let held = conflict_words(alloc, protocol, case.mode)?;
    let made = name_or_empty(protocol, converted(protocol, own, mode));
    let own = name_or_empty(protocol, own);
    write_converted_of(alloc, out, own, request.as_str(), made, held.as_str(), deed)
}

/// The same, of this request.
fn write_converted_of(
    alloc: Global,
    out: &mut String,
    own: &str,
    request: &str,
    made: &str,
    held: &str,
    deed: &str,
) -> Result<(), Memory> {
    write_joined(
        alloc,
        out,
        &[
            "Where another transaction itself holds ",
            own,
            " there, ",
            request,
            " converts to ",
            made,
            ", which does not conflict with ",
            held,
            ": it ",
            deed,
        ],
    )
}

/// The request of this mode that gets past a case.
fn request_text<P: Protocol>(
    alloc: Global,
    protocol: &P,
    case: &FailedCase,
    mode: Mode,
) -> Result<String, Memory> {
    let mode = name_or_empty(protocol, mode);
    request_words(
        alloc,
        mode,
        row_word(case.hole.row),
        side_words(case.hole.side),
    )
}

/// A request of a mode, of a row at a side.
fn request_words(alloc: Global, mode: &str, row: &str, side: &str) -> Result<String, Memory> {
    joined(
        alloc,
        &["the ", mode, " that `", row, "` requests on ", side],
    )
}

/// That a held mode doesn't conflict with a request, at the beginning of a sentence.
fn held_words<P: Protocol>(alloc: Global, protocol: &P, held: Mode) -> Result<String, Memory> {
    if held == 0 {
        String::from_str(alloc, "No held lock conflicts with")
    } else {
        held_does_not(alloc, name_or_empty(protocol, held))
    }
}

/// The same of this mode.
fn held_does_not(alloc: Global, held: &str) -> Result<String, Memory> {
    joined(alloc, &["Held ", held, " does not conflict with"])
}

/// The held mode that a converted mode doesn't conflict with.
fn conflict_words<P: Protocol>(alloc: Global, protocol: &P, held: Mode) -> Result<String, Memory> {
    if held == 0 {
        String::from_str(alloc, "any held lock")
    } else {
        held_mode(alloc, name_or_empty(protocol, held))
    }
}

/// A held mode.
fn held_mode(alloc: Global, held: &str) -> Result<String, Memory> {
    joined(alloc, &["held ", held])
}
