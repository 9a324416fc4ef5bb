//! What is said of a cause below its title.

use crate::words::{deed_words, protected_words, step_words};
use kr_explain_text::joined;
use kr_ghost::{FailedCase, access_words};
use kr_ghost_explain::{request_of, requested};
use kr_ghost_protocol::GhostProtocol;
use kr_model::{Memory, Mode};
use kr_protocol::name_or_empty;
use std::alloc::Global;

/// What the lock of a failed case has to protect, which mode it has, and who gets past it, each on lines of its own; `can` says
/// whether another transaction can, or only could.
pub(crate) fn body<P: GhostProtocol>(
    alloc: Global,
    protocol: &P,
    case: &FailedCase,
    can: &str,
) -> Result<String, Memory> {
    let must = must_protect(alloc, step_words(case.case), protected_words(case))?;
    let held = held_words(alloc, protocol, case.mode)?;
    let request = request_words(alloc, protocol, case)?;
    let deed = deed_words(case.hole.access);
    body_of(
        alloc,
        must.as_str(),
        held.as_str(),
        request.as_str(),
        can,
        deed,
    )
}

/// The same of a table that is safe, and that nothing comes of it.
pub(crate) fn harmless_body<P: GhostProtocol>(
    alloc: Global,
    protocol: &P,
    case: &FailedCase,
) -> Result<String, Memory> {
    let could = body(alloc, protocol, case, "could")?;
    format!(in alloc; "{could}\n\n   Harmless: the table is safe, so no schedule leads to that.")
}

/// What a transaction must protect after a step.
fn must_protect(alloc: Global, step: &str, protected: &str) -> Result<String, Memory> {
    joined(
        alloc,
        &[
            "\n   After ",
            step,
            ", a transaction must protect, until it ends,\n   ",
            protected,
            ".\n   ",
        ],
    )
}

/// What must be protected, by which mode, and which request that doesn't block, so that a transaction can do this, or could.
fn body_of(
    alloc: Global,
    must: &str,
    held: &str,
    request: &str,
    can: &str,
    deed: &str,
) -> Result<String, Memory> {
    joined(
        alloc,
        &[
            must,
            held,
            " ",
            request,
            ":\n   another transaction ",
            can,
            " ",
            deed,
            ".",
        ],
    )
}

/// The mode that there is to protect it.
fn held_words<P: GhostProtocol>(alloc: Global, protocol: &P, mode: Mode) -> Result<String, Memory> {
    if mode == 0 {
        String::from_str(alloc, "It may have no lock there, which")
    } else {
        only_mode(alloc, name_or_empty(protocol, mode))
    }
}

/// That there is only this mode.
fn only_mode(alloc: Global, mode: &str) -> Result<String, Memory> {
    joined(alloc, &["It may have only ", mode, " there, which"])
}

/// The first request that this doesn't block.
fn request_words<P: GhostProtocol>(
    alloc: Global,
    protocol: &P,
    case: &FailedCase,
) -> Result<String, Memory> {
    let hole = case.hole;
    let (row, _) = access_words(hole.access);
    match request_of(protocol, hole) {
        None => nothing_requested(alloc, row),
        Some((mode, _)) if hole.own == 0 => {
            mode_requested(alloc, name_or_empty(protocol, mode), row)
        }
        Some((mode, _)) => converted_words(alloc, protocol, case, mode, row),
    }
}

/// That a row requests nothing.
fn nothing_requested(alloc: Global, row: &str) -> Result<String, Memory> {
    joined(
        alloc,
        &["does not block `", row, "`, since that requests no lock"],
    )
}

/// That a row requests a mode that there is no conflict with.
fn mode_requested(alloc: Global, mode: &str, row: &str) -> Result<String, Memory> {
    joined(
        alloc,
        &[
            "does not conflict with the ",
            mode,
            " that `",
            row,
            "` requests",
        ],
    )
}

/// That a row requests a mode, of one who has another and converts it.
fn converted_words<P: GhostProtocol>(
    alloc: Global,
    protocol: &P,
    case: &FailedCase,
    mode: Mode,
    row: &str,
) -> Result<String, Memory> {
    let request = mode_requested(alloc, name_or_empty(protocol, mode), row)?;
    let made = name_or_empty(protocol, requested(protocol, case.hole));
    let own = name_or_empty(protocol, case.hole.own);
    converted_of(alloc, request.as_str(), made, own)
}

/// The same, of this request.
fn converted_of(alloc: Global, request: &str, made: &str, own: &str) -> Result<String, Memory> {
    joined(
        alloc,
        &[
            request,
            ",\n   and that converts to ",
            made,
            ", of one who itself has ",
            own,
            " there",
        ],
    )
}
