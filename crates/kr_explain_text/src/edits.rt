//! Changes as edits of a table's file.
ghost use Rattle.std.specs.Prelude.{◌≡◌, ◌==◌, ◌≤◌, ◌++◌, IfOk, codes, string_bytes};
ghost use Rattle.std.specs.Int.{bit_at};
ghost use Rattle.kr_explain_text.specs.Edits.{IsEdit, convert_words, heir_words, modes_in, modes_of, nothing_words, request_words};

use crate::lists::{joined, modes_chosen, modes_listed};
use crate::owns::owns_words;
use kr_cases::Memory;
use kr_change::{Change, edit_text, ghost_row_word};
use kr_model::{Mode, Side, Span, row_word, side_word, span_word};
use kr_protocol::{Protocol, name_or_empty};
use std::alloc::Global;

/// Changes that differ in their mode alone, of which this is one, as one edit.
pub fn edit_words<P: Protocol>(
    alloc: Global,
    protocol: &P,
    first: Change,
    changes: &[Change],
) -> Result<String, Memory>
    ensures { IfOk result (λ text. IsEdit (P.names protocol.now) first (modes_of changes.now) (string_bytes text)) }
{
    let modes = modes_of(alloc, changes)?;
    match first {
        Change::Request {
            row,
            side,
            own_next,
            request: Some((_, span)),
        } => {
            let owns = owns_words(alloc, protocol, row, side, own_next, &modes, span)?;
            let request = request_words(alloc, protocol, row_word(row), side, &modes, span)?;
            format!(in alloc; "{request}{owns}")
        }
        Change::Request {
            row,
            side,
            own_next: _,
            request: None,
        } => nothing_words(alloc, row_word(row), side),
        Change::GhostRequest {
            row,
            side,
            request: Some((_, span)),
        } => request_words(alloc, protocol, ghost_row_word(row), side, &modes, span),
        Change::GhostRequest {
            row,
            side,
            request: None,
        } => nothing_words(alloc, ghost_row_word(row), side),
        Change::Convert {
            held,
            requested,
            mode: _,
        } => convert_words(alloc, protocol, held, requested, &modes),
        Change::Heir { held, mode: _ } => heir_words(alloc, protocol, held, &modes),
        Change::Compatible { .. } => edit_text(alloc, protocol, first),
    }
}

/// The modes of the changes, in their order.
fn modes_of(alloc: Global, changes: &[Change]) -> Result<Vec<Mode>, Memory>
    ensures { IfOk result (λ modes. modes.items ≡ modes_of changes.now) }
{
    changes
        .iter()
        .filter_map(|change| change.mode())
        .collect(alloc)
}

/// An edit of what a row of this word requests.
#[tactic(auto, unfolding(crate::specs::Edits::request_words))]
fn request_words<P: Protocol>(
    alloc: Global,
    protocol: &P,
    row: &str,
    side: Side,
    modes: &[Mode],
    span: Span,
) -> Result<String, Memory>
    ensures { IfOk result (λ text. string_bytes text ≡ request_words (P.names protocol.now) row.now side modes.now span) }
{
    let modes = modes_listed(alloc, protocol, modes)?;
    request_edit(alloc, row, side_word(side), modes.as_str(), span_word(span))
}

/// The same, of these modes.
fn request_edit(
    alloc: Global,
    row: &str,
    side: &str,
    modes: &str,
    span: &str,
) -> Result<String, Memory>
    ensures { IfOk result (λ text. string_bytes text ≡ codes "in [rules." ++ (row.now ++ (codes "], " ++ (side.now ++ (codes ": request " ++ (modes.now ++ (codes " for " ++ (span.now ++ codes " duration")))))))) }
{
    joined(
        alloc,
        &[
            "in [rules.",
            row,
            "], ",
            side,
            ": request ",
            modes,
            " for ",
            span,
            " duration",
        ],
    )
}

/// An edit of a conversion.
#[tactic(auto, unfolding(crate::specs::Edits::convert_words))]
fn convert_words<P: Protocol>(
    alloc: Global,
    protocol: &P,
    held: Mode,
    requested: Mode,
    modes: &[Mode],
) -> Result<String, Memory>
    ensures { IfOk result (λ text. string_bytes text ≡ convert_words (P.names protocol.now) held requested modes.now) }
{
    let made = modes_chosen(alloc, protocol, modes, true)?;
    let held = name_or_empty(protocol, held);
    let requested = name_or_empty(protocol, requested);
    convert_edit(alloc, held, requested, made.as_str())
}

/// The same, of these modes.
fn convert_edit(alloc: Global, held: &str, requested: &str, made: &str) -> Result<String, Memory>
    ensures { IfOk result (λ text. string_bytes text ≡ codes "in [convert], " ++ (held.now ++ (codes ": " ++ (requested.now ++ (codes " = " ++ made.now))))) }
{
    joined(
        alloc,
        &["in [convert], ", held, ": ", requested, " = ", made],
    )
}

/// An edit of what is inherited by who has one of these modes on a ghost that is purged.
#[tactic(auto, unfolding(crate::specs::Edits::heir_words))]
fn heir_words<P: Protocol>(
    alloc: Global,
    protocol: &P,
    held: u16,
    modes: &[Mode],
) -> Result<String, Memory>
    ensures { IfOk result (λ text. string_bytes text ≡ heir_words (P.names protocol.now) held modes.now) }
{
    let set = modes_in(alloc, held)?;
    let heirs = modes_listed(alloc, protocol, modes)?;
    let held = modes_listed(alloc, protocol, &set)?;
    heir_edit(alloc, heirs.as_str(), held.as_str())
}

/// The same, of these modes.
fn heir_edit(alloc: Global, heirs: &str, held: &str) -> Result<String, Memory>
    ensures { IfOk result (λ text. string_bytes text ≡ codes "in [purge]: inherit " ++ (heirs.now ++ (codes " where the mode on the ghost is " ++ held.now))) }
{
    joined(
        alloc,
        &[
            "in [purge]: inherit ",
            heirs,
            " where the mode on the ghost is ",
            held,
        ],
    )
}

/// The modes of a set, rising.
fn modes_in(alloc: Global, set: u16) -> Result<Vec<Mode>, Memory>
    ensures { IfOk result (λ modes. modes.items ≡ modes_in set) }
{
    let mut modes = Vec::new(alloc);
    for mode in 0..16 {
        if has_mode(set, mode) {
            modes.push(mode)?;
        }
    }
    Ok(modes)
}

/// Whether a mode is in a set.
fn has_mode(set: u16, mode: Mode) -> bool
    requires { mode ≤ 15 }
    ensures { result ≡ (bit_at set mode == 1) }
{
    set >> mode & 1 == 1
}

/// An edit by which a row of this word requests nothing.
#[tactic(auto, unfolding(crate::specs::Edits::nothing_words))]
fn nothing_words(alloc: Global, row: &str, side: Side) -> Result<String, Memory>
    ensures { IfOk result (λ text. string_bytes text ≡ nothing_words row.now side) }
{
    nothing_edit(alloc, row, side_word(side))
}

/// The same, of these words.
fn nothing_edit(alloc: Global, row: &str, side: &str) -> Result<String, Memory>
    ensures { IfOk result (λ text. string_bytes text ≡ codes "in [rules." ++ (row.now ++ (codes "], " ++ (side.now ++ codes ": request nothing")))) }
{
    joined(
        alloc,
        &["in [rules.", row, "], ", side, ": request nothing"],
    )
}
