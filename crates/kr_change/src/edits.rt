//! A change as an edit of the table's file.
ghost use Rattle.std.specs.Prelude.{◌≡◌, IfOk, string_bytes};
ghost use Rattle.kr_change.specs.Edits.{add_or_remove, asked_words, convert_edit, edit_words, ghost_request_edit, heir_edit, pair_edit, request_edit, where_words};

use crate::change::{Change, GhostRow, ghost_row_word};
use crate::entries::own_text;
use crate::names::heir_word;
use kr_model::{Memory, Mode, Row, Side, Span, row_word, side_word, span_word};
use kr_protocol::{Protocol, name_or_empty};
use std::alloc::Global;

/// The edit of the table's file that makes a change: where it stands, and the value that stands there then. The error is memory
/// alone.
pub fn edit_text<P: Protocol>(alloc: Global, protocol: &P, change: Change) -> Result<String, Memory>
    ensures { IfOk result (λ text. string_bytes text ≡ edit_words (P.table protocol.now) (P.names protocol.now) change) }
{
    match change {
        Change::Compatible {
            requested,
            held,
            is_compatible,
        } => pair_text(alloc, protocol, requested, held, is_compatible),
        Change::Convert {
            held,
            requested,
            mode,
        } => convert_text(alloc, protocol, held, requested, mode),
        Change::Request {
            row,
            side,
            own_next,
            request,
        } => request_text(alloc, protocol, row, side, own_next, request),
        Change::GhostRequest { row, side, request } => {
            ghost_request_text(alloc, protocol, row, side, request)
        }
        Change::Heir { held, mode } => heir_text(alloc, protocol, held, mode),
    }
}

/// Whether a mode comes into a list, or leaves it.
fn add_or_remove(is_compatible: bool) -> &'static str
    ensures { result.now ≡ add_or_remove is_compatible }
{
    if is_compatible { "add" } else { "remove" }
}

/// An edit of the modes that a mode is compatible with.
#[tactic(auto, unfolding(crate::specs::Edits::pair_edit))]
fn pair_text<P: Protocol>(
    alloc: Global,
    protocol: &P,
    requested: Mode,
    held: Mode,
    is_compatible: bool,
) -> Result<String, Memory>
    ensures { IfOk result (λ text. string_bytes text ≡ pair_edit (P.names protocol.now) requested held is_compatible) }
{
    let requested = name_or_empty(protocol, requested);
    let held = name_or_empty(protocol, held);
    let deed = add_or_remove(is_compatible);
    format!(in alloc; "in [compatible], {requested}: {deed} {held}")
}

/// An edit of a conversion.
#[tactic(auto, unfolding(crate::specs::Edits::convert_edit))]
fn convert_text<P: Protocol>(
    alloc: Global,
    protocol: &P,
    held: Mode,
    requested: Mode,
    mode: Mode,
) -> Result<String, Memory>
    ensures { IfOk result (λ text. string_bytes text ≡ convert_edit (P.names protocol.now) held requested mode) }
{
    let held = name_or_empty(protocol, held);
    let requested = name_or_empty(protocol, requested);
    let mode = name_or_empty(protocol, mode);
    format!(in alloc; "in [convert], {held}: {requested} = \"{mode}\"")
}

/// An edit of what a row requests at a side.
#[tactic(auto, unfolding(crate::specs::Edits::request_edit))]
fn request_text<P: Protocol>(
    alloc: Global,
    protocol: &P,
    row: Row,
    side: Side,
    own_next: Option<u16>,
    request: Option<(Mode, Span)>,
) -> Result<String, Memory>
    ensures { IfOk result (λ text. string_bytes text ≡ request_edit (P.table protocol.now) (P.names protocol.now) row side own_next request) }
{
    let row = row_word(row);
    let side = side_word(side);
    let asked = asked_text(alloc, protocol, request)?;
    let with = where_text(alloc, protocol, own_next)?;
    format!(in alloc; "in [rules.{row}], {side}: request {asked}{with}")
}

/// An edit of what a row that only tables with ghosts have requests at a side.
#[tactic(auto, unfolding(crate::specs::Edits::ghost_request_edit))]
fn ghost_request_text<P: Protocol>(
    alloc: Global,
    protocol: &P,
    row: GhostRow,
    side: Side,
    request: Option<(Mode, Span)>,
) -> Result<String, Memory>
    ensures { IfOk result (λ text. string_bytes text ≡ ghost_request_edit (P.names protocol.now) row side request) }
{
    let row = ghost_row_word(row);
    let side = side_word(side);
    let asked = asked_text(alloc, protocol, request)?;
    format!(in alloc; "in [rules.{row}], {side}: request {asked}")
}

/// An edit of what is inherited by who has one of these modes.
#[tactic(auto, unfolding(crate::specs::Edits::heir_edit))]
fn heir_text<P: Protocol>(
    alloc: Global,
    protocol: &P,
    held: u16,
    mode: Mode,
) -> Result<String, Memory>
    ensures { IfOk result (λ text. string_bytes text ≡ heir_edit (P.table protocol.now) (P.names protocol.now) held mode) }
{
    let modes = own_text(alloc, protocol, "in [purge],", held)?;
    let heir = heir_word(protocol, mode);
    format!(in alloc; "{modes}: {heir}")
}

/// What is requested: a mode, and for how long.
#[tactic(auto, unfolding(crate::specs::Edits::asked_words))]
fn asked_text<P: Protocol>(
    alloc: Global,
    protocol: &P,
    request: Option<(Mode, Span)>,
) -> Result<String, Memory>
    ensures { IfOk result (λ text. string_bytes text ≡ asked_words (P.names protocol.now) request) }
{
    match request {
        None => String::from_str(alloc, "nothing"),
        Some((mode, span)) => {
            let mode = name_or_empty(protocol, mode);
            let span = span_word(span);
            format!(in alloc; "{mode} for {span} duration")
        }
    }
}

/// With which own modes on the next name, if not with all.
fn where_text<P: Protocol>(
    alloc: Global,
    protocol: &P,
    own_next: Option<u16>,
) -> Result<String, Memory>
    ensures { IfOk result (λ text. string_bytes text ≡ where_words (P.table protocol.now) (P.names protocol.now) own_next) }
{
    match own_next {
        None => Ok(String::new(alloc)),
        Some(modes) => own_text(
            alloc,
            protocol,
            " where the own mode on the next key is",
            modes,
        ),
    }
}
