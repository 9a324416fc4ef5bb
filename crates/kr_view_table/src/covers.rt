//! What each mode of a table protects.
ghost use Rattle.std.specs.Prelude.{◌≡◌, ◌≤◌, IfOk, flat_map, string_bytes};
ghost use Rattle.kr_model.specs.Covers.{all_covers, modes};
ghost use Rattle.kr_cases.specs.Holes.{first_open};
ghost use Rattle.kr_view_table.specs.declared.covers.TheConstants.{COVERS};
ghost use Rattle.kr_view_table.specs.Covers.{cover_cell, cover_head, covers_words, holding, mode_row, open_cell, whole_cell};

use kr_cases::{all_covers, first_open};
use kr_explain_text::{cover_words, deed_words};
use kr_model::{Cover, Memory, Mode, Requester};
use kr_protocol::{Protocol, name_or_empty};
use kr_view_scenes::escape;
use std::alloc::Global;

/// What stands before the heads of the columns.
pub const COVERS: &str = "<h2>What each mode protects</h2>
<p class=\"note\">✓: a lock in this mode blocks all that it must where its transaction has to protect what the column says. ✗: it lets another transaction do this, which holds the mode that is named, if one is.</p>
<div class=\"grid\"><table class=\"covers\">
<thead><tr><th scope=\"col\">mode</th>";

/// What the modes protect, with a row for each mode and a column for each cover.
pub fn covers<P: Protocol>(alloc: Global, protocol: &P) -> Result<String, Memory>
    ensures { IfOk result (λ text. string_bytes text ≡ covers_words (P.table protocol.now) (P.names protocol.now)) }
{
    let opening = opening();
    let heads = cover_heads(alloc, protocol)?;
    let rows = mode_rows(alloc, protocol)?;
    format!(in alloc; "{opening}{heads}</tr></thead>\n<tbody>\n{rows}</tbody></table></div>\n")
}

/// What stands before the heads of the columns.
fn opening() -> &'static str
    ensures { result.now ≡ COVERS.now }
{
    COVERS
}

/// The head of each column.
fn cover_heads<P: Protocol>(alloc: Global, protocol: &P) -> Result<String, Memory>
    ensures { IfOk result (λ text. string_bytes text ≡ flat_map cover_head (all_covers (P.table protocol.now))) }
{
    let mut out = String::new(alloc);
    for cover in all_covers(protocol) {
        let piece = cover_head(alloc, *cover)?;
        out.push_str(piece.as_str())?;
    }
    Ok(out)
}

/// The head of the column of a cover.
fn cover_head(alloc: Global, cover: Cover) -> Result<String, Memory>
    ensures { IfOk result (λ text. string_bytes text ≡ cover_head cover) }
{
    let words = cover_words(cover);
    format!(in alloc; "<th scope=\"col\">{words}</th>")
}

/// A row for each mode.
fn mode_rows<P: Protocol>(alloc: Global, protocol: &P) -> Result<String, Memory>
    ensures { IfOk result (λ text. string_bytes text ≡ flat_map (mode_row (P.table protocol.now) (P.names protocol.now)) (modes (P.table protocol.now))) }
{
    let mut out = String::new(alloc);
    for mode in 1..protocol.count() + 1 {
        let piece = mode_row(alloc, protocol, mode)?;
        out.push_str(piece.as_str())?;
    }
    Ok(out)
}

/// The row of a mode.
fn mode_row<P: Protocol>(alloc: Global, protocol: &P, mode: Mode) -> Result<String, Memory>
    requires { mode ≤ (P.table protocol.now).count }
    ensures { IfOk result (λ text. string_bytes text ≡ mode_row (P.table protocol.now) (P.names protocol.now) mode) }
{
    let name = escape(alloc, name_or_empty(protocol, mode))?;
    let cells = cover_cells(alloc, protocol, mode)?;
    format!(in alloc; "<tr class=\"mode\"><th scope=\"row\">{name}</th>{cells}</tr>\n")
}

/// The cells of the row of a mode, one for each cover.
fn cover_cells<P: Protocol>(alloc: Global, protocol: &P, mode: Mode) -> Result<String, Memory>
    requires { mode ≤ (P.table protocol.now).count }
    ensures { IfOk result (λ text. string_bytes text ≡ flat_map (λ c. cover_cell (P.names protocol.now) (first_open (P.table protocol.now) c mode)) (all_covers (P.table protocol.now))) }
{
    let mut out = String::new(alloc);
    for cover in all_covers(protocol) {
        let piece = cover_cell(alloc, protocol, first_open(protocol, *cover, mode))?;
        out.push_str(piece.as_str())?;
    }
    Ok(out)
}

/// The cell of a mode and a cover, by the first requester that the mode lets in.
fn cover_cell<P: Protocol>(
    alloc: Global,
    protocol: &P,
    let_in: Option<Requester>,
) -> Result<String, Memory>
    ensures { IfOk result (λ text. string_bytes text ≡ cover_cell (P.names protocol.now) let_in) }
{
    match let_in {
        None => String::from_str(alloc, whole_cell()),
        Some(requester) => {
            let opening = open_cell();
            let deed = deed_words(requester.row, requester.side);
            let holding = holding(alloc, protocol, requester.own)?;
            format!(in alloc; "{opening}{deed}{holding}</td>")
        }
    }
}

/// The cell of a mode that protects what it must. Takes no memory.
pub fn whole_cell() -> &'static str
    ensures { result.now ≡ whole_cell }
{
    "<td class=\"whole\">✓</td>"
}

/// The beginning of the cell of a mode that lets a requester through. Takes no memory.
pub fn open_cell() -> &'static str
    ensures { result.now ≡ open_cell }
{
    "<td>✗ "
}

/// The own mode of a requester, if it has one.
fn holding<P: Protocol>(alloc: Global, protocol: &P, own: Mode) -> Result<String, Memory>
    ensures { IfOk result (λ text. string_bytes text ≡ holding (P.names protocol.now) own) }
{
    if own == 0 {
        return Ok(String::new(alloc));
    }
    let name = escape(alloc, name_or_empty(protocol, own))?;
    format!(in alloc; ", holding {name}")
}
