//! The matrices of a table.
ghost use Rattle.std.specs.Prelude.{◌≡◌, ◌≤◌, IfOk, flat_map, string_bytes};
ghost use Rattle.kr_model.specs.Covers.{modes};
ghost use Rattle.kr_view_table.specs.Matrices.{cell_words, converted_cell, head_cell, mark_of, matrix_words, opening_of, row_words};

use crate::badges::{Entry, badges};
use crate::told::{causes_of, is_apart, is_unasked};
use kr_explain_core::Explanation;
use kr_model::{Memory, Mode};
use kr_protocol::{Protocol, name_or_empty};
use kr_view_scenes::escape;
use std::alloc::Global;

/// A matrix of a table.
#[derive(Clone, Copy, PartialEq, Eq)]
pub enum Matrix {
    /// Whether the requested mode of a row is compatible with the held one of a column.
    Compatible,
    /// What the held mode of a row and the requested one of a column convert to.
    Converted,
}

/// What stands before the modes at the upper edge of the first matrix.
pub const COMPATIBLE: &str = "<h2>Compatible modes</h2>
<p class=\"note\">A row is the mode that is requested, after conversion; a column the mode that another transaction holds: ✓ compatible, ✗ in conflict. In brackets and shaded: no schedule brings the two together before something goes wrong. A number is that of the cause below that blames the entry.</p>
<div class=\"grid\"><table class=\"matrix\">
<thead><tr><th scope=\"col\">requested ↓<br>held →</th>";

/// What stands before the modes at the upper edge of the second one.
pub const CONVERTED: &str = "<h2>Converted modes</h2>
<p class=\"note\">The mode that a transaction then holds. A row is the mode that it held, a column the mode that it requested. In brackets and shaded: before something goes wrong no schedule leads a transaction to request the one where it holds the other.</p>
<div class=\"grid\"><table class=\"matrix\">
<thead><tr><th scope=\"col\">held ↓<br>requested →</th>";

/// The beginning of the cell of two compatible modes.
pub const FITS: &str = "<td class=\"fits\">✓";

/// The beginning of the cell of two modes in conflict.
pub const CLASH: &str = "<td class=\"clash\">✗";

/// The same, where no schedule brings them together before something goes wrong.
pub const FITS_APART: &str = "<td class=\"fits apart\">(✓)";

pub const CLASH_APART: &str = "<td class=\"clash apart\">(✗)";

/// A matrix, with a row and a column for each mode, and the numbers of the causes that blame an entry. The only error is that a growth
/// was refused.
pub fn matrix_text<P: Protocol>(
    alloc: Global,
    protocol: &P,
    explanation: &Explanation,
    which: Matrix,
) -> Result<String, Memory>
    ensures { IfOk result (λ text. string_bytes text ≡ matrix_words (P.table protocol.now) (P.names protocol.now) explanation.now which) }
{
    let opening = opening_of(which);
    let heads = heads(alloc, protocol)?;
    let rows = rows(alloc, protocol, explanation, which)?;
    format!(in alloc; "{opening}{heads}</tr></thead>\n<tbody>\n{rows}</tbody></table></div>\n")
}

/// What stands before the modes at the upper edge.
fn opening_of(which: Matrix) -> &'static str
    ensures { result.now ≡ opening_of which }
{
    match which {
        Matrix::Compatible => COMPATIBLE,
        Matrix::Converted => CONVERTED,
    }
}

/// The head of each column: the name of its mode.
fn heads<P: Protocol>(alloc: Global, protocol: &P) -> Result<String, Memory>
    ensures { IfOk result (λ text. string_bytes text ≡ flat_map (head_cell (P.names protocol.now)) (modes (P.table protocol.now))) }
{
    let mut out = String::new(alloc);
    for mode in 1..protocol.count() + 1 {
        let piece = head_cell(alloc, protocol, mode)?;
        out.push_str(piece.as_str())?;
    }
    Ok(out)
}

/// The head of the column of a mode.
fn head_cell<P: Protocol>(alloc: Global, protocol: &P, mode: Mode) -> Result<String, Memory>
    ensures { IfOk result (λ text. string_bytes text ≡ head_cell (P.names protocol.now) mode) }
{
    let name = escape(alloc, name_or_empty(protocol, mode))?;
    format!(in alloc; "<th scope=\"col\">{name}</th>")
}

/// A row for each mode.
fn rows<P: Protocol>(
    alloc: Global,
    protocol: &P,
    explanation: &Explanation,
    which: Matrix,
) -> Result<String, Memory>
    ensures { IfOk result (λ text. string_bytes text ≡ flat_map (row_words (P.table protocol.now) (P.names protocol.now) explanation.now which) (modes (P.table protocol.now))) }
{
    let mut out = String::new(alloc);
    for mode in 1..protocol.count() + 1 {
        let piece = row(alloc, protocol, explanation, which, mode)?;
        out.push_str(piece.as_str())?;
    }
    Ok(out)
}

/// The row of a mode.
fn row<P: Protocol>(
    alloc: Global,
    protocol: &P,
    explanation: &Explanation,
    which: Matrix,
    mode: Mode,
) -> Result<String, Memory>
    requires { mode ≤ (P.table protocol.now).count }
    ensures { IfOk result (λ text. string_bytes text ≡ row_words (P.table protocol.now) (P.names protocol.now) explanation.now which mode) }
{
    let name = escape(alloc, name_or_empty(protocol, mode))?;
    let cells = cells(alloc, protocol, explanation, which, mode)?;
    format!(in alloc; "<tr><th scope=\"row\">{name}</th>{cells}</tr>\n")
}

/// The cells of the row of a mode, one for each mode.
fn cells<P: Protocol>(
    alloc: Global,
    protocol: &P,
    explanation: &Explanation,
    which: Matrix,
    mode: Mode,
) -> Result<String, Memory>
    requires { mode ≤ (P.table protocol.now).count }
    ensures { IfOk result (λ text. string_bytes text ≡ flat_map (cell_words (P.table protocol.now) (P.names protocol.now) explanation.now which mode) (modes (P.table protocol.now))) }
{
    let mut out = String::new(alloc);
    for other in 1..protocol.count() + 1 {
        let piece = cell(alloc, protocol, explanation, which, mode, other)?;
        out.push_str(piece.as_str())?;
    }
    Ok(out)
}

/// The cell of two modes.
fn cell<P: Protocol>(
    alloc: Global,
    protocol: &P,
    explanation: &Explanation,
    which: Matrix,
    row: Mode,
    column: Mode,
) -> Result<String, Memory>
    requires row { row ≤ (P.table protocol.now).count }
    requires column { column ≤ (P.table protocol.now).count }
    ensures { IfOk result (λ text. string_bytes text ≡ cell_words (P.table protocol.now) (P.names protocol.now) explanation.now which row column) }
{
    let causes = causes_of(explanation);
    match which {
        Matrix::Compatible => {
            let mark = mark_of(protocol.ok(row, column), is_apart(explanation, row, column));
            let entry = Entry::Pair {
                requested: row,
                held: column,
            };
            let badges = badges(alloc, causes, entry)?;
            format!(in alloc; "{mark}{badges}</td>")
        }
        Matrix::Converted => {
            let name = escape(
                alloc,
                name_or_empty(protocol, protocol.convert(row, column)),
            )?;
            let entry = Entry::Conversion {
                held: row,
                requested: column,
            };
            let badges = badges(alloc, causes, entry)?;
            let is_apart = is_unasked(explanation, row, column);
            converted_cell(alloc, name.as_str(), badges.as_str(), is_apart)
        }
    }
}

/// The beginning of the cell of two modes that are compatible or in conflict.
fn mark_of(is_compatible: bool, is_apart: bool) -> &'static str
    ensures { result.now ≡ mark_of is_compatible is_apart }
{
    match (is_compatible, is_apart) {
        (true, false) => FITS,
        (false, false) => CLASH,
        (true, true) => FITS_APART,
        (false, true) => CLASH_APART,
    }
}

/// The cell of a mode that two modes convert to.
fn converted_cell(alloc: Global, name: &str, badges: &str, is_apart: bool) -> Result<String, Memory>
    ensures { IfOk result (λ text. string_bytes text ≡ converted_cell is_apart name.now badges.now) }
{
    if is_apart {
        format!(in alloc; "<td class=\"apart\">({name}){badges}</td>")
    } else {
        format!(in alloc; "<td>{name}{badges}</td>")
    }
}
