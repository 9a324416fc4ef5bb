//! Rows of cells, in columns as wide as their widest cell.
ghost use Rattle.std.specs.Prelude.{◌≡◌, ◌++◌, [], IfOk, OnOk, flat_map, length, max, slice_index_or, string_bytes};
ghost use Rattle.kr_explain_text.specs.Steps.{cell_words, fill, row_text, rows_of, table_text, texts, width_at, widths_of};

use crate::wrap::write_spaces;
use kr_cases::Memory;
use std::alloc::Global;

/// The greater of two widths.
fn wider(first: usize, second: usize) -> usize
    ensures { result ≡ max first second }
{
    if first < second { second } else { first }
}

/// The length of the cell in a column, or 0 where there is none.
#[tactic(auto, using(crate::proofs::Rowed::length_in, crate::proofs::Rowed::length_past))]
fn length_at(cells: &[String], column: usize) -> usize
    ensures { result ≡ length (slice_index_or (texts cells.now) column []) }
{
    if column < cells.len() {
        cells[column].as_str().len()
    } else {
        0
    }
}

/// The width of a column: the greatest length of its cells.
fn width_at(rows: &[Vec<String>], column: usize) -> usize
    ensures { result ≡ width_at (rows_of rows.now) column }
{
    let mut widest = 0;
    for at in 0..rows.len() {
        let length = length_at(rows[at].as_slice(), column);
        widest = wider(widest, length);
    }
    widest
}

/// The widths of so many columns.
fn widths_of(alloc: Global, rows: &[Vec<String>], columns: usize) -> Result<Vec<usize>, Memory>
    ensures { IfOk result (λ widths. widths.items ≡ widths_of columns (rows_of rows.now)) }
{
    let mut widths = Vec::new(alloc);
    for column in 0..columns {
        widths.push(width_at(rows, column))?;
    }
    Ok(widths)
}

/// Writes so many blanks as fill a cell up to a width.
fn write_fill(out: &mut String, width: usize, cell: &str) -> Result<(), Memory>
    ensures { OnOk result (string_bytes out.new ≡ string_bytes out.old ++ fill width cell.now) }
{
    write_spaces(out, width.saturating_sub(cell.len()))
}

/// Writes a cell with its blanks: the first is on the right of its column; each other is on the left, behind two blanks, and
/// the last is not filled.
fn write_cell(
    out: &mut String,
    cell: &str,
    width: usize,
    is_first: bool,
    is_last: bool,
) -> Result<(), Memory>
    ensures { OnOk result (string_bytes out.new ≡ string_bytes out.old ++ cell_words is_first is_last width cell.now) }
{
    if is_first {
        write_fill(out, width, cell)?;
        return out.push_str(cell);
    }
    out.push_str("  ")?;
    out.push_str(cell)?;
    if is_last {
        return Ok(());
    }
    write_fill(out, width, cell)
}

/// The width of a column, or 0 where there is none.
fn width_in(widths: &[usize], column: usize) -> usize
    ensures { result ≡ slice_index_or widths.now column 0 }
{
    if column < widths.len() {
        widths[column]
    } else {
        0
    }
}

/// Writes a row of cells in columns of these widths, behind a line feed and five blanks.
fn write_row(out: &mut String, cells: &[String], widths: &[usize]) -> Result<(), Memory>
    ensures { OnOk result (string_bytes out.new ≡ string_bytes out.old ++ row_text widths.now (texts cells.now)) }
{
    out.push_str("\n     ")?;
    for at in 0..cells.len() {
        let width = width_in(widths, at);
        let is_last = at + 1 == cells.len();
        write_cell(out, cells[at].as_str(), width, at == 0, is_last)?;
    }
    Ok(())
}

/// Writes rows in columns of these widths.
fn write_in(out: &mut String, rows: &[Vec<String>], widths: &[usize]) -> Result<(), Memory>
    ensures { OnOk result (string_bytes out.new ≡ string_bytes out.old ++ flat_map (row_text widths.now) (rows_of rows.now)) }
{
    for at in 0..rows.len() {
        write_row(out, rows[at].as_slice(), widths)?;
    }
    Ok(())
}

/// Writes rows of so many cells at most as a table.
pub fn write_rows(
    alloc: Global,
    out: &mut String,
    rows: &[Vec<String>],
    columns: usize,
) -> Result<(), Memory>
    ensures { OnOk result (string_bytes out.new ≡ string_bytes out.old ++ table_text columns (rows_of rows.now)) }
{
    let widths = widths_of(alloc, rows, columns)?;
    write_in(out, rows, widths.as_slice())
}
