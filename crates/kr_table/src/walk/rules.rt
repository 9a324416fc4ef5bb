//! Rows, their sides and the clauses of each side.
ghost use Rattle.std.specs.Prelude.{◌≡◌, codes, map, string_bytes};
ghost use Rattle.toml.specs.View.{view, items_view, members_view};
ghost use Rattle.toml.specs.Data.{get, as_array};
ghost use Rattle.kr_table.specs.Faults.{Passes};
ghost use Rattle.kr_table.specs.Members.{text_in};
ghost use Rattle.kr_table.specs.DocumentFaults as spec;

use crate::faults::TableFault;
use crate::rows::Rows;
use crate::walk::modes::is_mode;
use crate::walk::paths::{own_clause, rule_clause, rule_row, rule_side};
use std::alloc::Global;
use toml::{Table, Value};

/// Whether the row goes by the own mode on the next name.
fn sees_own(rows: Rows, row: &str) -> bool
    ensures { result ≡ spec.sees_own rows row.now }
{
    row == "insert" || (!rows.has_ghosts() && row == "delete")
}

fn has_current(rows: Rows, row: &str) -> bool
    ensures { result ≡ spec.has_current rows row.now }
{
    row == "fetch-hit"
        || row == "scan-key"
        || row == "insert"
        || row == "delete"
        || (rows.has_updates() && row == "update")
        || (rows.has_ghosts() && (row == "revive" || row == "insert-hit"))
}

fn has_next(rows: Rows, row: &str) -> bool
    ensures { result ≡ spec.has_next rows row.now }
{
    row == "fetch-miss"
        || row == "scan-stop"
        || sees_own(rows, row)
        || (rows.has_ghosts() && is_next_with_ghosts(row))
}

/// Whether the row asks at the next name only where there are ghosts.
fn is_next_with_ghosts(row: &str) -> bool
    ensures { result ≡ spec.is_next_with_ghosts row.now }
{
    row == "revive" || row == "insert-hit" || row == "delete-miss" || row == "update-miss"
}

fn is_row(rows: Rows, row: &str) -> bool
    ensures { result ≡ spec.is_row rows row.now }
{
    has_current(rows, row) || has_next(rows, row)
}

fn is_side(rows: Rows, row: &str, side: &str) -> bool
    ensures { result ≡ spec.is_side rows row.now side.now }
{
    (side == "current" && has_current(rows, row)) || (side == "next" && has_next(rows, row))
}

fn is_clause_word(word: &str) -> bool
    ensures { result ≡ spec.is_clause_word word.now }
{
    word == "own" || word == "mode" || word == "span"
}

fn are_clause_words(members: &Table) -> bool
    ensures { result ≡ spec.are_clause_words (members_view members.now.entries) }
{
    for (word, _) in members.iter() {
        if !is_clause_word(word.as_str()) {
            return false;
        }
    }
    true
}

fn has_mode(modes: &[String], clause: &Value) -> bool
    ensures { result ≡ spec.is_mode_text (map string_bytes modes.now) (text_in (codes "mode") (view clause.now)) }
{
    match clause.get("mode").and_then(Value::as_str) {
        Some(name) => is_mode(modes, name),
        None => false,
    }
}

fn has_span(clause: &Value) -> bool
    ensures { result ≡ spec.is_span (text_in (codes "span") (view clause.now)) }
{
    match clause.get("span").and_then(Value::as_str) {
        Some(word) => word == "instant" || word == "commit",
        None => false,
    }
}

/// Whether it is a clause, but for its `own`.
fn is_clause(modes: &[String], clause: &Value) -> bool
    ensures { result ≡ spec.is_clause (map string_bytes modes.now) (view clause.now) }
{
    match clause.as_table() {
        Some(members) => are_clause_words(members) && has_mode(modes, clause) && has_span(clause),
        None => false,
    }
}

fn are_own(modes: &[String], list: &[Value]) -> bool
    ensures { result ≡ spec.all_own (map string_bytes modes.now) (items_view list.now) }
{
    for item in list {
        let Some(name) = item.as_str() else {
            return false;
        };
        if !(name == "none" || is_mode(modes, name)) {
            return false;
        }
    }
    true
}

/// Whether it is an array of names of modes and of `none`.
fn is_own(modes: &[String], value: &Value) -> bool
    ensures { result ≡ spec.is_own (map string_bytes modes.now) (as_array (view value.now)) }
{
    match value.as_array() {
        Some(list) => are_own(modes, list.as_slice()),
        None => false,
    }
}

/// Tests the `own` of the clause at an index.
fn test_own(
    alloc: Global,
    rows: Rows,
    modes: &[String],
    row: &str,
    side: &str,
    i: usize,
    clause: &Value,
) -> Result<(), TableFault>
    ensures { Passes result (spec.own_faults rows (map string_bytes modes.now) row.now side.now i (get (codes "own") (view clause.now))) }
{
    match clause.get("own") {
        None => Ok(()),
        Some(own) => {
            if !sees_own(rows, row) {
                return Err(own_clause(alloc, row, side, i));
            }
            if !is_own(modes, own) {
                return Err(rule_clause(alloc, row, side, i));
            }
            Ok(())
        }
    }
}

/// Tests the clause at an index.
fn test_clause(
    alloc: Global,
    rows: Rows,
    modes: &[String],
    row: &str,
    side: &str,
    i: usize,
    clause: &Value,
) -> Result<(), TableFault>
    ensures { Passes result (spec.clause_faults rows (map string_bytes modes.now) row.now side.now i (view clause.now)) }
{
    if !is_clause(modes, clause) {
        return Err(rule_clause(alloc, row, side, i));
    }
    test_own(alloc, rows, modes, row, side, i, clause)
}

/// Tests each clause of a side.
fn test_clauses(
    alloc: Global,
    rows: Rows,
    modes: &[String],
    row: &str,
    side: &str,
    list: &[Value],
) -> Result<(), TableFault>
    ensures { Passes result (spec.clauses_faults rows (map string_bytes modes.now) row.now side.now 0 (items_view list.now)) }
{
    for (i, clause) in list.iter().enumerate() {
        if let Err(e) = test_clause(alloc, rows, modes, row, side, i, clause) {
            return Err(e);
        }
    }
    Ok(())
}

/// Tests each side of a row, with its clauses.
fn test_sides(
    alloc: Global,
    rows: Rows,
    modes: &[String],
    row: &str,
    sides: &Table,
) -> Result<(), TableFault>
    ensures { Passes result (spec.side_faults rows (map string_bytes modes.now) row.now (members_view sides.now.entries)) }
{
    for (side, value) in sides.iter() {
        let Some(list) = value.as_array() else {
            return Err(rule_side(alloc, row, side.as_str()));
        };
        if !is_side(rows, row, side.as_str()) {
            return Err(rule_side(alloc, row, side.as_str()));
        }
        test_clauses(alloc, rows, modes, row, side.as_str(), list.as_slice())?;
    }
    Ok(())
}

/// Tests each row of `rules`, with its sides.
pub fn test_rows(
    alloc: Global,
    rows: Rows,
    modes: &[String],
    rules: &Table,
) -> Result<(), TableFault>
    ensures { Passes result (spec.row_faults rows (map string_bytes modes.now) (members_view rules.now.entries)) }
{
    for (row, value) in rules.iter() {
        let Some(sides) = value.as_table() else {
            return Err(rule_row(alloc, row.as_str()));
        };
        if !is_row(rows, row.as_str()) {
            return Err(rule_row(alloc, row.as_str()));
        }
        test_sides(alloc, rows, modes, row.as_str(), sides)?;
    }
    Ok(())
}
