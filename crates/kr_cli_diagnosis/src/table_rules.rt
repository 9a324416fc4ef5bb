//! What is said of faults of `rules`.

use crate::document::Document;
use crate::help::Help;
use crate::names::{no_member, no_such};
use crate::table_matrices::{element_fault, is_mode, no_mode_at, wrong_kind};
use crate::toml_paths::{at_path, steps_of, with_step};
use std::alloc::{AllocError, Global};
use toml::Value;

const ROWS: [&str; 7] = [
    "fetch-hit",
    "fetch-miss",
    "scan-key",
    "scan-stop",
    "insert",
    "delete",
    "update",
];

const CLAUSE: [&str; 3] = ["own", "mode", "span"];

const SPANS: [&str; 2] = ["instant", "commit"];

/// The rows that a table of the format has.
fn rows(document: &Document) -> &'static [&'static str] {
    match document.value.get("format") {
        Some(Value::Integer(2)) => &ROWS,
        _ => &[
            "fetch-hit",
            "fetch-miss",
            "scan-key",
            "scan-stop",
            "insert",
            "delete",
        ],
    }
}

/// The sides of a row.
fn sides(row: &str) -> &'static [&'static str] {
    match row {
        "fetch-miss" | "scan-stop" => &["next"],
        "insert" | "delete" => &["current", "next"],
        _ => &["current"],
    }
}

fn row_fault(
    alloc: Global,
    document: &Document,
    path: &[&str],
    row: &str,
    value: &Value,
) -> Result<Help, AllocError> {
    if value.as_table().is_none() {
        return wrong_kind(alloc, document, path, "a table of sides", value);
    }
    let place = document.key(alloc, path)?;
    if row == "update" {
        let what = "a row \"update\" needs format 2";
        return Help::of(alloc, place, what)?.hint_of(alloc, "write format = 2");
    }
    no_such(alloc, place, "row", row, rows(document))
}

fn side_fault(
    alloc: Global,
    document: &Document,
    path: &[&str],
    row: &str,
    side: &str,
    value: &Value,
) -> Result<Help, AllocError> {
    if value.as_array().is_none() {
        return wrong_kind(alloc, document, path, "an array of clauses", value);
    }
    let place = document.key(alloc, path)?;
    let what = format!(in alloc; "the row \"{row}\" has no side \"{side}\"")?;
    Help::new(alloc, place, what).name(alloc, side, sides(row))
}

/// What is said of a name that no member of a clause has.
fn unknown_word(
    alloc: Global,
    document: &Document,
    path: &[&str],
    word: &str,
) -> Result<Help, AllocError> {
    let whole = with_step(alloc, path, word)?;
    let place = document.key(alloc, whole.as_slice())?;
    no_member(alloc, place, "a clause", word, &CLAUSE)
}

/// What is said of a member of a clause that no clause has.
fn word_fault(
    alloc: Global,
    document: &Document,
    path: &[&str],
    clause: &Value,
) -> Result<Option<Help>, AllocError> {
    let Some(members) = clause.as_table() else {
        return Ok(None);
    };
    for (word, _) in members.iter() {
        if !CLAUSE.contains(&word.as_str()) {
            return Ok(Some(unknown_word(alloc, document, path, word.as_str())?));
        }
    }
    Ok(None)
}

/// What is said of a clause without a member.
fn missing_word(
    alloc: Global,
    document: &Document,
    path: &[&str],
    word: &str,
) -> Result<Help, AllocError> {
    let place = document.place(alloc, path)?;
    let what = format!(in alloc; "this clause has no \"{word}\"")?;
    let hint =
        "expected { mode = \"..\", span = \"commit\" } or { mode = \"..\", span = \"instant\" }";
    Help::new(alloc, place, what).hint_of(alloc, hint)
}

/// What is said of a clause's mode.
fn mode_fault(
    alloc: Global,
    document: &Document,
    path: &[&str],
    clause: &Value,
) -> Result<Option<Help>, AllocError> {
    let help = match clause.get("mode") {
        None => missing_word(alloc, document, path, "mode"),
        Some(value) if is_mode(document, value, false) => return Ok(None),
        Some(value) => no_mode_at(alloc, document, path, "mode", value, false),
    };
    Ok(Some(help?))
}

/// What is said of a clause's span.
fn span_fault(
    alloc: Global,
    document: &Document,
    path: &[&str],
    clause: &Value,
) -> Result<Option<Help>, AllocError> {
    let help = match clause.get("span") {
        None => missing_word(alloc, document, path, "span"),
        Some(value) if is_span(value) => return Ok(None),
        Some(value) => no_span(alloc, document, path, value),
    };
    Ok(Some(help?))
}

/// Whether a value is the name of a span.
fn is_span(value: &Value) -> bool {
    match value.as_str() {
        Some(name) => SPANS.contains(&name),
        None => false,
    }
}

/// What is said of a value that is to be a span, and is none.
fn no_span(
    alloc: Global,
    document: &Document,
    path: &[&str],
    value: &Value,
) -> Result<Help, AllocError> {
    let whole = with_step(alloc, path, "span")?;
    let Some(word) = value.as_str() else {
        let kind = "\"commit\" or \"instant\"";
        return wrong_kind(alloc, document, whole.as_slice(), kind, value);
    };
    let place = document.place(alloc, whole.as_slice())?;
    no_such(alloc, place, "span", word, &SPANS)
}

/// What is said of a clause's `own`.
fn own_list_fault(
    alloc: Global,
    document: &Document,
    path: &[&str],
    clause: &Value,
) -> Result<Option<Help>, AllocError> {
    let Some(value) = clause.get("own") else {
        return Ok(None);
    };
    let whole = with_step(alloc, path, "own")?;
    own_list_fault_at(alloc, document, whole.as_slice(), value)
}

/// What is said of a value at this path, which is to be an array of names of modes and of "none".
fn own_list_fault_at(
    alloc: Global,
    document: &Document,
    path: &[&str],
    value: &Value,
) -> Result<Option<Help>, AllocError> {
    let Some(list) = value.as_array() else {
        let kind = "an array of names of modes and of \"none\"";
        return Ok(Some(wrong_kind(alloc, document, path, kind, value)?));
    };
    element_fault(alloc, document, path, list.as_slice(), true)
}

/// What is said of a clause.
fn clause_fault(
    alloc: Global,
    document: &Document,
    path: &[&str],
    clause: &Value,
) -> Result<Help, AllocError> {
    if clause.as_table().is_none() {
        let kind = "a clause, as { mode = \"..\", span = \"commit\" }";
        return wrong_kind(alloc, document, path, kind, clause);
    }
    match member_fault(alloc, document, path, clause)? {
        Some(help) => Ok(help),
        None => Help::of(
            alloc,
            document.place(alloc, path)?,
            "this clause is at fault",
        ),
    }
}

/// What is said of the first member of a clause that is at fault.
fn member_fault(
    alloc: Global,
    document: &Document,
    path: &[&str],
    clause: &Value,
) -> Result<Option<Help>, AllocError> {
    if let Some(help) = word_fault(alloc, document, path, clause)? {
        return Ok(Some(help));
    }
    if let Some(help) = mode_fault(alloc, document, path, clause)? {
        return Ok(Some(help));
    }
    match span_fault(alloc, document, path, clause)? {
        Some(help) => Ok(Some(help)),
        None => own_list_fault(alloc, document, path, clause),
    }
}

/// What is said of a fault of `rules`.
pub fn rule_fault(alloc: Global, document: &Document, path: &str) -> Result<Help, AllocError> {
    let steps = steps_of(alloc, &document.value, path)?;
    part_fault(alloc, document, steps.as_slice())
}

/// What is said of a row, a side or a clause, by how long its path is.
fn part_fault(alloc: Global, document: &Document, path: &[&str]) -> Result<Help, AllocError> {
    let Some(value) = at_path(&document.value, path) else {
        let place = document.nearby(alloc, path)?;
        return Help::of(alloc, place, "a part of \"rules\" is at fault");
    };
    match path {
        [_, row] => row_fault(alloc, document, path, row, value),
        [_, row, side] => side_fault(alloc, document, path, row, side, value),
        _ => clause_fault(alloc, document, path, value),
    }
}

/// Where the `own` of a clause stands, or else what of it is there.
fn own_place(alloc: Global, document: &Document, path: &str) -> Result<Option<usize>, AllocError> {
    let mut steps = steps_of(alloc, &document.value, path)?;
    steps.push("own")?;
    document.nearby(alloc, steps.as_slice())
}

/// What is said of an `own` where none is allowed.
pub fn own_fault(alloc: Global, document: &Document, path: &str) -> Result<Help, AllocError> {
    let place = own_place(alloc, document, path)?;
    let what = "only clauses of \"insert\" and \"delete\" have an \"own\"";
    Help::of(alloc, place, what)?.hint_of(alloc, "leave it out")
}
