//! The first fault of a text that is no table.
mod broken;
mod document;
mod matrices;
mod modes;
mod rules;
mod updates;

use super::lines::Table;
use kr_table::{TableFault, read};
use std::alloc::{AllocError, Global};
use std::process::Abort;

/// A table, and what is told of it: the first of its faults, or `none`.
#[derive(Clone, Copy)]
struct Row<'a> {
    table: Table<'a>,
    told: &'a str,
}

/// A fault as it is shown, which begins with its number and its name.
fn shown(rt: &impl Abort, alloc: Global, fault: &TableFault) -> Result<String, AllocError> {
    let shown = format!(in alloc; "{fault}")?;
    let beginning = format!(in alloc; "fault {} {}", fault.number(), fault.name())?;
    holds!(rt; shown.starts_with(beginning.as_str()), shown);
    Ok(shown)
}

/// What is told of these bytes.
fn told(rt: &impl Abort, alloc: Global, bytes: &[u8]) -> Result<String, AllocError> {
    match read(alloc, bytes) {
        Ok(_) => String::from_str(alloc, "none"),
        Err(fault) => shown(rt, alloc, &fault),
    }
}

/// Compares what is told of a text.
pub fn tells(rt: &impl Abort, alloc: Global, text: &str, expected: &str) -> Result<(), AllocError> {
    let told = told(rt, alloc, text.as_bytes())?;
    same!(rt; told.as_str(), expected, text);
    Ok(())
}

/// Compares what is told of the table of each row.
fn each_tells(rt: &impl Abort, alloc: Global, rows: &[Row]) -> Result<(), AllocError> {
    for row in rows {
        let text = row.table.text(alloc)?;
        tells(rt, alloc, text.as_str(), row.told)?;
    }
    Ok(())
}
