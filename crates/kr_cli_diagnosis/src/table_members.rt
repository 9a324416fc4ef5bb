//! What is said of the members of a table, and of the names of its modes.

use crate::document::Document;
use crate::help::Help;
use crate::kinds::toml_kind;
use crate::names::{no_member, wrong_member};
use std::alloc::{AllocError, Global};
use toml::Value;

/// The members of a table.
const MEMBERS: [&str; 5] = ["format", "modes", "compatible", "convert", "rules"];

/// What is said of a table that is too long.
pub fn too_long(alloc: Global) -> Result<Help, AllocError> {
    Help::of(
        alloc,
        None,
        "a table has at most 65536 bytes, and this has more",
    )
}

pub fn format_fault(alloc: Global, document: &Document) -> Result<Help, AllocError> {
    Help::of(
        alloc,
        document.member(alloc, "format")?,
        "expected 1, 2 for a table that offers updates or, where the program takes it, 3 for one with ghosts",
    )
}

/// What a member of a table is to be.
fn member_kind(name: &str) -> &'static str {
    match name {
        "format" => "the whole number 1 or 2",
        "modes" => "an array of names",
        _ => "a table",
    }
}

pub fn field_fault(alloc: Global, document: &Document, name: &str) -> Result<Help, AllocError> {
    if !MEMBERS.contains(&name) {
        let place = document.key(alloc, &[name])?;
        return no_member(alloc, place, "a table", name, &MEMBERS);
    }
    member_fault(alloc, document, name)
}

/// What is said of a member that is missing, or isn't what it is to be.
fn member_fault(alloc: Global, document: &Document, name: &str) -> Result<Help, AllocError> {
    let place = document.member(alloc, name)?;
    let is = match document.value.get(name) {
        Some(value) => Some(toml_kind(value)),
        None => None,
    };
    wrong_member(alloc, place, name, member_kind(name), is)
}

pub fn count_fault(alloc: Global, document: &Document) -> Result<Help, AllocError> {
    let place = document.member(alloc, "modes")?;
    let count = document.mode_list().len();
    let what = format!(in alloc; "a table has 1 to 15 modes, and this has {count}")?;
    Ok(Help::new(alloc, place, what))
}

/// Whether a name has printable characters of ASCII alone.
fn is_printable(name: &str) -> bool {
    for byte in name.as_bytes() {
        if *byte < 32 || *byte > 126 {
            return false;
        }
    }
    true
}

/// Why an element of `modes` is no name of a mode.
fn mode_reason(value: Option<&Value>) -> &'static str {
    let Some(Value::String(name)) = value else {
        return "the name of a mode is a text";
    };
    let name = name.as_str();
    if name.is_empty() {
        "the name of a mode has 1 to 24 bytes, and this has none"
    } else if name == "none" {
        "no mode is named \"none\", which stands for no lock"
    } else if name.len() > 24 {
        "the name of a mode has 1 to 24 bytes, and this has more"
    } else if !is_printable(name) {
        "the name of a mode has bytes from 32 to 126 alone"
    } else {
        "a mode before has this name"
    }
}

pub fn mode_fault(alloc: Global, document: &Document, index: usize) -> Result<Help, AllocError> {
    let step = format!(in alloc; "{index}")?;
    let place = document.place(alloc, &["modes", step.as_str()])?;
    Help::of(alloc, place, mode_reason(document.mode_list().get(index)))
}
