//! What is said of faults of `compatible` and `convert`.

use crate::document::Document;
use crate::help::Help;
use crate::kinds::toml_kind;
use crate::toml_paths::{at_path, steps_of, with_step};
use std::alloc::{AllocError, Global};
use toml::Value;

/// A name that stands where the name of a mode was expected, or "none" where that may stand there too.
fn unknown_mode(
    alloc: Global,
    document: &Document,
    place: Option<usize>,
    name: &str,
    or_none: bool,
) -> Result<Help, AllocError> {
    let modes = document.modes(alloc, or_none)?;
    let what = format!(in alloc; "\"{name}\" is no mode of this table")?;
    Help::new(alloc, place, what).name(alloc, name, modes.as_slice())
}

/// Something at a path that is to be of another kind.
pub fn wrong_kind(
    alloc: Global,
    document: &Document,
    path: &[&str],
    kind: &str,
    value: &Value,
) -> Result<Help, AllocError> {
    let place = document.place(alloc, path)?;
    let is = toml_kind(value);
    let what = format!(in alloc; "expected {kind}, and this is {is}")?;
    Ok(Help::new(alloc, place, what))
}

/// Whether a value is the name of a mode, or "none" where that may stand there too.
pub fn is_mode(document: &Document, value: &Value, or_none: bool) -> bool {
    match value.as_str() {
        Some(name) => document.has_mode(name) || or_none && name == "none",
        None => false,
    }
}

/// What is said of a value at a path that is to be the name of a mode, and is none.
fn no_mode(
    alloc: Global,
    document: &Document,
    path: &[&str],
    value: &Value,
    or_none: bool,
) -> Result<Help, AllocError> {
    match value.as_str() {
        Some(name) => {
            let place = document.place(alloc, path)?;
            unknown_mode(alloc, document, place, name, or_none)
        }
        None => wrong_kind(alloc, document, path, "the name of a mode", value),
    }
}

/// The same of a value at a step behind a path.
pub fn no_mode_at(
    alloc: Global,
    document: &Document,
    path: &[&str],
    step: &str,
    value: &Value,
    or_none: bool,
) -> Result<Help, AllocError> {
    let whole = with_step(alloc, path, step)?;
    no_mode(alloc, document, whole.as_slice(), value, or_none)
}

/// The first element that is no name of a mode, nor "none" where that may stand there too, and what is said of it.
pub fn element_fault(
    alloc: Global,
    document: &Document,
    path: &[&str],
    list: &[Value],
    or_none: bool,
) -> Result<Option<Help>, AllocError> {
    for (i, item) in list.iter().enumerate() {
        if !is_mode(document, item, or_none) {
            let step = format!(in alloc; "{i}")?;
            let help = no_mode_at(alloc, document, path, step.as_str(), item, or_none)?;
            return Ok(Some(help));
        }
    }
    Ok(None)
}

/// What is said of a mode that has no entry in `compatible`.
fn missing_entry(
    alloc: Global,
    document: &Document,
    steps: &[&str],
    name: &str,
) -> Result<Help, AllocError> {
    let place = document.nearby(alloc, steps)?;
    let what = format!(in alloc; "\"compatible\" has no entry for the mode \"{name}\"")?;
    let hint = format!(in alloc; "expected an array, as {name} = []")?;
    Help::new(alloc, place, what).hint(hint)
}

/// What is said of an array of `compatible`: of the mode that has it, or of an element.
fn list_fault(
    alloc: Global,
    document: &Document,
    steps: &[&str],
    name: &str,
    list: &[Value],
) -> Result<Option<Help>, AllocError> {
    if document.has_mode(name) {
        return element_fault(alloc, document, steps, list, false);
    }
    let key = document.key(alloc, steps)?;
    Ok(Some(unknown_mode(alloc, document, key, name, false)?))
}

/// What is said of an entry of `compatible`.
fn entry_fault(
    alloc: Global,
    document: &Document,
    steps: &[&str],
    name: &str,
    entry: &Value,
) -> Result<Help, AllocError> {
    if let Some(list) = entry.as_array() {
        if let Some(help) = list_fault(alloc, document, steps, name, list.as_slice())? {
            return Ok(help);
        }
    }
    wrong_kind(alloc, document, steps, "an array of names of modes", entry)
}

/// What is said of what these steps lead to in `compatible`.
fn compatible_at(alloc: Global, document: &Document, steps: &[&str]) -> Result<Help, AllocError> {
    let [_, name] = steps else {
        return Help::of(alloc, None, "an entry of \"compatible\" is at fault");
    };
    match at_path(&document.value, steps) {
        Some(entry) => entry_fault(alloc, document, steps, name, entry),
        None => missing_entry(alloc, document, steps, name),
    }
}

/// What is said of a fault of `compatible`.
pub fn compatible_fault(
    alloc: Global,
    document: &Document,
    path: &str,
) -> Result<Help, AllocError> {
    let steps = steps_of(alloc, &document.value, path)?;
    compatible_at(alloc, document, steps.as_slice())
}

/// What is said of an entry of `convert`.
fn held_fault(
    alloc: Global,
    document: &Document,
    steps: &[&str],
    held: &str,
    entry: &Value,
) -> Result<Help, AllocError> {
    if entry.as_table().is_none() {
        return wrong_kind(alloc, document, steps, "a table of pairs", entry);
    }
    let key = document.key(alloc, steps)?;
    unknown_mode(alloc, document, key, held, false)
}

/// What is said of a pair of `convert`.
fn pair_fault(
    alloc: Global,
    document: &Document,
    steps: &[&str],
    requested: &str,
    value: &Value,
) -> Result<Help, AllocError> {
    if document.has_mode(requested) {
        return no_mode(alloc, document, steps, value, false);
    }
    let key = document.key(alloc, steps)?;
    unknown_mode(alloc, document, key, requested, false)
}

/// What is said of what these steps lead to in `convert`.
fn convert_at(alloc: Global, document: &Document, steps: &[&str]) -> Result<Help, AllocError> {
    let at = at_path(&document.value, steps);
    match steps {
        [_, held] => match at {
            Some(entry) => held_fault(alloc, document, steps, held, entry),
            None => missing_pair(alloc, document, steps, held),
        },
        [_, held, requested] => match at {
            Some(value) => pair_fault(alloc, document, steps, requested, value),
            None => {
                let pair = format!(in alloc; "{held}.{requested}")?;
                missing_pair(alloc, document, steps, pair.as_str())
            }
        },
        _ => Help::of(alloc, None, "an entry of \"convert\" is at fault"),
    }
}

/// What is said of a fault of `convert`.
pub fn convert_fault(alloc: Global, document: &Document, path: &str) -> Result<Help, AllocError> {
    let steps = steps_of(alloc, &document.value, path)?;
    convert_at(alloc, document, steps.as_slice())
}

fn missing_pair(
    alloc: Global,
    document: &Document,
    steps: &[&str],
    pair: &str,
) -> Result<Help, AllocError> {
    let place = document.nearby(alloc, steps)?;
    let what = format!(in alloc; "\"convert\" has no pair {pair}")?;
    let hint = "expected a pair of each held mode with each requested one, the equal ones too";
    Help::new(alloc, place, what).hint_of(alloc, hint)
}
