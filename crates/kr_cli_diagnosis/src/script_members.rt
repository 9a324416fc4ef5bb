//! What is said of the members of a script, and of the pairs of its opening.

use crate::help::Help;
use crate::json_places::element;
use crate::kinds::json_kind;
use crate::names::{no_member, wrong_member};
use crate::script_steps::number_fault;
use crate::source::{MEMBERS, Source, elements};
use std::alloc::{AllocError, Global};

/// What is said of a script that is too long.
pub fn too_long(alloc: Global) -> Result<Help, AllocError> {
    let what = "a script has at most 16777216 bytes, and this has more";
    Help::of(alloc, None, what)
}

pub fn format_fault(alloc: Global, source: &Source) -> Result<Help, AllocError> {
    let what = "expected 1, or 2 for a script with updates and backs";
    Help::of(alloc, source.value_of(alloc, "format")?, what)
}

/// What a member of a script is to be.
fn member_kind(name: &str) -> &'static str {
    match name {
        "format" => "the whole number 1 or 2",
        "opening" => "an array of pairs [key, value]",
        _ => "an array of steps",
    }
}

fn no_object(alloc: Global, source: &Source) -> Result<Help, AllocError> {
    let is = json_kind(&source.value);
    let what = format!(in alloc; "a script is an object, and this is {is}")?;
    let hint = "expected { \"format\": 1, \"opening\": [..], \"steps\": [..] }";
    Help::new(alloc, Some(0), what).hint_of(alloc, hint)
}

pub fn field_fault(alloc: Global, source: &Source, name: &str) -> Result<Help, AllocError> {
    if source.value.as_object().is_none() {
        return no_object(alloc, source);
    }
    if !MEMBERS.contains(&name) {
        let place = source.key_of(alloc, name)?;
        return no_member(alloc, place, "a script", name, &MEMBERS);
    }
    member_fault(alloc, source, name)
}

/// What is said of a member that is missing, or isn't what it is to be.
fn member_fault(alloc: Global, source: &Source, name: &str) -> Result<Help, AllocError> {
    let place = source.value_of(alloc, name)?;
    let is = match source.value.get(name) {
        Some(value) => Some(json_kind(value)),
        None => None,
    };
    wrong_member(alloc, place, name, member_kind(name), is)
}

/// What is said of a pair of the opening whose two are whole numbers.
fn key_fault(alloc: Global, place: Option<usize>) -> Result<Help, AllocError> {
    let what = "this key is not above the key before it";
    Help::of(alloc, place, what)?.hint_of(alloc, "expected keys that rise, each once")
}

pub fn opening_fault(alloc: Global, source: &Source, index: usize) -> Result<Help, AllocError> {
    let place = source.element_of(alloc, "opening", index)?;
    let [key, value] = elements(source.element("opening", index)) else {
        return Help::of(alloc, place, "expected a pair [key, value]");
    };
    let (name, index, part) = if key.as_u64().is_none() {
        ("a key", 0, key)
    } else if value.as_u64().is_none() {
        ("a value", 1, value)
    } else {
        return key_fault(alloc, place);
    };
    let at = element(source.text, place, index);
    number_fault(alloc, source.text, at, name, part)
}

pub fn too_many(alloc: Global, source: &Source, name: &str) -> Result<Help, AllocError> {
    let place = source.value_of(alloc, name)?;
    let count = elements(source.value.get(name)).len();
    let what = format!(in alloc; "\"{name}\" has at most 100000 elements, and this has {count}")?;
    Ok(Help::new(alloc, place, what))
}
