//! Scripts of each length, in both formats, with the members in the plain order and in another.
use super::lists::{Element, list_text};
use super::numbers::key_at;
use super::steps::event_at;
use kr_model::Event;
use kr_script::{Script, read_script};
use std::alloc::{AllocError, Global};

/// Whether these are the pairs of an opening.
fn are_pairs(pairs: &[(u64, u64)]) -> bool {
    for (i, (key, value)) in pairs.iter().enumerate() {
        if *key != key_at(i) || *value != key_at(i) {
            return false;
        }
    }
    true
}

/// Whether these are the steps, with or without the later words.
fn are_events(events: &[Event], later: bool) -> bool {
    for (i, event) in events.iter().enumerate() {
        if *event != event_at(later, i) {
            return false;
        }
    }
    true
}

/// Whether a script has so many pairs and steps, with or without the later words, and they are these.
fn is_script(script: &Script, later: bool, pairs: usize, steps: usize) -> bool {
    script.opening().len() == pairs
        && script.steps().len() == steps
        && are_pairs(script.opening())
        && are_events(script.steps(), later)
}

/// The text of a script of a format, with the members in the plain order or in another.
fn script_text(
    alloc: Global,
    format: &str,
    is_plain: bool,
    opening: &str,
    steps: &str,
) -> Result<String, AllocError> {
    if is_plain {
        format!(in alloc; "{{\"format\":{format},\"opening\":[{opening}],\"steps\":[{steps}]}}")
    } else {
        format!(in alloc; "{{\"steps\":[{steps}],\"format\":{format},\"opening\":[{opening}]}}")
    }
}

/// The text of a script of so many pairs and steps, with or without the later words.
fn text_of(
    alloc: Global,
    later: bool,
    is_plain: bool,
    pairs: usize,
    steps: usize,
) -> Result<String, AllocError> {
    let opening = list_text(alloc, Element::Pair, pairs)?;
    let events = list_text(alloc, Element::Step(later), steps)?;
    let format = if later { "2" } else { "1" };
    script_text(alloc, format, is_plain, opening.as_str(), events.as_str())
}

/// Whether such a script is read.
fn is_read(
    alloc: Global,
    later: bool,
    is_plain: bool,
    pairs: usize,
    steps: usize,
) -> Result<bool, AllocError> {
    let text = text_of(alloc, later, is_plain, pairs, steps)?;
    match read_script(alloc, text.as_bytes()) {
        Ok(script) => Ok(is_script(&script, later, pairs, steps)),
        Err(_) => Ok(false),
    }
}

/// Whether a script of so many pairs and steps is read in each format, with the members in either order.
pub fn are_read(alloc: Global, pairs: usize, steps: usize) -> Result<bool, AllocError> {
    Ok(
        is_read(alloc, false, true, pairs, steps)?
            && is_read(alloc, false, false, pairs, steps)?
            && is_read(alloc, true, true, pairs, steps)?
            && is_read(alloc, true, false, pairs, steps)?,
    )
}
