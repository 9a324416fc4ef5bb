//! The texts of lists, as they stand in scripts and in reports.
use super::cases::case_text;
use super::numbers::key_at;
use super::steps::{event_at, step_text};
use super::threaded::{done_text, missed_text};
use std::alloc::{AllocError, Global};

/// What a list is of.
#[derive(Clone, Copy)]
pub enum Element {
    /// Pairs of an opening: a boundary key, which is its own value.
    Pair,
    /// Steps, with or without the later words.
    Step(bool),
    /// Rows: an index and a boundary value.
    Row,
    /// Steps that were done, each with its reply.
    Done,
    /// Steps that weren't.
    Missed,
    /// Failed cases.
    Case,
}

/// The text of a pair.
fn pair_text(alloc: Global, first: u64, second: u64) -> Result<String, AllocError> {
    format!(in alloc; "[{first},{second}]")
}

/// The text of the element at an index.
fn element_text(alloc: Global, element: Element, i: usize) -> Result<String, AllocError> {
    match element {
        Element::Pair => pair_text(alloc, key_at(i), key_at(i)),
        Element::Step(later) => step_text(alloc, event_at(later, i)),
        Element::Row => pair_text(alloc, i as u64, key_at(i)),
        Element::Done => done_text(alloc, i),
        Element::Missed => missed_text(alloc, i),
        Element::Case => case_text(alloc, i),
    }
}

/// The text of a list of so many elements, without its brackets.
pub fn list_text(alloc: Global, element: Element, count: usize) -> Result<String, AllocError> {
    let mut texts = Vec::new(alloc);
    for i in 0..count {
        texts.push(element_text(alloc, element, i)?)?;
    }
    texts.as_slice().join(alloc, ",")
}
