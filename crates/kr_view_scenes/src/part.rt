//! The parts of a page.

use crate::mark::Mark;

/// A part of a page: a mark, a number, or a text, which may be of a table or a script.
#[derive(Clone, Copy)]
pub enum Part<'a> {
    Mark(Mark),
    Number(u64),
    Text(&'a str),
}
