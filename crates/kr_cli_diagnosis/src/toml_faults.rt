//! What is said of a text that is no TOML.

use crate::encoding::not_text;
use crate::help::Help;
use crate::json_places::is_space;
use std::alloc::{AllocError, Global};

/// Where the line before ends, if only white space stands between its end and the offset; or else the offset.
fn before_feed(text: &[u8], offset: usize) -> usize {
    let mut end = offset.min(text.len());
    let mut is_behind = false;
    while end > 0 && is_space(text[end - 1]) {
        end -= 1;
        is_behind = is_behind || text[end] == b'\n';
    }
    if is_behind { end } else { offset }
}

/// What is said of a text that is no TOML.
pub fn not_toml(alloc: Global, bytes: &[u8]) -> Result<Option<Help>, AllocError> {
    if let Some(help) = not_text(alloc, bytes)? {
        return Ok(Some(help));
    }
    let Err(e) = toml::table_from_slice(alloc, bytes) else {
        return Ok(None);
    };
    let Some(span) = e.span() else {
        return Ok(None);
    };
    let message = e.message();
    let place = if message.starts_with("missing comma") {
        before_feed(bytes, span.start)
    } else {
        span.start
    };
    Ok(Some(Help::of(alloc, Some(place), message)?))
}
