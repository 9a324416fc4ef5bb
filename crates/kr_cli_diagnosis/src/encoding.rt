//! Bytes that are no text, and the mark that may begin one.

use crate::help::Help;
use std::alloc::{AllocError, Global};

/// What is said of bytes that are no UTF-8.
pub fn not_text(alloc: Global, bytes: &[u8]) -> Result<Option<Help>, AllocError> {
    match std::str::from_utf8(bytes) {
        Ok(_) => Ok(None),
        Err(e) => Ok(Some(Help::of(
            alloc,
            Some(e.valid_up_to()),
            "this byte is no part of a text in UTF-8",
        )?)),
    }
}

/// Whether a text begins with a byte order mark.
pub fn begins_with_mark(text: &[u8]) -> bool {
    matches!(text, [0xEF, 0xBB, 0xBF, ..])
}
