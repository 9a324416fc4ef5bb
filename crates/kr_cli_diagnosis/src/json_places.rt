//! Where the parts of a JSON text stand that reads.

use serde_json::Value;
use std::alloc::{AllocError, Global};

/// A walk over the bytes of a text: how many brackets and braces are open, and whether it is in a text in quotes.
#[derive(Clone, Copy)]
pub struct Walk {
    pub depth: usize,
    pub in_text: bool,
    escaped: bool,
}

impl Walk {
    pub fn new() -> Walk {
        Walk {
            depth: 0,
            in_text: false,
            escaped: false,
        }
    }

    /// Whether what stands here is between the members or elements of the whole.
    fn is_between(self) -> bool {
        self.depth == 1 && !self.in_text
    }

    /// The walk behind a byte.
    pub fn next(self, byte: u8) -> Walk {
        if self.in_text {
            return Walk {
                depth: self.depth,
                in_text: self.escaped || byte != b'"',
                escaped: !self.escaped && byte == b'\\',
            };
        }
        Walk {
            depth: match byte {
                b'[' | b'{' => self.depth.saturating_add(1),
                b']' | b'}' => self.depth.saturating_sub(1),
                _ => self.depth,
            },
            in_text: byte == b'"',
            escaped: false,
        }
    }
}

/// Whether white space may be this byte.
pub fn is_space(byte: u8) -> bool {
    matches!(byte, b' ' | b'\t' | b'\n' | b'\r')
}

/// The members of one name in an object: how many there are, and where the last one's name and value stand.
#[derive(Clone, Copy)]
pub struct Members {
    pub count: usize,
    pub key: usize,
    pub value: usize,
}

/// Whether the bytes write this name in quotes.
fn writes(alloc: Global, bytes: &[u8], name: &str) -> Result<bool, AllocError> {
    match Value::from_slice(alloc, bytes) {
        Ok(value) => Ok(value.as_str() == Some(name)),
        Err(e) if e.is_memory() => Err(AllocError),
        Err(_) => Ok(false),
    }
}

/// A part of a text, where there is such a part.
fn part(text: &[u8], start: usize, end: usize) -> &[u8] {
    if start <= end && end <= text.len() {
        &text[start..end]
    } else {
        &[]
    }
}

/// The offset of the first byte from there on that is no white space.
fn space_end(text: &[u8], from: usize) -> usize {
    let mut end = from;
    while end < text.len() && is_space(text[end]) {
        end += 1;
    }
    end
}

/// The members of this name in the object that a text is.
pub fn members_of(alloc: Global, text: &[u8], name: &str) -> Result<Option<Members>, AllocError> {
    let mut last = None;
    let mut walk = Walk::new();
    let mut count: usize = 0;
    let mut key = 0;
    for (i, byte) in text.iter().enumerate() {
        let next = walk.next(*byte);
        if walk.is_between() && next.in_text {
            key = i;
        }
        if walk.is_between() && *byte == b':' && writes(alloc, part(text, key, i), name)? {
            count = count.saturating_add(1);
            last = Some(Members {
                count,
                key,
                value: space_end(text, i.saturating_add(1)),
            });
        }
        walk = next;
    }
    Ok(last)
}

/// Where the element at an index of an array stands, which begins at an offset, where that is known.
pub fn element(text: &[u8], array: Option<usize>, index: usize) -> Option<usize> {
    let array = array?;
    if array >= text.len() {
        return None;
    }
    let mut walk = Walk::new();
    let mut at = 0;
    let mut awaits = false;
    for (i, byte) in text[array..].iter().enumerate() {
        if awaits && !is_space(*byte) {
            if at == index && *byte != b']' {
                return Some(array.saturating_add(i));
            }
            awaits = false;
        }
        let next = walk.next(*byte);
        if walk.depth == 0 && *byte == b'[' {
            awaits = true;
        }
        if walk.is_between() && *byte == b',' {
            awaits = true;
            at = at.saturating_add(1);
        }
        if next.depth == 0 && !next.in_text {
            return None;
        }
        walk = next;
    }
    None
}

/// The token that begins at an offset, up to a comma, an end or white space.
pub fn token(text: &[u8], offset: usize) -> &[u8] {
    let mut end = offset;
    while end < text.len() && !is_space(text[end]) && !matches!(text[end], b',' | b']' | b'}') {
        end += 1;
    }
    part(text, offset, end)
}
