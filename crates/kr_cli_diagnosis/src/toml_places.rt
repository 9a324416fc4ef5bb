//! Where the parts of a TOML document stand that reads.

use crate::toml_tokens::{Token, TokenKind, tokens_of};
use std::alloc::{AllocError, Global};
use toml::Value;

/// Where what a path leads to stands, as far as the path leads.
#[derive(Clone, Copy)]
pub struct Found {
    /// How many steps of the path lead somewhere.
    pub depth: usize,
    /// The key or the element at the last of them.
    pub key: usize,
    /// The value at the whole path.
    pub value: Option<usize>,
}

/// An array or a table in braces that is open, and how many steps of the path lead to it, if it lies on the path.
#[derive(Clone, Copy)]
struct Frame {
    is_array: bool,
    matched: Option<usize>,
    index: usize,
}

/// A header that is being read: of a table, or of an element of an array of tables.
#[derive(Clone, Copy, PartialEq, Eq)]
enum Header {
    No,
    Table,
    Element,
}

/// The walk over the tokens, in search of a path.
#[derive(Drop)]
struct Walk<'a> {
    text: &'a [u8],
    path: &'a [&'a str],
    found: Found,
    frames: Vec<Frame>,
    header: Header,
    /// How many elements the arrays of tables on the path have had.
    elements: usize,
    /// How much of the path the header leads.
    base: Option<usize>,
    /// How much of the path the key leads that is being read.
    key: Option<usize>,
    in_key: bool,
    /// Whether a value is to begin.
    awaits: bool,
}

/// Whether a step of a path is this index.
fn is_index(alloc: Global, step: &str, index: usize) -> Result<bool, AllocError> {
    let number = format!(in alloc; "{index}")?;
    Ok(number.as_str() == step)
}

/// Whether the token of a key has this name.
fn names(alloc: Global, text: &[u8], token: Token, name: &str) -> Result<bool, AllocError> {
    if token.start > token.end || token.end > text.len() {
        return Ok(false);
    }
    let bytes = &text[token.start..token.end];
    if matches!(token.kind, TokenKind::Bare) {
        return Ok(bytes == name.as_bytes());
    }
    let Ok(quoted) = std::str::from_utf8(bytes) else {
        return Ok(false);
    };
    match Value::from_str(alloc, quoted) {
        Ok(value) => Ok(value.as_str() == Some(name)),
        Err(e) if e.is_memory() => Err(AllocError),
        Err(_) => Ok(false),
    }
}

impl<'a> Walk<'a> {
    fn new(alloc: Global, text: &'a [u8], path: &'a [&'a str]) -> Walk<'a> {
        Walk {
            text,
            path,
            found: Found {
                depth: 0,
                key: 0,
                value: None,
            },
            frames: Vec::new(alloc),
            header: Header::No,
            elements: 0,
            base: Some(0),
            key: Some(0),
            in_key: true,
            awaits: false,
        }
    }

    /// Notes that so many steps of the path lead to this offset.
    fn note(&mut self, depth: usize, offset: usize) {
        if depth > self.found.depth {
            self.found.depth = depth;
            self.found.key = offset;
        }
    }

    /// The step of the path behind so many.
    fn step(&self, matched: Option<usize>) -> Option<&'a str> {
        match matched {
            Some(m) if m < self.path.len() => Some(self.path[m]),
            _ => None,
        }
    }

    /// A part of a key.
    fn key_part(&mut self, alloc: Global, token: Token) -> Result<(), AllocError> {
        let step = self.step(self.key);
        self.key = match (self.key, step) {
            (Some(m), Some(name)) if names(alloc, self.text, token, name)? => {
                self.note(m.saturating_add(1), token.start);
                Some(m.saturating_add(1))
            }
            _ => None,
        };
        Ok(())
    }

    /// The innermost that is open.
    fn top(&self) -> Option<Frame> {
        match self.frames.last() {
            Some(frame) => Some(*frame),
            None => None,
        }
    }

    /// A value begins. How many steps of the path lead to it, if it lies on the path.
    fn value(&mut self, alloc: Global, offset: usize) -> Result<Option<usize>, AllocError> {
        self.awaits = false;
        let matched = match self.top() {
            Some(frame) if frame.is_array => match (frame.matched, self.step(frame.matched)) {
                (Some(m), Some(step)) if is_index(alloc, step, frame.index)? => {
                    self.note(m.saturating_add(1), offset);
                    Some(m.saturating_add(1))
                }
                _ => None,
            },
            _ => self.key,
        };
        if matched == Some(self.path.len()) {
            self.found.value = Some(offset);
        }
        Ok(matched)
    }

    /// An array or a table in braces begins.
    fn open(&mut self, alloc: Global, offset: usize, is_array: bool) -> Result<(), AllocError> {
        let matched = self.value(alloc, offset)?;
        self.frames.push(Frame {
            is_array,
            matched,
            index: 0,
        })?;
        self.awaits = is_array;
        self.in_key = !is_array;
        self.key = matched;
        Ok(())
    }

    /// An opening bracket: of a header, or of an array.
    fn bracket(&mut self, alloc: Global, offset: usize) -> Result<(), AllocError> {
        if !self.in_key {
            return self.open(alloc, offset, true);
        }
        self.header = if self.header == Header::No {
            Header::Table
        } else {
            Header::Element
        };
        self.key = Some(0);
        Ok(())
    }

    /// The header of an element: the step of the path behind its key is the element's index.
    fn element(&mut self, alloc: Global, offset: usize) -> Result<(), AllocError> {
        if let (Some(m), Some(step)) = (self.key, self.step(self.key)) {
            self.key = if is_index(alloc, step, self.elements)? {
                self.note(m.saturating_add(1), offset);
                Some(m.saturating_add(1))
            } else {
                None
            };
            self.elements = self.elements.saturating_add(1);
        }
        Ok(())
    }

    /// A closing bracket or brace.
    fn close(&mut self, alloc: Global, offset: usize) -> Result<(), AllocError> {
        if self.header == Header::No {
            let _ = self.frames.pop();
            self.in_key = false;
            self.awaits = false;
            return Ok(());
        }
        if self.header == Header::Element {
            self.element(alloc, offset)?;
        }
        self.header = Header::No;
        self.base = self.key;
        Ok(())
    }

    /// A comma: the next element, or the next key.
    fn comma(&mut self) {
        let Some(frame) = self.frames.last_mut() else {
            return;
        };
        frame.index = frame.index.saturating_add(1);
        let is_array = frame.is_array;
        let matched = frame.matched;
        self.awaits = is_array;
        self.in_key = !is_array;
        self.key = matched;
    }

    /// A line ends: outside brackets and braces a key or a header follows.
    fn feed(&mut self) {
        if self.frames.is_empty() {
            self.in_key = true;
            self.key = self.base;
        }
    }

    fn take(&mut self, alloc: Global, token: Token) -> Result<(), AllocError> {
        match token.kind {
            TokenKind::Sign(b'[') => self.bracket(alloc, token.start),
            TokenKind::Sign(b'{') => self.open(alloc, token.start, false),
            TokenKind::Sign(b']' | b'}') => self.close(alloc, token.start),
            TokenKind::Sign(b',') => {
                self.comma();
                Ok(())
            }
            TokenKind::Sign(b'=') => {
                self.in_key = false;
                self.awaits = true;
                Ok(())
            }
            TokenKind::Sign(b'\n') => {
                self.feed();
                Ok(())
            }
            TokenKind::Sign(_) => Ok(()),
            _ if self.in_key => self.key_part(alloc, token),
            _ if self.awaits => {
                let _ = self.value(alloc, token.start)?;
                Ok(())
            }
            _ => Ok(()),
        }
    }
}

/// Where a path leads in a document.
pub fn find(alloc: Global, text: &[u8], path: &[&str]) -> Result<Found, AllocError> {
    let tokens = tokens_of(alloc, text)?;
    let mut walk = Walk::new(alloc, text, path);
    for token in &tokens {
        walk.take(alloc, *token)?;
    }
    Ok(walk.found)
}
