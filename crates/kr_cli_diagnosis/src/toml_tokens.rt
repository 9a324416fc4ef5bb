//! The tokens of a TOML document that reads.
ghost use Rattle.std.specs.Prelude.{◌+◌, ◌<◌, ◌≤◌, IfSome, IsTrue, length};

use crate::encoding::begins_with_mark;
use crate::place::line_end;
use std::alloc::{AllocError, Global};

/// What a token is.
#[derive(Clone, Copy)]
pub enum TokenKind {
    /// A bare key, or a part of a value.
    Bare,
    /// A text in quotes.
    Text,
    /// One of `[ ] { } , = .` or a line feed.
    Sign(u8),
}

/// A token, and where it stands.
#[derive(Clone, Copy)]
pub struct Token {
    pub kind: TokenKind,
    pub start: usize,
    pub end: usize,
}

fn is_sign(byte: u8) -> bool {
    matches!(byte, b'[' | b']' | b'{' | b'}' | b',' | b'=' | b'.' | b'\n')
}

fn is_bare(byte: u8) -> bool {
    !is_sign(byte) && !matches!(byte, b' ' | b'\t' | b'\r' | b'#' | b'"' | b'\'')
}

/// Where the run of a bare key ends.
fn bare_end(text: &[u8], from: usize) -> usize
    ensures { from ≤ result }
{
    let mut end = from;
    while end < text.len() && is_bare(text[end]) {
        end += 1;
    }
    end
}

/// Whether three quotes stand there.
fn is_triple(text: &[u8], at: usize, quote: u8) -> bool
    ensures { IsTrue result → at + 3 ≤ length text.now }
{
    at < text.len()
        && text.len() - at >= 3
        && text[at] == quote
        && text[at + 1] == quote
        && text[at + 2] == quote
}

/// Where a text of one line ends, behind its quote.
fn text_end(text: &[u8], from: usize, quote: u8) -> usize
    ensures { from ≤ result }
{
    let mut end = from;
    while end < text.len() && text[end] != quote {
        end = if quote == b'"' && text[end] == b'\\' && text.len() - end > 1 {
            end + 2
        } else {
            end + 1
        };
    }
    if end < text.len() { end + 1 } else { end }
}

/// Where the quotes end that end a text of several lines.
fn quotes_end(text: &[u8], from: usize, quote: u8) -> usize
    ensures { from ≤ result }
{
    let mut end = from;
    while end < text.len() && text[end] == quote {
        end += 1;
    }
    end
}

/// Where a text of several lines ends, behind its quotes.
fn long_text_end(text: &[u8], from: usize, quote: u8) -> usize
    ensures { from ≤ result }
{
    let mut end = from;
    while end < text.len() && !is_triple(text, end, quote) {
        end = if quote == b'"' && text[end] == b'\\' && text.len() - end > 1 {
            end + 2
        } else {
            end + 1
        };
    }
    quotes_end(text, end, quote)
}

/// The token that begins at the offset, if one does.
fn token_at(text: &[u8], start: usize) -> Option<Token>
    ensures { IfSome result (λ token. start < token.end) }
{
    if start >= text.len() {
        return None;
    }
    let byte = text[start];
    let (kind, end) = match byte {
        b' ' | b'\t' | b'\r' | b'#' => return None,
        b'"' | b'\'' if is_triple(text, start, byte) => {
            (TokenKind::Text, long_text_end(text, start + 3, byte))
        }
        b'"' | b'\'' => (TokenKind::Text, text_end(text, start + 1, byte)),
        _ if is_sign(byte) => (TokenKind::Sign(byte), start + 1),
        _ => (TokenKind::Bare, bare_end(text, start + 1)),
    };
    Some(Token { kind, start, end })
}

/// Where the reading goes on behind what is no token.
fn gap_end(text: &[u8], start: usize) -> usize
    requires { start < length text.now }
    ensures { start < result }
{
    if text[start] == b'#' {
        line_end(text, start + 1)
    } else {
        start + 1
    }
}

/// How many bytes a byte order mark takes, which may begin a document.
fn mark_length(text: &[u8]) -> usize {
    if begins_with_mark(text) { 3 } else { 0 }
}

/// The tokens of a document, in order.
pub fn tokens_of(alloc: Global, text: &[u8]) -> Result<Vec<Token>, AllocError> {
    let mut tokens = Vec::new(alloc);
    let mut at = mark_length(text);
    while at < text.len() {
        match token_at(text, at) {
            Some(token) => {
                tokens.push(token)?;
                at = token.end;
            }
            None => at = gap_end(text, at),
        }
    }
    Ok(tokens)
}
