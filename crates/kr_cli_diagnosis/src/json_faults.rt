//! What is said of a text that is no JSON.
ghost use Rattle.std.specs.Prelude.{◌≤◌, length};

use crate::encoding::{begins_with_mark, not_text};
use crate::help::Help;
use crate::json_places::{Walk, is_space};
use crate::place::{Place, place_at};
use serde_json::{Error, Value};
use std::alloc::{AllocError, Global};

/// So deep may arrays and objects nest.
const DEEPEST: usize = 127;

/// The offset behind the last byte before an offset that is no white space.
fn behind(text: &[u8], offset: usize) -> usize
    ensures { result ≤ length text.now }
{
    let mut end = offset.min(text.len());
    while end > 0 && is_space(text[end - 1]) {
        end -= 1;
    }
    end
}

/// The offset of a line and a column in bytes, both from 1.
fn offset_of(text: &[u8], line: usize, column: usize) -> usize {
    let mut lines = 1_usize;
    let mut start = 0_usize;
    for (i, byte) in text.iter().enumerate() {
        if lines < line && *byte == b'\n' {
            lines = lines.saturating_add(1);
            start = i.saturating_add(1);
        }
    }
    start
        .saturating_add(column.saturating_sub(1))
        .min(text.len())
}

/// What is open at a place: brackets and braces, each with its offset, and maybe a text in quotes.
#[derive(Drop)]
struct Open {
    brackets: Vec<(u8, usize)>,
    in_text: bool,
}

/// What is open before an offset.
fn open_at(alloc: Global, text: &[u8], offset: usize) -> Result<Open, AllocError> {
    let mut brackets = Vec::new(alloc);
    let mut walk = Walk::new();
    for (i, byte) in text.iter().enumerate() {
        if i >= offset {
            break;
        }
        let next = walk.next(*byte);
        if next.depth > walk.depth {
            brackets.push((*byte, i))?;
        } else if next.depth < walk.depth {
            let _ = brackets.pop();
        }
        walk = next;
    }
    Ok(Open {
        brackets,
        in_text: walk.in_text,
    })
}

/// What ends what a bracket begins.
fn end_of(bracket: u8) -> &'static str {
    if bracket == b'[' { "]" } else { "}" }
}

/// What is wrong with a byte in a text in quotes.
fn in_text_reason(byte: u8) -> &'static str {
    if byte < 32 {
        "a text in quotes has no control characters: expected an escape, as \\n"
    } else {
        "this is no escape of JSON"
    }
}

/// What is wrong with a byte outside quotes, where it is one of those that stand for a habit.
fn habit(byte: u8) -> Option<&'static str> {
    Some(match byte {
        b'/' | b'#' => "JSON has no comments",
        b'\'' => "a text stands in double quotes",
        b'N' | b'I' => "NaN and Infinity are no numbers of JSON",
        b'+' => "a number has no plus sign",
        _ => return None,
    })
}

/// What is wrong with a byte outside quotes.
fn reason(
    alloc: Global,
    text: &[u8],
    open: &Open,
    offset: usize,
    byte: u8,
) -> Result<Help, AllocError> {
    let is_opening = byte == b'[' || byte == b'{';
    if is_opening && open.brackets.len() >= DEEPEST {
        let what = "arrays and objects nest at most 127 deep";
        return Help::of(alloc, Some(offset), what);
    }
    if let Some(what) = habit(byte) {
        return Help::of(alloc, Some(offset), what);
    }
    let before = behind(text, offset);
    let is_end = byte == b']' || byte == b'}';
    if is_end && before > 0 && text[before - 1] == b',' {
        let what = "a comma before an end";
        return Help::of(alloc, Some(before - 1), what);
    }
    expected(alloc, text, open, offset)
}

/// What was expected at an offset outside quotes.
fn expected(alloc: Global, text: &[u8], open: &Open, offset: usize) -> Result<Help, AllocError> {
    let Some((bracket, opened)) = open.brackets.last() else {
        let what = if offset == 0 {
            "expected an object"
        } else {
            "expected the end of the file: a script is one object"
        };
        return Help::of(alloc, Some(offset), what);
    };
    let end = end_of(*bracket);
    let what = format!(in alloc; "expected a value, a comma or {end} here")?;
    let help = Help::new(alloc, Some(offset), what);
    hint_open(alloc, text, help, *bracket, *opened)
}

/// With a hint where what is open begins.
fn hint_open(
    alloc: Global,
    text: &[u8],
    help: Help,
    bracket: u8,
    opened: usize,
) -> Result<Help, AllocError> {
    let Place { line, column } = place_at(text, opened.min(text.len()));
    let sign = bracket as char;
    let hint = format!(in alloc; "the {sign} at line {line}, column {column} is open")?;
    help.hint(hint)
}

fn at_end(alloc: Global, text: &[u8]) -> Result<Help, AllocError> {
    let end = behind(text, text.len());
    if end == 0 {
        return Help::of(alloc, Some(0), "the file is empty: expected an object");
    }
    let open = open_at(alloc, text, end)?;
    let what = if open.in_text {
        "the file ends in a text in quotes"
    } else {
        "the file ends too early"
    };
    let help = Help::of(alloc, Some(end), what)?;
    match open.brackets.last() {
        Some((bracket, opened)) => hint_open(alloc, text, help, *bracket, *opened),
        None => Ok(help),
    }
}

fn of_error(alloc: Global, text: &[u8], error: &Error) -> Result<Help, AllocError> {
    if error.is_eof() {
        return at_end(alloc, text);
    }
    let offset = offset_of(text, error.line(), error.column());
    if offset >= behind(text, text.len()) {
        return at_end(alloc, text);
    }
    let byte = text[offset];
    let open = open_at(alloc, text, offset)?;
    if open.in_text {
        return Help::of(alloc, Some(offset), in_text_reason(byte));
    }
    reason(alloc, text, &open, offset, byte)
}

/// What is said of a text that is no JSON.
pub fn not_json(alloc: Global, text: &[u8]) -> Result<Option<Help>, AllocError> {
    if let Some(help) = not_text(alloc, text)? {
        return Ok(Some(help));
    }
    if begins_with_mark(text) {
        let what = "the file begins with a byte order mark (BOM), which a script may not have";
        return Ok(Some(Help::of(alloc, Some(0), what)?));
    }
    not_value(alloc, text)
}

/// What is said of a text that is no value of JSON.
fn not_value(alloc: Global, text: &[u8]) -> Result<Option<Help>, AllocError> {
    let Err(e) = Value::from_slice(alloc, text) else {
        return Ok(None);
    };
    if e.is_memory() {
        return Err(AllocError);
    }
    Ok(Some(of_error(alloc, text, &e)?))
}
