//! Lines of text: no control character reaches a terminal.
ghost use Rattle.std.specs.Prelude.{◌≡◌, ◌++◌, IfOk, OnOk, string_bytes};
ghost use Rattle.std.specs.Str.{IsUtf8};
ghost use Rattle.kr_cli_diagnosis.specs.Lines as spec;
ghost use Rattle.kr_cli_diagnosis.specs.Lines.{shown};

use std::alloc::{AllocError, Global};

/// Whether a character is one from the first to the last.
fn is_from(first: char, last: char, c: char) -> bool
    ensures { result ≡ spec.is_from first last c }
{
    first <= c && c <= last
}

/// Whether a character hides, or turns what stands behind it.
fn is_hidden(c: char) -> bool
    ensures { result ≡ spec.is_hidden c }
{
    is_from('\u{200b}', '\u{200f}', c)
        || is_from('\u{2028}', '\u{202e}', c)
        || is_from('\u{2060}', '\u{2069}', c)
        || c == '\u{feff}'
}

/// Writes a character as it stands in a line: a control or hidden character as its number, as `\u{a}`.
fn push_shown(alloc: Global, line: &mut String, c: char) -> Result<(), AllocError>
    ensures { OnOk result (string_bytes line.new ≡ string_bytes line.old ++ shown c) }
{
    if c.is_control() || is_hidden(c) {
        let number = c as u32;
        line.push_str(format!(in alloc; "\\u{{{number:x}}}")?.as_str())
    } else {
        line.push(c)
    }
}

/// A text on one line.
pub fn on_one_line(alloc: Global, text: &str) -> Result<String, AllocError>
    ensures { IfOk result (λ line. string_bytes line ≡ spec.on_one_line text.now) }
{
    let mut line = String::new(alloc);
    for c in text.chars() {
        push_shown(alloc, &mut line, c)?;
    }
    Ok(line)
}

/// Writes a text as a line.
pub fn push_line(alloc: Global, lines: &mut String, text: &str) -> Result<(), AllocError>
    ensures { OnOk result (string_bytes lines.new ≡ string_bytes lines.old ++ spec.line text.now) }
{
    let line = on_one_line(alloc, text)?;
    lines.push_str(line.as_str())?;
    lines.push('\n')
}

/// Writes a byte as a character, or as its number where it is none by itself.
fn push_byte(alloc: Global, text: &mut String, byte: u8) -> Result<(), AllocError> {
    if byte < 128 {
        text.push(byte as char)
    } else {
        text.push_str(format!(in alloc; "\\x{{{byte:x}}}")?.as_str())
    }
}

/// Bytes as a text: those that are no characters as their numbers, as `\x{e9}`.
pub fn text_of(alloc: Global, bytes: &[u8]) -> Result<String, AllocError>
    ensures { IfOk result (λ text. IsUtf8 bytes.now → string_bytes text ≡ bytes.now) }
{
    if let Ok(text) = std::str::from_utf8(bytes) {
        return String::from_str(alloc, text);
    }
    let mut text = String::new(alloc);
    for byte in bytes {
        push_byte(alloc, &mut text, *byte)?;
    }
    Ok(text)
}

/// So many spaces.
pub fn spaces(alloc: Global, count: usize) -> Result<String, AllocError> {
    let mut text = String::new(alloc);
    for _ in 0..count {
        text.push(' ')?;
    }
    Ok(text)
}
