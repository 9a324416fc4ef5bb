//! Paragraphs, in lines of at most 110 characters. Each line is written behind a line feed.
ghost use Rattle.std.specs.Prelude.{◌≡◌, ◌++◌, IfOk, OnOk, string_bytes};
ghost use Rattle.kr_explain_text.specs.Lines.{Adds, AreLines, IsGap, IsParagraph, blanks};

use crate::lists::joined;
use kr_cases::Memory;
use std::alloc::Global;

/// So many spaces come before what is said of a cause.
pub const INDENT: usize = 3;

/// So many characters a line has at most, unless one word is longer.
const WIDTH: usize = 110;

/// Writes spaces.
pub fn write_spaces(out: &mut String, count: usize) -> Result<(), Memory>
    ensures { OnOk result (string_bytes out.new ≡ string_bytes out.old ++ blanks count) }
{
    for _ in 0..count {
        out.push_str(" ")?;
    }
    Ok(())
}

/// Writes what comes before a word of so many characters in a line that has so many: nothing before the first word; else a
/// space, or where the line would be too long a line feed and so many spaces. Answers how many characters the line has then.
fn write_gap(
    out: &mut String,
    is_first: bool,
    used: usize,
    length: usize,
    hang: usize,
) -> Result<usize, Memory>
    ensures { OnOk result (Adds (IsGap hang is_first) (string_bytes out.old) (string_bytes out.new)) }
{
    if is_first {
        return Ok(used);
    }
    if used.saturating_add(1).saturating_add(length) > WIDTH {
        out.push_str("\n")?;
        write_spaces(out, hang)?;
        return Ok(hang);
    }
    out.push_str(" ")?;
    Ok(used.saturating_add(1))
}

/// Writes the words of a text in lines, the first behind `indent` spaces that are there, and the others behind `hang`.
fn write_words(out: &mut String, text: &str, indent: usize, hang: usize) -> Result<(), Memory>
    ensures { OnOk result (Adds (AreLines hang text.now) (string_bytes out.old) (string_bytes out.new)) }
{
    let mut used = indent;
    let mut is_first = true;
    for word in text.split(' ') {
        let length = word.chars().count();
        used = write_gap(out, is_first, used, length, hang)?.saturating_add(length);
        out.push_str(word)?;
        is_first = false;
    }
    Ok(())
}

/// Writes a paragraph: behind a line feed the words of a text in lines, the first behind `indent` spaces, and the others
/// behind `hang`.
pub fn write_paragraph(
    out: &mut String,
    text: &str,
    indent: usize,
    hang: usize,
) -> Result<(), Memory>
    ensures { OnOk result (Adds (IsParagraph indent hang text.now) (string_bytes out.old) (string_bytes out.new)) }
{
    out.push_str("\n")?;
    write_spaces(out, indent)?;
    write_words(out, text, indent, hang)
}

/// A paragraph: behind a line feed the words of a text in lines, the first behind `indent` spaces, and the others behind
/// `hang`.
pub fn paragraph(alloc: Global, text: &str, indent: usize, hang: usize) -> Result<String, Memory>
    ensures { IfOk result (λ lines. IsParagraph indent hang text.now (string_bytes lines)) }
{
    let mut out = String::new(alloc);
    write_paragraph(&mut out, text, indent, hang)?;
    Ok(out)
}

/// Writes texts, one behind another, as a paragraph of what is said of a cause.
pub fn write_joined(alloc: Global, out: &mut String, texts: &[&str]) -> Result<(), Memory> {
    let text = joined(alloc, texts)?;
    write_paragraph(out, text.as_str(), INDENT, INDENT)
}
