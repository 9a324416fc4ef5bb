//! What is said of a fault, and how it is printed.
ghost use Rattle.std.specs.Prelude.{◌≡◌, ◌≤◌, ◌++◌, IfOk, OnOk, length, map, string_bytes};
ghost use Rattle.kr_cli_diagnosis.specs.Help as spec;
ghost use Rattle.kr_cli_diagnosis.specs.Help.{IsHelp, PutsHead, PutsPlace, Quotes};
ghost use Rattle.kr_cli_diagnosis.specs.Lines.{line, lines as lines_of};

use crate::lines::{on_one_line, push_line, spaces, text_of};
use crate::nearest::nearest;
use crate::place::{Place, character_start, line_end, line_start, place_at};
use std::alloc::{AllocError, Global};

/// Of a line so many bytes are shown at most, and so many of them before the place.
const WIDTH: usize = 60;

const BEFORE: usize = 40;

/// Of what is said so many characters are shown at most: a name of the file may be very long.
const MOST: usize = 200;

/// What is said of a fault: where it stands, where that is known, what is wrong there, and what may help.
#[derive(Drop)]
pub struct Help {
    offset: Option<usize>,
    what: String,
    hints: Vec<String>,
}

impl Help {
    pub fn new(alloc: Global, offset: Option<usize>, what: String) -> Help {
        Help {
            offset,
            what,
            hints: Vec::new(alloc),
        }
    }

    pub fn of(alloc: Global, offset: Option<usize>, what: &str) -> Result<Help, AllocError> {
        Ok(Help::new(alloc, offset, String::from_str(alloc, what)?))
    }

    /// With a line more that may help.
    pub fn hint(mut self, hint: String) -> Result<Help, AllocError> {
        self.hints.push(hint)?;
        Ok(self)
    }

    /// With a line more that may help, of this text.
    pub fn hint_of(self, alloc: Global, hint: &str) -> Result<Help, AllocError> {
        let hint = String::from_str(alloc, hint)?;
        self.hint(hint)
    }

    /// With the name that is nearest to the word, or all names where none is near.
    pub fn name(self, alloc: Global, word: &str, names: &[&str]) -> Result<Help, AllocError> {
        let hint = match nearest(alloc, word, names)? {
            Some(name) => did_you_mean(alloc, name)?,
            None => one_of(alloc, names)?,
        };
        self.hint(hint)
    }

    /// With the name that is nearest to the word, if one is near.
    pub fn near(self, alloc: Global, word: &str, names: &[&str]) -> Result<Help, AllocError> {
        match nearest(alloc, word, names)? {
            Some(name) => self.hint(did_you_mean(alloc, name)?),
            None => Ok(self),
        }
    }

    /// The lines that are printed of a fault of the text that the word names.
    pub fn print(&self, alloc: Global, word: &str, text: &[u8]) -> Result<String, AllocError>
        ensures { IfOk result (λ lines. IsHelp word.now text.now (string_bytes lines)) }
    {
        let mut lines = String::new(alloc);
        let what = cut_short(alloc, self.what.as_str())?;
        push_head(alloc, &mut lines, word, text, self.offset, what.as_str())?;
        push_hints(alloc, &mut lines, self.hints.as_slice())?;
        Ok(lines)
    }
}

/// The lines that are printed of a fault of the text that the word names: none where nothing is said of it.
pub fn print_said(
    alloc: Global,
    word: &str,
    text: &[u8],
    said: Option<Help>,
) -> Result<String, AllocError>
    ensures { IfOk result (λ lines. IsHelp word.now text.now (string_bytes lines)) }
{
    match said {
        Some(help) => help.print(alloc, word, text),
        None => Ok(String::new(alloc)),
    }
}

/// A text, of which a part is shown where it is very long.
fn cut_short(alloc: Global, text: &str) -> Result<String, AllocError> {
    let mut short = String::new(alloc);
    push_short(&mut short, text)?;
    Ok(short)
}

/// Writes a text, or its front where it is very long.
fn push_short(short: &mut String, text: &str) -> Result<(), AllocError> {
    let mut left = MOST;
    for c in text.chars() {
        if left == 0 {
            return short.push_str(" ..");
        }
        left -= 1;
        short.push(c)?;
    }
    Ok(())
}

/// Writes what is said of an offset of a text, or of the file where none is known.
fn push_head(
    alloc: Global,
    lines: &mut String,
    word: &str,
    text: &[u8],
    offset: Option<usize>,
    what: &str,
) -> Result<(), AllocError>
    ensures { OnOk result (PutsHead word.now text.now what.now (string_bytes lines.old) (string_bytes lines.new)) }
{
    match offset {
        Some(offset) if offset <= text.len() => {
            push_placed(alloc, lines, word, text, offset, what)
        }
        _ => push_named(alloc, lines, word, what),
    }
}

/// Writes the hints, each as a line.
fn push_hints(alloc: Global, lines: &mut String, hints: &[String]) -> Result<(), AllocError>
    ensures { OnOk result (string_bytes lines.new ≡ string_bytes lines.old ++ lines_of (map string_bytes hints.now)) }
{
    for hint in hints {
        push_line(alloc, lines, hint.as_str())?;
    }
    Ok(())
}

/// Writes what is said of a file.
fn push_named(alloc: Global, lines: &mut String, word: &str, what: &str) -> Result<(), AllocError>
    ensures { OnOk result (string_bytes lines.new ≡ string_bytes lines.old ++ line (spec.of_file word.now what.now)) }
{
    let text = format!(in alloc; "{word}: {what}")?;
    push_line(alloc, lines, text.as_str())
}

fn did_you_mean(alloc: Global, name: &str) -> Result<String, AllocError> {
    format!(in alloc; "did you mean \"{name}\"?")
}

/// The names of which one was expected.
fn one_of(alloc: Global, names: &[&str]) -> Result<String, AllocError> {
    let start = if names.len() > 1 {
        "expected one of: "
    } else {
        "expected "
    };
    let mut text = String::from_str(alloc, start)?;
    push_names(&mut text, names)?;
    Ok(text)
}

/// Writes names with a comma between two.
fn push_names(text: &mut String, names: &[&str]) -> Result<(), AllocError> {
    let mut separator = "";
    for name in names {
        text.push_str(separator)?;
        text.push_str(name)?;
        separator = ", ";
    }
    Ok(())
}

/// Writes a place with what is wrong there.
fn push_place(
    alloc: Global,
    lines: &mut String,
    word: &str,
    place: Place,
    what: &str,
) -> Result<(), AllocError>
    ensures { OnOk result (string_bytes lines.new ≡ string_bytes lines.old ++ line (spec.of_place word.now place what.now)) }
{
    let Place { line, column } = place;
    let text = format!(in alloc; "{word}:{line}:{column}: {what}")?;
    push_line(alloc, lines, text.as_str())
}

/// Writes the line of a place, of which these two parts are shown.
fn push_quote(
    alloc: Global,
    lines: &mut String,
    place: Place,
    before: &str,
    after: &str,
) -> Result<(), AllocError>
    ensures { OnOk result (string_bytes lines.new ≡ string_bytes lines.old ++ line (spec.quote_of place (before.now ++ after.now))) }
{
    let number = place.line;
    let text = format!(in alloc; "  {number} | {before}{after}")?;
    push_line(alloc, lines, text.as_str())
}

/// The line with a caret below a place, before which this is shown of its line.
fn caret_of(alloc: Global, place: Place, before: &str) -> Result<String, AllocError> {
    let number = place.line;
    let margin = format!(in alloc; "  {number}")?.len();
    let indent = on_one_line(alloc, before)?.chars().count();
    let margin = spaces(alloc, margin)?;
    let indent = spaces(alloc, indent)?;
    format!(in alloc; "{margin} | {indent}^")
}

/// Writes the place of an offset with what is wrong there, and the line with a caret.
fn push_placed(
    alloc: Global,
    lines: &mut String,
    word: &str,
    text: &[u8],
    offset: usize,
    what: &str,
) -> Result<(), AllocError>
    requires { offset ≤ length text.now }
    ensures { OnOk result (PutsPlace word.now text.now what.now (string_bytes lines.old) (string_bytes lines.new)) }
{
    let place = place_at(text, offset);
    push_place(alloc, lines, word, place, what)?;
    let quote = quoted(alloc, text, offset)?;
    push_quote(
        alloc,
        lines,
        place,
        quote.before.as_str(),
        quote.after.as_str(),
    )?;
    let caret = caret_of(alloc, place, quote.before.as_str())?;
    push_line(alloc, lines, caret.as_str())?;
    Ok(())
}

/// What is shown of the line of a place: before the place, and from there.
#[derive(Drop)]
struct Quote {
    before: String,
    after: String,
}

/// The line that holds the offset: of a long one a part.
fn quoted(alloc: Global, text: &[u8], offset: usize) -> Result<Quote, AllocError>
    requires { offset ≤ length text.now }
    ensures { IfOk result (λ quote. Quotes text.now offset (string_bytes quote.before) (string_bytes quote.after)) }
{
    let first = line_start(text, offset);
    let last = line_end(text, offset);
    let from = shown_start(text, first, offset, last);
    let to = shown_end(text, from, offset, last);
    let before = text_of(alloc, &text[from..offset])?;
    let after = text_of(alloc, &text[offset..to])?;
    Ok(Quote { before, after })
}

/// Where what is shown of a line begins, which stands from the first offset to the last.
fn shown_start(text: &[u8], first: usize, offset: usize, last: usize) -> usize
    requires line { first ≤ offset }
    requires end { offset ≤ last }
    requires within { offset ≤ length text.now }
    ensures behind { first ≤ result }
    ensures before { result ≤ offset }
{
    if last - first > WIDTH && offset - first > BEFORE {
        character_start(text, offset - BEFORE).max(first)
    } else {
        first
    }
}

/// Where what is shown of a line ends, which ends at the last offset.
fn shown_end(text: &[u8], from: usize, offset: usize, last: usize) -> usize
    requires shown { from ≤ offset }
    requires line { offset ≤ last }
    requires within { last ≤ length text.now }
    ensures behind { offset ≤ result }
    ensures before { result ≤ last }
{
    if last - from > WIDTH {
        character_start(text, from + WIDTH).max(offset)
    } else if last > offset && text[last - 1] == b'\r' {
        last - 1
    } else {
        last
    }
}
