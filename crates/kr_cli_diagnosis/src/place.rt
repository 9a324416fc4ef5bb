//! Places in a text.
ghost use Rattle.std.specs.Prelude.{◌≡◌, ◌≤◌, length};
ghost use Rattle.kr_cli_diagnosis.specs.Place.{IsLineStart, IsLineEnd, IsPlace, begins_character};

/// A line and a column, both from 1. A column counts characters.
#[derive(Clone, Copy, PartialEq, Eq)]
pub struct Place {
    pub line: usize,
    pub column: usize,
}

/// Where the line begins that holds the offset.
pub fn line_start(text: &[u8], offset: usize) -> usize
    requires { offset ≤ length text.now }
    ensures { IsLineStart text.now offset result }
{
    let mut start = offset;
    while start > 0 && text[start - 1] != b'\n' {
        start -= 1;
    }
    start
}

/// Where the line ends that holds the offset, before its line feed.
pub fn line_end(text: &[u8], offset: usize) -> usize
    requires { offset ≤ length text.now }
    ensures { IsLineEnd text.now offset result }
{
    let mut end = offset;
    while end < text.len() && text[end] != b'\n' {
        end += 1;
    }
    end
}

fn begins_character(byte: u8) -> bool
    ensures { result ≡ begins_character byte }
{
    byte < 128 || byte > 191
}

/// The place of an offset.
pub fn place_at(text: &[u8], offset: usize) -> Place
    requires { offset ≤ length text.now }
    ensures { IsPlace text.now offset result }
{
    let start = line_start(text, offset);
    let feeds = text[..offset].iter().filter(|b| **b == b'\n').count();
    let characters = text[start..offset]
        .iter()
        .filter(|b| begins_character(**b))
        .count();
    Place {
        line: feeds + 1,
        column: characters + 1,
    }
}

/// The offset itself where a character begins there, or else where the character begins that holds it.
pub fn character_start(text: &[u8], offset: usize) -> usize
    requires { offset ≤ length text.now }
    ensures { result ≤ offset }
{
    let mut start = offset;
    while start > 0 && start < text.len() && !begins_character(text[start]) {
        start -= 1;
    }
    start
}
