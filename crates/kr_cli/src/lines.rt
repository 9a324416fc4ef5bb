//! What is told of a word, on one line.
ghost use Rattle.std.specs.Prelude.{◌≡◌, ◌++◌, IfOk, OnOk, string_bytes};
ghost use Rattle.kr_cli.specs.Lines.{shown, on_one_line, told_line};

use std::alloc::{AllocError, Global};

/// Writes a character as it stands in a line: a control character as its number, as `\u{a}`.
fn push_shown(alloc: Global, line: &mut String, c: char) -> Result<(), AllocError>
    ensures { OnOk result (string_bytes line.new ≡ string_bytes line.old ++ shown c) }
{
    if c.is_control() {
        let number = c as u32;
        line.push_str(format!(in alloc; "\\u{{{number:x}}}")?.as_str())
    } else {
        line.push(c)
    }
}

/// A text on one line.
fn on_one_line(alloc: Global, text: &str) -> Result<String, AllocError>
    ensures { IfOk result (λ line. string_bytes line ≡ on_one_line text.now) }
{
    let mut line = String::new(alloc);
    for c in text.chars() {
        push_shown(alloc, &mut line, c)?;
    }
    Ok(line)
}

/// The line that tells this of a word.
pub fn told_line(alloc: Global, word: &str, what: &str) -> Result<String, AllocError>
    ensures { IfOk result (λ line. string_bytes line ≡ told_line word.now what.now) }
{
    let text = format!(in alloc; "{word}: {what}")?;
    on_one_line(alloc, text.as_str())
}
