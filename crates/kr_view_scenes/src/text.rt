//! Text of a page.
ghost use Rattle.std.specs.Prelude.{◌≡◌, ◌++◌, ◌∷◌, [], IfOk, OnOk, List, ℕ, Some, encode_utf8, string_bytes};
ghost use Rattle.std.specs.Str.{chars};
ghost use Rattle.kr_view_scenes.specs.Escape.{escaped, unescaped};

use std::alloc::{AllocError, Global};

/// Writes a character of a text as it stands in a page.
fn push_escaped(page: &mut String, c: char) -> Result<(), AllocError>
    ensures written { OnOk result (string_bytes page.new ≡ string_bytes page.old ++ escaped (encode_utf8 c)) }
    ensures reads_back { OnOk result ((text : List ℕ) → unescaped (chars (string_bytes page.old)) ≡ Some text
        → unescaped (chars (string_bytes page.new)) ≡ Some (text ++ c ∷ [])) }
{
    match c {
        '<' => page.push_str("&lt;"),
        '>' => page.push_str("&gt;"),
        '&' => page.push_str("&amp;"),
        '"' => page.push_str("&quot;"),
        '\'' => page.push_str("&#39;"),
        c => page.push(c),
    }
}

/// A text as it stands in a page: `<`, `>`, `&` and both quotes are entities, and every other character is as it is given.
/// It reads back as the text. The error is memory alone.
pub fn escape(alloc: Global, text: &str) -> Result<String, AllocError>
    ensures written { IfOk result (λ page. string_bytes page ≡ escaped text.now) }
    ensures reads_back { IfOk result (λ page. unescaped (chars (string_bytes page)) ≡ Some (chars text.now)) }
{
    let mut page = String::new(alloc);
    for c in text.chars() {
        push_escaped(&mut page, c)?;
    }
    Ok(page)
}
