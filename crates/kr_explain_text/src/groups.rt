//! How many cases are of a group, in words.
ghost use Rattle.std.specs.Prelude.{◌≡◌, ◌==◌, ◌&&◌, IfOk, string_bytes};
ghost use Rattle.kr_explain_text.specs.Titles.{cases_word, counted_words};

use kr_cases::Memory;
use std::alloc::Global;

/// The code of a group and its number of cases, behind a comma unless it is the first; nothing where there are none. The only
/// fault is that a growth was refused.
pub fn counted(alloc: Global, is_first: bool, code: &str, count: usize) -> Result<String, Memory>
    ensures { IfOk result (λ text. string_bytes text ≡ counted_words is_first code.now count) }
{
    if count == 0 {
        return Ok(String::new(alloc));
    }
    if is_first {
        format!(in alloc; "{code}: {count}")
    } else {
        format!(in alloc; ", {code}: {count}")
    }
}

/// Whether no group is written yet, behind one of so many cases.
pub fn is_none_yet(is_first: bool, count: usize) -> bool
    ensures { result ≡ (is_first && (count == 0)) }
{
    is_first && count == 0
}

/// The word for so many cases, behind a space.
pub fn cases_word(count: usize) -> &'static str
    ensures { result.now ≡ cases_word count }
{
    if count == 1 { " case" } else { " cases" }
}
