//! Lists of words, with commas and a last word between.
ghost use Rattle.std.specs.Prelude.{◌≡◌, ◌++◌, IfOk, OnOk, false, flat_map, string_bytes};
ghost use Rattle.kr_explain_text.specs.Lists.{item_words, mode_word, modes_listed};

use kr_cases::Memory;
use kr_model::Mode;
use kr_protocol::{Protocol, name_or_empty};
use std::alloc::Global;

/// Texts, one behind another.
pub fn joined(alloc: Global, texts: &[&str]) -> Result<String, Memory>
    ensures { IfOk result (λ text. string_bytes text ≡ flat_map (λ t. t.now) texts.now) }
{
    texts.concat(alloc)
}

/// The items with commas between, and before the last one `last` in place of the comma.
pub fn listed(alloc: Global, items: &[&str], last: &str) -> Result<String, Memory> {
    let mut out = String::new(alloc);
    for at in 0..items.len() {
        write_between(&mut out, at, items.len(), last)?;
        out.push_str(items[at])?;
    }
    Ok(out)
}

/// Writes what comes before the item at a place, from 0, of so many: nothing before the first, `last` before the last, and else
/// a comma.
pub fn write_between(out: &mut String, at: usize, count: usize, last: &str) -> Result<(), Memory> {
    if at == 0 {
        return Ok(());
    }
    if at.saturating_add(1) < count {
        return out.push_str(", ");
    }
    out.push_str(" ")?;
    out.push_str(last)?;
    out.push_str(" ")
}

/// Writes an item of a choice, which may be the first and the last.
fn write_item(out: &mut String, item: &str, is_first: bool, is_last: bool) -> Result<(), Memory>
    ensures { OnOk result (string_bytes out.new ≡ string_bytes out.old ++ item_words is_first is_last item.now) }
{
    let between = if is_first {
        ""
    } else if is_last {
        " or "
    } else {
        ", "
    };
    out.push_str(between)?;
    out.push_str(item)
}

/// The name of a mode, in quotes or not.
fn mode_word<P: Protocol>(
    alloc: Global,
    protocol: &P,
    mode: Mode,
    is_quoted: bool,
) -> Result<String, Memory>
    ensures { IfOk result (λ text. string_bytes text ≡ mode_word (P.names protocol.now) is_quoted mode) }
{
    let name = name_or_empty(protocol, mode);
    if is_quoted {
        format!(in alloc; "\"{name}\"")
    } else {
        String::from_str(alloc, name)
    }
}

/// The names of modes, in quotes or not, as a choice.
pub fn modes_chosen<P: Protocol>(
    alloc: Global,
    protocol: &P,
    modes: &[Mode],
    is_quoted: bool,
) -> Result<String, Memory>
    ensures { IfOk result (λ text. string_bytes text ≡ modes_listed (P.names protocol.now) is_quoted modes.now) }
{
    let mut out = String::new(alloc);
    for (at, mode) in modes.iter().enumerate() {
        let word = mode_word(alloc, protocol, *mode, is_quoted)?;
        let is_last = at + 1 == modes.len();
        write_item(&mut out, word.as_str(), at == 0, is_last)?;
    }
    Ok(out)
}

/// The names of modes, as a choice.
pub fn modes_listed<P: Protocol>(
    alloc: Global,
    protocol: &P,
    modes: &[Mode],
) -> Result<String, Memory>
    ensures { IfOk result (λ text. string_bytes text ≡ modes_listed (P.names protocol.now) false modes.now) }
{
    modes_chosen(alloc, protocol, modes, false)
}

/// The names of modes that are held, as a choice, or that no lock is.
pub fn held_listed<P: Protocol>(
    alloc: Global,
    protocol: &P,
    modes: &[Mode],
) -> Result<String, Memory> {
    let mut out = String::new(alloc);
    for at in 0..modes.len() {
        write_between(&mut out, at, modes.len(), "or")?;
        out.push_str(held_word(protocol, modes[at]))?;
    }
    Ok(out)
}

/// The name of a mode that is held, or that no lock is.
fn held_word<P: Protocol>(protocol: &P, mode: Mode) -> &str {
    if mode == 0 {
        "no lock"
    } else {
        name_or_empty(protocol, mode)
    }
}

/// Puts a word behind the others, unless it is there.
pub fn put_once<'a>(words: &mut Vec<&'a str>, word: &'a str) -> Result<(), Memory> {
    for other in words.iter() {
        if *other == word {
            return Ok(());
        }
    }
    words.push(word)?;
    Ok(())
}
