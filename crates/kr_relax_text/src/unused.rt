//! Entries of a table that no schedule comes to, as a text.
ghost use Rattle.std.specs.Prelude.{◌≡◌, ◌≤◌, IfOk, string_bytes};
ghost use Rattle.kr_relax_text.specs.Unused.{by_mode_words, entry_word, foot_words, group_line, group_of, head_words, members_words, mode_in, places_words, unused_words};

use kr_change::place_text;
use kr_model::{Memory, Mode, Row, Side};
use kr_protocol::{Protocol, name_or_empty};
use kr_relax_core::Entry;
use std::alloc::Global;

/// Entries that are told on one line, by a mode that each has besides.
#[derive(Clone, Copy)]
enum Group {
    /// A requested mode, beside each held one.
    Pairs(Mode),
    /// A held mode, with each requested one.
    Conversions(Mode),
    /// A row at a side, with each own mode on the next name.
    Requests(Row, Side),
}

/// The mode by which an entry is in a group, if it is in it.
fn mode_in(group: Group, entry: Entry) -> Option<Mode>
    ensures { result ≡ mode_in group entry }
{
    match (group, entry) {
        (Group::Pairs(of), Entry::Pair { requested, held }) if of == requested => Some(held),
        (Group::Conversions(of), Entry::Conversion { held, requested }) if of == held => {
            Some(requested)
        }
        (
            Group::Requests(of, at),
            Entry::Request {
                row,
                side,
                own_next,
            },
        ) if of == row && at == side => Some(own_next),
        _ => None,
    }
}

/// The name of the mode by which an entry is in a group, behind a space; or nothing, where it isn't in it.
#[tactic(auto, unfolding(crate::specs::Unused::entry_word))]
fn entry_word<P: Protocol>(
    alloc: Global,
    protocol: &P,
    group: Group,
    entry: Entry,
) -> Result<String, Memory>
    ensures { IfOk result (λ text. string_bytes text ≡ entry_word (P.names protocol.now) group entry) }
{
    match mode_in(group, entry) {
        Some(mode) => {
            let name = name_or_empty(protocol, mode);
            format!(in alloc; " {name}")
        }
        None => Ok(String::new(alloc)),
    }
}

/// The modes by which entries are in a group.
fn members_text<P: Protocol>(
    alloc: Global,
    protocol: &P,
    group: Group,
    entries: &[Entry],
) -> Result<String, Memory>
    ensures { IfOk result (λ text. string_bytes text ≡ members_words (P.names protocol.now) group entries.now) }
{
    let mut out = String::new(alloc);
    for entry in entries {
        let text = entry_word(alloc, protocol, group, *entry)?;
        out.push_str(text.as_str())?;
    }
    Ok(out)
}

/// What comes before the modes of a group.
#[tactic(auto, unfolding(crate::specs::Unused::head_words))]
fn head_text<P: Protocol>(alloc: Global, protocol: &P, group: Group) -> Result<String, Memory>
    ensures { IfOk result (λ text. string_bytes text ≡ head_words (P.table protocol.now) (P.names protocol.now) group) }
{
    match group {
        Group::Pairs(requested) => {
            let name = name_or_empty(protocol, requested);
            format!(in alloc; "{name} beside")
        }
        Group::Conversions(held) => {
            let name = name_or_empty(protocol, held);
            format!(in alloc; "{name} held,")
        }
        Group::Requests(row, side) => {
            let place = place_text(alloc, protocol, row, side, None)?;
            format!(in alloc; "{place} own")
        }
    }
}

/// And what comes behind them.
fn foot_word(group: Group) -> &'static str
    ensures { result.now ≡ foot_words group }
{
    match group {
        Group::Conversions(_) => " asked",
        _ => "",
    }
}

/// The entries of a group on a line, if there are any.
#[tactic(auto, unfolding(crate::specs::Unused::group_line))]
fn group_line<P: Protocol>(
    alloc: Global,
    protocol: &P,
    entries: &[Entry],
    group: Group,
) -> Result<String, Memory>
    ensures { IfOk result (λ text. string_bytes text ≡ group_line (P.table protocol.now) (P.names protocol.now) entries.now group) }
{
    let members = members_text(alloc, protocol, group, entries)?;
    if members.is_empty() {
        return Ok(String::new(alloc));
    }
    let head = head_text(alloc, protocol, group)?;
    let foot = foot_word(group);
    format!(in alloc; "unused: {head}{members}{foot}\n")
}

/// The group of pairs of a requested mode, or of conversions of a held one.
fn group_of(are_pairs: bool, mode: Mode) -> Group
    ensures { result ≡ group_of are_pairs mode }
{
    if are_pairs {
        Group::Pairs(mode)
    } else {
        Group::Conversions(mode)
    }
}

/// The pairs, or the conversions, the requested or held mode rising.
fn by_mode_text<P: Protocol>(
    alloc: Global,
    protocol: &P,
    entries: &[Entry],
    are_pairs: bool,
) -> Result<String, Memory>
    ensures { IfOk result (λ text. string_bytes text ≡ by_mode_words (P.table protocol.now) (P.names protocol.now) entries.now are_pairs) }
{
    let mut out = String::new(alloc);
    for mode in 1..protocol.count() + 1 {
        let text = group_line(alloc, protocol, entries, group_of(are_pairs, mode))?;
        out.push_str(text.as_str())?;
    }
    Ok(out)
}

/// The requests that go by the own mode on the next name.
#[tactic(auto, unfolding(crate::specs::Unused::places_words))]
fn places_text<P: Protocol>(
    alloc: Global,
    protocol: &P,
    entries: &[Entry],
) -> Result<String, Memory>
    ensures { IfOk result (λ text. string_bytes text ≡ places_words (P.table protocol.now) (P.names protocol.now) entries.now) }
{
    let key = Group::Requests(Row::Insert, Side::Current);
    let key = group_line(alloc, protocol, entries, key)?;
    let next = Group::Requests(Row::Insert, Side::Next);
    let next = group_line(alloc, protocol, entries, next)?;
    let gone = Group::Requests(Row::Delete, Side::Current);
    let gone = group_line(alloc, protocol, entries, gone)?;
    let above = Group::Requests(Row::Delete, Side::Next);
    let above = group_line(alloc, protocol, entries, above)?;
    format!(in alloc; "{key}{next}{gone}{above}")
}

/// Entries of a table, each group on a line: a requested mode beside held ones, a held mode with requested ones, and what inserts
/// and deletes request at a side with own modes on the next name. The error is memory alone.
#[tactic(auto, unfolding(crate::specs::Unused::unused_words))]
pub fn unused_text<P: Protocol>(
    alloc: Global,
    protocol: &P,
    entries: &[Entry],
) -> Result<String, Memory>
    ensures { IfOk result (λ text. string_bytes text ≡ unused_words (P.table protocol.now) (P.names protocol.now) entries.now) }
{
    let pairs = by_mode_text(alloc, protocol, entries, true)?;
    let conversions = by_mode_text(alloc, protocol, entries, false)?;
    let places = places_text(alloc, protocol, entries)?;
    format!(in alloc; "{pairs}{conversions}{places}")
}
