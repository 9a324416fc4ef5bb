//! The name of an entry of a table.
ghost use Rattle.std.specs.Prelude.{◌≡◌, ◌≤◌, IfOk, string_bytes};
ghost use Rattle.kr_change.specs.ChangeNames.{conversion_words, entry_words, ghost_place_words, listed_words, own_word, owns_words, pair_words, place_words};

use crate::change::{Change, GhostRow, ghost_row_word};
use kr_model::{Memory, Mode, Row, Side, row_word, side_word};
use kr_protocol::{Protocol, name_or_empty};
use std::alloc::Global;

/// The name of the entry that a change is of: what comes before the colon in the change's own name. The error is memory alone.
pub fn entry_text<P: Protocol>(
    alloc: Global,
    protocol: &P,
    change: Change,
) -> Result<String, Memory>
    ensures { IfOk result (λ text. string_bytes text ≡ entry_words (P.table protocol.now) (P.names protocol.now) change) }
{
    match change {
        Change::Compatible {
            requested,
            held,
            ..
        } => pair_text(alloc, protocol, requested, held),
        Change::Convert {
            held,
            requested,
            ..
        } => conversion_text(alloc, protocol, held, requested),
        Change::Request {
            row,
            side,
            own_next,
            ..
        } => place_text(alloc, protocol, row, side, own_next),
        Change::GhostRequest { row, side, .. } => ghost_place_text(alloc, row, side),
        Change::Heir { held, .. } => own_text(alloc, protocol, "heir of", held),
    }
}

/// The name of the entry that says what a row that only tables with ghosts have requests at a side.
#[tactic(auto, unfolding(crate::specs::ChangeNames::ghost_place_words))]
fn ghost_place_text(alloc: Global, row: GhostRow, side: Side) -> Result<String, Memory>
    ensures { IfOk result (λ text. string_bytes text ≡ ghost_place_words row side) }
{
    let row = ghost_row_word(row);
    let side = side_word(side);
    format!(in alloc; "{row} {side}")
}

/// The name of the entry that says whether a requested mode is compatible with another transaction's held one. The error is
/// memory alone.
#[tactic(auto, unfolding(crate::specs::ChangeNames::pair_words))]
pub fn pair_text<P: Protocol>(
    alloc: Global,
    protocol: &P,
    requested: Mode,
    held: Mode,
) -> Result<String, Memory>
    ensures { IfOk result (λ text. string_bytes text ≡ pair_words (P.names protocol.now) requested held) }
{
    let requested = name_or_empty(protocol, requested);
    let held = name_or_empty(protocol, held);
    format!(in alloc; "{requested} beside {held}")
}

/// The name of the entry that says what a held mode and a requested one convert to. The error is memory alone.
#[tactic(auto, unfolding(crate::specs::ChangeNames::conversion_words))]
pub fn conversion_text<P: Protocol>(
    alloc: Global,
    protocol: &P,
    held: Mode,
    requested: Mode,
) -> Result<String, Memory>
    ensures { IfOk result (λ text. string_bytes text ≡ conversion_words (P.names protocol.now) held requested) }
{
    let held = name_or_empty(protocol, held);
    let requested = name_or_empty(protocol, requested);
    format!(in alloc; "{held} held, {requested} asked")
}

/// The name of the entry that says what a row requests at a side: with the own modes on the next name whose bits are set, 0 for
/// no lock, or with all. The error is memory alone.
#[tactic(auto, unfolding(crate::specs::ChangeNames::place_words))]
pub fn place_text<P: Protocol>(
    alloc: Global,
    protocol: &P,
    row: Row,
    side: Side,
    own_next: Option<u16>,
) -> Result<String, Memory>
    ensures { IfOk result (λ text. string_bytes text ≡ place_words (P.table protocol.now) (P.names protocol.now) row side own_next) }
{
    let row = row_word(row);
    let side = side_word(side);
    let owns = owns_text(alloc, protocol, own_next)?;
    format!(in alloc; "{row} {side}{owns}")
}

/// For which own modes on the next name, if not for all.
fn owns_text<P: Protocol>(
    alloc: Global,
    protocol: &P,
    own_next: Option<u16>,
) -> Result<String, Memory>
    ensures { IfOk result (λ text. string_bytes text ≡ owns_words (P.table protocol.now) (P.names protocol.now) own_next) }
{
    match own_next {
        None => Ok(String::new(alloc)),
        Some(modes) => own_text(alloc, protocol, " own", modes),
    }
}

/// A text, and behind it the modes whose bits are set.
pub(crate) fn own_text<P: Protocol>(
    alloc: Global,
    protocol: &P,
    head: &str,
    modes: u16,
) -> Result<String, Memory>
    ensures { IfOk result (λ text. string_bytes text ≡ listed_words (P.table protocol.now) (P.names protocol.now) head.now modes) }
{
    let mut out = String::from_str(alloc, head)?;
    for own in 0..protocol.count() + 1 {
        let text = mode_text(alloc, protocol, modes, own)?;
        out.push_str(text.as_str())?;
    }
    Ok(out)
}

/// The name of a mode whose bit is set.
#[tactic(auto, unfolding(crate::specs::ChangeNames::own_word))]
fn mode_text<P: Protocol>(
    alloc: Global,
    protocol: &P,
    modes: u16,
    own: Mode,
) -> Result<String, Memory>
    requires { own ≤ 15 }
    ensures { IfOk result (λ text. string_bytes text ≡ own_word (P.names protocol.now) modes own) }
{
    if modes >> own & 1 == 1 {
        let name = name_or_empty(protocol, own);
        format!(in alloc; " {name}")
    } else {
        Ok(String::new(alloc))
    }
}
