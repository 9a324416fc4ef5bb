//! Badges: at an entry of a table the numbers of the causes that blame it, as links to them.
ghost use Rattle.std.specs.Prelude.{◌≡◌, IfOk, string_bytes};
ghost use Rattle.kr_view_table.specs.Badges.{badge, badge_at, badges, blames};

use kr_change::{is_same_place, is_same_request};
use kr_explain_causes::Blame;
use kr_explain_core::Explained;
use kr_model::{Memory, Mode, Row, Side, Span};
use std::alloc::Global;

/// An entry of a table.
#[derive(Clone, Copy, PartialEq, Eq)]
pub enum Entry {
    /// Whether two modes are compatible.
    Pair {
        requested: Mode,
        held: Mode,
    },
    /// What two modes convert to.
    Conversion {
        held: Mode,
        requested: Mode,
    },
    /// What a row requests at a side.
    Request {
        row: Row,
        side: Side,
        asked: Option<(Mode, Span)>,
    },
}

/// Whether an entry is to blame.
fn blames(blame: Blame, entry: Entry) -> bool
    ensures { result ≡ blames blame entry }
{
    match (blame, entry) {
        (
            Blame::Pair { requested, held },
            Entry::Pair {
                requested: one,
                held: other,
            },
        ) => { requested == one && held == other }
        (
            Blame::Conversion { held, requested },
            Entry::Conversion {
                held: one,
                requested: other,
            },
        ) => { held == one && requested == other }
        (
            Blame::Place { row, side },
            Entry::Request {
                row: one,
                side: other,
                ..
            },
        ) => { is_same_place(row, side, one, other) }
        (
            Blame::Request { row, side, asked },
            Entry::Request {
                row: one,
                side: other,
                asked: request,
            },
        ) => is_same_place(row, side, one, other) && is_same_request(asked, request),
        _ => false,
    }
}

/// The badge of the cause of a number.
fn badge(alloc: Global, number: usize) -> Result<String, Memory>
    ensures { IfOk result (λ text. string_bytes text ≡ badge number) }
{
    format!(in alloc; "<a href=\"#s{number}\">{number}</a>")
}

/// The badge of the cause of a number, where it blames the entry, and else nothing.
fn badge_at(
    alloc: Global,
    entry: Entry,
    number: usize,
    explained: &Explained,
) -> Result<String, Memory>
    ensures { IfOk result (λ text. string_bytes text ≡ badge_at entry number explained.now.cause.blame) }
{
    if blames(explained.cause.blame, entry) {
        badge(alloc, number)
    } else {
        Ok(String::new(alloc))
    }
}

/// A badge of each of the causes that blame the entry, in their order. The causes have numbers from 1 on.
pub fn badges(alloc: Global, causes: &[Explained], entry: Entry) -> Result<String, Memory>
    ensures { IfOk result (λ text. string_bytes text ≡ badges entry 1 causes.now) }
{
    let mut out = String::new(alloc);
    for at in 0..causes.len() {
        let piece = badge_at(alloc, entry, at + 1, &causes[at])?;
        out.push_str(piece.as_str())?;
    }
    Ok(out)
}
