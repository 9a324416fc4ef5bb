//! Which requests come, of those that the rows of a table may make.
ghost use Rattle.std.specs.Prelude.{◌≡◌, true, slice_index_or};
ghost use Rattle.kr_alike.specs.Marks.{by_next, asked_place, is_insert, comes};

use crate::modes::Ask;
use kr_model::{Mode, Row, Side, row_number, side_number};

/// Which requests come. What is past the end of either list comes; so with no marks all do.
#[derive(Drop)]
pub struct Coming {
    /// By its place, whether a request comes of one who holds these modes on the name and on the next one.
    pub asked: Vec<bool>,
    /// By the mode, whether a key may be inserted beside one who holds it there.
    pub left: Vec<bool>,
}

/// How many places there are, of at most 15 modes.
pub const ASKED: usize = 3584;

/// What the requester holds on the next name, where its request goes by that; else none.
pub fn by_next(row: Row, side: Side, next: Mode) -> Mode
    ensures { result ≡ by_next row side next }
{
    match (row, side) {
        (Row::Insert, Side::Current) | (Row::Delete, Side::Current) => next,
        _ => 0,
    }
}

/// The place of a request in the first list: for modes of at most 15 it is below `ASKED`.
fn asked_place(row: Row, side: Side, own: Mode, next: Mode) -> usize
    ensures { result ≡ asked_place row side own next }
{
    ((row_number(row) * 2 + side_number(side)) * 16 + own as usize) * 16
        + by_next(row, side, next) as usize
}

/// Whether it is an insert's request on its own key.
fn is_insert(row: Row, side: Side) -> bool
    ensures { result ≡ is_insert row side }
{
    match (row, side) {
        (Row::Insert, Side::Current) => true,
        _ => false,
    }
}

/// The mark at a place; past the end it is set.
fn is_set(marks: &Vec<bool>, place: usize) -> bool
    ensures { result ≡ slice_index_or marks.now.items place true }
{
    match marks.get(place) {
        Some(mark) => *mark,
        None => true,
    }
}

impl Coming {
    /// Whether the request comes.
    pub(crate) fn has(&self, ask: Ask) -> bool
        ensures { result ≡ comes self.now ask.row ask.side ask.own.first ask.next.first ask.other.first }
    {
        let place = asked_place(ask.row, ask.side, ask.own.first, ask.next.first);
        is_set(&self.asked, place)
            && (!is_insert(ask.row, ask.side) || is_set(&self.left, ask.other.first as usize))
    }
}
