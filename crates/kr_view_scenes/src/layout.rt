//! Where things stand in the drawings of a page. Lengths are pixels.

use crate::bar::Bar;
use crate::columns::Columns;
use crate::scene::{KeyState, Scene};
use kr_model::Txn;

/// The least width of a column.
const NARROWEST: u64 = 60;

/// What stands free between two texts, and what a bar has beside its text.
const FREE: u64 = 8;

/// How far a bar reaches beside the tick of its key.
const BESIDE: u64 = 14;

/// How wide the columns of a page are, and the room at their left, where the transactions of the rows stand.
#[derive(Clone, Copy, PartialEq, Eq)]
pub struct Layout {
    pub left: u64,
    pub width: u64,
    /// How many columns there are.
    columns: usize,
}

/// How many characters a number has.
pub fn digits(number: u64) -> u64 {
    let mut count: u64 = 1;
    let mut rest = number;
    for _ in 0..20 {
        if rest < 10 {
            return count;
        }
        rest /= 10;
        count = count.saturating_add(1);
    }
    count
}

/// How wide so many characters are at most, at 14 pixels' height.
pub fn text_width(characters: u64) -> u64 {
    characters.saturating_mul(17) / 2
}

/// The room that the number of a transaction needs at the left of its row.
fn label_width(txn: Txn) -> u64 {
    text_width(digits(u64::from(txn)).saturating_add(1)).saturating_add(FREE)
}

/// How wide the text of a key is that a step left so.
fn key_width(key: KeyState) -> u64 {
    let value = match key.value() {
        Some(value) => digits(value).saturating_add(1),
        None => 0,
    };
    text_width(value.max(key.note().len() as u64))
}

/// How wide a bar is in which so many characters fit.
pub fn bar_width(characters: u64) -> u64 {
    text_width(characters).saturating_add(2 * FREE)
}

/// How wide a bar is in which its words fit in their short form.
fn least_width(bar: &Bar) -> u64 {
    let number = digits(u64::from(bar.line.txn));
    bar_width(
        number
            .saturating_add(bar.mode.len() as u64)
            .saturating_add(2),
    )
}

/// How wide the columns have to be that the words of a bar fit in it.
fn width_for_bar(bar: &Bar) -> u64 {
    let wide = least_width(bar).saturating_add(2);
    match bar.reach as u64 {
        0 | 1 => wide,
        reach => wide / reach + 1,
    }
}

impl Layout {
    /// The layout in which all texts of these scenes fit.
    pub fn of(columns: &Columns, scenes: &[Scene]) -> Layout {
        let mut left = 0;
        let mut width = NARROWEST;
        for key in &columns.keys {
            width = width.max(text_width(digits(*key)).saturating_add(FREE));
        }
        for scene in scenes {
            if let Some(txn) = scene.act.txn() {
                left = left.max(label_width(txn));
            }
            for key in &scene.keys {
                width = width.max(key_width(*key).saturating_add(FREE));
            }
            for bar in &scene.bars {
                left = left.max(label_width(bar.line.txn));
                width = width.max(width_for_bar(bar));
            }
        }
        Layout {
            left,
            width,
            columns: columns.keys.len(),
        }
    }

    /// Where the tick of a column stands.
    pub fn tick(&self, column: usize) -> u64 {
        (column as u64)
            .saturating_add(1)
            .saturating_mul(self.width)
            .saturating_add(self.left)
            .saturating_sub(BESIDE)
    }

    /// Where the tick of the end stands.
    pub fn end(&self) -> u64 {
        self.tick(self.columns)
    }

    /// The width of a drawing.
    pub fn across(&self) -> u64 {
        self.end().saturating_add(BESIDE + 2)
    }

    /// Where a bar begins, and where it ends.
    pub fn ends(&self, bar: &Bar) -> (u64, u64) {
        let tick = self.tick(bar.column);
        if bar.reach == 0 {
            let half = least_width(bar) / 2;
            return (tick.saturating_sub(half), tick.saturating_add(half));
        }
        let to = tick.saturating_add(BESIDE);
        let long = (bar.reach as u64).saturating_mul(self.width);
        (to.saturating_sub(long).saturating_add(2), to)
    }
}
