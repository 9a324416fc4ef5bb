//! The transactions as lanes over time.

use crate::svg;
use crate::svg::{Point, at};
use kr_locks::Memory;
use kr_model::{Reply, Txn};
use kr_view_scenes::{
    Act, Html, Mark, Part, Run, colour_of, digits, kind_of, letter_of, text_width,
};
use std::alloc::{AllocError, Global};
use std::collections::BTreeSet;

/// How far two lanes are from each other, and where the first is.
const LANE_HIGH: u64 = 30;

const LANES_TOP: u64 = 38;

/// Half of the mark of a step.
const HALF: u64 = 11;

/// Where the marks of the steps stand.
#[derive(Clone, Copy)]
struct Lanes {
    left: u64,
    /// How far two steps are from each other.
    apart: u64,
}

impl Lanes {
    /// Lanes in which the numbers of steps up to this one fit.
    fn new(left: u64, last: u64) -> Lanes {
        Lanes {
            left,
            apart: text_width(digits(last).saturating_add(1)).max(2 * HALF + 6),
        }
    }

    /// Where the marks of a column stand.
    fn across(self, column: usize) -> u64 {
        (column as u64)
            .saturating_mul(self.apart)
            .saturating_add(self.left)
            .saturating_add(self.apart / 2)
    }
}

/// The transactions of some steps, rising.
fn txns_of(alloc: Global, acts: &[Act]) -> Result<Vec<Txn>, Memory> {
    let mut txns = BTreeSet::new(alloc);
    for act in acts {
        if let Some(txn) = act.txn() {
            txns.insert(txn)?;
        }
    }
    let mut list = Vec::new(alloc);
    for txn in &txns {
        list.push(*txn)?;
    }
    Ok(list)
}

/// Where a lane is.
fn down(lane: usize) -> u64 {
    (lane as u64)
        .saturating_mul(LANE_HIGH)
        .saturating_add(LANES_TOP)
}

/// Writes the lanes of the steps that are drawn, with so much room at the left for the numbers of transactions.
pub fn write_lanes(alloc: Global, run: &Run<'_>, left: u64, out: &mut Html) -> Result<(), Memory> {
    let acts = run.acts.get(run.skipped()..).unwrap_or(&[]);
    if acts.is_empty() {
        return Ok(());
    }
    let txns = txns_of(alloc, acts)?;
    let lanes = Lanes::new(left, run.acts.len() as u64);
    let purges = usize::from(has_purges(acts));
    open(out, lanes, acts.len(), txns.len().saturating_add(purges))?;
    for (lane, txn) in txns.iter().enumerate() {
        write_lane(alloc, out, lanes, acts, lane, *txn)?;
    }
    write_marks(alloc, run, lanes, txns.as_slice(), out)
}

/// Whether a purge is among some steps. Then the lane below those of the transactions has the purges.
fn has_purges(acts: &[Act]) -> bool {
    for act in acts {
        if act.txn().is_none() {
            return true;
        }
    }
    false
}

/// Writes the heading, and begins a drawing that has room for so many steps and lanes.
fn open(out: &mut Html, lanes: Lanes, steps: usize, count: usize) -> Result<(), Memory> {
    out.put(&[
        Part::Mark(Mark::Heading),
        Part::Text("Transactions over time"),
        Part::Mark(Mark::EndHeading),
    ])?;
    let high = down(count).saturating_sub(LANE_HIGH / 2);
    svg::open(
        out,
        lanes.across(steps),
        high,
        "the steps of each transaction",
    )
}

/// Writes the marks of the steps that are drawn on the lanes of these transactions, ends the drawing, and writes what it says.
fn write_marks(
    alloc: Global,
    run: &Run<'_>,
    lanes: Lanes,
    txns: &[Txn],
    out: &mut Html,
) -> Result<(), Memory> {
    let skipped = run.skipped();
    let acts = run.acts.get(skipped..).unwrap_or(&[]);
    let mut number = skipped as u64;
    for (column, act) in acts.iter().enumerate() {
        number = number.saturating_add(1);
        let x = lanes.across(column);
        write_mark(alloc, out, number, at(x, down(lane_of(txns, act))), act)?;
    }
    svg::close(out)?;
    out.put(&[Part::Mark(Mark::Note), Part::Text(KEY)])?;
    if has_purges(acts) {
        out.text(PURGES)?;
    }
    out.mark(Mark::EndParagraph)
}

/// What the letters and forms say.
const KEY: &str =
    "F fetch, S scan, G go on, I insert, D delete, U update, B change taken back, C commit, A abort. \
A box is a step that was done, a dashed box one that was blocked, a dotted one that was refused. A circle ends its transaction.";

/// What is said besides where there are purges.
const PURGES: &str = " P in the last lane is a purge, in a dotted box where the key was kept.";

/// The lane of a step: that of its transaction, or the last.
fn lane_of(txns: &[Txn], act: &Act) -> usize {
    match act.txn() {
        Some(txn) => match txns.binary_search(&txn) {
            Ok(lane) => lane,
            Err(lane) => lane,
        },
        None => txns.len(),
    }
}

/// Writes the line of a lane, from its first step to its last.
fn write_lane(
    alloc: Global,
    out: &mut Html,
    lanes: Lanes,
    acts: &[Act],
    lane: usize,
    txn: Txn,
) -> Result<(), AllocError> {
    let mut first = None;
    let mut last = 0;
    for (column, act) in acts.iter().enumerate() {
        if act.txn() == Some(txn) {
            if first.is_none() {
                first = Some(column);
            }
            last = column;
        }
    }
    let y = down(lane);
    let from = lanes.across(first.unwrap_or(last));
    svg::line(out, "lane", at(from, y), at(lanes.across(last), y))?;
    let label = at(0, y.saturating_add(5));
    let words = format!(in alloc; "T{txn}")?;
    svg::text(out, "label", label, words.as_str())
}

/// Writes the mark of a step, with a link to its band.
fn write_mark(
    alloc: Global,
    out: &mut Html,
    number: u64,
    place: Point,
    act: &Act,
) -> Result<(), AllocError> {
    let Point { x, y } = place;
    out.put(&[
        Part::Mark(Mark::Link),
        Part::Number(number),
        Part::Mark(Mark::EndTag),
    ])?;
    write_when(alloc, out, number, at(x, 15))?;
    let middle = at(x, y.saturating_add(5));
    match act {
        Act::Attempt(event, reply) => {
            write_form(alloc, out, place, event.txn, reply)?;
            svg::text(out, "letter", middle, letter_of(event.op))?;
        }
        Act::Purge(_, is_purged) => {
            let class = if *is_purged { "none" } else { "refused" };
            write_box(out, class, place)?;
            svg::text(out, "letter", middle, "P")?;
        }
    }
    out.put(&[Part::Mark(Mark::EndLink), Part::Text("\n")])
}

/// Writes the number of a step above its mark.
fn write_when(alloc: Global, out: &mut Html, number: u64, place: Point) -> Result<(), AllocError> {
    let words = format!(in alloc; "{number}")?;
    svg::text(out, "when", place, words.as_str())
}

/// Writes the form of a mark, by the reply: a circle where the transaction ends, and else a box.
fn write_form(
    alloc: Global,
    out: &mut Html,
    place: Point,
    txn: Txn,
    reply: &Reply,
) -> Result<(), AllocError> {
    let kind = kind_of(reply);
    let colour = colour_of(txn);
    let class = format!(in alloc; "mark {kind} c{colour}")?;
    match reply {
        Reply::Committed | Reply::Aborted => svg::circle(out, class.as_str(), place, HALF + 1),
        _ => write_box(out, class.as_str(), place),
    }
}

/// Writes a box of a class around a place.
fn write_box(out: &mut Html, class: &str, place: Point) -> Result<(), AllocError> {
    let corner = at(place.x.saturating_sub(HALF), place.y.saturating_sub(HALF));
    svg::rect(out, class, corner, 2 * HALF, 2 * HALF)
}
