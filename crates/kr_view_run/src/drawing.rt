//! The drawing of a step: the line of names, and below it the locks, with a line for each transaction.

use crate::svg;
use crate::svg::at;
use kr_locks::Memory;
use kr_view_scenes::{
    Bar, BarKind, BarLine, Columns, Html, KeyState, Layout, Mark, Part, Scene, bar_width, colour_of,
};
use std::alloc::{AllocError, Global};
use std::collections::BTreeSet;

/// Where the names of keys stand, the line of names, the values, and what is told below them.
const NAMES: u64 = 24;

const AXIS: u64 = 38;

const VALUES: u64 = 65;

const NOTES: u64 = 81;

/// Where the first line of locks begins, how much lower it is below notes, and how far lines are from each other.
const ROWS_TOP: u64 = 75;

const NOTE_HIGH: u64 = 16;

const ROW_HIGH: u64 = 26;

/// How far a text stands below the top of its bar, and right of it.
const BASELINE: u64 = 16;

const INDENT: u64 = 7;

/// Writes the drawing of a step.
pub fn write_drawing(
    alloc: Global,
    columns: &Columns,
    layout: &Layout,
    scene: &Scene,
    out: &mut Html,
) -> Result<(), Memory> {
    let lines = lines_of(alloc, scene.bars.as_slice())?;
    let top = if scene.has_notes() {
        ROWS_TOP + NOTE_HIGH
    } else {
        ROWS_TOP
    };
    let high = (lines.len() as u64)
        .saturating_mul(ROW_HIGH)
        .saturating_add(top);
    let number = scene.number;
    let label = format!(in alloc; "keys and locks after step {number}")?;
    svg::open(out, layout.across(), high, label.as_str())?;
    write_line(alloc, columns, layout, scene, out)?;
    write_labels(alloc, layout, lines.as_slice(), top, out)?;
    for bar in &scene.bars {
        write_bar(
            alloc,
            layout,
            bar,
            top_of(lines.as_slice(), top, bar.line),
            out,
        )?;
    }
    svg::close(out)
}

/// The lines of some bars: transactions rise, and the locks of each come before what it requested.
fn lines_of(alloc: Global, bars: &[Bar]) -> Result<Vec<BarLine>, Memory> {
    let mut set = BTreeSet::new(alloc);
    for bar in bars {
        set.insert(bar.line)?;
    }
    let mut lines = Vec::new(alloc);
    for line in &set {
        lines.push(*line)?;
    }
    Ok(lines)
}

/// Where a line begins.
fn top_of(lines: &[BarLine], top: u64, line: BarLine) -> u64 {
    match lines.binary_search(&line) {
        Ok(at) => (at as u64).saturating_mul(ROW_HIGH).saturating_add(top),
        Err(_) => top,
    }
}

/// Writes the numbers of the transactions at the left of their first lines.
fn write_labels(
    alloc: Global,
    layout: &Layout,
    lines: &[BarLine],
    top: u64,
    out: &mut Html,
) -> Result<(), AllocError> {
    let mut labelled = None;
    for line in lines {
        let txn = line.txn;
        if labelled != Some(txn) {
            let y = top_of(lines, top, *line).saturating_add(BASELINE);
            let label = format!(in alloc; "T{txn}")?;
            svg::text(out, "label", at(0, y), label.as_str())?;
        }
        labelled = Some(txn);
    }
    Ok(())
}

/// Writes a bar whose line begins here.
fn write_bar(
    alloc: Global,
    layout: &Layout,
    bar: &Bar,
    y: u64,
    out: &mut Html,
) -> Result<(), AllocError> {
    let colour = colour_of(bar.line.txn);
    let kind = match bar.kind {
        BarKind::Held => "held",
        BarKind::Conflicting => "held refuses",
        BarKind::Asked => "asked",
    };
    let class = format!(in alloc; "{kind} c{colour}")?;
    let (from, to) = layout.ends(bar);
    let wide = to.saturating_sub(from);
    svg::rect(out, class.as_str(), at(from, y), wide, ROW_HIGH - 4)?;
    let place = at(from.saturating_add(INDENT), y.saturating_add(BASELINE));
    let mut words = bar.words(alloc, false)?;
    if bar_width(words.len() as u64) > wide {
        words = bar.words(alloc, true)?;
    }
    svg::text(out, "bar", place, words.as_str())
}

/// Writes the line of names, with a tick for each name, and marks where a key came, went or changed.
fn write_line(
    alloc: Global,
    columns: &Columns,
    layout: &Layout,
    scene: &Scene,
    out: &mut Html,
) -> Result<(), Memory> {
    let end = layout.end();
    svg::line(out, "axis", at(layout.left, AXIS), at(end, AXIS))?;
    for (column, (key, state)) in columns.keys.iter().zip(scene.keys.iter()).enumerate() {
        let x = layout.tick(column);
        if scene.touched == Some(*key) {
            write_pointer(out, x)?;
        }
        write_key(alloc, x, *key, *state, out)?;
    }
    write_tick(out, "tick end", end)?;
    svg::text(out, "key", at(end, NAMES), "end")
}

/// Writes the triangle above the key that a step names.
fn write_pointer(out: &mut Html, x: u64) -> Result<(), AllocError> {
    out.put(&[
        Part::Mark(Mark::Pointer),
        Part::Number(x),
        Part::Mark(Mark::EndPointer),
    ])
}

/// Writes a key with its value and what is told of it.
fn write_key(
    alloc: Global,
    x: u64,
    key: u64,
    state: KeyState,
    out: &mut Html,
) -> Result<(), AllocError> {
    if state == KeyState::Untold {
        return Ok(());
    }
    let class = if state.value().is_some() {
        "key"
    } else {
        "key absent"
    };
    let name = format!(in alloc; "{key}")?;
    svg::text(out, class, at(x, NAMES), name.as_str())?;
    write_sign(x, state, out)?;
    let mut y = VALUES;
    if let Some(value) = state.value() {
        let words = format!(in alloc; "={value}")?;
        svg::text(out, "value", at(x, y), words.as_str())?;
        y = NOTES;
    }
    let class = if matches!(state, KeyState::Absent | KeyState::Ghost) {
        "value"
    } else {
        "value mark"
    };
    match state.note() {
        "" => Ok(()),
        note => svg::text(out, class, at(x, y), note),
    }
}

/// Writes the sign of a key on the line of names: a tick where it is present, a dashed one where it is a ghost, a cross where
/// it went, and a circle where it is absent; a key that came has a ring around its tick.
fn write_sign(x: u64, state: KeyState, out: &mut Html) -> Result<(), AllocError> {
    let place = at(x, AXIS);
    match state {
        KeyState::Kept(_) | KeyState::Changed(_) => write_tick(out, "tick", x),
        KeyState::Came(_) | KeyState::Revived(_) => {
            write_tick(out, "tick", x)?;
            svg::circle(out, "came", place, 9)
        }
        KeyState::Gone | KeyState::Purged => write_cross(x, out),
        KeyState::Ghost => write_tick(out, "tick end", x),
        KeyState::BecameGhost => {
            write_tick(out, "tick end", x)?;
            write_cross(x, out)
        }
        KeyState::Absent => svg::circle(out, "none", place, 4),
        KeyState::Untold => Ok(()),
    }
}

/// Writes the cross where a key went.
fn write_cross(x: u64, out: &mut Html) -> Result<(), AllocError> {
    out.put(&[
        Part::Mark(Mark::Gone),
        Part::Number(x),
        Part::Text(","),
        Part::Number(AXIS),
        Part::Mark(Mark::EndGone),
    ])
}

/// Writes a tick of a class.
fn write_tick(out: &mut Html, class: &str, x: u64) -> Result<(), AllocError> {
    let top = at(x, AXIS - 10);
    svg::line(out, class, top, at(x, AXIS + 10))
}
