//! Tables with ample memory, none of which answers out of memory: each number of modes read, written and read back, with
//! matrices that aren't symmetric.

use super::bundled::is_read_back;
use super::faults::tells;
use kr_protocol::{Mode, Protocol, Row, Side, Span};
use kr_table::{Table, read};
use std::alloc::{AllocError, Global};
use std::process::Abort;
use std::test::Fail;

/// The mode that a mode is converted to, where there are so many.
fn converted(count: u8, held: u8, requested: u8) -> u8 {
    let sum = held as u32 + 2 * requested as u32;
    let above = sum.checked_rem(count as u32).unwrap_or(0);
    u8::try_from(above).unwrap_or(0).saturating_add(1)
}

/// The names of the modes from the first to the last, as an array.
fn names(alloc: Global, first: u8, last: u8) -> Result<String, AllocError> {
    let mut list = String::from_str(alloc, "[")?;
    for mode in first..=last {
        list.push_str(format!(in alloc; "\"M{mode}\",")?.as_str())?;
    }
    list.push(']')?;
    Ok(list)
}

/// What each mode is converted to, as the members of a table.
fn conversions(alloc: Global, count: u8, held: u8) -> Result<String, AllocError> {
    let mut entries = format!(in alloc; "[convert.M{held}]\n")?;
    for requested in 1..=count {
        let to = converted(count, held, requested);
        entries.push_str(format!(in alloc; "M{requested} = \"M{to}\"\n")?.as_str())?;
    }
    Ok(entries)
}

/// A table of so many modes, in one of the two formats: a mode is compatible with itself and those after it, an insert asks
/// on the next name for the own mode there, and an update, where there is one, on its key for the last mode.
fn document(alloc: Global, format: u8, count: u8) -> Result<String, AllocError> {
    let mut text = format!(in alloc;
        "format = {format}\nmodes = {}\n[compatible]\n",
        names(alloc, 1, count)?
    )?;
    for mode in 1..=count {
        let beside = names(alloc, mode, count)?;
        text.push_str(format!(in alloc; "M{mode} = {beside}\n")?.as_str())?;
    }
    for held in 1..=count {
        text.push_str(conversions(alloc, count, held)?.as_str())?;
    }
    text.push_str("[rules.insert]\nnext = [")?;
    for own in 1..=count {
        let clause = format!(in alloc;
            "{{ own = [\"M{own}\"], mode = \"M{own}\", span = \"instant\" }},"
        )?;
        text.push_str(clause.as_str())?;
    }
    text.push_str("]\n")?;
    if format == 2 {
        let clause = format!(in alloc; "{{ mode = \"M{count}\", span = \"commit\" }}")?;
        text.push_str(format!(in alloc; "[rules.update]\ncurrent = [{clause}]\n")?.as_str())?;
    }
    Ok(text)
}

/// Compares what a table of so many modes answers of two of them.
fn answers_of(rt: &impl Abort, table: &Table, count: Mode, one: Mode, other: Mode) {
    same!(rt; table.count(), count);
    if one > table.count() || other > table.count() {
        return;
    }
    let stands = table.ok(one, other);
    let to = table.convert(one, other);
    same!(rt; stands, one <= other, (count, one, other));
    same!(rt; to, converted(count, one, other), (count, one, other));
}

/// Compares what a table of so many modes in a format requests.
fn asks(rt: &impl Abort, table: &Table, format: u8, count: Mode, own: Mode) {
    if own > table.count() {
        return;
    }
    let insert = table.ask(Row::Insert, Side::Next, own);
    same!(rt; insert, Some((own, Span::Instant)), (count, own));
    let update = table.ask(Row::Update, Side::Current, 0);
    same!(rt;
        update,
        (format == 2).then_some((count, Span::Commit)),
        count
    );
    same!(rt; table.updates(), format == 2, count);
}

/// Compares what a table of so many modes in a format answers.
fn answers(rt: &impl Abort, table: &Table, format: u8, count: Mode) {
    same!(rt; table.count(), count);
    for one in 1..=count {
        for other in 1..=count {
            answers_of(rt, table, count, one, other);
        }
        asks(rt, table, format, count, one);
    }
}

/// Reads a table of so many modes in a format, compares what it answers, and writes it and reads it back.
fn has_modes(rt: &impl Abort, alloc: Global, format: u8, count: Mode) -> Result<(), Fail> {
    let text = document(alloc, format, count)?;
    let table = read(alloc, text.as_bytes())?;
    answers(rt, &table, format, count);
    is_read_back(rt, alloc, text.as_str())
}

/// Compares each number of modes in a format, and what is told of one too many.
fn has_each_number(rt: &impl Abort, alloc: Global, format: u8) -> Result<(), Fail> {
    for count in 1..=15 {
        has_modes(rt, alloc, format, count)?;
    }
    let many = document(alloc, format, 16)?;
    Ok(tells(rt, alloc, many.as_str(), "fault 5 ModeCount")?)
}

#[test]
fn each_number_of_modes(rt: HostRuntime) -> Result<(), Fail> {
    has_each_number(&rt, rt.alloc(), 1)?;
    has_each_number(&rt, rt.alloc(), 2)
}
