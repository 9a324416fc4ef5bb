//! The bars of a step: the locks that are held after it, and those that it requested and wasn't granted.

use crate::asked::Asked;
use crate::columns::Columns;
use crate::scene::KeyState;
use kr_locks::Memory;
use kr_model::{Mode, Name, Txn};
use kr_protocol::{Protocol, name_or_empty};
use std::alloc::Global;

/// How many classes of colours there are.
const COLOURS: u32 = 6;

/// The line of a bar: those of a transaction are below each other, so that no bar covers another.
#[derive(Clone, Copy, PartialEq, Eq, PartialOrd, Ord)]
pub struct BarLine {
    pub txn: Txn,
    /// 0 for bars on present names, and 2 for a request of what its transaction holds already in another mode; 1 more for
    /// bars on absent keys.
    pub layer: u8,
}

/// A lock, or a request that wasn't granted, on the name of a column.
#[derive(Drop)]
pub struct Bar {
    pub line: BarLine,
    pub column: usize,
    /// How many columns the bar reaches over: a lock protects its key and the gap from the next name below. 0 on an absent key,
    /// where it protects the place of the key alone.
    pub reach: usize,
    /// The name of the mode.
    pub mode: String,
    pub kind: BarKind,
}

impl Bar {
    /// The holder and the mode, and with a word or a sign whether it conflicts or was requested.
    pub fn words(&self, alloc: Global, is_short: bool) -> Result<String, Memory> {
        let txn = self.line.txn;
        let mode = self.mode.as_str();
        match (self.kind, is_short) {
            (BarKind::Held, _) => format!(in alloc; "{txn} {mode}"),
            (BarKind::Conflicting, false) => format!(in alloc; "{txn} {mode} blocks"),
            (BarKind::Conflicting, true) => format!(in alloc; "{txn} {mode}!"),
            (BarKind::Asked, false) => format!(in alloc; "{txn} asks {mode}"),
            (BarKind::Asked, true) => format!(in alloc; "{txn} {mode}?"),
        }
    }
}

/// What a bar is.
#[derive(Clone, Copy, PartialEq, Eq)]
pub enum BarKind {
    /// A lock.
    Held,
    /// A lock that conflicts with what was requested.
    Conflicting,
    /// A request that wasn't granted.
    Asked,
}

/// The class of a transaction's colour.
pub fn colour_of(txn: Txn) -> u32 {
    txn % COLOURS
}

/// How many columns a lock on the name of a column reaches over.
fn reach_of(keys: &[KeyState], column: usize) -> usize {
    if let Some(key) = keys.get(column) {
        if !key.is_name() {
            return 0;
        }
    }
    let mut reach: usize = 1;
    for key in keys.get(..column).unwrap_or(&[]) {
        reach = if key.is_name() {
            1
        } else {
            reach.saturating_add(1)
        };
    }
    reach
}

/// The line of a transaction's bar that reaches so far, and is below another of its bars on the same name or not.
fn line_of(txn: Txn, is_second: bool, reach: usize) -> BarLine {
    let layer = match (is_second, reach) {
        (false, 0) => 1,
        (false, _) => 0,
        (true, 0) => 3,
        (true, _) => 2,
    };
    BarLine { txn, layer }
}

/// Whether a lock conflicts with what was requested.
fn conflicts(asked: &[Asked], name: Name, txn: Txn) -> bool {
    for request in asked {
        if request.name == name && request.blockers.as_slice().contains(&txn) {
            return true;
        }
    }
    false
}

/// Adds a bar for each lock on a name that has a column.
pub fn push_held<P: Protocol>(
    alloc: Global,
    protocol: &P,
    columns: &Columns,
    keys: &[KeyState],
    locks: &[((Name, Txn), Mode)],
    asked: &[Asked],
    bars: &mut Vec<Bar>,
) -> Result<(), Memory> {
    for ((name, txn), mode) in locks {
        if let Some(column) = columns.of(*name) {
            let reach = reach_of(keys, column);
            let kind = if conflicts(asked, *name, *txn) {
                BarKind::Conflicting
            } else {
                BarKind::Held
            };
            bars.push(Bar {
                line: line_of(*txn, false, reach),
                column,
                reach,
                mode: String::from_str(alloc, name_or_empty(protocol, *mode))?,
                kind,
            })?;
        }
    }
    Ok(())
}

/// Whether a transaction has a bar on the name of a column.
fn has_bar(bars: &[Bar], txn: Txn, column: usize) -> bool {
    for bar in bars {
        if bar.line.txn == txn && bar.column == column {
            return true;
        }
    }
    false
}

/// Adds a bar for each lock that a transaction requested and wasn't granted. What nobody's lock conflicts with is told in
/// words alone.
pub fn push_asked<P: Protocol>(
    alloc: Global,
    protocol: &P,
    columns: &Columns,
    keys: &[KeyState],
    txn: Txn,
    asked: &[Asked],
    bars: &mut Vec<Bar>,
) -> Result<(), Memory> {
    for request in asked {
        let is_blocked = !request.blockers.is_empty();
        if let (true, Some(column)) = (is_blocked, columns.of(request.name)) {
            let reach = reach_of(keys, column);
            let is_second = has_bar(bars.as_slice(), txn, column);
            bars.push(Bar {
                line: line_of(txn, is_second, reach),
                column,
                reach,
                mode: String::from_str(alloc, name_or_empty(protocol, request.mode))?,
                kind: BarKind::Asked,
            })?;
        }
    }
    Ok(())
}
