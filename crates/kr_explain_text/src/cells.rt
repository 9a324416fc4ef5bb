//! The cells of a schedule: of the row above the steps, and of each step.
ghost use Rattle.std.specs.Prelude.{◌≡◌, ◌++◌, ◌∷◌, [], IfOk, OnOk, map, string_bytes};
ghost use Rattle.kr_model.specs.Locks.{add_once};
ghost use Rattle.kr_explain_text.specs.Steps.{end_cells, head_cells, mark_words, op_cell, row_of, texts, txn_words, txns_of};

use crate::spoken::{answer_text, op_text};
use kr_cases::Memory;
use kr_model::{Event, Reply, Txn};
use std::alloc::Global;

/// The transactions of events, each once, rising.
pub fn txns_of(alloc: Global, events: &[Event]) -> Result<Vec<Txn>, Memory>
    ensures { IfOk result (λ txns. txns.items ≡ txns_of events.now) }
{
    let mut txns = Vec::new(alloc);
    for event in events {
        put_once(&mut txns, event.txn)?;
    }
    Ok(txns)
}

/// Puts a number before the first of the others that is not below it, unless that is the same.
fn put_once(txns: &mut Vec<Txn>, txn: Txn) -> Result<(), Memory>
    ensures { OnOk result (txns.new.items ≡ add_once txn txns.old.items) }
{
    for at in 0..txns.len() {
        let other = txns[at];
        if txn == other {
            return Ok(());
        }
        if txn < other {
            txns.insert(at, txn)?;
            return Ok(());
        }
    }
    txns.push(txn)?;
    Ok(())
}

/// Puts a cell behind the others.
fn put(cells: &mut Vec<String>, cell: String) -> Result<(), Memory>
    ensures { OnOk result (texts cells.new.items ≡ texts cells.old.items ++ string_bytes cell ∷ []) }
{
    cells.push(cell)?;
    Ok(())
}

/// Puts a cell for each of the transactions behind the others.
fn put_txns(alloc: Global, cells: &mut Vec<String>, txns: &[Txn]) -> Result<(), Memory>
    ensures { OnOk result (texts cells.new.items ≡ texts cells.old.items ++ map txn_words txns.now) }
{
    for txn in txns {
        let cell = format!(in alloc; "T{txn}")?;
        put(cells, cell)?;
    }
    Ok(())
}

/// The cells above the steps.
pub fn head_cells(alloc: Global, txns: &[Txn]) -> Result<Vec<String>, Memory>
    ensures { IfOk result (λ cells. texts cells.items ≡ head_cells txns.now) }
{
    let mut cells = Vec::new(alloc);
    let answer = String::from_str(alloc, "answer")?;
    let locks = String::from_str(alloc, "locks afterwards")?;
    put(&mut cells, String::new(alloc))?;
    put_txns(alloc, &mut cells, txns)?;
    put(&mut cells, answer)?;
    put(&mut cells, locks)?;
    Ok(cells)
}

/// The operation of an event, in the column of its transaction alone.
fn op_cell(alloc: Global, event: Event, txn: Txn) -> Result<String, Memory>
    ensures { IfOk result (λ cell. string_bytes cell ≡ op_cell event txn) }
{
    if txn == event.txn {
        op_text(alloc, event.op)
    } else {
        Ok(String::new(alloc))
    }
}

/// Puts the operation of an event behind the other cells, in the column of its transaction.
fn put_op(alloc: Global, cells: &mut Vec<String>, txns: &[Txn], event: Event) -> Result<(), Memory>
    ensures { OnOk result (texts cells.new.items ≡ texts cells.old.items ++ map (op_cell event) txns.now) }
{
    for txn in txns {
        let cell = op_cell(alloc, event, *txn)?;
        put(cells, cell)?;
    }
    Ok(())
}

/// Puts the locks afterwards and the mark of a step behind its other cells, but no empty cell at the end.
fn put_end(cells: &mut Vec<String>, locks: String, mark: String) -> Result<(), Memory>
    ensures { OnOk result (texts cells.new.items ≡ texts cells.old.items ++ end_cells (string_bytes locks) (string_bytes mark)) }
{
    if mark.as_str().is_empty() {
        if locks.as_str().is_empty() {
            return Ok(());
        }
        return put(cells, locks);
    }
    put(cells, locks)?;
    put(cells, mark)
}

/// The cells of a step: its number, its operation in the column of its transaction, its answer, the locks afterwards, and its
/// mark.
pub fn step_cells(
    alloc: Global,
    txns: &[Txn],
    number: usize,
    event: Event,
    reply: &Reply,
    locks: String,
    mark: &str,
) -> Result<Vec<String>, Memory>
    ensures { IfOk result (λ cells. texts cells.items ≡ row_of txns.now number event reply.now (string_bytes locks) mark.now) }
{
    let mut cells = Vec::new(alloc);
    let number = format!(in alloc; "{number}")?;
    let answer = answer_text(alloc, reply)?;
    let mark = String::from_str(alloc, mark)?;
    put(&mut cells, number)?;
    put_op(alloc, &mut cells, txns, event)?;
    put(&mut cells, answer)?;
    put_end(&mut cells, locks, mark)?;
    Ok(cells)
}

/// The mark of the step at a place, from 0.
pub fn mark(weak: usize, let_in: usize, place: usize) -> &'static str
    ensures { result.now ≡ mark_words weak let_in place }
{
    if place == weak {
        "<- too weak"
    } else if place == let_in {
        "<- let in"
    } else {
        ""
    }
}
