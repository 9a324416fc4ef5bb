//! The rows of a schedule with purges: one above the moves, and one for each move.

use crate::held::held_text;
use kr_explain_text::{answer_text, op_text};
use kr_ghost::Move;
use kr_ghost_protocol::GhostProtocol;
use kr_ghost_run::{Answer, GhostRan, run_moves};
use kr_model::{Memory, Txn};
use kr_script::GhostScript;
use std::alloc::Global;

/// The transactions of moves, each once, rising.
fn txns_of(alloc: Global, moves: &[Move]) -> Result<Vec<Txn>, Memory> {
    let mut txns = Vec::new(alloc);
    for next in moves {
        if let Move::Attempt(event) = next {
            if !txns.contains(&event.txn) {
                txns.push(event.txn)?;
            }
        }
    }
    txns.sort()?;
    Ok(txns)
}

/// The rows of a schedule's run.
pub(crate) fn rows_of<P: GhostProtocol>(
    alloc: Global,
    protocol: &P,
    script: &GhostScript,
) -> Result<Vec<Vec<String>>, Memory> {
    let txns = txns_of(alloc, script.moves())?;
    let purges = script.moves().iter().any(is_purge);
    let mut rows = vec![in alloc; head(alloc, &txns, purges)?]?;
    let mut moves = Vec::new(alloc);
    for next in script.moves() {
        moves.push(*next)?;
        let mut cells = cells(alloc, &txns, purges, moves.len(), *next)?;
        put_after(alloc, protocol, script, &moves, &mut cells)?;
        rows.push(cells)?;
    }
    Ok(rows)
}

/// Whether a move is a purge.
fn is_purge(next: &Move) -> bool {
    matches!(next, Move::Purge(_))
}

/// The cells above the moves.
fn head(alloc: Global, txns: &[Txn], purges: bool) -> Result<Vec<String>, Memory> {
    let mut cells = vec![in alloc; String::new(alloc)]?;
    for txn in txns {
        cells.push(format!(in alloc; "T{txn}")?)?;
    }
    if purges {
        cells.push(String::new(alloc))?;
    }
    cells.push(String::from_str(alloc, "answer")?)?;
    cells.push(String::from_str(alloc, "locks afterwards")?)?;
    Ok(cells)
}

/// The cells of a move up to its answer: its number, and what it does, in the column of its transaction or of purges.
fn cells(
    alloc: Global,
    txns: &[Txn],
    purges: bool,
    number: usize,
    next: Move,
) -> Result<Vec<String>, Memory> {
    let mut cells = vec![in alloc; format!(in alloc; "{number}")?]?;
    for txn in txns {
        cells.push(op_cell(alloc, next, *txn)?)?;
    }
    if purges {
        cells.push(purge_cell(alloc, next)?)?;
    }
    Ok(cells)
}

/// Puts the answer to the last of the moves so far behind its other cells, and the locks after it.
fn put_after<P: GhostProtocol>(
    alloc: Global,
    protocol: &P,
    script: &GhostScript,
    moves: &[Move],
    cells: &mut Vec<String>,
) -> Result<(), Memory> {
    let ran = run_moves(alloc, protocol, script.opening(), moves)?;
    put_left(alloc, protocol, &ran, cells)
}

/// Puts behind the other cells what a run of the moves leaves: the answer to the last of them, and the locks after it.
fn put_left<P: GhostProtocol>(
    alloc: Global,
    protocol: &P,
    ran: &GhostRan,
    cells: &mut Vec<String>,
) -> Result<(), Memory> {
    cells.push(last_answer(alloc, ran.answers.as_slice())?)?;
    let held = held_text(alloc, protocol, ran.locks.as_slice())?;
    if !held.as_str().is_empty() {
        cells.push(held)?;
    }
    Ok(())
}

/// The operation of a move, in the column of its transaction alone.
fn op_cell(alloc: Global, next: Move, txn: Txn) -> Result<String, Memory> {
    match next {
        Move::Attempt(event) if event.txn == txn => op_text(alloc, event.op),
        _ => Ok(String::new(alloc)),
    }
}

/// The purge that a move is.
fn purge_cell(alloc: Global, next: Move) -> Result<String, Memory> {
    match next {
        Move::Purge(key) => format!(in alloc; "purge {key}"),
        Move::Attempt(_) => Ok(String::new(alloc)),
    }
}

/// The answer to the last move.
fn last_answer(alloc: Global, answers: &[Answer]) -> Result<String, Memory> {
    match answers.last() {
        Some(Answer::Step(reply)) => answer_text(alloc, reply),
        Some(Answer::Purge(true)) => String::from_str(alloc, "purged"),
        Some(Answer::Purge(false)) => String::from_str(alloc, "kept"),
        None => Ok(String::new(alloc)),
    }
}
