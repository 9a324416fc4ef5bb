//! A schedule that goes wrong, as it is shown: its opening index, its moves, and the first answer that differs.

use crate::rows::rows_of;
use kr_explain_text::{
    answer_text, committed, joined, op_text, operation_of, operation_words, pairs_text, txns_text,
    write_rows,
};
use kr_ghost_protocol::GhostProtocol;
use kr_ghost_run::run_moves;
use kr_judge::{Verdict, judge_programs};
use kr_model::{Memory, Program, Txn};
use kr_script::GhostScript;
use std::alloc::Global;

/// A schedule, behind an empty line.
pub(crate) fn run_text<P: GhostProtocol>(
    alloc: Global,
    protocol: &P,
    script: &GhostScript,
) -> Result<String, Memory> {
    let opening = opening_text(alloc, script.opening())?;
    let mut out = format!(in alloc; "\n\nA schedule that goes wrong. Initial index: {opening}.\n")?;
    let rows = rows_of(alloc, protocol, script)?;
    write_rows(alloc, &mut out, &rows, 12)?;
    let differs = differs_text(alloc, protocol, script)?;
    out.push_str(differs.as_str())?;
    Ok(out)
}

/// The pairs of an opening index.
fn opening_text(alloc: Global, opening: &[(u64, u64)]) -> Result<String, Memory> {
    if opening.is_empty() {
        return String::from_str(alloc, "empty");
    }
    pairs_text(alloc, opening)
}

/// The first answer that differs from that of the serial run.
fn differs_text<P: GhostProtocol>(
    alloc: Global,
    protocol: &P,
    script: &GhostScript,
) -> Result<String, Memory> {
    let ran = run_moves(alloc, protocol, script.opening(), script.moves())?;
    differs_in(alloc, script, ran.programs.as_slice())
}

/// The same, in the run of these programs.
fn differs_in(alloc: Global, script: &GhostScript, programs: &[Program]) -> Result<String, Memory> {
    let verdict = judge_programs(alloc, script.opening(), programs)?;
    differs_by(alloc, programs, &verdict)
}

/// The same, by this verdict.
fn differs_by(alloc: Global, programs: &[Program], verdict: &Verdict) -> Result<String, Memory> {
    match verdict {
        Verdict::Serial => Ok(String::new(alloc)),
        Verdict::NotSerial {
            txn,
            operation,
            given,
            serial,
        } => {
            let operation = operation_text(alloc, programs, *txn, *operation)?;
            let given = answer_text(alloc, given)?;
            let serial = answer_text(alloc, serial)?;
            let order = order_text(alloc, programs)?;
            differs_words(
                alloc,
                operation.as_str(),
                given.as_str(),
                order.as_str(),
                serial.as_str(),
            )
        }
    }
}

/// An operation of a transaction.
fn operation_text(
    alloc: Global,
    programs: &[Program],
    txn: Txn,
    operation: u64,
) -> Result<String, Memory> {
    let op = op_text(alloc, operation_of(programs, txn, operation))?;
    operation_words(alloc, txn, operation, op.as_str())
}

/// That an operation returned something, and in a serial run in this order returns something else.
fn differs_words(
    alloc: Global,
    operation: &str,
    given: &str,
    order: &str,
    serial: &str,
) -> Result<String, Memory> {
    joined(
        alloc,
        &[
            "\n\n   Not serializable: ",
            operation,
            ", returned ",
            given,
            "; run serially in commit order (",
            order,
            ") it\n   returns ",
            serial,
            ".",
        ],
    )
}

/// The transactions that committed, in commit order.
fn order_text(alloc: Global, programs: &[Program]) -> Result<String, Memory> {
    let txns = committed(alloc, programs)?;
    txns_text(alloc, &txns)
}
