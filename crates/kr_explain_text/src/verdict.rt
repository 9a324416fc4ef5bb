//! The verdict on a run, in words.

use crate::lists::joined;
use crate::orders::{OtherOrders, orders};
use crate::programs::{committed, operation_of, operation_words};
use crate::spoken::{answer_text, op_text, txns_text};
use crate::wrap::write_joined;
use kr_cases::Memory;
use kr_explain_runs::Counterexample;
use kr_model::{Reply, Txn};
use kr_protocol::Protocol;
use kr_serial::{Ran, Verdict, judge, run_any};
use std::alloc::Global;

/// An operation of a program that the serial run gives another answer to.
#[derive(Clone, Copy)]
struct Difference<'a> {
    txn: Txn,
    /// Its number in the program, from 1.
    operation: u64,
    given: &'a Reply,
    serial: &'a Reply,
}

/// Writes which answer differs, and whether another order would give all of them.
pub fn write_verdict<P: Protocol>(
    alloc: Global,
    protocol: &P,
    out: &mut String,
    script: &Counterexample,
) -> Result<(), Memory> {
    let opening = script.opening.as_slice();
    let ran = run_any(alloc, protocol, opening, script.events.as_slice())?;
    write_judged(alloc, out, &ran)
}

/// Writes the same of a run.
fn write_judged(alloc: Global, out: &mut String, ran: &Ran) -> Result<(), Memory> {
    let verdict = judge(alloc, ran)?;
    write_verdict_of(alloc, out, ran, &verdict)
}

/// Writes the same of a run with this verdict.
fn write_verdict_of(
    alloc: Global,
    out: &mut String,
    ran: &Ran,
    verdict: &Verdict,
) -> Result<(), Memory> {
    match verdict {
        Verdict::Serial => Ok(()),
        Verdict::NotSerial {
            txn,
            operation,
            given,
            serial,
        } => {
            let difference = Difference {
                txn: *txn,
                operation: *operation,
                given,
                serial,
            };
            write_difference(alloc, out, ran, difference)
        }
    }
}

/// Writes the same where an answer differs.
fn write_difference(
    alloc: Global,
    out: &mut String,
    ran: &Ran,
    difference: Difference,
) -> Result<(), Memory> {
    let order = committed(alloc, ran.programs.as_slice())?;
    let differs = difference_sentence(alloc, ran, difference, &order)?;
    if order.len() > 1 {
        write_with_orders(alloc, out, ran, differs.as_str())
    } else {
        write_differing(alloc, out, "", differs.as_str(), "")
    }
}

/// Writes that a run isn't serializable: in commit order or not, which answer differs, and what is known of other orders.
fn write_differing(
    alloc: Global,
    out: &mut String,
    order: &str,
    differs: &str,
    others: &str,
) -> Result<(), Memory> {
    write_joined(
        alloc,
        out,
        &["Not serializable", order, ": ", differs, others],
    )
}

/// Which answer differs, where the transactions committed in this order.
fn difference_sentence(
    alloc: Global,
    ran: &Ran,
    difference: Difference,
    order: &[Txn],
) -> Result<String, Memory> {
    let operation = operation_text(alloc, ran, difference, order.len() == 1)?;
    let given = answer_text(alloc, difference.given)?;
    let way = way_text(alloc, order)?;
    let serial = answer_text(alloc, difference.serial)?;
    difference_words(
        alloc,
        operation.as_str(),
        given.as_str(),
        way.as_str(),
        serial.as_str(),
    )
}

/// The same, of this operation, which returned something, and where the programs run in this way returns something else.
fn difference_words(
    alloc: Global,
    operation: &str,
    given: &str,
    way: &str,
    serial: &str,
) -> Result<String, Memory> {
    joined(
        alloc,
        &[
            operation,
            ", returned ",
            given,
            "; run ",
            way,
            " it returns ",
            serial,
            ".",
        ],
    )
}

/// Which operation it is that another answer is given to, of the only transaction that commits or of one of several.
fn operation_text(
    alloc: Global,
    ran: &Ran,
    difference: Difference,
    is_alone: bool,
) -> Result<String, Memory> {
    let Difference { txn, operation, .. } = difference;
    let op = op_text(alloc, operation_of(ran.programs.as_slice(), txn, operation))?;
    if is_alone {
        operation_of_one(alloc, txn, operation, op.as_str())
    } else {
        operation_words(alloc, txn, operation, op.as_str())
    }
}

/// The operation of this number of the only transaction that commits.
fn operation_of_one(alloc: Global, txn: Txn, operation: u64, op: &str) -> Result<String, Memory> {
    format!(in alloc; "only T{txn} commits. Its operation {operation}, {op}")
}

/// How the programs run that committed in this order, for the answers to be compared.
fn way_text(alloc: Global, order: &[Txn]) -> Result<String, Memory> {
    if order.len() == 1 {
        return String::from_str(alloc, "alone");
    }
    let order = txns_text(alloc, order)?;
    way_words(alloc, order.as_str())
}

/// The same of several.
fn way_words(alloc: Global, order: &str) -> Result<String, Memory> {
    joined(alloc, &["serially in commit order (", order, ")"])
}

/// Writes which answer differs, and what is known of the other orders of the committed programs.
fn write_with_orders(
    alloc: Global,
    out: &mut String,
    ran: &Ran,
    differs: &str,
) -> Result<(), Memory> {
    let others = orders(alloc, ran)?;
    match &others {
        OtherOrders::Gives(order) => write_gives(alloc, out, differs, order),
        OtherOrders::NoneGives => write_differing(
            alloc,
            out,
            "",
            differs,
            " No other serial order gives the answers of this schedule either.",
        ),
        OtherOrders::TooMany => write_differing(
            alloc,
            out,
            " in commit order",
            differs,
            " Other serial orders were not tried: there are too many.",
        ),
    }
}

/// Writes which answer differs, where this order gives all of them.
fn write_gives(
    alloc: Global,
    out: &mut String,
    differs: &str,
    order: &[Txn],
) -> Result<(), Memory> {
    let order = txns_text(alloc, order)?;
    let gives = gives_words(alloc, order.as_str())?;
    write_differing(alloc, out, " in commit order", differs, gives.as_str())
}

/// That an order gives all answers, behind a space.
fn gives_words(alloc: Global, order: &str) -> Result<String, Memory> {
    joined(
        alloc,
        &[
            " The serial order ",
            order,
            " gives the answers of this schedule, but an accepted table guarantees commit order.",
        ],
    )
}
