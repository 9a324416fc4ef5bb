//! What each transaction that committed was answered, in commit order, beside the answers of a serial run.

use crate::run::{Difference, Run};
use crate::words::{write_op, write_reply};
use crate::{Html, Mark, Part};
use kr_model::{Op, Program, Reply, Txn};
use std::alloc::AllocError;

/// How many programs are shown, and how many operations of each, the last ones.
const PROGRAMS_SHOWN: usize = 200;

const OPERATIONS_SHOWN: usize = 20;

/// Writes the programs in commit order.
pub fn write_commits(run: &Run<'_>, out: &mut Html) -> Result<(), AllocError> {
    out.put(&[
        Part::Mark(Mark::Heading),
        Part::Text("Commit order"),
        Part::Mark(Mark::EndHeading),
    ])?;
    let programs = run.programs.as_slice();
    if programs.is_empty() {
        return out.put(&[
            Part::Mark(Mark::Paragraph),
            Part::Text("No transaction committed."),
            Part::Mark(Mark::EndParagraph),
        ]);
    }
    let hidden = programs.len().saturating_sub(PROGRAMS_SHOWN);
    write_headings(hidden, out)?;
    let difference = run.difference();
    let mut differed = false;
    for (at, program) in programs.iter().enumerate() {
        if at >= hidden {
            write_program(program, difference, differed, out)?;
        }
        differed = differed || matches!(difference, Some(d) if d.txn == program.txn);
    }
    out.mark(Mark::EndTable)?;
    if differed {
        out.put(&[
            Part::Mark(Mark::Note),
            Part::Text("Behind the first difference nothing is compared."),
            Part::Mark(Mark::EndParagraph),
        ])?;
    }
    Ok(())
}

/// Writes the headings of the table of programs, and above it that so many aren't shown.
fn write_headings(hidden: usize, out: &mut Html) -> Result<(), AllocError> {
    if hidden > 0 {
        out.put(&[
            Part::Mark(Mark::Limit),
            Part::Number(hidden as u64),
            Part::Text(" transactions that committed before these aren"),
            Part::Mark(Mark::Apostrophe),
            Part::Text("t shown."),
            Part::Mark(Mark::EndParagraph),
        ])?;
    }
    out.put(&[Part::Mark(Mark::Table), Part::Text("Transaction")])?;
    for heading in &["Operation", "Answer given", "Answer of a serial run"] {
        out.put(&[Part::Mark(Mark::NextHeading), Part::Text(*heading)])?;
    }
    out.mark(Mark::EndHeadings)
}

/// Writes the rows of a program, which stands behind the first difference or not.
fn write_program(
    program: &Program,
    difference: Option<Difference<'_>>,
    differed: bool,
    out: &mut Html,
) -> Result<(), AllocError> {
    let operations = program.operations.as_slice();
    let hidden = operations.len().saturating_sub(OPERATIONS_SHOWN);
    if hidden > 0 || operations.is_empty() {
        write_hidden(program.txn, hidden, out)?;
    }
    let mut differed = differed;
    let mut number: u64 = 0;
    for (at, (op, given)) in operations.iter().enumerate() {
        number = number.saturating_add(1);
        let serial = match difference {
            Some(d) if d.txn == program.txn && d.operation == number => Some(d.serial),
            _ => None,
        };
        if at >= hidden {
            write_asked(program.txn, number, *op, out)?;
            write_answers(given, serial, differed, out)?;
        }
        differed = differed || serial.is_some();
    }
    Ok(())
}

/// Writes that so many operations of a transaction aren't shown.
fn write_hidden(txn: Txn, hidden: usize, out: &mut Html) -> Result<(), AllocError> {
    out.put(&[
        Part::Mark(Mark::Row),
        Part::Text("T"),
        Part::Number(u64::from(txn)),
        Part::Mark(Mark::WideCell),
        Part::Number(hidden as u64),
        Part::Text(" operations, not shown"),
        Part::Mark(Mark::EndRow),
    ])
}

/// Writes the operation of this number of a transaction, from 1.
fn write_asked(txn: Txn, number: u64, op: Op, out: &mut Html) -> Result<(), AllocError> {
    out.put(&[
        Part::Mark(Mark::Row),
        Part::Text("T"),
        Part::Number(u64::from(txn)),
        Part::Mark(Mark::NextCell),
        Part::Number(number),
        Part::Text(". "),
    ])?;
    write_op(out, op)
}

/// Writes the answer that was given, and how it stands to that of a serial run.
fn write_answers(
    given: &Reply,
    serial: Option<&Reply>,
    differed: bool,
    out: &mut Html,
) -> Result<(), AllocError> {
    out.mark(Mark::NextCell)?;
    write_reply(out, given)?;
    write_comparison(serial, differed, out)
}

/// Writes how an answer stands to that of a serial run: the same up to the first difference, and not compared behind it.
fn write_comparison(
    serial: Option<&Reply>,
    differed: bool,
    out: &mut Html,
) -> Result<(), AllocError> {
    match serial {
        Some(reply) => {
            out.put(&[Part::Mark(Mark::DiffersCell), Part::Text("✗ ")])?;
            write_reply(out, reply)?;
            out.mark(Mark::EndRow)
        }
        None => out.put(&[
            Part::Mark(Mark::NextCell),
            Part::Text(if differed { "not compared" } else { "the same" }),
            Part::Mark(Mark::EndRow),
        ]),
    }
}
