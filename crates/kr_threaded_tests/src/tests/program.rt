//! Calls of `kr check`, `run`, `judge` and `threads`, each kind once, with what it leaves on its two streams; `tests/rows` has all
//! that they print.
use super::calls::{ASKS_NOTHING as PLAIN, left_by, output_fails};
use kr_cli_test_support::{Left, Shelf};
use std::alloc::{AllocError, Global};
use std::process::Abort;
use std::sync::Wait;
use std::test::Fail;
use std::thread::Threads;

mod ample;
mod checks;
mod covered;
mod faults;
mod pairs;
mod scripts;
mod threads;
mod verdicts;
mod words;

/// The files of a call: a table named `table`, a script named `s`, and two scripts that are always there.
fn files_of<'a>(table: &'a str, script: &'a str) -> [(&'a str, &'a str); 4] {
    [
        ("table", table),
        ("s", script),
        ("a.json", PHANTOM),
        ("b.json", SPLIT),
    ]
}

/// A script that reads a gap and then inserts into it, by two transactions.
const PHANTOM: &str =
    r#"{"format":1,"opening":[[10,1],[20,2],[30,3]],"steps":[[1,"fetch",15],[2,"insert",17,5]]}"#;

/// A script whose first transaction reads a gap and splits it, and whose second inserts into the part that was read.
const SPLIT: &str =
    r#"{"format":1,"opening":[[10,1],[20,2],[30,3]],"steps":[[1,"fetch",12],[1,"insert",15,5],[2,"insert",12,7],[2,"commit"],[1,"commit"]]}"#;

/// A run of the program: its words, its files, its status, and the lines that it leaves on its two streams, without the line
/// feed that ends the last of them.
#[derive(Clone, Copy)]
struct Row<'a> {
    name: &'a str,
    words: &'a [&'a str],
    table: &'a str,
    script: &'a str,
    status: u8,
    out: &'a str,
    err: &'a str,
}

/// A run of the script under key-value locking.
const RUN: Row = Row {
    name: "",
    words: &["run", "@kvl", "s"],
    table: "",
    script: "",
    status: 0,
    out: "",
    err: "",
};

/// These lines, each with the line feed that ends it.
fn with_line_feed(alloc: Global, lines: &str) -> Result<String, AllocError> {
    let mut text = String::from_str(alloc, lines)?;
    if !lines.is_empty() {
        text.push('\n')?;
    }
    Ok(text)
}

/// Compares what the program left with what a row says.
fn compare<R: AllocGlobal + Abort>(rt: &R, row: &Row, ran: &Left) -> Result<(), Fail> {
    let alloc = rt.alloc();
    let out = with_line_feed(alloc, row.out)?;
    let err = with_line_feed(alloc, row.err)?;
    let name = row.name;
    assert_eq!(rt; ran.status, row.status, "{name}");
    assert_eq!(rt; ran.out.as_slice(), out.as_str().as_bytes(), "{name}");
    assert_eq!(rt; ran.err.as_slice(), err.as_str().as_bytes(), "{name}");
    Ok(())
}

/// Runs the program as a row says, and compares what it leaves.
fn leaves<R: AllocGlobal + Threads + Wait + Sync + Abort>(rt: &R, row: &Row) -> Result<(), Fail> {
    let files = files_of(row.table, row.script);
    let left = left_by(rt, row.words, &Shelf(files.as_slice()))?;
    compare(rt, row, &left)
}

/// Runs the program as each row says.
fn each_leaves<R: AllocGlobal + Threads + Wait + Sync + Abort>(
    rt: &R,
    rows: &[Row],
) -> Result<(), Fail> {
    for row in rows {
        leaves(rt, row)?;
    }
    Ok(())
}
