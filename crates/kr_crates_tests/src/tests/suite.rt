//! Tests of suites that are made of a table: of one with a single mode that requests nothing, whose changes are told apart by hand.
//! The suites of the tables that come with the checker are in examples/suites, as the built program prints them; a second machine
//! finds the same (`tests/suite`).

use kr_table::{Table, read};
use std::alloc::Global;
use std::test::Fail;

mod parts;
mod tables;

/// The text of a table of one mode in which no row requests anything.
const ASKS_NOTHING: &str =
    "format = 1\nmodes = [\"A\"]\ncompatible = { A = [] }\nconvert = { A = { A = \"A\" } }\nrules = {}\n";

/// The table of one mode in which no row requests anything.
fn asks_nothing(alloc: Global) -> Result<Table, Fail> {
    Ok(read(alloc, ASKS_NOTHING.as_bytes()).map_err(|_| "no table")?)
}
