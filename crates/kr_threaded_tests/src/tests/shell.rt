//! Words on a shelf of one file, and what is had for them.
use kr_cli::{
    AnyTable, Ending, FileFault, at_fault, finish, first_bytes, is_plain, read_file, script_at,
    table_at, unreadable, whole,
};
use kr_script::{ScriptFault, read_script};
use kr_sink::Io;
use std::alloc::{AllocError, Global};
use std::process::Abort;
use std::test::Fail;

mod faults;
mod named;
mod words;

/// A table of one mode, in which no row requests anything.
const TABLE: &str =
    "format = 1\nmodes = [\"A\"]\ncompatible = { A = [] }\nconvert = { A = { A = \"A\" } }\nrules = {}\n";

/// A script of one step.
const SCRIPT: &str = r#"{"format":1,"opening":[[10,1]],"steps":[[1,"fetch",10]]}"#;

/// The line on which the program tells an ending, whose status is 2.
fn line_of(rt: &impl Abort, alloc: Global, ending: Ending) -> Result<Vec<u8>, AllocError> {
    let mut err = Io::new(Vec::new(alloc));
    let status = finish(&Err(ending), "", "", &mut err);
    assert_eq!(rt; status, 2);
    err.writer().to_vec(alloc)
}

/// Compares the line on which an ending is told, behind the program's name.
fn tells(rt: &impl Abort, alloc: Global, ending: Ending, told: &str) -> Result<(), AllocError> {
    let line = line_of(rt, alloc, ending)?;
    let expected = format!(in alloc; "kr: {told}\n")?;
    assert_eq!(rt; line.as_slice(), expected.as_bytes(), "{told}");
    Ok(())
}
