//! Calls of the program, and a table that several of them name.
use kr_cli::Files;
use kr_cli_test_support::{Full, Left, owned};
use kr_program::execute;
use kr_sink::Io;
use kr_trace_parts::Traces;
use std::alloc::AllocError;
use std::process::Abort;
use std::sync::Wait;
use std::test::Fail;
use std::thread::Threads;

/// A table of one mode in which no row requests anything: it is rejected, and schedules go wrong under it.
pub const ASKS_NOTHING: &str =
    "format = 1\nmodes = [\"A\"]\ncompatible = { A = [] }\nconvert = { A = { A = \"A\" } }\nrules = {}\n";

/// What the program leaves, called with these words, of which the first is the command.
pub fn left_by<R: AllocGlobal + Threads + Wait + Sync, F: Files + Traces + Sync>(
    rt: &R,
    words: &[&str],
    files: &F,
) -> Result<Left, AllocError> {
    let alloc = rt.alloc();
    let words = owned(alloc, words)?;
    let mut out = Io::new(Vec::new(alloc));
    let mut err = Io::new(Vec::new(alloc));
    let status = execute(rt, alloc, words.as_slice(), files, &mut out, &mut err);
    Left::on(alloc, status, &out, &err)
}

/// Compares what the program leaves where its output takes nothing: one line and status 2, which is the same where no line is taken
/// either.
pub fn output_fails<R: AllocGlobal + Threads + Wait + Sync + Abort, F: Files + Traces + Sync>(
    rt: &R,
    words: &[&str],
    files: &F,
) -> Result<(), Fail> {
    let alloc = rt.alloc();
    let given = owned(alloc, words)?;
    let mut err = Io::new(Vec::new(alloc));
    let status = execute(rt, alloc, given.as_slice(), files, &mut Full, &mut err);
    assert_eq!(rt; status, 2, "{words:?}");
    assert_eq!(rt;
        err.writer().as_slice(),
        b"kr: output: cannot be written\n".as_slice(),
        "{words:?}"
    );
    let told_nowhere = execute(rt, alloc, given.as_slice(), files, &mut Full, &mut Full);
    assert_eq!(rt; told_nowhere, 2, "{words:?}");
    Ok(())
}
