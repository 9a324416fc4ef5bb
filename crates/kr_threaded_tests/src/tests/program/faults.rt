//! Faults of tables, scripts and output, memory that is refused, and the lines that tell them.
use super::{PHANTOM, RUN, Row, Shelf, each_leaves, files_of, leaves, output_fails};
use std::process::Abort;
use std::sync::Wait;
use std::test::Fail;
use std::thread::Threads;

/// A fault, of which one line is told.
const FAULT: Row = Row {
    table: "format = 4",
    script: "{",
    status: 2,
    ..RUN
};

/// The first fault of a table and its scripts is told. To read `big` takes more memory than there is.
#[rattlefmt::skip]
const FAULTS: &[Row] = &[
    Row { name: "a bad table before a bad script",  words: &["run", "table", "s"],                  err: "kr: table: fault 3 Format", ..FAULT },
    Row { name: "a bad script after a serial one",  words: &["judge", "@kvl", "a.json", "s"],       err: "kr: s: fault 2 NotJson",    ..FAULT },
    Row { name: "the first of three faults",        words: &["judge", "@kvl", "s", "t", "big"],     err: "kr: s: fault 2 NotJson",    ..FAULT },
    Row { name: "memory before a bad script",       words: &["judge", "@kvl", "a.json", "big", "s"], err: "kr: out of memory",        ..FAULT },
    Row { name: "memory of a script",               words: &["run", "@kvl", "big"],                 err: "kr: out of memory",         ..FAULT },
    Row { name: "memory of a script by threads",    words: &["threads", "@kvl", "big"],             err: "kr: out of memory",         ..FAULT },
];

#[test]
fn faults_are_told(rt: HostRuntime) -> Result<(), Fail> {
    each_leaves(&rt, FAULTS)
}

/// Runs a text that has a fault as a script, and compares what is told of it.
fn not_json<'a, R: AllocGlobal + Threads + Wait + Sync + Abort>(
    rt: &R,
    script: &'a str,
) -> Result<(), Fail> {
    let row = Row {
        name: script,
        script,
        err: "kr: s: fault 2 NotJson",
        ..FAULT
    };
    leaves(rt, &row)
}

#[test]
fn fronts_of_a_script(rt: HostRuntime) -> Result<(), Fail> {
    for len in 0..PHANTOM.len() {
        let front = PHANTOM.get(..len).ok_or("no front")?;
        not_json(&rt, front)?;
    }
    Ok(())
}

#[test]
fn output_that_fails(rt: HostRuntime) -> Result<(), Fail> {
    let texts = files_of("", "{\"format\":1,\"opening\":[],\"steps\":[]}");
    let files = Shelf(texts.as_slice());
    output_fails(&rt, ["run", "@kvl", "s"].as_slice(), &files)
}
