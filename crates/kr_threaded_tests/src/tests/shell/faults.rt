//! The lines that tell why a word names no table or no script.
use super::{
    Ending, ScriptFault, at_fault, read_script, script_at, table_at, tells, unreadable, whole,
};
use kr_cli_test_support::Shelf;
use std::test::Fail;

/// Words for which nothing is had, with the line.
const WORDS: &[(&str, &str)] = &[
    ("none", "none: cannot be read"),
    ("@file", "@file: cannot be read"),
    ("", ": cannot be read"),
    (
        "\u{7f}\u{9f}\u{a0}é",
        "\\u{7f}\\u{9f}\u{a0}é: cannot be read",
    ),
    ("big", "out of memory"),
];

/// A file without a text.
const EMPTY: Shelf = Shelf(&[("file", "")]);

#[test]
fn nothing_is_had(rt: HostRuntime) -> Result<(), Fail> {
    let alloc = rt.alloc();
    for (word, told) in WORDS {
        let bytes = whole(alloc, *word, &EMPTY, 1).err().ok_or("bytes")?;
        tells(&rt, alloc, bytes, *told)?;
        let table = table_at(alloc, *word, &EMPTY).err().ok_or("a table")?;
        tells(&rt, alloc, table, *told)?;
        let script = script_at(alloc, *word, &EMPTY).err().ok_or("a script")?;
        tells(&rt, alloc, script, *told)?;
    }
    tells(&rt, alloc, unreadable(alloc, "w"), "w: cannot be read")?;
    Ok(())
}

#[test]
fn other_endings(rt: HostRuntime) -> Result<(), Fail> {
    let alloc = rt.alloc();
    tells(&rt, alloc, Ending::NotUnderstood, "words not understood")?;
    tells(&rt, alloc, Ending::Memory, "out of memory")?;
    tells(&rt, alloc, Ending::Place, "place refused")?;
    tells(&rt, alloc, Ending::Output, "output: cannot be written")?;
    tells(
        &rt,
        alloc,
        at_fault(alloc, "w", ScriptFault::Memory),
        "out of memory",
    )?;
    tells(&rt, alloc, Ending::told(alloc, "w", "a\tb"), "w: a\\u{9}b")?;
    Ok(())
}

/// A text that is no table, and the line that tells so, but for control characters as the fault itself shows.
const NO_TABLE: (&str, &str) = ("format = 1\n\"a\\nb\" = 1", "fault 4 Field at a\\u{a}b");

#[test]
fn no_table(rt: HostRuntime) -> Result<(), Fail> {
    let alloc = rt.alloc();
    let (text, told) = NO_TABLE;
    let files = [("file", text)];
    let ending = table_at(alloc, "file", &Shelf(files.as_slice()))
        .err()
        .ok_or("a table")?;
    let line = format!(in alloc; "file: {told}")?;
    tells(&rt, alloc, ending, line.as_str())?;
    let fault = kr_table::read(alloc, text.as_bytes()).err().ok_or("read")?;
    let shown = format!(in alloc; "{fault}")?;
    let shown = shown.as_str().replace(alloc, "\n", "\\u{a}")?;
    assert_eq!(rt; shown.as_str(), told);
    Ok(())
}

/// A text that is no script, and the line that tells so, which the fault itself shows.
const NO_SCRIPT: (&str, &str) = (
    r#"{"format":1,"opening":[[5,1],[5,2]],"steps":[]}"#,
    "fault 5 Opening at 1",
);

#[test]
fn no_script(rt: HostRuntime) -> Result<(), Fail> {
    let alloc = rt.alloc();
    let (text, told) = NO_SCRIPT;
    let files = [("file", text)];
    let ending = script_at(alloc, "file", &Shelf(files.as_slice()))
        .err()
        .ok_or("a script")?;
    let line = format!(in alloc; "file: {told}")?;
    tells(&rt, alloc, ending, line.as_str())?;
    let fault = read_script(alloc, text.as_bytes()).err().ok_or("read")?;
    let shown = format!(in alloc; "{fault}")?;
    assert_eq!(rt; shown.as_str(), told);
    Ok(())
}

#[test]
fn faults_of_long_texts(rt: HostRuntime) -> Result<(), Fail> {
    let alloc = rt.alloc();
    let too_long = at_fault(alloc, "w", ScriptFault::TooLong);
    tells(&rt, alloc, too_long, "w: fault 1 TooLong")?;
    let too_many = ScriptFault::TooMany(String::from_str(alloc, "steps")?);
    tells(
        &rt,
        alloc,
        at_fault(alloc, "w", too_many),
        "w: fault 7 TooMany at steps",
    )?;
    let long = " ".repeat(alloc, 65_537)?;
    let files = [("file", long.as_str())];
    let ending = table_at(alloc, "file", &Shelf(files.as_slice()))
        .err()
        .ok_or("a table")?;
    tells(&rt, alloc, ending, "file: fault 1 TooLong")?;
    Ok(())
}
