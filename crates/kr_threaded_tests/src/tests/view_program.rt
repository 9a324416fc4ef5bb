//! Calls of `kr view`, each kind once, with what it leaves on its two streams; `tests/rows` has all that it prints.
use super::calls::{ASKS_NOTHING, left_by, output_fails};
use kr_cli_test_support::Shelf;
use std::str;
use std::sync::Wait;
use std::test::Fail;
use std::thread::Threads;

/// A gap is read, and another transaction inserts into it before the first reads it again.
const PHANTOM: &str =
    r#"{"format":1,"opening":[[10,1]],"steps":[[1,"fetch",15],[2,"insert",15,5],[2,"commit"],[1,"fetch",15],[1,"commit"]]}"#;

/// A table that is named `table`, a script that is named `s`, and a text that is neither.
const SHELF: Shelf = Shelf(&[
    ("table", ASKS_NOTHING),
    ("s", PHANTOM),
    ("bad", "format = 4"),
]);

/// Whether the program leaves nothing but this line, behind its name, and what helps on its stream of errors, with status 2.
fn tells<R: AllocGlobal + Threads + Wait + Sync>(
    rt: &R,
    words: &[&str],
    shelf: &Shelf<'_>,
    told: &str,
) -> Result<bool, Fail> {
    let left = left_by(rt, words, shelf)?;
    let line = format!(in rt.alloc(); "kr: {told}\n")?;
    Ok(left.status == 2 && left.out.is_empty() && left.err.as_slice().starts_with(line.as_bytes()))
}

/// Words, with the status, the title of the page and what it says of the verdict.
const PAGES: [(&[&str], u8, &str, &str); 2] = [
    (
        &["view", "@im"],
        0,
        "<title>Table @im</title>",
        "✓</b> accepted: all 61 cases hold.",
    ),
    (
        &["view", "table", "s"],
        1,
        "<title>A run under table</title>",
        "✗ Not serial.",
    ),
];

#[test]
fn a_whole_page_is_printed(rt: HostRuntime) -> Result<(), Fail> {
    for (words, status, title, verdict) in PAGES {
        let left = left_by(&rt, words, &SHELF)?;
        let page = str::from_utf8(left.out.as_slice()).ok();
        let page = page.ok_or("no text")?;
        assert!(rt; page.starts_with("<!DOCTYPE html>\n"), "{title}");
        assert!(rt; page.contains(title), "{title}");
        assert!(rt; page.contains(verdict), "{title}");
        assert!(rt; page.ends_with("</html>\n"), "{title}");
        assert!(rt; left.err.is_empty(), "{title}");
        assert_eq!(rt; left.status, status, "{title}");
    }
    Ok(())
}

#[test]
fn the_version_is_printed(rt: HostRuntime) -> Result<(), Fail> {
    let left = left_by(&rt, ["view", "--version"].as_slice(), &SHELF)?;
    assert_eq!(rt; left.out.as_slice(), b"kr 0.9.0\n".as_slice());
    assert!(rt; left.err.is_empty());
    assert_eq!(rt; left.status, 0);
    Ok(())
}

/// Words, with the line that is told behind the program's name. `bad` is no table and no script, and to read `big` takes more
/// memory than there is.
const FAULTS: &[(&[&str], &str)] = &[
    (
        &["view"],
        "words not understood\nusage: kr view TABLE [SCRIPT]",
    ),
    (&["view", "none", "s"], "none: cannot be read"),
    (&["view", "bad"], "bad: fault 3 Format"),
    (&["view", "@kvl", "bad"], "bad: fault 2 NotJson"),
    (&["view", "big"], "out of memory"),
    (&["view", "big", "s"], "out of memory"),
    (&["view", "@kvl", "big"], "out of memory"),
];

#[test]
fn faults_are_told(rt: HostRuntime) -> Result<(), Fail> {
    for (words, line) in FAULTS {
        assert!(rt; tells(&rt, *words, &SHELF, *line)?, "{line}");
    }
    Ok(())
}

#[test]
fn output_that_fails(rt: HostRuntime) -> Result<(), Fail> {
    for words in [
        ["view", "@kvl"].as_slice(),
        ["view", "@kvl", "s"].as_slice(),
        ["view", "--help"].as_slice(),
        ["view", "--version"].as_slice(),
    ] {
        output_fails(&rt, words, &SHELF)?;
    }
    Ok(())
}
