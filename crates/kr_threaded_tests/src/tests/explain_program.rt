//! Calls of `kr explain`, each kind once, with what it leaves on its two streams; `tests/rows` has all that it prints.
use super::calls::{left_by, output_fails};
use kr_cli_test_support::Shelf;
use std::process::Abort;
use std::sync::Wait;
use std::test::Fail;
use std::thread::Threads;

/// A scan gives up the lock on each key that it finds: the table is rejected, by one cause.
const SHORT_SCAN: &str = r#"format = 1
modes = ["S", "X"]
compatible = { S = ["S"], X = [] }
convert = { S = { S = "S", X = "X" }, X = { S = "X", X = "X" } }

[rules]
fetch-hit = { current = [{ mode = "S", span = "commit" }] }
fetch-miss = { next = [{ mode = "S", span = "commit" }] }
scan-key = { current = [{ mode = "S", span = "instant" }] }
scan-stop = { next = [{ mode = "S", span = "commit" }] }
insert = { current = [{ mode = "X", span = "commit" }], next = [{ mode = "X", span = "instant" }] }
delete = { current = [{ mode = "X", span = "instant" }], next = [{ mode = "X", span = "commit" }] }
"#;

/// Compares what the program leaves where this table is named `table`: its status, and what it prints on its two streams. At
/// status 2 what helps may stand behind what is expected on the stream of errors.
fn leaves<R: AllocGlobal + Threads + Wait + Sync + Abort>(
    rt: &R,
    words: &[&str],
    table: &str,
    status: u8,
    out: &str,
    err: &str,
) -> Result<(), Fail> {
    let files = [("table", table)];
    let left = left_by(rt, words, &Shelf(files.as_slice()))?;
    assert_eq!(rt; left.out.as_slice(), out.as_bytes(), "{words:?}");
    assert!(rt;
        left.err.as_slice().starts_with(err.as_bytes()),
        "{words:?}"
    );
    assert!(rt; status == 2 || left.err.is_empty(), "{words:?}");
    assert_eq!(rt; left.status, status, "{words:?}");
    Ok(())
}

/// The script of the short scan's cause.
const SHORT_SCAN_SCRIPT: &str =
    "{\"format\":1,\"opening\":[[10,1],[20,2],[30,3]],\"steps\":[[1,\"scan\",15,20],[2,\"delete\",20],[2,\"commit\"],[1,\"fetch\",20],[1,\"commit\"]]}\n";

/// Words where the short scan is named `table`, with the status and what is printed.
const ANSWERS: &[(&[&str], u8, &str)] = &[
    (
        &["explain", "@im"],
        0,
        "accepted: all 61 cases hold. Every run under this table is serializable in commit order.\n",
    ),
    (
        &["explain", "@next-key-ghost"],
        0,
        "accepted: all 135 cases hold. Every run under this table is serializable in commit order.\n",
    ),
    (&["explain", "table", "--script", "1"], 1, SHORT_SCAN_SCRIPT),
    (&["explain", "--version"], 0, "kr 0.9.0\n"),
];

#[test]
fn what_is_asked_for_is_printed(rt: HostRuntime) -> Result<(), Fail> {
    for (words, status, out) in ANSWERS {
        leaves(&rt, *words, SHORT_SCAN, *status, *out, "")?;
    }
    Ok(())
}

/// Words and the text of the file `table`, with the line that is told behind the program's name. To read `big` takes more memory
/// than there is.
const FAULTS: &[(&[&str], &str, &str)] = &[
    (
        &["explain"],
        SHORT_SCAN,
        "words not understood\nusage: kr explain TABLE [--script N]",
    ),
    (&["explain", "none"], SHORT_SCAN, "none: cannot be read"),
    (&["explain", "big"], SHORT_SCAN, "out of memory"),
    (
        &["explain", "big", "--script", "1"],
        SHORT_SCAN,
        "out of memory",
    ),
    (
        &["explain", "table", "--script", "2"],
        SHORT_SCAN,
        "table: no script 2",
    ),
    (
        &["explain", "table", "--script", "1"],
        "format = 4",
        "table: fault 3 Format",
    ),
];

#[test]
fn faults_are_told(rt: HostRuntime) -> Result<(), Fail> {
    for (words, table, told) in FAULTS {
        let line = format!(in rt.alloc(); "kr: {told}\n")?;
        leaves(&rt, *words, *table, 2, "", line.as_str())?;
    }
    Ok(())
}

/// The short scan, which is named `table`.
const SHELF: Shelf = Shelf(&[("table", SHORT_SCAN)]);

#[test]
fn output_that_fails(rt: HostRuntime) -> Result<(), Fail> {
    for words in [
        ["explain", "@kvl"].as_slice(),
        ["explain", "table", "--script", "1"].as_slice(),
        ["explain", "--help"].as_slice(),
        ["explain", "--version"].as_slice(),
    ] {
        output_fails(&rt, words, &SHELF)?;
    }
    Ok(())
}
