//! Pages of short runs: whether they tell that the run is serializable, and words that they have and have not; `tests/rows` has
//! more of them.
use kr_script::read_script;
use kr_view_run::picture;
use std::alloc::Global;
use std::test::Fail;

/// The table that requests nothing.
const PLAIN: &str =
    "format = 2\nmodes = [\"A\"]\ncompatible = { A = [] }\nconvert = { A = { A = \"A\" } }\nrules = {}\n";

/// A run with what its page tells.
struct Row<'a> {
    name: &'a str,
    table: &'a str,
    script: &'a str,
    is_serial: bool,
    /// What the page has.
    words: &'a [&'a str],
    /// What it has not.
    absent: &'a [&'a str],
}

const ROWS: &[Row] = &[
    Row {
        name: "<script>",
        table: PLAIN,
        script: r#"{"format":1,"opening":[[10,1]],"steps":[]}"#,
        is_serial: true,
        words: &[
            "A run under <code>&lt;script&gt;</code>",
            "Opening map: 10=1.",
        ],
        absent: &["<script>"],
    },
    Row {
        name: "a delete that no lock holds back",
        table: PLAIN,
        script: r#"{"format":1,"opening":[[10,1]],"steps":[[1,"fetch",10],[2,"delete",10],[1,"fetch",10],[2,"commit"],[1,"commit"]]}"#,
        is_serial: false,
        words: &[
            "✗ Not serial.",
            "Operation 1 of transaction 1, fetch 10 (<a href=\"#s1\">step 1</a>), was answered <b>found 1</b>. After",
            "the answer is <b>none there</b>. Transaction 1 committed at <a href=\"#s5\">step 5</a>.",
            "<p class=\"differs\">✗ In a serial run: none there</p>",
            "deleted, was 1",
            ">gone<",
            ">not compared<",
        ],
        absent: &["✓ Serial.", "blocked by"],
    },
];

/// Whether the page of a row's run tells what it should.
fn tells(alloc: Global, row: &Row<'_>) -> Result<bool, Fail> {
    let table = kr_table::read(alloc, row.table.as_bytes()).ok();
    let table = table.ok_or("no table")?;
    let script = read_script(alloc, row.script.as_bytes()).ok();
    let script = script.ok_or("no script")?;
    let (page, is_serial) = picture(alloc, &table, row.name, &script)?;
    for words in row.words {
        if !page.as_str().contains(*words) {
            return Ok(false);
        }
    }
    for words in row.absent {
        if page.as_str().contains(*words) {
            return Ok(false);
        }
    }
    Ok(is_serial == row.is_serial)
}

#[test]
fn each_page_tells_its_run(rt: HostRuntime) -> Result<(), Fail> {
    for row in ROWS {
        let name = row.name;
        assert!(rt; tells(rt.alloc(), row)?, "{name}");
    }
    Ok(())
}
