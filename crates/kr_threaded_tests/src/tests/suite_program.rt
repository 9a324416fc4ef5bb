//! Calls of `kr suite`, each kind once, with what it leaves on its two streams; `tests/rows` has all that it prints, and
//! `examples/suites` whole suites.
use super::calls::{ASKS_NOTHING, left_by, output_fails};
use kr_cli_tables::{SuiteAsked, SuiteWanted, read_suite_words};
use kr_cli_test_support::{Shelf, owned};
use std::test::Fail;

/// A table that is named `nothing`, and a text that is none.
const SHELF: Shelf = Shelf(&[("nothing", ASKS_NOTHING), ("bad", "format = 4")]);

/// The first part of the suite of the table that requests nothing.
const FIRST_PART: &str =
    r#"{"format":1,"opening":[[10,1],[20,2],[30,3],[50,4],[60,5]],"tests":["delete current own none: A commit","delete next own none: A commit"]}
[[1,"insert",40,6],["done"]]
[[1,"delete",40],["deleted",6]]
[[2,"insert",40,7],["done"]]
[[2,"delete",40],["deleted",7]]
"#;

/// Its last.
const LAST_PART: &str =
    r#"{"format":1,"opening":[[10,1],[20,2],[30,3]],"tests":["habit: taking an insert back releases the lock on its key"]}
[[1,"insert",25,9],["done"]]
[[1,"back"],["undone",0]]
[[2,"insert",25,9],["done"]]
[[2,"fetch",25],["found",9]]
"#;

#[test]
fn a_suite_is_printed(rt: HostRuntime) -> Result<(), Fail> {
    let left = left_by(&rt, ["suite", "nothing"].as_slice(), &SHELF)?;
    assert!(rt; left.out.starts_with(FIRST_PART.as_bytes()));
    assert!(rt; left.out.ends_with(LAST_PART.as_bytes()));
    assert!(rt; left.err.is_empty());
    assert_eq!(rt; left.status, 0);
    Ok(())
}

/// Words that aren't understood.
const NOT_UNDERSTOOD: &str = "kr: words not understood\nusage: kr suite TABLE [--left]\n";

/// Words, with the status and what is left on the two streams; of faults the first line.
const CALLS: [(&[&str], u8, &str, &str); 9] = [
    (&["suite", "nothing", "--left"], 0, LEFT_OF_NOTHING, ""),
    (&["suite", "--version"], 0, "kr 0.9.0\n", ""),
    (&["suite"], 2, "", NOT_UNDERSTOOD),
    (&["suite", "--left"], 2, "", NOT_UNDERSTOOD),
    (&["suite", "@im", "--lefts"], 2, "", NOT_UNDERSTOOD),
    (&["suite", "@im", "@kvl"], 2, "", NOT_UNDERSTOOD),
    (
        &["suite", "missing"],
        2,
        "",
        "kr: missing: cannot be read\n",
    ),
    (
        &["suite", "bad", "--left"],
        2,
        "",
        "kr: bad: fault 3 Format\n",
    ),
    (&["suite", "big"], 2, "", "kr: out of memory\n"),
];

/// Who requests nothing holds nothing: a request makes a difference where it is held to commit, by one who holds nothing before.
const LEFT_OF_NOTHING: &str = "alike: A beside A: yes. No schedule comes to it.
alike: fetch-hit current: A instant. No reply differs.
alike: fetch-miss next: A instant. No reply differs.
alike: scan-key current: A instant. No reply differs.
alike: scan-stop next: A instant. No reply differs.
alike: insert current own none: A instant. No reply differs.
alike: insert current own A: A instant. No reply differs.
alike: insert current own A: A commit. No reply differs.
alike: insert next own none: A instant. No reply differs.
alike: insert next own A: A instant. No reply differs.
alike: insert next own A: A commit. No reply differs.
alike: delete current own none: A instant. No reply differs.
alike: delete current own A: A instant. No reply differs.
alike: delete current own A: A commit. No reply differs.
alike: delete next own none: A instant. No reply differs.
alike: delete next own A: A instant. No reply differs.
alike: delete next own A: A commit. No reply differs.
25 entries with another value: 8 told apart by 7 parts of 18 steps, 17 alike, 0 left
";

#[test]
fn each_call_leaves_its_lines(rt: HostRuntime) -> Result<(), Fail> {
    for (words, status, out, err) in CALLS {
        let left = left_by(&rt, words, &SHELF)?;
        assert_eq!(rt; left.out.as_slice(), out.as_bytes(), "{words:?}");
        assert!(rt;
            left.err.as_slice().starts_with(err.as_bytes()),
            "{words:?}"
        );
        assert!(rt; status == 2 || left.err.is_empty(), "{words:?}");
        assert_eq!(rt; left.status, status, "{words:?}");
    }
    Ok(())
}

#[test]
fn output_that_fails(rt: HostRuntime) -> Result<(), Fail> {
    for words in [
        ["suite", "nothing"].as_slice(),
        ["suite", "--help"].as_slice(),
        ["suite", "--version"].as_slice(),
    ] {
        output_fails(&rt, words, &SHELF)?;
    }
    Ok(())
}

#[test]
fn words_are_read(rt: HostRuntime) -> Result<(), Fail> {
    let words = owned(rt.alloc(), ["t", "--left"].as_slice())?;
    let asked = SuiteAsked {
        table: "t",
        wanted: SuiteWanted::Left,
    };
    assert!(rt; read_suite_words(words.as_slice()).is_ok_and(|it| it == asked));
    Ok(())
}
