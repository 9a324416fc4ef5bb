//! Calls of `kr relax`, each kind once, with what it leaves on its two streams; `tests/rows` has all that it prints.
use super::calls::{ASKS_NOTHING, left_by, output_fails};
use kr_cli_tables::{RelaxAsked, RelaxWanted, read_relax_words};
use kr_cli_test_support::{Shelf, owned};
use kr_table::bundled::IM;
use std::test::Fail;

/// A table under which schedules go wrong, and a text that is none.
const SHELF: Shelf = Shelf(&[("nothing", ASKS_NOTHING), ("im", IM), ("bad", "format = 4")]);

/// Words that aren't understood.
const NOT_UNDERSTOOD: &str =
    "kr: words not understood\nusage: kr relax TABLE [--write | --why ENTRY]\n";

/// Words, with the status and what is left on the two streams; of faults the first line.
const CALLS: [(&[&str], u8, &str, &str); 12] = [
    (
        &["relax", "im"],
        0,
        "tight: no single entry can be relaxed\n",
        "",
    ),
    (&["relax", "--version"], 0, "kr 0.9.0\n", ""),
    (&["relax"], 2, "", NOT_UNDERSTOOD),
    (&["relax", "--write"], 2, "", NOT_UNDERSTOOD),
    (&["relax", "@im", "--writes"], 2, "", NOT_UNDERSTOOD),
    (&["relax", "im", "--why"], 2, "", NOT_UNDERSTOOD),
    (
        &["relax", "im", "--why", "a b"],
        2,
        "",
        "kr: im: no entry a b\n",
    ),
    (&["relax", "nothing", "--why", "a b"], 2, "", UNSAFE),
    (&["relax", "nothing"], 2, "", UNSAFE),
    (&["relax", "nothing", "--write"], 2, "", UNSAFE),
    (
        &["relax", "missing"],
        2,
        "",
        "kr: missing: cannot be read\n",
    ),
    (
        &["relax", "bad", "--write"],
        2,
        "",
        "kr: bad: fault 3 Format\n",
    ),
];

/// Of a table under which schedules go wrong.
const UNSAFE: &str = "kr: nothing: not safe; see kr explain nothing\n";

#[test]
fn each_call_leaves_its_lines(rt: HostRuntime) -> Result<(), Fail> {
    for (words, status, out, err) in CALLS {
        let left = left_by(&rt, words, &SHELF)?;
        assert_eq!(rt; left.out.as_slice(), out.as_bytes(), "{words:?}");
        assert!(rt;
            left.err.as_slice().starts_with(err.as_bytes()),
            "{words:?}"
        );
        assert!(rt; status == 2 || left.err.is_empty(), "{words:?}");
        assert_eq!(rt; left.status, status, "{words:?}");
    }
    Ok(())
}

#[test]
fn a_tightest_table_is_written(rt: HostRuntime) -> Result<(), Fail> {
    let left = left_by(&rt, ["relax", "im", "--write"].as_slice(), &SHELF)?;
    assert!(rt; left.out.starts_with(b"format = 1\nmodes = ["));
    assert!(rt; left.err.is_empty());
    assert_eq!(rt; left.status, 0);
    Ok(())
}

#[test]
fn it_says_why_an_entry_is_as_it_is(rt: HostRuntime) -> Result<(), Fail> {
    let words = ["relax", "im", "--why", "X beside S"];
    let left = left_by(&rt, words.as_slice(), &SHELF)?;
    assert!(rt;
        left.out
            .starts_with(b"X beside S: yes\n   not safe, as this goes wrong\n   {")
    );
    assert!(rt; left.err.is_empty());
    assert_eq!(rt; left.status, 0);
    Ok(())
}

#[test]
fn output_that_fails(rt: HostRuntime) -> Result<(), Fail> {
    for words in [
        ["relax", "im"].as_slice(),
        ["relax", "--help"].as_slice(),
        ["relax", "--version"].as_slice(),
    ] {
        output_fails(&rt, words, &SHELF)?;
    }
    Ok(())
}

#[test]
fn words_are_read(rt: HostRuntime) -> Result<(), Fail> {
    let words = owned(rt.alloc(), ["t", "--write"].as_slice())?;
    let asked = RelaxAsked {
        table: "t",
        wanted: RelaxWanted::Tightest,
    };
    assert!(rt; read_relax_words(words.as_slice()).is_ok_and(|it| it == asked));
    let words = owned(rt.alloc(), ["t", "--why", "--write"].as_slice())?;
    let asked = RelaxAsked {
        table: "t",
        wanted: RelaxWanted::Why("--write"),
    };
    assert!(rt; read_relax_words(words.as_slice()).is_ok_and(|it| it == asked));
    Ok(())
}
