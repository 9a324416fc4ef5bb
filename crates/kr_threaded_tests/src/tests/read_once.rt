//! The file of a table is read once in a call, and what helps quotes the bytes of that reading.
use super::calls::{ASKS_NOTHING, left_by};
use kr_cli::{Ending, FileFault, Files, Named, first_bytes};
use kr_cli_diagnosis::named_with_help;
use kr_cli_test_support::Shelf;
use kr_trace_parts::{ReadLines, Traces};
use std::alloc::Global;
use std::sync::atomic::AtomicUsize;
use std::sync::atomic::Ordering::SeqCst;
use std::test::Fail;

/// A file `t` that has one text at the first reading and another at each later one. There is no other file, and no trace.
#[derive(Drop)]
struct Changing<'a> {
    first: &'a str,
    later: &'a str,
    readings: AtomicUsize,
}

impl<'a> Changing<'a> {
    fn new(first: &'a str, later: &'a str) -> Changing<'a> {
        Changing {
            first,
            later,
            readings: AtomicUsize::new(0),
        }
    }

    /// How often `t` was read.
    fn readings(&self) -> usize {
        self.readings.load(SeqCst)
    }
}

impl Files for Changing<'_> {
    ghost may_give = { λ _ _ _. Unit {0} };

    fn whole(&self, alloc: Global, word: &str, most: usize) -> Result<Vec<u8>, FileFault> {
        if word != "t" {
            return Err(FileFault::Unreadable);
        }
        let text = match self.readings.fetch_add(1, SeqCst) {
            0 => self.first,
            _ => self.later,
        };
        Ok(first_bytes(alloc, &mut text.as_bytes(), most)?)
    }
}

impl<'a> Traces for Changing<'a> {
    type Lines = ReadLines<&'a [u8]>;

    ghost may_name = { λ _ _ _. Unit {0} };

    fn open(&self, alloc: Global, word: &str) -> Result<ReadLines<&'a [u8]>, FileFault> {
        let _ = alloc;
        let _ = word;
        Err(FileFault::Unreadable)
    }
}

/// A table with ghosts, of one mode, which is accepted.
const WITH_GHOSTS: &str = r#"format = 3
deletes = "ghosts"
modes = ["A"]
compatible = { A = [] }
convert = { A = { A = "A" } }
purge = { A = "A" }

[rules]
fetch-hit = { current = [{ mode = "A", span = "commit" }] }
fetch-miss = { next = [{ mode = "A", span = "commit" }] }
scan-key = { current = [{ mode = "A", span = "commit" }] }
scan-stop = { next = [{ mode = "A", span = "commit" }] }
insert = { current = [{ mode = "A", span = "commit" }], next = [{ mode = "A", span = "instant" }] }
delete = { current = [{ mode = "A", span = "commit" }] }
update = { current = [{ mode = "A", span = "commit" }] }
revive = { current = [{ mode = "A", span = "commit" }] }
"#;

/// No table, and one with ghosts that is none.
const FAULTY: &str = "format = 4\n";

const FAULTY_GHOSTS: &str = "format = 3\n";

/// What helps at the former.
const HELP: &str = concat!(
    "t:1:10: expected 1, 2 for a table that offers updates or, where the program takes it, 3 for one with ghosts\n",
    "  1 | format = 4\n",
    "    |          ^\n",
);

/// The text of `t` when it is read first, and later; what the first is; and what helps.
const TEXTS: [(&str, &str, &str, &str); 4] = [
    (ASKS_NOTHING, FAULTY, "a table", ""),
    (WITH_GHOSTS, FAULTY, "a table with ghosts", ""),
    (FAULTY, ASKS_NOTHING, "none", HELP),
    (FAULTY_GHOSTS, ASKS_NOTHING, "none", ""),
];

/// What a word names.
fn told(named: &Result<Named, Ending>) -> &'static str {
    match named {
        Ok(Named::Table(_)) => "a table",
        Ok(Named::Ghosts(_)) => "a table with ghosts",
        Err(_) => "none",
    }
}

#[test]
fn a_table_is_read_once(rt: HostRuntime) -> Result<(), Fail> {
    for (first, later, what, helps) in TEXTS {
        let files = Changing::new(first, later);
        let mut help = String::new(rt.alloc());
        let named = named_with_help(rt.alloc(), "t", &files, &mut help);
        assert_eq!(rt; told(&named), what, "{first}");
        assert_eq!(rt; help.as_str(), helps, "{first}");
        assert_eq!(rt; files.readings(), 1, "{first}");
    }
    Ok(())
}

/// Calls in which `t` is a table, each with whether what helps is told below the line of a fault.
const CALLS: [(&[&str], bool); 14] = [
    (&["check", "t"], false),
    (&["run", "t", "s"], false),
    (&["judge", "t", "s"], false),
    (&["threads", "t", "s"], false),
    (&["explain", "t"], true),
    (&["explain", "t", "--script", "1"], true),
    (&["view", "t"], true),
    (&["view", "t", "s"], true),
    (&["trace", "t", "l"], true),
    (&["trace", "t", "l", "--tell", "1"], true),
    (&["suite", "t", "--left"], true),
    (&["relax", "t"], true),
    (&["relax", "t", "--write"], true),
    (&["relax", "t", "--why", "insert current"], true),
];

/// Each call leaves what it leaves where `t` keeps its first text.
#[test]
fn each_call_reads_a_table_once(rt: HostRuntime) -> Result<(), Fail> {
    for (words, _) in CALLS {
        for (first, later, _, _) in TEXTS {
            let files = Changing::new(first, later);
            let left = left_by(&rt, words, &files)?;
            assert_eq!(rt; files.readings(), 1, "{words:?} {first}");
            let kept = [("t", first)];
            let wanted = left_by(&rt, words, &Shelf(kept.as_slice()))?;
            assert_eq!(rt;
                left.out.as_slice(),
                wanted.out.as_slice(),
                "{words:?} {first}"
            );
            assert_eq!(rt;
                left.err.as_slice(),
                wanted.err.as_slice(),
                "{words:?} {first}"
            );
            assert_eq!(rt; left.status, wanted.status, "{words:?} {first}");
        }
    }
    Ok(())
}

#[test]
fn help_quotes_the_bytes_that_were_read(rt: HostRuntime) -> Result<(), Fail> {
    for (words, is_helped) in CALLS {
        let files = Changing::new(FAULTY, "format = 5\n");
        let left = left_by(&rt, words, &files)?;
        let help = if is_helped { HELP } else { "" };
        let err = format!(in rt.alloc(); "kr: t: fault 3 Format\n{help}")?;
        assert_eq!(rt; left.err.as_slice(), err.as_str().as_bytes(), "{words:?}");
        assert!(rt; left.out.is_empty(), "{words:?}");
        assert_eq!(rt; left.status, 2, "{words:?}");
        assert_eq!(rt; files.readings(), 1, "{words:?}");
    }
    Ok(())
}
