//! Calls of `kr trace`, each kind once, with what it leaves on its two streams.
use super::calls::{left_by, output_fails};
use kr_cli_test_support::{Shelf, owned};
use kr_cli_trace::{Asked, read_words};
use kr_trace_parts::{Lines, LinesFault, ReadLines};
use std::io::{Error, ErrorKind, Read};
use std::test::Fail;

/// Two parts. In the first the engine lets an insert into a gap that was read, which is serializable in another order alone; the
/// second conforms.
const PARTS: &str = r#"{"format":1,"opening":[[10,1],[20,2],[30,3]]}
[[1,"fetch",17],["none"]]
[[2,"insert",17,5],["done"]]
[[2,"commit"],["committed"]]
[[1,"commit"],["committed"]]
{"format":1,"opening":[]}

[[1,"insert",17,5],["done"]]
[[1,"commit"],["committed"]]
"#;

/// A part, and a line that is no step.
const FAULTY: &str = r#"{"format":1,"opening":[]}
{"format":1,"opening":[]}
[[1,"get",5],["none"]]
"#;

/// A part that breaks off.
const BROKEN: &str = "{\"format\":1,\"opening\":[]}\n[[1,\"fetch\",5],[\"no";

const SHELF: Shelf = Shelf(&[("t", PARTS), ("faulty", FAULTY), ("broken", BROKEN)]);

/// Words, with the status and what is left on the two streams.
const CALLS: [(&[&str], u8, &str, &str); 8] = [
    (
        &["trace", "--serial", "t"],
        1,
        "{\"part\":1,\"verdict\":[\"not-serial\",1,1,[\"none\"],[\"found\",5]]}\n{\"part\":2,\"verdict\":[\"serial\"]}\n",
        "",
    ),
    (
        &["trace", "--some-order", "t"],
        0,
        "{\"part\":1,\"verdict\":[\"serial\",[1,2]]}\n{\"part\":2,\"verdict\":[\"serial\",[1]]}\n",
        "",
    ),
    (
        &["trace", "--serial", "faulty"],
        2,
        "{\"part\":1,\"verdict\":[\"serial\"]}\n",
        "kr: faulty: fault 6 Step at 3\n",
    ),
    (
        &["trace", "--serial", "broken"],
        2,
        "",
        "kr: broken: fault 2 NotJson at 2\n",
    ),
    (
        &["trace", "--serial", "missing"],
        2,
        "",
        "kr: missing: cannot be read\n",
    ),
    (&["trace", "--serial", "big"], 2, "", "kr: out of memory\n"),
    (
        &["trace", "t"],
        2,
        "",
        "kr: words not understood\nusage: kr trace TABLE TRACE [--tell N] | --serial TRACE | --some-order TRACE\n",
    ),
    (&["trace", "--version"], 0, "kr 0.9.0\n", ""),
];

#[test]
fn each_call_leaves_its_lines(rt: HostRuntime) -> Result<(), Fail> {
    for (words, status, out, err) in CALLS {
        let left = left_by(&rt, words, &SHELF)?;
        assert_eq!(rt; left.out.as_slice(), out.as_bytes(), "{words:?}");
        assert_eq!(rt; left.err.as_slice(), err.as_bytes(), "{words:?}");
        assert_eq!(rt; left.status, status, "{words:?}");
    }
    Ok(())
}

#[test]
fn a_table_is_held_against(rt: HostRuntime) -> Result<(), Fail> {
    let left = left_by(&rt, ["trace", "@kvl", "t"].as_slice(), &SHELF)?;
    let first = b"{\"conforms\":[\"granted\",3,[\"blocked\",[1]],[[20,1,\"S\",".as_slice();
    let last =
        b"{\"conforms\":[\"yes\"],\"part\":2,\"queued\":0,\"verdict\":[\"serial\"]}\n".as_slice();
    assert!(rt; left.out.starts_with(first));
    assert!(rt; left.out.ends_with(last));
    assert_eq!(rt; left.status, 1);
    Ok(())
}

/// The second part as a text.
const SECOND: &str = "Part 2. The initial index is empty.

     line      operation    answer
        8  T1  insert 17 5  done
        9  T1  commit       committed

Each answer is the table's.
Serializable in commit order.
";

#[test]
fn one_part_is_printed(rt: HostRuntime) -> Result<(), Fail> {
    let words = ["trace", "@kvl", "t", "--tell", "2"];
    let left = left_by(&rt, words.as_slice(), &SHELF)?;
    assert_eq!(rt; left.out.as_slice(), SECOND.as_bytes());
    assert_eq!(rt; left.status, 0);
    let words = ["trace", "@kvl", "t", "--tell", "3"];
    let left = left_by(&rt, words.as_slice(), &SHELF)?;
    assert_eq!(rt; left.err.as_slice(), b"kr: t: no part 3\n".as_slice());
    assert_eq!(rt; left.status, 2);
    Ok(())
}

#[test]
fn output_that_is_refused_is_told(rt: HostRuntime) -> Result<(), Fail> {
    output_fails(&rt, ["trace", "--serial", "t"].as_slice(), &SHELF)
}

#[test]
fn words_are_read(rt: HostRuntime) -> Result<(), Fail> {
    let words = owned(rt.alloc(), ["--serial", "t"].as_slice())?;
    assert!(rt; read_words(words.as_slice()).is_ok_and(|asked| asked == Asked::Serial("t")));
    Ok(())
}

#[test]
fn lines_end_at_line_feeds(rt: HostRuntime) -> Result<(), Fail> {
    let mut lines = ReadLines::new(rt.alloc(), b"a\n\nbc".as_slice());
    for line in [b"a".as_slice(), b"".as_slice(), b"bc".as_slice()] {
        let next = lines.next_line(rt.alloc()).map_err(|_| "no line")?;
        assert!(rt; next.is_some_and(|next| next.as_slice() == line));
    }
    assert!(rt; lines.next_line(rt.alloc()).is_ok_and(|next| next.is_none()));
    Ok(())
}

/// A reader that gives a line, and then fails.
#[derive(Drop)]
struct Fails {
    given: bool,
}

impl Read for Fails {
    fn read(&mut self, buf: &mut [u8]) -> Result<usize, Error> {
        if self.given || buf.is_empty() {
            return Err(Error::from(ErrorKind::Other));
        }
        self.given = true;
        buf[0] = b'\n';
        Ok(1)
    }
}

#[test]
fn a_read_that_fails_is_told(rt: HostRuntime) -> Result<(), Fail> {
    let mut lines = ReadLines::new(rt.alloc(), Fails { given: false });
    assert!(rt; lines.next_line(rt.alloc()).is_ok_and(|next| next.is_some()));
    assert!(rt;
        lines
            .next_line(rt.alloc())
            .is_err_and(|fault| fault == LinesFault::Unreadable)
    );
    Ok(())
}
