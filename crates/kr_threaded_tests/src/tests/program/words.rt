//! Words that are not read, and words of no form.
use super::{RUN, Row, each_leaves};
use std::test::Fail;

/// A fault of the words.
const FAULT: Row = Row { status: 2, ..RUN };

#[rattlefmt::skip]
const ROWS: &[Row] = &[
    Row { name: "no such script", words: &["run", "@kvl", "t"],                           err: "kr: t: cannot be read",     ..FAULT },
    Row { name: "no such table",  words: &["check", "@kvl2"],                             err: "kr: @kvl2: cannot be read", ..FAULT },
    Row { name: "no words",       words: &[],                                             err: "kr: words not understood",  ..FAULT },
    Row { name: "no workers",     words: &["threads", "@kvl", "s", "--workers", "0"],     err: "kr: words not understood",  ..FAULT },
];

#[test]
fn words_that_ask_for_nothing(rt: HostRuntime) -> Result<(), Fail> {
    each_leaves(&rt, ROWS)
}
