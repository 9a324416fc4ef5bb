//! Checks of tables, one that is accepted and one that is rejected.
use super::{RUN, Row, each_leaves};
use std::test::Fail;

/// A table of one mode that excludes itself. A delete gives up its lock on the next name at once, so one who held nothing there
/// has no lock on the gap afterwards.
pub const DELETE_INSTANT: &str = r#"format = 1
modes = ["A"]
compatible = { A = [] }
convert = { A = { A = "A" } }

[rules]
fetch-hit = { current = [{ mode = "A", span = "commit" }] }
fetch-miss = { next = [{ mode = "A", span = "commit" }] }
scan-key = { current = [{ mode = "A", span = "commit" }] }
scan-stop = { next = [{ mode = "A", span = "commit" }] }
insert = { current = [{ mode = "A", span = "commit" }], next = [{ mode = "A", span = "instant" }] }
delete = { current = [{ mode = "A", span = "instant" }], next = [{ mode = "A", span = "instant" }] }
"#;

/// The report of its check.
pub const REJECTED: &str =
    r#"{"accepted":false,"cases":28,"failed":[{"case":"G8","cover":"DG","from":["none"],"mode":"none","open":["fetch-miss","next","none","none"]}],"modes":1}"#;

#[rattlefmt::skip]
const CHECKS: &[Row] = &[
    Row { name: "a bundled table",  words: &["check", "@kvl"],  out: r#"{"accepted":true,"cases":244,"modes":5}"#, ..RUN },
    Row { name: "a rejected table", words: &["check", "table"], table: DELETE_INSTANT, status: 1, out: REJECTED,   ..RUN },
];

#[test]
fn checks(rt: HostRuntime) -> Result<(), Fail> {
    each_leaves(&rt, CHECKS)
}
