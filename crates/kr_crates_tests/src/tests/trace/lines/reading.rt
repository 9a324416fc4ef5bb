//! What a line reads as, and its faults.
use kr_trace_lines::read_line;
use std::alloc::Global;
use std::test::Fail;

/// What a line reads as, in words.
pub fn given(alloc: Global, line: &str) -> Result<String, Fail> {
    match read_line(alloc, line.as_bytes()) {
        Ok(line) => Ok(format!(in alloc; "{line:?}")?),
        Err(fault) => Ok(format!(in alloc; "{fault}")?),
    }
}

/// Lines, and what they read as.
pub const LINES: &[(&str, &str)] = &[
    (
        r#"{"format":1,"opening":[[10,1],[20,2]]}"#,
        "Head { opening: Items { items: [(10, 1), (20, 2)] }, tests: [] }",
    ),
    (
        r#"{"tests":["a","b"],"opening":[],"format":1}"#,
        r#"Head { opening: Items { items: [] }, tests: ["a", "b"] }"#,
    ),
    (
        r#"[[1,"fetch",17],["none"]]"#,
        "Step(Event { txn: 1, op: Fetch(17) }, None)",
    ),
    (
        r#" [ [1,"fetch",17] , ["found",5] ] "#,
        "Step(Event { txn: 1, op: Fetch(17) }, Found(5))",
    ),
    (
        r#"[[1,"scan",1,9],["rows",[[1,2],[3,4]]]]"#,
        "Step(Event { txn: 1, op: Scan(1, 9) }, Rows(Items { items: [(1, 2), (3, 4)] }))",
    ),
    (
        r#"[[1,"go"],["going",5]]"#,
        "Step(Event { txn: 1, op: Go }, Going(5))",
    ),
    (
        r#"[[1,"insert",1,9],["duplicate"]]"#,
        "Step(Event { txn: 1, op: Insert(1, 9) }, Duplicate)",
    ),
    (
        r#"[[1,"delete",1],["deleted"]]"#,
        "Step(Event { txn: 1, op: Delete(1) }, Deleted(None))",
    ),
    (
        r#"[[1,"delete",1],["deleted",7]]"#,
        "Step(Event { txn: 1, op: Delete(1) }, Deleted(Some(7)))",
    ),
    (
        r#"[[1,"update",1,2],["absent"]]"#,
        "Step(Event { txn: 1, op: Update(1, 2) }, Absent)",
    ),
    (
        r#"[[1,"back"],["undone",0]]"#,
        "Step(Event { txn: 1, op: Back }, Undone(Some(0)))",
    ),
    (
        r#"[[1,"commit"],["aborted"]]"#,
        "Step(Event { txn: 1, op: Commit }, Aborted)",
    ),
    (
        r#"[[1,"abort"],["aborted"]]"#,
        "Step(Event { txn: 1, op: Abort }, Aborted)",
    ),
    (
        r#"[[1,"fetch",1],["blocked"]]"#,
        "Step(Event { txn: 1, op: Fetch(1) }, Blocked(Items { items: [] }))",
    ),
    (
        r#"[[1,"fetch",1],["blocked",[2,3]]]"#,
        "Step(Event { txn: 1, op: Fetch(1) }, Blocked(Items { items: [2, 3] }))",
    ),
    (r#"{"order":[2,1]}"#, "Order(Items { items: [2, 1] })"),
    ("", "fault 2 NotJson"),
    (r#"[[1,"fetch",5],["no"#, "fault 2 NotJson"),
    (r#"{"format":2,"opening":[]}"#, "fault 3 Format"),
    (r#"{"format":"1","opening":[]}"#, "fault 4 Field"),
    (r#"{"opening":[]}"#, "fault 4 Field"),
    (r#"{"format":1}"#, "fault 4 Field"),
    (r#"{"format":1,"opening":[],"steps":[]}"#, "fault 4 Field"),
    (r#"{"format":1,"opening":[],"tests":[1]}"#, "fault 4 Field"),
    (r#"{"format":1,"opening":[],"tests":"a"}"#, "fault 4 Field"),
    (r#"{"format":1,"opening":[[2,1],[1,1]]}"#, "fault 5 Opening"),
    (r#"{"format":1,"opening":[[2]]}"#, "fault 5 Opening"),
    (r#"{"order":[1],"format":1}"#, "fault 4 Field"),
    (r#"{"order":[4294967296]}"#, "fault 4 Field"),
    (r#"{"order":1}"#, "fault 4 Field"),
    (r#"[[1,"get",5],["none"]]"#, "fault 6 Step"),
    (r#"[[1,"fetch",5],["none"],1]"#, "fault 6 Step"),
    (r#"[[4294967296,"fetch",5],["none"]]"#, "fault 6 Step"),
    ("17", "fault 6 Step"),
    (r#"[[1,"fetch",5],["done"]]"#, "fault 9 Reply"),
    (r#"[[1,"fetch",5],["found",1.5]]"#, "fault 9 Reply"),
    (r#"[[1,"fetch",5],["found"]]"#, "fault 9 Reply"),
    (r#"[[1,"fetch",5],"none"]"#, "fault 9 Reply"),
    (r#"[[1,"fetch",5],["none",1]]"#, "fault 9 Reply"),
    (r#"[[1,"commit"],["blocked"]]"#, "fault 9 Reply"),
    (r#"[[1,"abort"],["committed"]]"#, "fault 9 Reply"),
    (
        r#"[[1,"fetch",5],["blocked",[4294967296]]]"#,
        "fault 9 Reply",
    ),
    (r#"[[1,"scan",1,9],["rows",[[1]]]]"#, "fault 9 Reply"),
];

#[test]
fn lines_read(rt: HostRuntime) -> Result<(), Fail> {
    for (line, expected) in LINES {
        let found = given(rt.alloc(), line)?;
        assert_eq!(rt; found.as_str(), *expected, "{line}");
    }
    Ok(())
}
