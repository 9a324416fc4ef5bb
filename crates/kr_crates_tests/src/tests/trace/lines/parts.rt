//! Which line may not stand behind those before.
use kr_trace_lines::{PartLines, read_line};
use std::test::Fail;

/// Each line of a trace that breaks a rule of its part, by its index, and the fault.
const PARTS: &[(&[&str], usize, &str)] = &[
    (&[r#"[[1,"fetch",5],["none"]]"#], 0, "fault 4 Field"),
    (&[r#"{"order":[]}"#], 0, "fault 4 Field"),
    (
        &[
            r#"{"format":1,"opening":[]}"#,
            r#"[[1,"commit"],["committed"]]"#,
            r#"[[1,"fetch",5],["none"]]"#,
        ],
        2,
        "fault 11 Ended",
    ),
    (
        &[
            r#"{"format":1,"opening":[]}"#,
            r#"[[1,"fetch",5],["aborted"]]"#,
            r#"[[1,"fetch",5],["none"]]"#,
        ],
        2,
        "fault 11 Ended",
    ),
    (
        &[
            r#"{"format":1,"opening":[]}"#,
            r#"[[1,"commit"],["committed"]]"#,
            r#"{"order":[1,1]}"#,
        ],
        2,
        "fault 10 Order",
    ),
    (
        &[
            r#"{"format":1,"opening":[]}"#,
            r#"[[1,"commit"],["committed"]]"#,
            r#"[[2,"commit"],["committed"]]"#,
            r#"{"order":[1,1]}"#,
        ],
        3,
        "fault 10 Order",
    ),
    (
        &[
            r#"{"format":1,"opening":[]}"#,
            r#"[[1,"abort"],["aborted"]]"#,
            r#"{"order":[1]}"#,
        ],
        2,
        "fault 10 Order",
    ),
    (
        &[
            r#"{"format":1,"opening":[]}"#,
            r#"{"order":[]}"#,
            r#"{"order":[]}"#,
        ],
        2,
        "fault 10 Order",
    ),
    (
        &[
            r#"{"format":1,"opening":[]}"#,
            r#"{"order":[]}"#,
            r#"[[1,"commit"],["committed"]]"#,
        ],
        2,
        "fault 10 Order",
    ),
    (
        &[
            r#"{"format":1,"opening":[]}"#,
            r#"[[1,"commit"],["committed"]]"#,
            r#"[[2,"commit"],["committed"]]"#,
            r#"{"order":[2,1]}"#,
            r#"{"format":1,"opening":[]}"#,
            r#"[[1,"commit"],["committed"]]"#,
        ],
        6,
        "",
    ),
];

#[test]
fn parts_are_told_apart(rt: HostRuntime) -> Result<(), Fail> {
    for (lines, at, expected) in PARTS {
        let mut part = PartLines::new(rt.alloc());
        let mut found = String::new(rt.alloc());
        let mut place = lines.len();
        for (i, bytes) in lines.iter().enumerate() {
            let line = read_line(rt.alloc(), bytes.as_bytes())?;
            if let Err(fault) = part.take(rt.alloc(), &line) {
                found = format!(in rt.alloc(); "{fault}")?;
                place = i;
                break;
            }
        }
        assert_eq!(rt; found.as_str(), *expected);
        assert_eq!(rt; place, *at);
    }
    Ok(())
}
