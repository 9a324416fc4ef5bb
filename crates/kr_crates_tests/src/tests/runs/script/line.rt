//! Scripts that are written as lines of JSON.
use kr_script::{read_script, write_script};
use std::test::Fail;

/// Lines as they are written: of format 2 where a step has a form that is in format 2 alone.
const LINES: &[&str] = &[
    r#"{"format":1,"opening":[],"steps":[]}"#,
    r#"{"format":1,"opening":[[10,1],[18446744073709551615,18446744073709551615]],"steps":[[4294967295,"fetch",10],[0,"scan",10,20],[0,"go"]]}"#,
    r#"{"format":1,"opening":[[10,1]],"steps":[[1,"insert",15,5],[1,"delete",10],[1,"commit"],[2,"abort"]]}"#,
    r#"{"format":2,"opening":[[10,1]],"steps":[[1,"fetch",10],[1,"update",10,5]]}"#,
    r#"{"format":2,"opening":[],"steps":[[1,"insert",10,5],[1,"back"]]}"#,
];

#[test]
fn a_line_is_written_as_it_was_read(rt: HostRuntime) -> Result<(), Fail> {
    let alloc = rt.alloc();
    for line in LINES {
        let script = read_script(alloc, line.as_bytes())?;
        let written = write_script(alloc, script.opening(), script.steps())?;
        assert_eq!(rt; written.as_str(), *line);
    }
    Ok(())
}
