//! Verdicts on runs.
use super::{PLAIN, RUN, Row, leaves};
use std::alloc::{AllocError, Global};
use std::test::Fail;

/// The words that judge a script whose run is serializable and one whose run isn't, in turn, this many times each.
fn words_in_turn(alloc: Global, times: usize) -> Result<Vec<&'static str>, AllocError> {
    let mut words = vec![in alloc; "judge", "table"]?;
    for _ in 0..times {
        words.push("a.json")?;
        words.push("b.json")?;
    }
    Ok(words)
}

/// The lines that tell the two verdicts.
const TWO_LINES: &str =
    "{\"script\":\"a.json\",\"verdict\":[\"serial\"]}\n{\"script\":\"b.json\",\"verdict\":[\"not-serial\",1,1,[\"none\"],[\"found\",7]]}";

/// The lines that tell the verdicts in turn, this many times each.
fn lines_in_turn(alloc: Global, times: usize) -> Result<String, AllocError> {
    let mut lines = String::from_str(alloc, TWO_LINES)?;
    for _ in 1..times {
        lines.push('\n')?;
        lines.push_str(TWO_LINES)?;
    }
    Ok(lines)
}

/// So many scripts that several threads judge them.
#[test]
fn verdicts_keep_their_places(rt: HostRuntime) -> Result<(), Fail> {
    let alloc = rt.alloc();
    let words = words_in_turn(alloc, 2048)?;
    let lines = lines_in_turn(alloc, 2048)?;
    let row = Row {
        name: "verdicts keep their places",
        words: words.as_slice(),
        table: PLAIN,
        status: 1,
        out: lines.as_str(),
        ..RUN
    };
    leaves(&rt, &row)
}
