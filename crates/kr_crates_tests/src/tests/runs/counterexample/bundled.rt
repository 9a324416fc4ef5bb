//! Bundled tables with one entry changed.

use super::tables::{Shown, Table, each_shows};
use kr_model::{Row, Side};
use kr_table::bundled::{IM, KVL, RANGE_KEY};
use std::test::Fail;

/// Changes of the table with two modes.
#[rattlefmt::skip]
const TWO_MODES: &[Shown] = &[
    Shown { name: "a fetch keeps no lock on the key that it finds", table: Table { text: IM, changes: &[("[rules.fetch-hit]\ncurrent = [{ mode = \"S\", span = \"commit\" }]", "[rules.fetch-hit]\ncurrent = [{ mode = \"S\", span = \"instant\" }]")] },
        prefer: None, script: r#"{"format":1,"opening":[[10,1],[20,2],[30,3]],"steps":[[1,"fetch",20],[2,"delete",20],[2,"commit"],[1,"fetch",20],[1,"commit"]]}"# },
    Shown { name: "a fetch keeps no lock on the gap that it finds", table: Table { text: IM, changes: &[("[rules.fetch-miss]\nnext = [{ mode = \"S\", span = \"commit\" }]", "[rules.fetch-miss]\nnext = [{ mode = \"S\", span = \"instant\" }]")] },
        prefer: None, script: r#"{"format":1,"opening":[[10,1],[20,2],[30,3]],"steps":[[1,"fetch",15],[2,"insert",15,5],[2,"commit"],[1,"fetch",15],[1,"commit"]]}"# },
    Shown { name: "a scan keeps no lock on the keys that it reads", table: Table { text: IM, changes: &[("[rules.scan-key]\ncurrent = [{ mode = \"S\", span = \"commit\" }]", "[rules.scan-key]\ncurrent = [{ mode = \"S\", span = \"instant\" }]")] },
        prefer: None, script: r#"{"format":1,"opening":[[10,1],[20,2],[30,3]],"steps":[[1,"scan",15,20],[2,"delete",20],[2,"commit"],[1,"fetch",20],[1,"commit"]]}"# },
    Shown { name: "a scan keeps no lock where it stops", table: Table { text: IM, changes: &[("[rules.scan-stop]\nnext = [{ mode = \"S\", span = \"commit\" }]", "[rules.scan-stop]\nnext = [{ mode = \"S\", span = \"instant\" }]")] },
        prefer: None, script: r#"{"format":1,"opening":[[10,1],[20,2],[30,3]],"steps":[[1,"scan",15,15],[2,"insert",15,5],[2,"commit"],[1,"fetch",15],[1,"commit"]]}"# },
    Shown { name: "an insert asks for a shared lock on its key", table: Table { text: IM, changes: &[(r#"current = [{ mode = "X", span = "commit" }]"#, r#"current = [{ own = ["X"], mode = "X", span = "commit" }, { mode = "S", span = "commit" }]"#)] },
        prefer: None, script: r#"{"format":1,"opening":[[10,1],[30,2]],"steps":[[1,"insert",20,5],[2,"fetch",20],[1,"abort"],[2,"commit"]]}"# },
    Shown { name: "a delete keeps no lock on the next name", table: Table { text: IM, changes: &[(r#"next = [{ mode = "X", span = "commit" }]"#, r#"next = [{ mode = "X", span = "instant" }]"#)] },
        prefer: None, script: r#"{"format":1,"opening":[[10,1],[15,2],[20,3],[30,4]],"steps":[[1,"delete",15],[2,"fetch",15],[1,"abort"],[2,"commit"]]}"# },
    Shown { name: "X held and S asked make S", table: Table { text: IM, changes: &[(r#"X = { S = "X", X = "X" }"#, r#"X = { S = "S", X = "X" }"#)] },
        prefer: None, script: r#"{"format":1,"opening":[[10,1],[30,2]],"steps":[[1,"insert",20,5],[1,"fetch",20],[2,"fetch",20],[1,"abort"],[2,"commit"]]}"# },
];

/// Changes of the table with intention modes.
#[rattlefmt::skip]
const INTENTION_MODES: &[Shown] = &[
    Shown { name: "an insert asks for IX on its key whatever it holds on the next name", table: Table { text: KVL, changes: &[(r#"{ own = ["S", "SIX", "X"], mode = "X", span = "commit" }, "#, "")] },
        prefer: None, script: r#"{"format":1,"opening":[[10,1],[15,2],[30,3]],"steps":[[1,"delete",15],[1,"insert",20,5],[2,"insert",15,6],[2,"commit"],[1,"abort"]]}"# },
    Shown { name: "a delete keeps no lock on the next name", table: Table { text: KVL, changes: &[(r#"next = [{ mode = "X", span = "commit" }]"#, r#"next = [{ mode = "X", span = "instant" }]"#)] },
        prefer: None, script: r#"{"format":1,"opening":[[10,1],[15,2],[20,3],[30,4]],"steps":[[1,"delete",15],[2,"fetch",15],[1,"abort"],[2,"commit"]]}"# },
    Shown { name: "a delete asks for no lock on its key", table: Table { text: KVL, changes: &[("current = [{ mode = \"X\", span = \"instant\" }]\n", "")] },
        prefer: Some((Row::Delete, Side::Current)), script: r#"{"format":1,"opening":[[10,1],[30,2]],"steps":[[1,"insert",20,5],[2,"delete",20],[1,"abort"],[2,"commit"]]}"# },
    Shown { name: "S held and IX asked make IS, which lets in an intruder that is ready", table: Table { text: KVL, changes: &[(r#"S = { IS = "S", IX = "SIX","#, r#"S = { IS = "S", IX = "IS","#)] },
        prefer: None, script: r#"{"format":1,"opening":[[10,1],[20,2],[30,3]],"steps":[[1,"fetch",20],[2,"fetch",15],[1,"insert",15,5],[1,"commit"],[2,"fetch",15],[2,"commit"]]}"# },
];

/// Changes of the table with range and key parts.
#[rattlefmt::skip]
const TWO_PARTS: &[Shown] = &[
    Shown { name: "an insert asks for N-X on its key", table: Table { text: RANGE_KEY, changes: &[(r#"{ mode = "I-X", span = "commit" }"#, r#"{ mode = "N-X", span = "commit" }"#)] },
        prefer: None, script: r#"{"format":1,"opening":[[10,1],[30,2]],"steps":[[1,"insert",20,5],[2,"fetch",17],[1,"abort"],[3,"insert",17,6],[3,"commit"],[2,"fetch",17],[2,"commit"]]}"# },
    Shown { name: "I-X held and N-S asked make I-N", table: Table { text: RANGE_KEY, changes: &[(r#"I-X = { N-S = "I-X","#, r#"I-X = { N-S = "I-N","#)] },
        prefer: None, script: r#"{"format":1,"opening":[[10,1],[30,2]],"steps":[[1,"insert",20,5],[1,"fetch",20],[2,"fetch",20],[1,"abort"],[2,"commit"]]}"# },
];

#[test]
fn of_two_modes(rt: HostRuntime) -> Result<(), Fail> {
    each_shows(&rt, rt.alloc(), TWO_MODES)
}

#[test]
fn of_intention_modes(rt: HostRuntime) -> Result<(), Fail> {
    each_shows(&rt, rt.alloc(), INTENTION_MODES)
}

#[test]
fn of_two_parts(rt: HostRuntime) -> Result<(), Fail> {
    each_shows(&rt, rt.alloc(), TWO_PARTS)
}
