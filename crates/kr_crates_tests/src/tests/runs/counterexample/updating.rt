//! Changes of the table with intention modes that offers updates.

use super::tables::{Shown, Table, each_shows};
use kr_model::{Row, Side};
use kr_table::bundled::KVL_UPDATE;
use std::test::Fail;

#[rattlefmt::skip]
const UPDATES: &[Shown] = &[
    Shown { name: "an update keeps no lock on its key", table: Table { text: KVL_UPDATE, changes: &[("[rules.update]\ncurrent = [{ mode = \"X\", span = \"commit\" }]", "[rules.update]\ncurrent = [{ mode = \"X\", span = \"instant\" }]")] },
        prefer: None, script: r#"{"format":2,"opening":[[10,1],[20,2],[30,3]],"steps":[[1,"update",20,5],[2,"fetch",20],[1,"abort"],[2,"commit"]]}"# },
    Shown { name: "an update asks for S on its key", table: Table { text: KVL_UPDATE, changes: &[("[rules.update]\ncurrent = [{ mode = \"X\"", "[rules.update]\ncurrent = [{ mode = \"S\"")] },
        prefer: None, script: r#"{"format":2,"opening":[[10,1],[20,2],[30,3]],"steps":[[1,"update",20,5],[2,"fetch",20],[1,"abort"],[2,"commit"]]}"# },
    Shown { name: "an update asks for IX on its key", table: Table { text: KVL_UPDATE, changes: &[("[rules.update]\ncurrent = [{ mode = \"X\"", "[rules.update]\ncurrent = [{ mode = \"IX\"")] },
        prefer: None, script: r#"{"format":2,"opening":[[10,1],[30,2]],"steps":[[1,"insert",20,5],[2,"update",20,6],[1,"abort"],[2,"commit"]]}"# },
    Shown { name: "an update asks for no lock on its key", table: Table { text: KVL_UPDATE, changes: &[("[rules.update]\ncurrent = [{ mode = \"X\", span = \"commit\" }]", "[rules.update]")] },
        prefer: Some((Row::Update, Side::Current)), script: r#"{"format":2,"opening":[[10,1],[30,2]],"steps":[[1,"insert",20,5],[2,"update",20,6],[1,"abort"],[2,"commit"]]}"# },
    Shown { name: "X stands beside itself", table: Table { text: KVL_UPDATE, changes: &[("X = []", r#"X = ["X"]"#)] },
        prefer: None, script: r#"{"format":2,"opening":[[10,1],[20,2],[30,3]],"steps":[[1,"update",20,5],[2,"delete",20],[1,"abort"],[2,"commit"]]}"# },
];

#[test]
fn of_updates(rt: HostRuntime) -> Result<(), Fail> {
    each_shows(&rt, rt.alloc(), UPDATES)
}
