//! Each call with ample memory, again and again: none answers out of memory.

use super::tables::{Table, failed, table_of};
use kr_explain_runs::{Closure, Ending};
use kr_table::bundled::KVL;
use std::test::Fail;

/// A delete keeps no lock on the next name.
const DELETES_NEXT_INSTANT: Table = Table {
    text: KVL,
    changes: &[(
        "next = [{ mode = \"X\", span = \"commit\" }]",
        "next = [{ mode = \"X\", span = \"instant\" }]",
    )],
};

#[test]
fn found_again_and_again(rt: HostRuntime) -> Result<(), Fail> {
    let alloc = rt.alloc();
    let table = table_of(alloc, DELETES_NEXT_INSTANT)?;
    let cases = failed(alloc, &table)?;
    let case = cases.first().ok_or("no case")?;
    for _ in 0..4 {
        let closure = Closure::of(alloc, &table)?;
        assert!(rt; closure.is_reached(&table, case));
        let found = closure
            .find(alloc, &table, case, None)?
            .ok_or("none known")?;
        assert_eq!(rt; found.ending, Ending::DeleteMissed);
        assert_eq!(rt; found.events.len(), 4);
    }
    Ok(())
}
