//! How many failed cases of a table are reached, and how many have a script.

use super::tables::{ASKS_NOTHING, Table, failed, table_of};
use kr_explain_runs::Closure;
use kr_table::bundled::{KVL, KVL_UPDATE};
use std::test::Fail;

/// A rejected table, and the numbers of its cases: those that fail, those of them to which some state of the closure comes,
/// and those with a script.
#[derive(Clone, Copy)]
struct Counts {
    name: &'static str,
    table: Table,
    failed: usize,
    reached: usize,
    shown: usize,
}

#[rattlefmt::skip]
const COUNTS: &[Counts] = &[
    Counts { name: "SIX held and IX asked make IS, and nobody comes to SIX",               failed: 19, reached: 12, shown: 0,  table: Table { text: KVL, changes: &[(r#"SIX = { IS = "SIX", IX = "SIX","#, r#"SIX = { IS = "SIX", IX = "IS","#)] } },
    Counts { name: "S held and IX asked make IS, which lets in an intruder that is ready", failed: 18, reached: 12, shown: 6,  table: Table { text: KVL, changes: &[(r#"S = { IS = "S", IX = "SIX","#, r#"S = { IS = "S", IX = "IS","#)] } },
    Counts { name: "a delete asks for no lock on its key",                                 failed: 72, reached: 43, shown: 33, table: Table { text: KVL, changes: &[("current = [{ mode = \"X\", span = \"instant\" }]\n", "")] } },
    Counts { name: "an update keeps no lock on its key",                                   failed: 3,  reached: 2,  shown: 2,  table: Table { text: KVL_UPDATE, changes: &[("[rules.update]\ncurrent = [{ mode = \"X\", span = \"commit\" }]", "[rules.update]\ncurrent = [{ mode = \"X\", span = \"instant\" }]")] } },
    Counts { name: "no lock is asked for",                                                 failed: 16, reached: 7,  shown: 7,  table: Table { text: ASKS_NOTHING, changes: &[] } },
];

#[test]
fn counted(rt: HostRuntime) -> Result<(), Fail> {
    let alloc = rt.alloc();
    for row in COUNTS {
        let name = row.name;
        let table = table_of(alloc, row.table)?;
        let closure = Closure::of(alloc, &table)?;
        let cases = failed(alloc, &table)?;
        let mut reached: usize = 0;
        let mut shown: usize = 0;
        for case in cases.iter() {
            if closure.is_reached(&table, case) {
                reached = reached.saturating_add(1);
            }
            if closure.find(alloc, &table, case, None)?.is_some() {
                shown = shown.saturating_add(1);
            }
        }
        assert_eq!(rt;
            (cases.len(), reached, shown),
            (row.failed, row.reached, row.shown),
            "{name}"
        );
    }
    Ok(())
}
