//! The scripts that scenes give of tables of which `kr explain` finds none from their failed cases within its effort.

use super::tables::{Table, failed, table_of};
use kr_explain_runs::{Counterexample, Fit, Scenes};
use kr_model::Rule;
use kr_protocol::Protocol;
use kr_script::read_script;
use kr_table::bundled::RANGE_KEY;
use std::alloc::Global;
use std::test::Fail;

/// So many scripts are run for one case at most.
const MOST_RUNS: usize = 10;

/// A rejected table, and the script that scenes give for the first of its failed cases of a rule.
#[derive(Clone, Copy)]
struct ByScenes {
    name: &'static str,
    table: Table,
    rule: Rule,
    script: &'static str,
}

/// A table of three modes whose conversions don't rise.
#[rattlefmt::skip]
const FALLING: &str = r#"format = 1
modes = ["M1", "M2", "M3"]
[compatible]
"M1" = ["M1"]
"M2" = ["M1"]
"M3" = []
[convert]
"M1" = { "M1" = "M1", "M2" = "M2", "M3" = "M3" }
"M2" = { "M1" = "M2", "M2" = "M3", "M3" = "M3" }
"M3" = { "M1" = "M2", "M2" = "M2", "M3" = "M3" }
[rules]
fetch-hit.current = [{ "mode" = "M1", "span" = "commit" }]
fetch-miss.next = [{ "mode" = "M1", "span" = "commit" }]
scan-key.current = [{ "mode" = "M3", "span" = "commit" }]
scan-stop.next = [{ "mode" = "M3", "span" = "commit" }]
insert.current = [{ "own" = ["none"], "mode" = "M3", "span" = "commit" }, { "own" = ["none", "M3"], "mode" = "M2", "span" = "commit" }, { "mode" = "M3", "span" = "commit" }]
insert.next = [{ "own" = ["M2"], "mode" = "M1", "span" = "commit" }, { "mode" = "M3", "span" = "commit" }]
delete.current = [{ "own" = ["none"], "mode" = "M3", "span" = "commit" }, { "own" = ["none"], "mode" = "M2", "span" = "commit" }, { "mode" = "M3", "span" = "commit" }]
delete.next = [{ "own" = [], "mode" = "M3", "span" = "instant" }, { "own" = ["none"], "mode" = "M2", "span" = "commit" }, { "own" = ["M2"], "mode" = "M3", "span" = "instant" }, { "own" = ["M1", "M2"], "mode" = "M2", "span" = "commit" }, { "mode" = "M2", "span" = "commit" }]
"#;

#[rattlefmt::skip]
const ROWS: &[ByScenes] = &[
    ByScenes { name: "X-S is compatible with X-N, and the intruder reads the key first", table: Table { text: RANGE_KEY, changes: &[(r#"X-S = ["N-S"]"#, r#"X-S = ["N-S", "X-N"]"#)] },
        rule: Rule::Delete, script: r#"{"format":1,"opening":[[10,1],[15,2],[20,3],[30,4]],"steps":[[1,"fetch",20],[2,"delete",15],[1,"delete",10],[2,"abort"],[3,"fetch",10],[3,"commit"],[1,"abort"]]}"# },
    ByScenes { name: "the intruder deletes a key in the gap before it inserts one", table: Table { text: FALLING, changes: &[] },
        rule: Rule::FetchMiss, script: r#"{"format":1,"opening":[[10,1],[14,2],[20,3],[30,4]],"steps":[[1,"fetch",15],[2,"delete",14],[2,"insert",15,5],[2,"commit"],[1,"fetch",15],[1,"commit"]]}"# },
];

/// The first script that scenes give for failed cases of a rule.
fn first_of<P: Protocol>(
    alloc: Global,
    protocol: &P,
    rule: Rule,
) -> Result<Option<Counterexample>, Fail> {
    let scenes = Scenes::of(alloc, protocol)?;
    for case in failed(alloc, protocol)?.iter() {
        if case.case == rule {
            let sought = scenes.find(alloc, protocol, case, Fit::Case, MOST_RUNS)?;
            if sought.script.is_some() {
                return Ok(sought.script);
            }
        }
    }
    Ok(None)
}

#[test]
fn given(rt: HostRuntime) -> Result<(), Fail> {
    let alloc = rt.alloc();
    for row in ROWS {
        let name = row.name;
        let table = table_of(alloc, row.table)?;
        let script = read_script(alloc, row.script.as_bytes()).map_err(|_| "no script")?;
        let found = first_of(alloc, &table, row.rule)?.ok_or("none known")?;
        assert_eq!(rt; found.opening.as_slice(), script.opening(), "{name}");
        assert_eq!(rt; found.events.as_slice(), script.steps(), "{name}");
    }
    Ok(())
}
