//! Tables, and what is explained of them, each kind once; `tests/rows` and `examples/explained` have more.

use kr_explain_core::{Explained, Explanation, explain};
use kr_protocol::Im;
use kr_table::bundled::{IM, KVL};
use kr_table::{Table, read};
use std::alloc::Global;
use std::test::Fail;

#[test]
fn a_bundled_table_is_accepted(rt: HostRuntime) -> Result<(), Fail> {
    let alloc = rt.alloc();
    let explanation = explain(alloc, &Im)?;
    assert!(rt; matches!(explanation, Explanation::Accepted { .. }));
    assert!(rt; explanation.is_safe());
    let told = explanation.text(alloc, &Im, "t")?;
    assert_eq!(rt;
        told.as_str(),
        "accepted: all 61 cases hold. Every run under this table is serializable in commit order.\n"
    );
    assert!(rt; explanation.script(alloc, 1)?.is_none());
    Ok(())
}

/// The table of a text with the first part of each change, which stands there, replaced by the second.
fn table_of(alloc: Global, text: &str, changes: &[(&str, &str)]) -> Result<Table, Fail> {
    let mut text = String::from_str(alloc, text)?;
    for (old, new) in changes {
        let (before, after) = text.as_str().split_once(*old).ok_or("no such part")?;
        text = format!(in alloc; "{before}{new}{after}")?;
    }
    Ok(read(alloc, text.as_bytes()).map_err(|_| "no table")?)
}

/// What is told of index-specific locking whose inserts request nothing on their key; `tests/rows/explain.rows` says why.
const NO_INSERT: &str = r#"rejected: 10 of 61 cases fail. One cause.
This table is ordered, so the verdict is exact: safe if and only if every run is serializable in commit order.

1. `insert` requests no lock on its key. [G6: 6, G7: 4 cases]
   The key that it inserts is not protected.

   Dirty read. Initial index: 10:1, 30:2.

        T1           T2        answer     locks afterwards
     1  insert 20 5            done                         <- too weak
     2               fetch 20  found 5    20: T2 S          <- let in
     3  abort                  aborted    20: T2 S
     4               commit    committed

   T2 reads 20, whose insert T1 then undoes.
   Not serializable: only T2 commits. Its operation 1, fetch 20, returned found 5; run alone it returns none.
   Case: G6 for IK, own modes none on the next key and none on the key. 8 of the 10 cases give a schedule.

   Fix: in [rules.insert], current: request X for commit duration. The table is then accepted.

To replay the schedule of cause N:
    kr explain no-insert.toml --script N >schedule.json
    kr run no-insert.toml schedule.json
"#;

/// The script of its cause.
const NO_INSERT_SCRIPT: &str =
    r#"{"format":1,"opening":[[10,1],[30,2]],"steps":[[1,"insert",20,5],[2,"fetch",20],[1,"abort"],[2,"commit"]]}"#;

#[test]
fn a_rejected_table_is_told_whole(rt: HostRuntime) -> Result<(), Fail> {
    let alloc = rt.alloc();
    let change = ("current = [{ mode = \"X\", span = \"commit\" }]", "");
    let table = table_of(alloc, IM, [change].as_slice())?;
    let explanation = explain(alloc, &table)?;
    assert!(rt; !explanation.is_safe());
    let text = explanation.text(alloc, &table, "no-insert.toml")?;
    assert_eq!(rt; text.as_str(), NO_INSERT);
    assert!(rt; explanation.script(alloc, 0)?.is_none());
    let script = explanation.script(alloc, 1)?.ok_or("no script")?;
    assert_eq!(rt; script.as_str(), NO_INSERT_SCRIPT);
    assert!(rt; explanation.script(alloc, 2)?.is_none());
    Ok(())
}

/// What makes SIX held and IS asked IX, and a fetch keep no lock on its key, in key-value locking.
#[rattlefmt::skip]
const HARMLESS_AND_WRONG: &[(&str, &str)] = &[
    (r#"SIX = { IS = "SIX","#, r#"SIX = { IS = "IX","#),
    ("[rules.fetch-hit]\ncurrent = [{ mode = \"S\", span = \"commit\" }]", "[rules.fetch-hit]\ncurrent = [{ mode = \"S\", span = \"instant\" }]"),
];

/// Whether a cause is harmless, and whether it has a run.
fn said_of(explained: &Explained) -> (bool, bool) {
    (explained.harmless.is_some(), explained.run.is_some())
}

/// What is said of the two causes.
const SAID: &[(bool, bool)] = &[(true, false), (false, true)];

#[test]
fn a_cause_is_harmless_or_has_a_run(rt: HostRuntime) -> Result<(), Fail> {
    let alloc = rt.alloc();
    let table = table_of(alloc, KVL, HARMLESS_AND_WRONG)?;
    let explanation = explain(alloc, &table)?;
    assert!(rt; !explanation.is_safe());
    let failures = match &explanation {
        Explanation::Rejected(failures) => Some(failures),
        Explanation::Accepted { .. } | Explanation::Safe(_) => None,
    };
    let failures = failures.ok_or("not rejected")?;
    assert_eq!(rt; failures.causes.len(), SAID.len());
    for (explained, said) in failures.causes.iter().zip(SAID) {
        assert_eq!(rt; said_of(explained), *said);
    }
    Ok(())
}
