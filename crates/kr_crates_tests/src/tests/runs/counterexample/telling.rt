//! What is told of a script, at each entrance of tables that request no lock, or few.

use super::tables::{ASKS_NOTHING, Table, failed, table_of};
use kr_explain_runs::{Closure, Counterexample, Ending};
use kr_model::{FailedCase, Row, Rule, Side, Txn};
use kr_script::read_script;
use std::alloc::Global;
use std::process::Abort;
use std::test::Fail;

/// The entrance that is tried first for the first case of a rule, and what is told then: the holder is 1, and its step comes
/// first; the intruder is 2, and comes through at the second step.
#[derive(Clone, Copy)]
struct Told {
    rule: Rule,
    row: Row,
    side: Side,
    ending: Ending,
    third: Option<Txn>,
    script: &'static str,
}

/// A table that offers updates, and requests no lock at all.
const UPDATES_ASK_NOTHING: Table = Table {
    text: ASKS_NOTHING,
    changes: &[("format = 1", "format = 2")],
};

/// A table of one mode that requests it until commit on the key of an insert or a delete, and nothing else.
const LOCKS_CHANGED_KEYS: Table = Table {
    text: ASKS_NOTHING,
    changes: &[(
        "rules = {}",
        "[rules]\ninsert.current = [{ mode = \"X\", span = \"commit\" }]\ndelete.current = [{ mode = \"X\", span = \"commit\" }]",
    )],
};

/// What is told of the second table.
#[rattlefmt::skip]
const TOLD_OF_CHANGED_KEYS: &[Told] = &[
    Told { rule: Rule::Delete, row: Row::Insert,    side: Side::Next, ending: Ending::DeleteSplit,  third: Some(3), script: r#"{"format":1,"opening":[[10,1],[15,2],[20,3],[30,4]],"steps":[[1,"delete",15],[2,"insert",17,5],[2,"commit"],[3,"fetch",15],[3,"commit"],[1,"abort"]]}"# },
    Told { rule: Rule::Delete, row: Row::FetchMiss, side: Side::Next, ending: Ending::DeleteMissed, third: None,    script: r#"{"format":1,"opening":[[10,1],[15,2],[20,3],[30,4]],"steps":[[1,"delete",15],[2,"fetch",15],[1,"abort"],[2,"commit"]]}"# },
];

/// What is told of the table that requests no lock.
#[rattlefmt::skip]
const TOLD: &[Told] = &[
    Told { rule: Rule::FetchHit,  row: Row::Delete,    side: Side::Current, ending: Ending::ReadKeyGone,        third: None,    script: r#"{"format":2,"opening":[[10,1],[20,2],[30,3]],"steps":[[1,"fetch",20],[2,"delete",20],[2,"commit"],[1,"fetch",20],[1,"commit"]]}"# },
    Told { rule: Rule::FetchHit,  row: Row::Update,    side: Side::Current, ending: Ending::ReadKeyUpdated,     third: None,    script: r#"{"format":2,"opening":[[10,1],[20,2],[30,3]],"steps":[[1,"fetch",20],[2,"update",20,5],[2,"commit"],[1,"fetch",20],[1,"commit"]]}"# },
    Told { rule: Rule::FetchMiss, row: Row::Insert,    side: Side::Next,    ending: Ending::ReadGapFilled,      third: None,    script: r#"{"format":2,"opening":[[10,1],[20,2],[30,3]],"steps":[[1,"fetch",15],[2,"insert",15,5],[2,"commit"],[1,"fetch",15],[1,"commit"]]}"# },
    Told { rule: Rule::FetchMiss, row: Row::Delete,    side: Side::Current, ending: Ending::ReadGapGrown,       third: None,    script: r#"{"format":2,"opening":[[10,1],[20,2],[30,3]],"steps":[[1,"fetch",15],[2,"delete",20],[2,"insert",15,5],[2,"commit"],[1,"fetch",15],[1,"commit"]]}"# },
    Told { rule: Rule::Insert,    row: Row::FetchHit,  side: Side::Current, ending: Ending::InsertFetched,      third: None,    script: r#"{"format":2,"opening":[[10,1],[30,2]],"steps":[[1,"insert",20,5],[2,"fetch",20],[1,"abort"],[2,"commit"]]}"# },
    Told { rule: Rule::Insert,    row: Row::FetchMiss, side: Side::Next,    ending: Ending::InsertMissedBelow,  third: Some(3), script: r#"{"format":2,"opening":[[10,1],[30,2]],"steps":[[1,"insert",20,5],[2,"fetch",17],[1,"abort"],[3,"insert",17,6],[3,"commit"],[2,"fetch",17],[2,"commit"]]}"# },
    Told { rule: Rule::Insert,    row: Row::ScanKey,   side: Side::Current, ending: Ending::InsertScanned,      third: None,    script: r#"{"format":2,"opening":[[10,1],[30,2]],"steps":[[1,"insert",20,5],[2,"scan",20,20],[1,"abort"],[2,"commit"]]}"# },
    Told { rule: Rule::Insert,    row: Row::ScanStop,  side: Side::Next,    ending: Ending::InsertStoppedBelow, third: Some(3), script: r#"{"format":2,"opening":[[10,1],[30,2]],"steps":[[1,"insert",20,5],[2,"scan",17,17],[1,"abort"],[3,"insert",17,6],[3,"commit"],[2,"fetch",17],[2,"commit"]]}"# },
    Told { rule: Rule::Insert,    row: Row::Delete,    side: Side::Current, ending: Ending::InsertDeleted,      third: None,    script: r#"{"format":2,"opening":[[10,1],[30,2]],"steps":[[1,"insert",20,5],[2,"delete",20],[1,"abort"],[2,"commit"]]}"# },
    Told { rule: Rule::Insert,    row: Row::Delete,    side: Side::Next,    ending: Ending::InsertDeletedBelow, third: Some(3), script: r#"{"format":2,"opening":[[10,1],[30,2]],"steps":[[1,"insert",20,5],[2,"delete",10],[1,"abort"],[3,"fetch",10],[3,"commit"],[2,"abort"]]}"# },
    Told { rule: Rule::Insert,    row: Row::Update,    side: Side::Current, ending: Ending::InsertUpdated,      third: None,    script: r#"{"format":2,"opening":[[10,1],[30,2]],"steps":[[1,"insert",20,5],[2,"update",20,6],[1,"abort"],[2,"commit"]]}"# },
    Told { rule: Rule::Delete,    row: Row::FetchMiss, side: Side::Next,    ending: Ending::DeleteMissed,       third: None,    script: r#"{"format":2,"opening":[[10,1],[15,2],[20,3],[30,4]],"steps":[[1,"delete",15],[2,"fetch",15],[1,"abort"],[2,"commit"]]}"# },
    Told { rule: Rule::Delete,    row: Row::ScanKey,   side: Side::Current, ending: Ending::DeleteScanned,      third: None,    script: r#"{"format":2,"opening":[[10,1],[15,2],[20,3],[30,4]],"steps":[[1,"delete",15],[2,"scan",15,20],[1,"abort"],[2,"commit"]]}"# },
    Told { rule: Rule::Delete,    row: Row::ScanStop,  side: Side::Next,    ending: Ending::DeleteStopped,      third: None,    script: r#"{"format":2,"opening":[[10,1],[15,2],[20,3],[30,4]],"steps":[[1,"delete",15],[2,"scan",15,15],[1,"abort"],[2,"commit"]]}"# },
    Told { rule: Rule::Delete,    row: Row::Insert,    side: Side::Next,    ending: Ending::DeleteFilled,       third: None,    script: r#"{"format":2,"opening":[[10,1],[15,2],[20,3],[30,4]],"steps":[[1,"delete",15],[2,"insert",15,5],[2,"commit"],[1,"abort"]]}"# },
    Told { rule: Rule::Delete,    row: Row::Delete,    side: Side::Current, ending: Ending::DeleteGrown,        third: Some(3), script: r#"{"format":2,"opening":[[10,1],[15,2],[20,3],[30,4]],"steps":[[1,"delete",15],[2,"delete",20],[2,"commit"],[3,"fetch",15],[3,"commit"],[1,"abort"]]}"# },
    Told { rule: Rule::Delete,    row: Row::Delete,    side: Side::Next,    ending: Ending::DeleteDeletedBelow, third: Some(3), script: r#"{"format":2,"opening":[[10,1],[15,2],[20,3],[30,4]],"steps":[[1,"delete",15],[2,"delete",10],[1,"abort"],[3,"fetch",10],[3,"commit"],[2,"abort"]]}"# },
    Told { rule: Rule::Update,    row: Row::FetchHit,  side: Side::Current, ending: Ending::UpdateFetched,      third: None,    script: r#"{"format":2,"opening":[[10,1],[20,2],[30,3]],"steps":[[1,"update",20,5],[2,"fetch",20],[1,"abort"],[2,"commit"]]}"# },
    Told { rule: Rule::Update,    row: Row::ScanKey,   side: Side::Current, ending: Ending::UpdateScanned,      third: None,    script: r#"{"format":2,"opening":[[10,1],[20,2],[30,3]],"steps":[[1,"update",20,5],[2,"scan",20,20],[1,"abort"],[2,"commit"]]}"# },
    Told { rule: Rule::Update,    row: Row::Delete,    side: Side::Current, ending: Ending::UpdateDeleted,      third: None,    script: r#"{"format":2,"opening":[[10,1],[20,2],[30,3]],"steps":[[1,"update",20,5],[2,"delete",20],[1,"abort"],[2,"commit"]]}"# },
    Told { rule: Rule::Update,    row: Row::Update,    side: Side::Current, ending: Ending::UpdateUpdated,      third: None,    script: r#"{"format":2,"opening":[[10,1],[20,2],[30,3]],"steps":[[1,"update",20,5],[2,"update",20,6],[1,"abort"],[2,"commit"]]}"# },
];

/// The first of the cases that is of this rule.
fn first_of(cases: &[FailedCase], rule: Rule) -> Option<&FailedCase> {
    cases.iter().find(|case| case.case == rule)
}

fn is_told(rt: &impl Abort, alloc: Global, row: &Told, found: &Counterexample) -> Result<(), Fail> {
    let script = read_script(alloc, row.script.as_bytes()).map_err(|_| "no script")?;
    let ending = row.ending;
    assert_eq!(rt; found.ending, ending);
    assert_eq!(rt; (found.row, found.side), (row.row, row.side), "{ending:?}");
    assert_eq!(rt; found.opening.as_slice(), script.opening(), "{ending:?}");
    assert_eq!(rt; found.events.as_slice(), script.steps(), "{ending:?}");
    assert_eq!(rt; (found.weak, found.let_in), (0, 1), "{ending:?}");
    assert_eq!(rt; (found.holder, found.intruder), (1, 2), "{ending:?}");
    assert_eq!(rt; found.third, row.third, "{ending:?}");
    Ok(())
}

/// Looks for the script of each row under a table.
fn each_is_told(rt: &impl Abort, alloc: Global, table: Table, rows: &[Told]) -> Result<(), Fail> {
    let table = table_of(alloc, table)?;
    let closure = Closure::of(alloc, &table)?;
    let cases = failed(alloc, &table)?;
    for row in rows {
        let case = first_of(&cases, row.rule).ok_or("no such case")?;
        let prefer = Some((row.row, row.side));
        let found = closure
            .find(alloc, &table, case, prefer)?
            .ok_or("none known")?;
        is_told(rt, alloc, row, &found)?;
    }
    Ok(())
}

#[test]
fn at_each_entrance(rt: HostRuntime) -> Result<(), Fail> {
    each_is_told(&rt, rt.alloc(), UPDATES_ASK_NOTHING, TOLD)
}

#[test]
fn beside_changed_keys(rt: HostRuntime) -> Result<(), Fail> {
    each_is_told(&rt, rt.alloc(), LOCKS_CHANGED_KEYS, TOLD_OF_CHANGED_KEYS)
}
