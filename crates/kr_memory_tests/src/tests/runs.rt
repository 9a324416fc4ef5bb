//! Scripts that are read, run, judged and reported.

use super::tables::table_of;
use kr_protocol::{Kvl, KvlUpdate, Protocol};
use kr_report::report_run;
use kr_script::{Script, ScriptFault, read_script};
use kr_serial::{Ran, Verdict, judge, run_any};
use std::alloc::{AllocError, Global};
use std::process::Abort;
use std::test::Fail;

/// A table of one mode that requests nothing.
pub const PLAIN: &str = r#"format = 1
modes = ["A"]
compatible = { A = [] }
convert = { A = { A = "A" } }
rules = {}
"#;

/// A script whose first transaction reads a gap and splits it, and whose second inserts into the part that was read.
pub const SPLIT: &str =
    r#"{"format":1,"opening":[[10,1],[20,2],[30,3]],"steps":[[1,"fetch",12],[1,"insert",15,5],[2,"insert",12,7],[2,"commit"],[1,"commit"]]}"#;

/// The report of its run under a table that requests nothing.
const SPLIT_REPORT: &str =
    r#"{"index":[[10,1],[12,7],[15,5],[20,2],[30,3]],"locks":[],"replies":[["none"],["done"],["done"],["committed"],["committed"]],"unfinished":[],"verdict":["not-serial",1,1,["none"],["found",7]]}"#;

/// The same under key-value locking.
const SERIAL_REPORT: &str =
    r#"{"index":[[10,1],[15,5],[20,2],[30,3]],"locks":[],"replies":[["none"],["done"],["blocked",[1]],["committed"],["committed"]],"unfinished":[],"verdict":["serial"]}"#;

/// A script of format 2: an update, an insert and an update of its key are undone one after another, and another
/// transaction fetches between.
const BACK: &str =
    r#"{"format":2,"opening":[[10,1],[20,2],[30,3]],"steps":[[1,"update",20,9],[1,"insert",25,5],[1,"update",25,6],[1,"back"],[2,"fetch",25],[1,"back"],[2,"fetch",25],[1,"back"],[1,"commit"],[1,"abort"],[2,"commit"]]}"#;

/// The report of its run under key-value locking with updates.
const BACK_REPORT: &str =
    r#"{"index":[[10,1],[20,2],[30,3]],"locks":[],"replies":[["updated",2],["done"],["updated",5],["undone",2],["blocked",[1]],["undone",1],["none"],["undone",0],["refused",8,"RollingBack"],["aborted"],["committed"]],"unfinished":[],"verdict":["serial"]}"#;

/// The script that a text is, read again where a growth was refused.
pub fn script_of(rt: &impl Abort, alloc: Global, text: &str) -> Result<Script, ScriptFault> {
    match read_script(alloc, text.as_bytes()) {
        Err(fault) => {
            assert!(rt; matches!(fault, ScriptFault::Memory), "{fault}");
            read_script(alloc, text.as_bytes())
        }
        Ok(script) => Ok(script),
    }
}

fn ran<P: Protocol>(alloc: Global, protocol: &P, script: &Script) -> Result<Ran, AllocError> {
    match run_any(alloc, protocol, script.opening(), script.steps()) {
        Ok(ran) => Ok(ran),
        Err(_) => run_any(alloc, protocol, script.opening(), script.steps()),
    }
}

fn verdict_on(alloc: Global, ran: &Ran) -> Result<Verdict, AllocError> {
    match judge(alloc, ran) {
        Ok(verdict) => Ok(verdict),
        Err(_) => judge(alloc, ran),
    }
}

/// The report of the run of a script, each call again where a growth was refused.
fn report<P: Protocol>(alloc: Global, protocol: &P, script: &Script) -> Result<String, AllocError> {
    let ran = ran(alloc, protocol, script)?;
    let verdict = verdict_on(alloc, &ran)?;
    match report_run(alloc, protocol, &ran, &verdict) {
        Ok(text) => Ok(text),
        Err(_) => report_run(alloc, protocol, &ran, &verdict),
    }
}

/// Compares the report of the run of a script.
fn reports<P: Protocol>(
    rt: &impl Abort,
    alloc: Global,
    protocol: &P,
    text: &str,
    expected: &str,
) -> Result<(), Fail> {
    let script = script_of(rt, alloc, text)?;
    let report = report(alloc, protocol, &script)?;
    assert_eq!(rt; report.as_str(), expected);
    Ok(())
}

#[test]
fn split_that_is_not_serial(rt: HostRuntime) -> Result<(), Fail> {
    let table = table_of(&rt, rt.alloc(), PLAIN)?;
    reports(&rt, rt.alloc(), &table, SPLIT, SPLIT_REPORT)
}

#[test]
fn split_under_key_value_locking(rt: HostRuntime) -> Result<(), Fail> {
    reports(&rt, rt.alloc(), &Kvl, SPLIT, SERIAL_REPORT)
}

#[test]
fn changes_back_under_key_value_locking(rt: HostRuntime) -> Result<(), Fail> {
    reports(&rt, rt.alloc(), &KvlUpdate, BACK, BACK_REPORT)
}

#[test]
fn first_fault_of_a_script(rt: HostRuntime) {
    for text in ["{}", "{\"format\":[[[]]]}"] {
        let mut fault = read_script(rt.alloc(), text.as_bytes()).err();
        if matches!(fault, Some(ScriptFault::Memory)) {
            fault = read_script(rt.alloc(), text.as_bytes()).err();
        }
        match fault {
            Some(ScriptFault::Field(path)) => assert_eq!(rt; path.as_str(), "format"),
            other => assert!(rt; false, "{text}: {other:?}"),
        }
    }
}
