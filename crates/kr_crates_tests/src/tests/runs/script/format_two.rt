//! Scripts of format 2 from their bytes to the whole report: updates, and changes undone one at a time.
use kr_protocol::{Kvl, KvlUpdate, Protocol};
use kr_report::report_run;
use kr_script::read_script;
use kr_serial::{judge, run_any};
use kr_test_support::Plain;
use std::alloc::Global;
use std::test::Fail;

/// The report of the run of a script's bytes, with the verdict on it.
fn told<P: Protocol>(alloc: Global, protocol: &P, script: &str) -> Result<String, Fail> {
    let script = read_script(alloc, script.as_bytes())?;
    let ran = run_any(alloc, protocol, script.opening(), script.steps())?;
    let verdict = judge(alloc, &ran)?;
    Ok(report_run(alloc, protocol, &ran, &verdict)?)
}

/// The protocol of a story.
#[derive(Clone, Copy)]
enum Under {
    Kvl,
    KvlUpdate,
    Plain,
}

/// The same report, under the protocol of a story.
fn told_under(alloc: Global, under: Under, script: &str) -> Result<String, Fail> {
    match under {
        Under::Kvl => told(alloc, &Kvl, script),
        Under::KvlUpdate => told(alloc, &KvlUpdate, script),
        Under::Plain => told(alloc, &Plain, script),
    }
}

/// The script of an update that is undone.
const UPDATE_UNDONE: &str =
    r#"{"format":2,"opening":[[10,1],[20,2],[30,3]],"steps":[[1,"update",20,9],[2,"fetch",20],[1,"update",25,1],[1,"abort"],[2,"fetch",20]]}"#;

/// The report of a script that means the same in both formats.
const IN_BOTH_FORMATS: &str =
    r#"{"index":[[20,2]],"locks":[],"replies":[["done"],["aborted"],["found",2],["committed"]],"unfinished":[],"verdict":["serial"]}"#;

/// Stories: a protocol, a script, and its report.
const STORIES: &[(Under, &str, &str)] = &[
    // An update is undone.
    (
        Under::KvlUpdate,
        UPDATE_UNDONE,
        r#"{"index":[[10,1],[20,2],[30,3]],"locks":[[20,2,"S"]],"replies":[["updated",2],["blocked",[1]],["absent"],["aborted"],["found",2]],"unfinished":[2],"verdict":["serial"]}"#,
    ),
    // An update is not offered.
    (
        Under::Kvl,
        UPDATE_UNDONE,
        r#"{"index":[[10,1],[20,2],[30,3]],"locks":[[20,2,"S"]],"replies":[["refused",7,"NoUpdate"],["found",2],["refused",7,"NoUpdate"],["aborted"],["found",2]],"unfinished":[2],"verdict":["serial"]}"#,
    ),
    // Two changes are undone.
    (
        Under::Kvl,
        r#"{"format":2,"opening":[[10,1],[20,2],[30,3]],"steps":[[1,"delete",20],[1,"insert",20,9],[1,"back"],[2,"fetch",20],[1,"fetch",10],[1,"commit"],[1,"back"],[2,"fetch",20],[1,"back"],[1,"abort"],[2,"fetch",20]]}"#,
        r#"{"index":[[10,1],[20,2],[30,3]],"locks":[[20,2,"S"]],"replies":[["deleted",2],["done"],["undone",1],["blocked",[1]],["refused",8,"RollingBack"],["refused",8,"RollingBack"],["undone",0],["blocked",[1]],["refused",9,"NothingLeft"],["aborted"],["found",2]],"unfinished":[2],"verdict":["serial"]}"#,
    ),
    // A change is undone beside another's.
    (
        Under::Kvl,
        r#"{"format":2,"opening":[[10,1],[20,2],[30,3]],"steps":[[1,"insert",15,5],[2,"insert",12,7],[1,"back"],[2,"commit"],[3,"fetch",15],[1,"abort"]]}"#,
        r#"{"index":[[10,1],[12,7],[20,2],[30,3]],"locks":[[20,3,"S"]],"replies":[["done"],["done"],["undone",0],["committed"],["none"],["aborted"]],"unfinished":[3],"verdict":["serial"]}"#,
    ),
    // Updates are undone.
    (
        Under::KvlUpdate,
        r#"{"format":2,"opening":[[10,1],[20,2],[30,3]],"steps":[[1,"update",20,9],[1,"insert",25,5],[1,"update",25,6],[2,"fetch",25],[1,"back"],[2,"fetch",25],[1,"back"],[2,"fetch",25],[1,"back"],[2,"fetch",20],[1,"abort"],[2,"fetch",20]]}"#,
        r#"{"index":[[10,1],[20,2],[30,3]],"locks":[[20,2,"S"],[30,2,"S"]],"replies":[["updated",2],["done"],["updated",5],["blocked",[1]],["undone",2],["blocked",[1]],["undone",1],["none"],["undone",0],["blocked",[1]],["aborted"],["found",2]],"unfinished":[2],"verdict":["serial"]}"#,
    ),
    // Refusals before and after a change is undone. The members stand in another order than the plain one. A back drops
    // the scan in progress, and only an abort ends the transaction.
    (
        Under::Kvl,
        r#"{"steps":[[1,"back"],[1,"insert",15,5],[1,"scan",10,30],[1,"fetch",10],[1,"back"],[1,"go"],[1,"scan",30,10],[1,"back"],[1,"abort"],[1,"back"]],"opening":[[10,1]],"format":2}"#,
        r#"{"index":[[10,1]],"locks":[],"replies":[["refused",9,"NothingLeft"],["done"],["going",10],["refused",2,"Busy"],["undone",0],["refused",8,"RollingBack"],["refused",8,"RollingBack"],["refused",9,"NothingLeft"],["aborted"],["refused",1,"Ended"]],"unfinished":[],"verdict":["serial"]}"#,
    ),
    // Updates that aren't serializable: both update a key that no lock keeps, and the one who comes second commits first.
    (
        Under::Plain,
        r#"{"format":2,"opening":[[20,2]],"steps":[[1,"update",20,7],[2,"update",20,9],[2,"commit"],[1,"commit"]]}"#,
        r#"{"index":[[20,9]],"locks":[],"replies":[["updated",2],["updated",7],["committed"],["committed"]],"unfinished":[],"verdict":["not-serial",2,1,["updated",7],["updated",2]]}"#,
    ),
    // A script of format 1 with neither form of format 2, and the same in format 2.
    (
        Under::Kvl,
        r#"{"format":1,"opening":[[20,2]],"steps":[[1,"insert",15,5],[1,"abort"],[2,"fetch",20],[2,"commit"]]}"#,
        IN_BOTH_FORMATS,
    ),
    (
        Under::Kvl,
        r#"{"format":2,"opening":[[20,2]],"steps":[[1,"insert",15,5],[1,"abort"],[2,"fetch",20],[2,"commit"]]}"#,
        IN_BOTH_FORMATS,
    ),
];

#[test]
fn stories_of_format_two(rt: HostRuntime) -> Result<(), Fail> {
    for (under, script, report) in STORIES {
        assert_eq!(rt; told_under(rt.alloc(), *under, *script)?.as_str(), *report);
    }
    Ok(())
}
