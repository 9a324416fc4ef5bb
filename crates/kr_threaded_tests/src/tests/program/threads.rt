//! Runs of scripts by several threads.
use super::checks::{DELETE_INSTANT, REJECTED};
use super::{RUN, Row, Shelf, each_leaves, files_of, left_by};
use kr_table::bundled::KVL_UPDATE;
use std::alloc::{AllocError, Global};
use std::process::Abort;
use std::sync::Wait;
use std::test::Fail;
use std::thread::Threads;

/// A scan with its gos and its commit; a fetch in the midst of it is refused, and so is a go after its end.
const SCANNED: &str =
    r#"{"format":1,"opening":[[10,1],[20,2],[30,3]],"steps":[[1,"scan",10,25],[1,"fetch",10],[1,"go"],[1,"go"],[1,"go"],[1,"commit"]]}"#;

const SCANNED_REPORT: &str =
    r#"{"faults":[[1,2,["refused",2,"Busy"]],[1,5,["refused",3,"NoScan"]]],"history":[[[1,"scan",10,25],["going",10]],[[1,"go"],["going",20]],[[1,"go"],["rows",[[10,1],[20,2]]]],[[1,"commit"],["committed"]]],"index":[[10,1],[20,2],[30,3]],"unfinished":[],"verdict":["serial"]}"#;

#[rattlefmt::skip]
const HISTORIES: &[Row] = &[
    Row { name: "a scan",           words: &["threads", "@kvl", "s", "--workers", "4"], script: SCANNED, out: SCANNED_REPORT, ..RUN },
    // The script isn't there, and isn't read.
    Row { name: "a rejected table", words: &["threads", "table", "missing"],            table: DELETE_INSTANT, status: 1, out: REJECTED, ..RUN },
];

/// Runs whose history is the same whatever order the threads find.
#[test]
fn histories(rt: HostRuntime) -> Result<(), Fail> {
    each_leaves(&rt, HISTORIES)
}

/// Forty transactions that update two keys each and insert one; every fourth of them undoes its changes one at a time.
fn updates_of_forty(alloc: Global) -> Result<String, AllocError> {
    let mut script = String::from_str(
        alloc,
        r#"{"format":2,"opening":[[0,1],[1,1],[2,1],[3,1],[4,1]],"steps":[[41,"fetch",0]"#,
    )?;
    for txn in 1..=40_u32 {
        let first = txn % 5;
        let second = (txn + 2) % 5;
        let end = if txn % 4 == 0 { "back" } else { "commit" };
        let steps = format!(in alloc;
            ",[{txn},\"update\",{first},{txn}],[{txn},\"insert\",{},0],[{txn},\"update\",{second},{txn}],[{txn},\"{end}\"]",
            10 + txn
        )?;
        script.push_str(steps.as_str())?;
        if txn % 4 == 0 {
            let more = format!(in alloc; ",[{txn},\"back\"],[{txn},\"back\"]")?;
            script.push_str(more.as_str())?;
        }
    }
    script.push_str("]}")?;
    Ok(script)
}

/// Runs a script of updates by so many workers: the run is serializable and nobody is left unfinished.
fn leaves_nobody<R: AllocGlobal + Threads + Wait + Sync + Abort>(
    rt: &R,
    script: &str,
    workers: &str,
) -> Result<(), Fail> {
    let files = files_of(KVL_UPDATE, script);
    let words = ["threads", "table", "s", "--workers", workers];
    let ran = left_by(rt, words.as_slice(), &Shelf(files.as_slice()))?;
    assert_eq!(rt; ran.status, 0, "{workers} workers");
    assert!(rt; ran.err.is_empty(), "{workers} workers");
    let report = String::from_utf8(ran.out).map_err(|_| "no text")?;
    let end = ",\"unfinished\":[],\"verdict\":[\"serial\"]}\n";
    assert!(rt;
        report.as_str().ends_with(end),
        "{workers} workers: {report}"
    );
    Ok(())
}

/// Whatever order the threads find.
#[test]
fn updates_by_several_workers(rt: HostRuntime) -> Result<(), Fail> {
    let script = updates_of_forty(rt.alloc())?;
    for workers in ["2", "4", "16"] {
        leaves_nobody(&rt, script.as_str(), workers)?;
    }
    Ok(())
}
