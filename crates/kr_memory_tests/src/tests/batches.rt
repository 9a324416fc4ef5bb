//! Scripts that are judged together.

use super::runs::{PLAIN, SPLIT, script_of};
use super::tables::table_of;
use kr_batch::judge_all;
use kr_protocol::Protocol;
use kr_report::report_verdict;
use kr_script::Script;
use kr_serial::Verdict;
use std::alloc::{AllocError, Global};
use std::process::Abort;
use std::test::Fail;
use std::thread::Threads;

/// A script that reads a gap and then inserts into it, by two transactions.
const PHANTOM: &str =
    r#"{"format":1,"opening":[[10,1],[20,2],[30,3]],"steps":[[1,"fetch",15],[2,"insert",17,5]]}"#;

/// The verdicts on these scripts, judged again where a growth was refused.
fn verdicts<R: AllocGlobal + Threads + Sync>(
    rt: &R,
    table: &(impl Protocol + Sync),
    scripts: &[Script],
) -> Result<Vec<Verdict>, AllocError> {
    match judge_all(rt, rt.alloc(), table, scripts) {
        Ok(verdicts) => Ok(verdicts),
        Err(_) => judge_all(rt, rt.alloc(), table, scripts),
    }
}

/// The line of a verdict, made again where a growth was refused.
fn line(alloc: Global, verdict: &Verdict) -> Result<String, AllocError> {
    match report_verdict(alloc, "s", verdict) {
        Ok(text) => Ok(text),
        Err(_) => report_verdict(alloc, "s", verdict),
    }
}

/// Two scripts in a vector, made again where a growth was refused.
fn both(rt: &impl Abort, alloc: Global) -> Result<Vec<Script>, Fail> {
    let mut scripts = Vec::new(alloc);
    if scripts.reserve(2).is_err() {
        scripts.reserve(2)?;
    }
    scripts.push(script_of(rt, alloc, PHANTOM)?)?;
    scripts.push(script_of(rt, alloc, SPLIT)?)?;
    Ok(scripts)
}

/// Compares the line of a verdict.
fn tells(rt: &impl Abort, alloc: Global, verdict: &Verdict, expected: &str) -> Result<(), Fail> {
    let told = line(alloc, verdict)?;
    assert_eq!(rt; told.as_str(), expected);
    Ok(())
}

/// What is told of the two scripts.
const VERDICTS: [&str; 2] = [
    r#"{"script":"s","verdict":["serial"]}"#,
    r#"{"script":"s","verdict":["not-serial",1,1,["none"],["found",7]]}"#,
];

#[test]
fn verdicts_on_two_scripts(rt: HostRuntime) -> Result<(), Fail> {
    let alloc = rt.alloc();
    let table = table_of(&rt, alloc, PLAIN)?;
    let scripts = both(&rt, alloc)?;
    let verdicts = verdicts(&rt, &table, scripts.as_slice())?;
    assert_eq!(rt; verdicts.len(), 2);
    tells(&rt, alloc, &verdicts[0], VERDICTS[0])?;
    tells(&rt, alloc, &verdicts[1], VERDICTS[1])
}
