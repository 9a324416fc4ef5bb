//! Runs and verdicts with ample memory, none of which runs out of memory: scripts at boundary keys, values and numbers,
//! under a table that requests nothing and under key-value locking, without updates and with them.
use super::{PLAIN, RUN, Row, leaves};
use std::alloc::{AllocError, Global};
use std::process::Abort;
use std::sync::Wait;
use std::test::Fail;
use std::thread::Threads;

/// Keys and values at which a number turns.
const KEYS: [u64; 4] = [0, 7, 1 << 63, u64::MAX];

/// Numbers of transactions, of which 8 is none.
const TXNS: [u32; 3] = [0, 7, u32::MAX];

/// The table that requests nothing, in format 2: it offers updates.
const PLAIN_UPDATE: &str =
    "format = 2\nmodes = [\"A\"]\ncompatible = { A = [] }\nconvert = { A = { A = \"A\" } }\nrules = {}\n";

/// A fetch of a key, which another transaction then deletes, and commits first. Without locks the answer isn't the one of the
/// commit order; under key-value locking the delete is blocked.
const FETCH_AND_DELETE: &str =
    r#"{"format":1,"opening":[[K,V]],"steps":[[T,"fetch",K],[8,"delete",K],[8,"commit"],[T,"commit"]]}"#;

/// An update of a key, which another transaction reads before it is undone. Without locks the answer isn't the one of the
/// commit order; under key-value locking with updates the fetch is blocked.
const UPDATE_AND_BACK: &str =
    r#"{"format":2,"opening":[[K,V]],"steps":[[T,"update",K,O],[8,"fetch",K],[T,"back"],[8,"commit"],[T,"abort"]]}"#;

/// What the letters K, V, O and T stand for: a key, its value, another value, and a transaction.
#[derive(Clone, Copy)]
struct Numbers {
    key: u64,
    value: u64,
    other: u64,
    txn: u64,
}

/// A text with its numbers.
fn numbered(alloc: Global, text: &str, numbers: Numbers) -> Result<String, AllocError> {
    let mut all = String::new(alloc);
    for letter in text.chars() {
        let number = match letter {
            'K' => numbers.key,
            'V' => numbers.value,
            'O' => numbers.other,
            'T' => numbers.txn,
            other => {
                all.push(other)?;
                continue;
            }
        };
        all.push_str(format!(in alloc; "{number}")?.as_str())?;
    }
    Ok(all)
}

/// Runs and verdicts, at numbers that letters stand for.
#[rattlefmt::skip]
const ROWS: &[Row] = &[
    Row { name: "run, no locks",                         words: &["run", "table", "s"],         table: PLAIN,        script: FETCH_AND_DELETE, status: 1, out: r#"{"index":[],"locks":[],"replies":[["found",V],["deleted",V],["committed"],["committed"]],"unfinished":[],"verdict":["not-serial",T,1,["found",V],["none"]]}"#, ..RUN },
    Row { name: "judge, no locks",                       words: &["judge", "table", "s"],       table: PLAIN,        script: FETCH_AND_DELETE, status: 1, out: r#"{"script":"s","verdict":["not-serial",T,1,["found",V],["none"]]}"#, ..RUN },
    Row { name: "run, key-value locking",                words: &["run", "@kvl", "s"],          table: "",           script: FETCH_AND_DELETE, status: 0, out: r#"{"index":[[K,V]],"locks":[],"replies":[["found",V],["blocked",[T]],["committed"],["committed"]],"unfinished":[],"verdict":["serial"]}"#, ..RUN },
    Row { name: "judge, key-value locking",              words: &["judge", "@kvl", "s"],        table: "",           script: FETCH_AND_DELETE, status: 0, out: r#"{"script":"s","verdict":["serial"]}"#, ..RUN },
    Row { name: "run, no locks, of updates",             words: &["run", "table", "s"],         table: PLAIN_UPDATE, script: UPDATE_AND_BACK,  status: 1, out: r#"{"index":[[K,V]],"locks":[],"replies":[["updated",V],["found",O],["undone",0],["committed"],["aborted"]],"unfinished":[],"verdict":["not-serial",8,1,["found",O],["found",V]]}"#, ..RUN },
    Row { name: "judge, no locks, of updates",           words: &["judge", "table", "s"],       table: PLAIN_UPDATE, script: UPDATE_AND_BACK,  status: 1, out: r#"{"script":"s","verdict":["not-serial",8,1,["found",O],["found",V]]}"#, ..RUN },
    Row { name: "run, key-value locking with updates",   words: &["run", "@kvl-update", "s"],   table: "",           script: UPDATE_AND_BACK,  status: 0, out: r#"{"index":[[K,V]],"locks":[],"replies":[["updated",V],["blocked",[T]],["undone",0],["committed"],["aborted"]],"unfinished":[],"verdict":["serial"]}"#, ..RUN },
    Row { name: "judge, key-value locking with updates", words: &["judge", "@kvl-update", "s"], table: "",           script: UPDATE_AND_BACK,  status: 0, out: r#"{"script":"s","verdict":["serial"]}"#, ..RUN },
];

/// Runs the program as a row says, with the numbers in the place of the letters.
fn leaves_at<R: AllocGlobal + Threads + Wait + Sync + Abort>(
    rt: &R,
    row: &Row,
    numbers: Numbers,
) -> Result<(), Fail> {
    let alloc = rt.alloc();
    let script = numbered(alloc, row.script, numbers)?;
    let out = numbered(alloc, row.out, numbers)?;
    let row = Row {
        script: script.as_str(),
        out: out.as_str(),
        ..*row
    };
    leaves(rt, &row)
}

/// Runs each row at a key with a value, by each transaction.
fn each_leaves_at<R: AllocGlobal + Threads + Wait + Sync + Abort>(
    rt: &R,
    key: u64,
    value: u64,
) -> Result<(), Fail> {
    for txn in TXNS {
        let numbers = Numbers {
            key,
            value,
            other: u64::MAX - value,
            txn: u64::from(txn),
        };
        for row in ROWS {
            leaves_at(rt, row, numbers)?;
        }
    }
    Ok(())
}

#[test]
fn each_boundary(rt: HostRuntime) -> Result<(), Fail> {
    for key in KEYS {
        for value in KEYS {
            each_leaves_at(&rt, key, value)?;
        }
    }
    Ok(())
}
