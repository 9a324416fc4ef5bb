//! Tables that are read, written and checked.

use kr_cases::{FailedCase, Rejected, WhyRejected, check};
use kr_protocol::{Im, Kvl, KvlUpdate, Protocol, RangeKey};
use kr_report::report_check;
use kr_table::bundled::{KVL, KVL_UPDATE};
use kr_table::{Table, TableFault, WriteFault, read, write};
use std::alloc::Global;
use std::process::Abort;
use std::test::Fail;

/// Index-specific locking whose delete gives up its lock on the next key at once.
const REJECTED: &str = r#"format = 1
modes = ["S", "X"]
compatible = { S = ["S"], X = [] }
convert = { S = { S = "S", X = "X" }, X = { S = "X", X = "X" } }

[rules]
fetch-hit = { current = [{ mode = "S", span = "commit" }] }
fetch-miss = { next = [{ mode = "S", span = "commit" }] }
scan-key = { current = [{ mode = "S", span = "commit" }] }
scan-stop = { next = [{ mode = "S", span = "commit" }] }
insert = { next = [{ mode = "X", span = "instant" }], current = [{ mode = "X", span = "commit" }] }
delete = { next = [{ mode = "X", span = "instant" }], current = [{ mode = "X", span = "instant" }] }
"#;

/// The report of its two cases that fail.
const FAILED: &str =
    r#"{"accepted":false,"cases":61,"failed":[{"case":"G8","cover":"DG","from":["none"],"mode":"none","open":["fetch-miss","next","none","none"]},{"case":"G8","cover":"DG","from":["S"],"mode":"S","open":["fetch-miss","next","none","none"]}],"modes":2}"#;

/// The table that a text is, read again where a growth was refused.
pub fn table_of(rt: &impl Abort, alloc: Global, text: &str) -> Result<Table, TableFault> {
    match read(alloc, text.as_bytes()) {
        Err(fault) => {
            assert!(rt; matches!(fault, TableFault::Memory), "{fault}");
            read(alloc, text.as_bytes())
        }
        Ok(table) => Ok(table),
    }
}

/// The text of a table, written again where a growth was refused.
fn text_of(rt: &impl Abort, alloc: Global, table: &Table) -> Result<String, WriteFault> {
    match write(alloc, table) {
        Err(fault) => {
            assert!(rt; fault == WriteFault::Memory, "{fault}");
            write(alloc, table)
        }
        Ok(text) => Ok(text),
    }
}

/// Compares a table with key-value locking, with updates or without.
fn is_key_value_locking(rt: &impl Abort, table: &Table, updates: bool) {
    assert_eq!(rt; table.updates(), updates);
    let has_modes = table.count() == 5
        && table.name(4) == "SIX"
        && table.convert(2, 3) == 4
        && !table.ok(2, 3);
    assert!(rt; has_modes);
}

/// Reads a text of key-value locking, writes the table, and reads and writes that.
fn is_read_and_written(
    rt: &impl Abort,
    alloc: Global,
    text: &str,
    updates: bool,
) -> Result<(), Fail> {
    let table = table_of(rt, alloc, text)?;
    is_key_value_locking(rt, &table, updates);
    let text = text_of(rt, alloc, &table)?;
    let again = table_of(rt, alloc, text.as_str())?;
    is_key_value_locking(rt, &again, updates);
    let second = text_of(rt, alloc, &again)?;
    assert_eq!(rt; second.as_str(), text.as_str());
    Ok(())
}

#[test]
fn key_value_locking_is_read_and_written(rt: HostRuntime) -> Result<(), Fail> {
    is_read_and_written(&rt, rt.alloc(), KVL, false)
}

#[test]
fn key_value_locking_with_updates_is_read_and_written(rt: HostRuntime) -> Result<(), Fail> {
    is_read_and_written(&rt, rt.alloc(), KVL_UPDATE, true)
}

#[test]
fn first_fault_of_a_table(rt: HostRuntime) {
    for text in ["format = 1", "format = 1\nmodes = 2"] {
        let mut fault = read(rt.alloc(), text.as_bytes()).err();
        if matches!(fault, Some(TableFault::Memory)) {
            fault = read(rt.alloc(), text.as_bytes()).err();
        }
        match fault {
            Some(TableFault::Field(path)) => assert_eq!(rt; path.as_str(), "modes"),
            other => assert!(rt; false, "{text}: {other:?}"),
        }
    }
}

/// The rejection of a table, and where its list was refused a growth that of the same table, which was given back.
fn rejected(alloc: Global, table: Table) -> Option<Rejected<Table>> {
    let first = check(alloc, table).err()?;
    match first.cause {
        WhyRejected::Failed(_) => Some(first),
        WhyRejected::Memory => check(alloc, first.protocol).err(),
    }
}

/// The report of these failed cases, again where a growth was refused.
fn told(alloc: Global, table: &Table, failed: &[FailedCase]) -> Result<String, Fail> {
    match report_check(alloc, table, failed) {
        Ok(text) => Ok(text),
        Err(_) => Ok(report_check(alloc, table, failed)?),
    }
}

#[test]
fn rejected_table_is_given_back(rt: HostRuntime) -> Result<(), Fail> {
    let alloc = rt.alloc();
    let table = table_of(&rt, alloc, REJECTED)?;
    let Rejected { protocol, cause } = rejected(alloc, table).ok_or("accepted")?;
    match cause {
        WhyRejected::Failed(failed) => {
            let report = told(alloc, &protocol, failed.as_slice())?;
            assert_eq!(rt; report.as_str(), FAILED);
        }
        WhyRejected::Memory => assert!(rt; false, "memory was refused twice"),
    }
    Ok(())
}

/// No growth is left to be refused here: the program that runs the tests sees to that.
#[test]
fn takes_none_to_accept_a_table(rt: HostRuntime) {
    assert!(rt; check(rt.alloc(), Kvl).is_ok());
    assert!(rt; check(rt.alloc(), KvlUpdate).is_ok());
    assert!(rt; check(rt.alloc(), Im).is_ok());
    assert!(rt; check(rt.alloc(), RangeKey).is_ok());
}
