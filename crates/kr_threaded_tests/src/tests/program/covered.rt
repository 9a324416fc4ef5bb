//! Runs under covered protocols, which are serializable: each bundled table as a type, and as a file that was checked.
use super::scripts::{SCRIPTS, full, full_after_one};
use kr_cases::check;
use kr_protocol::{Covered, Im, Kvl, KvlUpdate, RangeKey};
use kr_script::{Script, read_script};
use kr_serial::{judge, run};
use kr_table::bundled::{IM, KVL, KVL_UPDATE, RANGE_KEY};
use std::process::Abort;
use std::test::Fail;

/// Runs a script under a covered protocol, and judges the run.
fn is_serial<R: AllocGlobal + Abort, P: Covered>(
    rt: &R,
    protocol: &P,
    script: &Script,
) -> Result<(), Fail> {
    let alloc = rt.alloc();
    let ran = run(alloc, protocol, script.opening(), script.steps())?;
    let verdict = judge(alloc, &ran)?;
    assert!(rt; verdict.is_serial());
    Ok(())
}

/// The same under the table in a file, once it is checked.
fn is_serial_checked<R: AllocGlobal + Abort>(
    rt: &R,
    table: &str,
    script: &Script,
) -> Result<(), Fail> {
    let alloc = rt.alloc();
    let table = kr_table::read(alloc, table.as_bytes()).map_err(|_| "no table")?;
    let checked = check(alloc, table).map_err(|_| "not covered")?;
    is_serial(rt, &checked, script)
}

/// Runs the text of a script under each bundled table, as a type and from its file.
fn serial_under_each<R: AllocGlobal + Abort>(rt: &R, script: &str) -> Result<(), Fail> {
    let script = read_script(rt.alloc(), script.as_bytes()).map_err(|_| "no script")?;
    is_serial(rt, &Kvl, &script)?;
    is_serial(rt, &KvlUpdate, &script)?;
    is_serial(rt, &Im, &script)?;
    is_serial(rt, &RangeKey, &script)?;
    for table in [KVL, KVL_UPDATE, IM, RANGE_KEY] {
        is_serial_checked(rt, table, &script)?;
    }
    Ok(())
}

#[test]
fn the_worked_scripts_are_serial(rt: HostRuntime) -> Result<(), Fail> {
    for script in SCRIPTS {
        serial_under_each(&rt, *script)?;
    }
    let script = full(rt.alloc())?;
    serial_under_each(&rt, script.as_str())?;
    let script = full_after_one(rt.alloc())?;
    serial_under_each(&rt, script.as_str())
}
