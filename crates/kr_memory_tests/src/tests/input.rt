//! Odd and cut input, each with its fault.
mod deep;
mod scripts;
mod tables;

use kr_script::read_script;
use kr_table::read;
use std::alloc::{AllocError, Global};
use std::process::Abort;

/// What is read.
#[derive(Clone, Copy)]
enum Kind {
    Script,
    Table,
}

/// The fault that is told of a script, as it is shown, or `none`.
fn script_fault(alloc: Global, bytes: &[u8]) -> Result<String, AllocError> {
    match read_script(alloc, bytes) {
        Ok(_) => String::from_str(alloc, "none"),
        Err(fault) => format!(in alloc; "{fault}"),
    }
}

/// The same of a table.
fn table_fault(alloc: Global, bytes: &[u8]) -> Result<String, AllocError> {
    match read(alloc, bytes) {
        Ok(_) => String::from_str(alloc, "none"),
        Err(fault) => format!(in alloc; "{fault}"),
    }
}

/// The fault that is told of a text, as it is shown, or `none`.
fn fault_of(alloc: Global, kind: Kind, text: &str) -> Result<String, AllocError> {
    match kind {
        Kind::Script => script_fault(alloc, text.as_bytes()),
        Kind::Table => table_fault(alloc, text.as_bytes()),
    }
}

/// Compares the fault that is told of a text.
fn tells(
    rt: &impl Abort,
    alloc: Global,
    kind: Kind,
    text: &str,
    expected: &str,
) -> Result<(), AllocError> {
    let fault = fault_of(alloc, kind, text)?;
    assert_eq!(rt; fault.as_str(), expected, "{text}");
    Ok(())
}

/// Sees that some fault is told of a text, which is said by its beginning.
fn tells_any(
    rt: &impl Abort,
    alloc: Global,
    kind: Kind,
    text: &str,
    beginning: &str,
) -> Result<(), AllocError> {
    let fault = fault_of(alloc, kind, text)?;
    assert!(rt;
        fault.as_str().starts_with("fault "),
        "{beginning}: {fault}"
    );
    Ok(())
}
