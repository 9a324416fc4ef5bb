//! Who holds what, in words.

use kr_explain_text::lock_name;
use kr_model::{Memory, Mode, Name, Txn};
use kr_protocol::{Protocol, name_or_empty};
use std::alloc::Global;

/// Who holds what: name after name, each with its holders.
pub(crate) fn held_text<P: Protocol>(
    alloc: Global,
    protocol: &P,
    locks: &[((Name, Txn), Mode)],
) -> Result<String, Memory> {
    let mut out = String::new(alloc);
    let mut before = None;
    for ((name, txn), mode) in locks {
        write_lead(alloc, &mut out, before, *name)?;
        write_holder(&mut out, *txn, name_or_empty(protocol, *mode))?;
        before = Some(*name);
    }
    Ok(out)
}

/// Writes what comes before a holder of a lock, behind a lock on the name `before`.
fn write_lead(
    alloc: Global,
    out: &mut String,
    before: Option<Name>,
    name: Name,
) -> Result<(), Memory> {
    match before {
        None => write_name(alloc, out, "", name),
        Some(other) if other == name => out.push_str(", "),
        Some(_) => write_name(alloc, out, "; ", name),
    }
}

/// Writes a lock name behind a text.
fn write_name(alloc: Global, out: &mut String, before: &str, name: Name) -> Result<(), Memory> {
    let words = lock_name(alloc, name)?;
    write!(out, "{before}{words}: ")
}

/// Writes who holds a mode.
fn write_holder(out: &mut String, txn: Txn, mode: &str) -> Result<(), Memory> {
    write!(out, "T{txn} {mode}")
}
