//! Who holds what, in words.
ghost use Rattle.std.specs.Prelude.{◌≡◌, ◌++◌, IfOk, OnOk, string_bytes};
ghost use Rattle.kr_explain_text.specs.Spoken.{holder_words, is_same, lead_words, locks_words};

use crate::spoken::lock_name;
use kr_cases::Memory;
use kr_model::{Mode, Name, Txn};
use kr_protocol::{Protocol, name_or_empty};
use std::alloc::Global;

/// Whether two names are one.
fn is_same(first: Name, second: Name) -> bool
    ensures { result ≡ is_same first second }
{
    match (first, second) {
        (Name::Key(one), Name::Key(other)) => one == other,
        (Name::End, Name::End) => true,
        _ => false,
    }
}

/// Writes what comes before a holder of a lock, behind a lock on the name `before`.
fn write_lead(
    alloc: Global,
    out: &mut String,
    before: Option<Name>,
    name: Name,
) -> Result<(), Memory>
    ensures { OnOk result (string_bytes out.new ≡ string_bytes out.old ++ lead_words before name) }
{
    let words = lock_name(alloc, name)?;
    match before {
        None => write!(out, "{words}: "),
        Some(before) => {
            if is_same(before, name) {
                out.push_str(", ")
            } else {
                write!(out, "; {words}: ")
            }
        }
    }
}

/// Writes who holds a lock, and in which mode.
fn write_holder<P: Protocol>(
    protocol: &P,
    out: &mut String,
    lock: ((Name, Txn), Mode),
) -> Result<(), Memory>
    ensures { OnOk result (string_bytes out.new ≡ string_bytes out.old ++ holder_words (P.names protocol.now) lock) }
{
    let ((_, txn), mode) = lock;
    let mode = name_or_empty(protocol, mode);
    write!(out, "T{txn} {mode}")
}

/// Who holds what: name after name, each with its holders.
pub fn locks_text<P: Protocol>(
    alloc: Global,
    protocol: &P,
    locks: &[((Name, Txn), Mode)],
) -> Result<String, Memory>
    ensures { IfOk result (λ text. string_bytes text ≡ locks_words (P.names protocol.now) locks.now) }
{
    let mut out = String::new(alloc);
    let mut before = None;
    for lock in locks {
        let name = lock.0.0;
        write_lead(alloc, &mut out, before, name)?;
        write_holder(protocol, &mut out, *lock)?;
        before = Some(name);
    }
    Ok(out)
}
