//! Locks and places, each written behind what a text has.
ghost use Rattle.std.specs.Prelude.{◌≡◌, ◌++◌, ◌∷◌, [], decimal, OnOk, string_bytes};
ghost use Rattle.serde_json.specs.Written.{compact_text};
ghost use Rattle.kr_report.specs.Report.{name_data, locks_data};

use kr_model::{Mode, Name, Txn};
use kr_protocol::{Protocol, name_or_empty};
use kr_script::{quoted, separator, write_name, write_number};
use std::alloc::{AllocError, Global};

/// Writes a lock whose mode has this name in quotes.
fn write_lock(out: &mut String, lock: (Name, Txn), mode: &str) -> Result<(), AllocError>
    ensures { OnOk result (string_bytes out.new ≡ string_bytes out.old
        ++ 91 ∷ (compact_text (name_data lock.0) ++ 44 ∷ (decimal lock.1 ++ 44 ∷ (mode.now ++ 93 ∷ [])))) }
{
    out.push_str("[")?;
    write_name(out, lock.0)?;
    out.push_str(",")?;
    write_number(out, u64::from(lock.1))?;
    out.push_str(",")?;
    out.push_str(mode)?;
    out.push_str("]")
}

/// Writes an array of locks under a protocol.
pub fn write_locks<P: Protocol>(
    alloc: Global,
    protocol: &P,
    out: &mut String,
    locks: &[((Name, Txn), Mode)],
) -> Result<(), AllocError>
    ensures { OnOk result (string_bytes out.new
        ≡ string_bytes out.old ++ compact_text (locks_data (P.names protocol.now) locks.now)) }
{
    out.push_str("[")?;
    let mut later = false;
    // Neighbours mostly have the same mode, so its name is quoted where the mode changes.
    let mut named = 0;
    let mut name = quoted(alloc, name_or_empty(protocol, named))?;
    for (lock, mode) in locks {
        if *mode != named {
            named = *mode;
            name = quoted(alloc, name_or_empty(protocol, named))?;
        }
        out.push_str(separator(later))?;
        write_lock(out, *lock, name.as_str())?;
        later = true;
    }
    out.push_str("]")
}

/// Writes a prefix of an array, the number of a transaction and that of one of its operations or steps, and a comma
/// behind each.
pub fn write_place(
    out: &mut String,
    beginning: &str,
    txn: Txn,
    operation: u64,
) -> Result<(), AllocError>
    ensures { OnOk result (string_bytes out.new ≡ string_bytes out.old
        ++ (beginning.now ++ (decimal txn ++ 44 ∷ (decimal operation ++ 44 ∷ [])))) }
{
    out.push_str(beginning)?;
    write_number(out, u64::from(txn))?;
    out.push_str(",")?;
    write_number(out, operation)?;
    out.push_str(",")
}
