//! The entries of `purge`: the heir of each mode.
ghost use Rattle.std.specs.Prelude.{◌≡◌, ◌≤◌, ◌∷◌, [], IfOk, length, map, string_bytes};
ghost use Rattle.toml.specs.View.{view, members_view};
ghost use Rattle.toml.specs.Data.{as_str};
ghost use Rattle.kr_table.specs.DocumentFaults.{is_own_text};
ghost use Rattle.kr_ghost_table.specs.Faults as fault;
ghost use Rattle.kr_ghost_table.specs.Faults.{Passes, Tells};
ghost use Rattle.kr_ghost_table.specs.DocumentFaults as spec;
ghost use Rattle.kr_ghost_table.specs.Reading.{heirs};
ghost use Rattle.kr_ghost_table.specs.Shown as shown;

use crate::faults::GhostTableFault;
use crate::members::has;
use kr_model::Memory;
use kr_protocol::Mode;
use kr_table::TableFault;
use kr_table::making::{number, text_at};
use kr_table::walk::is_mode;
use std::alloc::Global;
use toml::{Table as Document, Value};

/// The fault of the entry of a mode, or `Memory` where its path can't be made.
fn heir_fault(alloc: Global, mode: &str) -> GhostTableFault
    ensures { Tells result (fault.purge (spec.heir_path mode.now) ∷ []) }
{
    match format!(in alloc; "purge.{mode}") {
        Ok(path) => GhostTableFault::Purge(path),
        Err(_) => GhostTableFault::Table(TableFault::Memory),
    }
}

/// Whether it is the name of a mode, or `none`.
fn is_heir(modes: &[String], value: &Value) -> bool
    ensures { result ≡ is_own_text (map string_bytes modes.now) (as_str (view value.now)) }
{
    match value.as_str() {
        Some(name) => name == "none" || is_mode(modes, name),
        None => false,
    }
}

/// Tests each entry.
fn test_entries(alloc: Global, modes: &[String], entries: &Document) -> Result<(), GhostTableFault>
    ensures { Passes result (spec.entry_faults (map string_bytes modes.now) (members_view entries.now.entries)) }
{
    for (mode, value) in entries.iter() {
        if !(is_mode(modes, mode.as_str()) && is_heir(modes, value)) {
            return Err(heir_fault(alloc, mode.as_str()));
        }
    }
    Ok(())
}

/// Tests that each mode has an entry.
fn test_missing(alloc: Global, modes: &[String], purge: &Value) -> Result<(), GhostTableFault>
    ensures { Passes result (spec.missing_faults (map string_bytes modes.now) (view purge.now)) }
{
    for mode in modes {
        if !has(purge, mode.as_str()) {
            return Err(heir_fault(alloc, mode.as_str()));
        }
    }
    Ok(())
}

/// Tests the entries, if `purge` is a table.
pub fn test_heirs(alloc: Global, modes: &[String], purge: &Value) -> Result<(), GhostTableFault>
    ensures { Passes result (spec.heir_faults (map string_bytes modes.now) (view purge.now)) }
{
    let Some(entries) = purge.as_table() else {
        return Ok(());
    };
    test_entries(alloc, modes, entries)?;
    test_missing(alloc, modes, purge)
}

/// The heir of each mode, if `purge` is a table.
pub fn heirs_of(alloc: Global, modes: &[String], purge: &Value) -> Result<Option<Vec<Mode>>, Memory>
    requires { length modes.now ≤ 15 }
    ensures { IfOk result (λ o. shown.heirs_of o ≡ heirs (map string_bytes modes.now) (view purge.now)) }
{
    if purge.as_table().is_none() {
        return Ok(None);
    }
    let mut heirs = Vec::new(alloc);
    for mode in modes {
        heirs.push(number(modes, text_at(purge, mode.as_str())))?;
    }
    Ok(Some(heirs))
}
