//! Which modes stand together, and what modes convert to.
ghost use Rattle.std.specs.Prelude.{◌≡◌, is_some, map, string_bytes};
ghost use Rattle.toml.specs.View.{view, items_view, members_view};
ghost use Rattle.toml.specs.Data.{get, as_array, as_str};
ghost use Rattle.kr_table.specs.Faults.{Passes};
ghost use Rattle.kr_table.specs.Members.{pair_in};
ghost use Rattle.kr_table.specs.DocumentFaults as spec;

use crate::faults::TableFault;
use crate::walk::modes::is_mode;
use crate::walk::paths::{compatible_entry, convert_entry, convert_pair};
use std::alloc::Global;
use toml::{Table, Value};

fn are_modes(modes: &[String], list: &[Value]) -> bool
    ensures { result ≡ spec.all_modes (map string_bytes modes.now) (items_view list.now) }
{
    for item in list {
        let Some(name) = item.as_str() else {
            return false;
        };
        if !is_mode(modes, name) {
            return false;
        }
    }
    true
}

/// Whether an entry of `compatible` is as it has to be.
fn is_entry(modes: &[String], name: &str, value: &Value) -> bool
    ensures { result ≡ spec.is_entry (map string_bytes modes.now) name.now (as_array (view value.now)) }
{
    match value.as_array() {
        Some(list) => is_mode(modes, name) && are_modes(modes, list.as_slice()),
        None => false,
    }
}

/// Tests each entry of `compatible`.
pub fn test_entries(alloc: Global, modes: &[String], entries: &Table) -> Result<(), TableFault>
    ensures { Passes result (spec.entry_faults (map string_bytes modes.now) (members_view entries.now.entries)) }
{
    for (name, value) in entries.iter() {
        if !is_entry(modes, name.as_str(), value) {
            return Err(compatible_entry(alloc, name.as_str()));
        }
    }
    Ok(())
}

fn has(value: &Value, name: &str) -> bool
    ensures { result ≡ is_some (get name.now (view value.now)) }
{
    value.get(name).is_some()
}

/// Tests that each mode has an entry in `compatible`.
pub fn test_missing(alloc: Global, modes: &[String], entries: &Value) -> Result<(), TableFault>
    ensures { Passes result (spec.missing_faults (map string_bytes modes.now) (view entries.now)) }
{
    for mode in modes {
        if !has(entries, mode.as_str()) {
            return Err(compatible_entry(alloc, mode.as_str()));
        }
    }
    Ok(())
}

fn is_mode_value(modes: &[String], value: &Value) -> bool
    ensures { result ≡ spec.is_mode_text (map string_bytes modes.now) (as_str (view value.now)) }
{
    match value.as_str() {
        Some(name) => is_mode(modes, name),
        None => false,
    }
}

/// Tests each pair of a held mode.
fn test_pairs(alloc: Global, modes: &[String], held: &str, pairs: &Table) -> Result<(), TableFault>
    ensures { Passes result (spec.pair_faults (map string_bytes modes.now) held.now (members_view pairs.now.entries)) }
{
    for (requested, value) in pairs.iter() {
        if !(is_mode(modes, requested.as_str()) && is_mode_value(modes, value)) {
            return Err(convert_pair(alloc, held, requested.as_str()));
        }
    }
    Ok(())
}

/// Tests each entry of `convert`, with its pairs.
pub fn test_held(alloc: Global, modes: &[String], entries: &Table) -> Result<(), TableFault>
    ensures { Passes result (spec.held_faults (map string_bytes modes.now) (members_view entries.now.entries)) }
{
    for (held, value) in entries.iter() {
        let Some(pairs) = value.as_table() else {
            return Err(convert_entry(alloc, held.as_str()));
        };
        if !is_mode(modes, held.as_str()) {
            return Err(convert_entry(alloc, held.as_str()));
        }
        test_pairs(alloc, modes, held.as_str(), pairs)?;
    }
    Ok(())
}

fn has_pair(entries: &Value, held: &str, requested: &str) -> bool
    ensures { result ≡ is_some (pair_in (view entries.now) held.now requested.now) }
{
    match entries.get(held) {
        Some(pairs) => has(pairs, requested),
        None => false,
    }
}

/// Tests that a held mode has a pair with each mode.
fn test_missing_of(
    alloc: Global,
    modes: &[String],
    held: &str,
    entries: &Value,
) -> Result<(), TableFault>
    ensures { Passes result (spec.missing_of held.now (map string_bytes modes.now) (view entries.now)) }
{
    for requested in modes {
        if !has_pair(entries, held, requested.as_str()) {
            return Err(convert_pair(alloc, held, requested.as_str()));
        }
    }
    Ok(())
}

/// Tests that each mode has a pair with each mode.
pub fn test_missing_pairs(
    alloc: Global,
    modes: &[String],
    entries: &Value,
) -> Result<(), TableFault>
    ensures { Passes result (spec.missing_pairs (map string_bytes modes.now) (map string_bytes modes.now) (view entries.now)) }
{
    for held in modes {
        test_missing_of(alloc, modes, held.as_str(), entries)?;
    }
    Ok(())
}
