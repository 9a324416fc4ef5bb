//! The members of a document: its format, no unknown ones, and those that speak of ghosts.
ghost use Rattle.std.specs.Prelude.{◌≡◌, MatchResult, Some, [], codes, is_some};
ghost use Rattle.toml.specs.View.{view, members_view};
ghost use Rattle.toml.specs.Data.{get, as_str};
ghost use Rattle.kr_table.specs.Faults.{Passes, Tells};
ghost use Rattle.kr_table.specs.Members.{integer_in, text_in};
ghost use Rattle.kr_ghost_table.specs.DocumentFaults as spec;

use kr_table::TableFault;
use kr_table::walk::{field, is_member_name};
use std::alloc::Global;
use toml::{Table as Document, Value};

/// Whether something stands at the name.
pub fn has(value: &Value, name: &str) -> bool
    ensures { result ≡ is_some (get name.now (view value.now)) }
{
    value.get(name).is_some()
}

/// Tests that the format is 3.
pub fn test_format(alloc: Global, value: &Value) -> Result<(), TableFault>
    ensures { Passes result (spec.format_faults (integer_in (codes "format") (view value.now))) }
{
    match value.get("format").and_then(Value::as_integer) {
        None => Err(field(alloc, "format")),
        Some(3) => Ok(()),
        Some(_) => Err(TableFault::Format),
    }
}

/// Whether a table with ghosts has a member of this name.
fn is_known(name: &str) -> bool
    ensures { result ≡ spec.is_member_name name.now }
{
    is_member_name(name) || name == "deletes" || name == "purge"
}

/// Tests that no member is unknown.
pub fn test_names(alloc: Global, members: &Document) -> Result<(), TableFault>
    ensures { Passes result (spec.name_faults (members_view members.now.entries)) }
{
    for (name, _) in members.iter() {
        if !is_known(name.as_str()) {
            return Err(field(alloc, name.as_str()));
        }
    }
    Ok(())
}

/// Whether the text at `deletes` says that deletes leave ghosts.
fn leaves_ghosts(value: &Value) -> bool
    ensures { result ≡ spec.is_word (codes "ghosts") (text_in (codes "deletes") (view value.now)) }
{
    match value.get("deletes").and_then(Value::as_str) {
        Some(word) => word == "ghosts",
        None => false,
    }
}

/// Tests that deletes leave ghosts.
pub fn test_deletes(alloc: Global, value: &Value) -> Result<(), TableFault>
    ensures { Passes result (spec.delete_faults (view value.now)) }
{
    if leaves_ghosts(value) {
        Ok(())
    } else {
        Err(field(alloc, "deletes"))
    }
}

fn is_unlocked(value: &Value) -> bool
    ensures { result ≡ spec.is_word (codes "unlocked") (as_str (view value.now)) }
{
    match value.as_str() {
        Some(word) => word == "unlocked",
        None => false,
    }
}

/// Whether it is what may stand at `purge`.
fn is_purge(value: &Value) -> bool
    ensures { result ≡ spec.is_purge (Some (view value.now)) }
{
    value.as_table().is_some() || is_unlocked(value)
}

/// What stands at `purge`, or the fault that it is neither the word `unlocked` nor a table.
pub fn purge_at<'a>(alloc: Global, value: &'a Value) -> Result<&'a Value, TableFault>
    ensures { MatchResult result
        (λ p. (get (codes "purge") (view value.entry.now) ≡ Some (view p.now)) × (spec.purge_faults (view value.entry.now) ≡ []))
        (λ e. Tells e (spec.purge_faults (view value.entry.now))) }
{
    match value.get("purge") {
        Some(purge) => {
            if is_purge(purge) {
                Ok(purge)
            } else {
                Err(field(alloc, "purge"))
            }
        }
        None => Err(field(alloc, "purge")),
    }
}
