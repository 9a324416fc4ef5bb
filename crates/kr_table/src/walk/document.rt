//! The members of a document: its format, no unknown ones, and an array and three tables.
ghost use Rattle.std.specs.Prelude.{◌≡◌, MatchResult, [], Some, codes, is_some, true};
ghost use Rattle.toml.specs.View.{view, items_view, members_view};
ghost use Rattle.toml.specs.Data.{get, as_table};
ghost use Rattle.kr_table.specs.Faults.{Passes, Tells};
ghost use Rattle.kr_table.specs.Members.{integer_in, list_in};
ghost use Rattle.kr_table.specs.DocumentFaults as spec;

use crate::faults::TableFault;
use crate::walk::paths::field;
use std::alloc::Global;
use toml::{Table, Value};

/// Whether updates are offered, which is so in format 2, or the fault that the format is neither 1 nor 2.
pub fn test_format(alloc: Global, value: &Value) -> Result<bool, TableFault>
    ensures { MatchResult result
        (λ u. (spec.format_faults (integer_in (codes "format") (view value.now)) ≡ []) × (spec.updates_in (view value.now) ≡ u))
        (λ e. Tells e (spec.format_faults (integer_in (codes "format") (view value.now)))) }
{
    match value.get("format").and_then(Value::as_integer) {
        None => Err(field(alloc, "format")),
        Some(1) => Ok(false),
        Some(2) => Ok(true),
        Some(_) => Err(TableFault::Format),
    }
}

/// Whether a table of format 1 or 2 has a member of this name.
pub fn is_member_name(name: &str) -> bool
    ensures { result ≡ spec.is_member_name name.now }
{
    name == "format"
        || name == "modes"
        || name == "compatible"
        || name == "convert"
        || name == "rules"
}

/// Tests that no member is unknown.
pub fn test_names(alloc: Global, members: &Table) -> Result<(), TableFault>
    ensures { Passes result (spec.name_faults (members_view members.now.entries)) }
{
    for (name, _) in members.iter() {
        if !is_member_name(name.as_str()) {
            return Err(field(alloc, name.as_str()));
        }
    }
    Ok(())
}

/// The array at a name, or the fault that none stands there.
pub fn list_at<'a>(alloc: Global, value: &'a Value, name: &str) -> Result<&'a [Value], TableFault>
    ensures { MatchResult result
        (λ s. list_in name.now (view value.entry.now) ≡ Some (items_view s.now))
        (λ e. Tells e (spec.list_faults name.now (view value.entry.now))) }
{
    match value.get(name).and_then(Value::as_array) {
        Some(list) => Ok(list.as_slice()),
        None => Err(field(alloc, name)),
    }
}

fn is_table(value: &Value) -> bool
    ensures { result ≡ is_some (as_table (view value.now)) }
{
    value.as_table().is_some()
}

/// The table at a name, or the fault that none stands there.
pub fn table_at<'a>(alloc: Global, value: &'a Value, name: &str) -> Result<&'a Value, TableFault>
    ensures { MatchResult result
        (λ t. (get name.now (view value.entry.now) ≡ Some (view t.now)) × (is_some (as_table (view t.now)) ≡ true))
        (λ e. Tells e (spec.table_faults name.now (view value.entry.now))) }
{
    match value.get(name) {
        Some(entry) => {
            if is_table(entry) {
                Ok(entry)
            } else {
                Err(field(alloc, name))
            }
        }
        None => Err(field(alloc, name)),
    }
}
