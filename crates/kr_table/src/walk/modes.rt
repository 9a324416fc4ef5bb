//! The names of the modes.
ghost use Rattle.std.specs.Prelude.{◌≡◌, MatchResult, [], map, string_bytes};
ghost use Rattle.toml.specs.View.{items_view};
ghost use Rattle.kr_table.specs.Faults.{Passes, Tells};
ghost use Rattle.kr_table.specs.Members.{items_len, names_of};
ghost use Rattle.kr_table.specs.DocumentFaults as spec;

use crate::faults::TableFault;
use std::alloc::Global;
use toml::Value;

/// Whether one of the modes has the name.
pub fn is_mode(modes: &[String], name: &str) -> bool
    ensures { result ≡ spec.is_mode (map string_bytes modes.now) name.now }
{
    for mode in modes {
        if mode.as_str() == name {
            return true;
        }
    }
    false
}

fn is_printable(name: &[u8]) -> bool
    ensures { result ≡ spec.is_printable name.now }
{
    for byte in name {
        if *byte < 32 || *byte > 126 {
            return false;
        }
    }
    true
}

/// Whether a mode after these may have the name.
fn is_good_name(modes: &[String], name: &str) -> bool
    ensures { result ≡ spec.is_good (map string_bytes modes.now) name.now }
{
    name.len() > 0
        && name.len() < 25
        && is_printable(name.as_bytes())
        && name != "none"
        && !is_mode(modes, name)
}

/// Tests that there are 1 to 15 modes.
pub fn test_count(list: &[Value]) -> Result<(), TableFault>
    ensures { Passes result (spec.count_faults (items_len (items_view list.now))) }
{
    if list.is_empty() || list.len() > 15 {
        return Err(TableFault::ModeCount);
    }
    Ok(())
}

/// The names of the modes, or the first element that is no name for one.
pub fn modes_of(alloc: Global, list: &[Value]) -> Result<Vec<String>, TableFault>
    ensures { MatchResult result
        (λ v. (spec.mode_faults 0 [] (items_view list.now) ≡ []) × (map string_bytes v.items ≡ names_of (items_view list.now)))
        (λ e. Tells e (spec.mode_faults 0 [] (items_view list.now))) }
{
    let mut modes = Vec::new(alloc);
    for (i, item) in list.iter().enumerate() {
        let Some(name) = item.as_str() else {
            return Err(TableFault::ModeName(i));
        };
        if !is_good_name(modes.as_slice(), name) {
            return Err(TableFault::ModeName(i));
        }
        let Ok(name) = String::from_str(alloc, name) else {
            return Err(TableFault::Memory);
        };
        if modes.push(name).is_err() {
            return Err(TableFault::Memory);
        }
    }
    Ok(modes)
}
