//! The walk over a document, which tells the first of its faults: each part is tested for its own.
//! A reader of another format of tables calls these for the members that it shares with them.
ghost use Rattle.std.specs.Prelude.{◌≡◌, is_some, map, string_bytes, true};
ghost use Rattle.toml.specs.View.{view};
ghost use Rattle.toml.specs.Data.{as_table};
ghost use Rattle.kr_table.specs.Faults.{Passes};
ghost use Rattle.kr_table.specs.DocumentFaults as spec;

mod document;
mod matrices;
mod modes;
mod paths;
mod rules;

use crate::faults::TableFault;
use crate::rows::Rows;
use crate::walk::matrices::{test_entries, test_held, test_missing, test_missing_pairs};
use crate::walk::rules::test_rows;
pub(crate) use document::{test_format, test_names};
pub use document::{is_member_name, list_at, table_at};
pub use modes::{is_mode, modes_of, test_count};
pub use paths::field;
use std::alloc::Global;
use toml::Value;

/// Tests `compatible`, `convert` and `rules`, given which rows the table has and the names of the modes.
pub fn test_content(
    alloc: Global,
    rows: Rows,
    modes: &[String],
    compatible: &Value,
    convert: &Value,
    rules: &Value,
) -> Result<(), TableFault>
    requires compatible_is_table { is_some (as_table (view compatible.now)) ≡ true }
    requires convert_is_table { is_some (as_table (view convert.now)) ≡ true }
    requires rules_is_table { is_some (as_table (view rules.now)) ≡ true }
    ensures { Passes result (spec.content_faults rows (map string_bytes modes.now) (view compatible.now) (view convert.now) (view rules.now)) }
{
    let (Some(entries), Some(held), Some(members)) = (
        compatible.as_table(),
        convert.as_table(),
        rules.as_table(),
    ) else {
        return Ok(());
    };
    test_entries(alloc, modes, entries)?;
    test_missing(alloc, modes, compatible)?;
    test_held(alloc, modes, held)?;
    test_missing_pairs(alloc, modes, convert)?;
    test_rows(alloc, rows, modes, members)
}
