//! The members of a document in which nothing but entries of `purge` can be faulty.
ghost use Rattle.std.specs.Prelude.{◌≡◌, MatchResult, [], codes, is_some, map, string_bytes, true};
ghost use Rattle.toml.specs.View.{view};
ghost use Rattle.toml.specs.Data.{as_table};
ghost use Rattle.kr_table.specs.Faults.{Tells};
ghost use Rattle.kr_table.specs.Members.{data_in, modes_in};
ghost use Rattle.kr_ghost_table.specs.DocumentFaults as spec;

use crate::members::{purge_at, test_deletes, test_format, test_names};
use kr_table::walk::{list_at, modes_of, table_at, test_content, test_count};
use kr_table::{Rows, TableFault};
use std::alloc::Global;
use toml::Value;

/// What a document has at its members: the names of the modes, three tables, and a word or a table at `purge`.
#[derive(Drop)]
pub struct Shape<'a> {
    pub names: Vec<String>,
    pub compatible: &'a Value,
    pub convert: &'a Value,
    pub rules: &'a Value,
    pub purge: &'a Value,
}

/// The members of a document, or the first of its faults that a table without ghosts has too.
pub fn shape_of<'a>(alloc: Global, value: &'a Value) -> Result<Shape<'a>, TableFault>
    requires { is_some (as_table (view value.now)) ≡ true }
    ensures { MatchResult result
        (λ s. (spec.table_document_faults (view value.now) ≡ [])
        × (modes_in (view value.now) ≡ map string_bytes s.names.items)
        × (data_in (codes "compatible") (view value.now) ≡ view s.compatible.now)
        × (data_in (codes "convert") (view value.now) ≡ view s.convert.now)
        × (data_in (codes "rules") (view value.now) ≡ view s.rules.now)
        × (data_in (codes "purge") (view value.now) ≡ view s.purge.now))
        (λ e. Tells e (spec.table_document_faults (view value.now))) }
{
    let Some(members) = value.as_table() else {
        return Err(TableFault::NotToml);
    };
    test_format(alloc, value)?;
    test_names(alloc, members)?;
    test_deletes(alloc, value)?;
    let list = list_at(alloc, value, "modes")?;
    let compatible = table_at(alloc, value, "compatible")?;
    let convert = table_at(alloc, value, "convert")?;
    let rules = table_at(alloc, value, "rules")?;
    let purge = purge_at(alloc, value)?;
    test_count(list)?;
    let names = match modes_of(alloc, list) {
        Ok(names) => names,
        Err(e) => return Err(e),
    };
    test_content(
        alloc,
        Rows::Ghosts,
        names.as_slice(),
        compatible,
        convert,
        rules,
    )?;
    Ok(Shape {
        names,
        compatible,
        convert,
        rules,
        purge,
    })
}
