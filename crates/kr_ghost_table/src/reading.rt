//! Reading a table with ghosts.
ghost use Rattle.std.specs.Prelude.{◌≡◌, ◌≤◌, Err, IfOk, IsErr, codes, is_some, length, map, string_bytes, true};
ghost use Rattle.toml.specs.View.{view};
ghost use Rattle.toml.specs.Data.{as_table};
ghost use Rattle.kr_table.specs.declared.faults.TableFault.TheVariants as told_as;
ghost use Rattle.kr_ghost_table.specs.declared.faults.GhostTableFault.TheVariants as ghost_told_as;
ghost use Rattle.kr_table.specs.Members.{integer_in};
ghost use Rattle.kr_ghost_table.specs.Tables.{IsGhostTable};
ghost use Rattle.kr_ghost_table.specs.Reading as spec;
ghost use Rattle.kr_ghost_table.specs.Answer.{Gives, ghost_data};

use crate::faults::GhostTableFault;
use crate::heirs::{heirs_of, test_heirs};
use crate::shape::{Shape, shape_of};
use crate::table::GhostTable;
use crate::vain::vain_rows_of;
use kr_model::Memory;
use kr_table::making::{asked_at, parts_of};
use kr_table::{Table, TableFault};
use std::alloc::{AllocError, Global};
use toml::Value;

/// A table has no more bytes, as it is read and as it is written.
pub(crate) const MAX_BYTES: usize = 65_536;

/// The table that the bytes are, or the first of their faults. `Memory` comes only where a growth was refused, and so at no text
/// that is too long.
pub fn read(alloc: Global, bytes: &[u8]) -> Result<GhostTable, GhostTableFault>
    ensures reads { Gives result (spec.reading bytes.now) }
    ensures memory { (result ≡ Err (ghost_told_as.Table told_as.Memory)) → length bytes.now ≤ 65536 }
{
    if bytes.len() > MAX_BYTES {
        return Err(GhostTableFault::Table(TableFault::TooLong));
    }
    match toml::table_from_slice(alloc, bytes) {
        Ok(table) => table_of(alloc, &Value::Table(table)),
        Err(e) if e.is_memory() => Err(GhostTableFault::Table(TableFault::Memory)),
        Err(_) => Err(GhostTableFault::Table(TableFault::NotToml)),
    }
}

/// The table that a document is, or the first of its faults.
fn table_of(alloc: Global, value: &Value) -> Result<GhostTable, GhostTableFault>
    requires { is_some (as_table (view value.now)) ≡ true }
    ensures { Gives result (spec.judged (view value.now)) }
{
    let shape = match shape_of(alloc, value) {
        Ok(shape) => shape,
        Err(e) => return Err(GhostTableFault::Table(e)),
    };
    if let Err(e) = test_heirs(alloc, shape.names.as_slice(), shape.purge) {
        return Err(e);
    }
    match made(alloc, shape) {
        Ok(table) => Ok(table),
        Err(_) => Err(GhostTableFault::Table(TableFault::Memory)),
    }
}

/// The table of these members.
fn made(alloc: Global, shape: Shape<'_>) -> Result<GhostTable, Memory>
    requires { IsGhostTable (spec.table_of_members (map string_bytes shape.names.items) (view shape.compatible.now) (view shape.convert.now) (view shape.rules.now) (view shape.purge.now)) }
    ensures { IfOk result (λ t. ghost_data t ≡ spec.table_of_members (map string_bytes shape.entry.names.items) (view shape.entry.compatible.now) (view shape.entry.convert.now) (view shape.entry.rules.now) (view shape.entry.purge.now)) }
{
    let names = shape.names.as_slice();
    let revive = asked_at(names, shape.rules, "revive", "current");
    let revive_next = asked_at(names, shape.rules, "revive", "next");
    let vain = vain_rows_of(names, shape.rules);
    let heirs = heirs_of(alloc, names, shape.purge)?;
    let parts = parts_of(
        alloc,
        true,
        shape.names,
        shape.compatible,
        shape.convert,
        shape.rules,
    )?;
    Ok(GhostTable::new(Table::new(parts), revive, revive_next, vain, heirs))
}

/// Whether the format of a document is 3.
fn is_three(value: &Value) -> bool
    ensures { result ≡ spec.is_three (integer_in (codes "format") (view value.now)) }
{
    match value.get("format").and_then(Value::as_integer) {
        Some(format) => format == 3,
        None => false,
    }
}

/// Whether the bytes are at most 65,536, and a document of format 3, faulty or not. `Memory` comes only where a growth was refused.
pub fn has_ghosts(alloc: Global, bytes: &[u8]) -> Result<bool, Memory>
    ensures says { IfOk result (λ b. b ≡ spec.is_of_format_three bytes.now) }
    ensures memory { IsErr result → length bytes.now ≤ 65536 }
{
    if bytes.len() > MAX_BYTES {
        return Ok(false);
    }
    match toml::table_from_slice(alloc, bytes) {
        Ok(table) => Ok(is_three(&Value::Table(table))),
        Err(e) if e.is_memory() => Err(AllocError),
        Err(_) => Ok(false),
    }
}
