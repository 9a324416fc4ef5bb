//! Reading a table.
ghost use Rattle.std.specs.Prelude.{◌≡◌, ◌≤◌, Err, is_some, length, true};
ghost use Rattle.toml.specs.View.{view};
ghost use Rattle.toml.specs.Data.{as_table};
ghost use Rattle.kr_table.specs.declared.faults.TableFault.TheVariants as told_as;
ghost use Rattle.kr_table.specs.Reading as spec;
ghost use Rattle.kr_table.specs.Answer.{Gives};

use crate::faults::{MAX_BYTES, TableFault};
use crate::making::parts_of;
use crate::rows::Rows;
use crate::table::Table;
use crate::walk::{list_at, modes_of, table_at, test_content, test_count, test_format, test_names};
use std::alloc::Global;
use toml::Value;

/// The table that the bytes are, or the first of their faults. `Memory` comes only where a growth
/// was refused, and so at no text that is too long.
pub fn read(alloc: Global, bytes: &[u8]) -> Result<Table, TableFault>
    ensures reads { Gives result (spec.reading bytes.now) }
    ensures memory { (result ≡ Err told_as.Memory) → length bytes.now ≤ 65536 }
{
    if bytes.len() > MAX_BYTES {
        return Err(TableFault::TooLong);
    }
    match toml::table_from_slice(alloc, bytes) {
        Ok(table) => table_of(alloc, &Value::Table(table)),
        Err(e) if e.is_memory() => Err(TableFault::Memory),
        Err(_) => Err(TableFault::NotToml),
    }
}

/// The table that a document is, or the first of its faults.
fn table_of(alloc: Global, value: &Value) -> Result<Table, TableFault>
    requires { is_some (as_table (view value.now)) ≡ true }
    ensures { Gives result (spec.judged (view value.now)) }
{
    let Some(members) = value.as_table() else {
        return Err(TableFault::NotToml);
    };
    let updates = test_format(alloc, value)?;
    test_names(alloc, members)?;
    let list = list_at(alloc, value, "modes")?;
    let compatible = table_at(alloc, value, "compatible")?;
    let convert = table_at(alloc, value, "convert")?;
    let rules = table_at(alloc, value, "rules")?;
    test_count(list)?;
    let names = match modes_of(alloc, list) {
        Ok(names) => names,
        Err(e) => return Err(e),
    };
    let rows = Rows::new(updates);
    test_content(alloc, rows, names.as_slice(), compatible, convert, rules)?;
    match parts_of(alloc, updates, names, compatible, convert, rules) {
        Ok(parts) => Ok(Table::new(parts)),
        Err(_) => Err(TableFault::Memory),
    }
}
