//! Tables from bytes, with ghosts and without.
ghost use Rattle.std.specs.Prelude.{◌≡◌, true, false, IfOk, IfErr, IfSome};
ghost use Rattle.kr_ghost_table.specs.Reading.{is_of_format_three};
ghost use Rattle.kr_embed.specs.Inputs.{IsTable, ExplainsTable};

use crate::faults::Fault;
use kr_cli::{AnyGhostTable, AnyTable, Ending, Named, at_ghost_fault, at_table_fault};
use kr_ghost_table::has_ghosts;
use std::alloc::Global;
use std::str;

/// The bundled table of this word.
fn bundled(word: &[u8]) -> Option<Named>
    ensures { IfSome result (IsTable word.now) }
{
    match str::from_utf8(word) {
        Ok("@kvl") => Some(Named::Table(AnyTable::Kvl)),
        Ok("@kvl-update") => Some(Named::Table(AnyTable::KvlUpdate)),
        Ok("@im") => Some(Named::Table(AnyTable::Im)),
        Ok("@range-key") => Some(Named::Table(AnyTable::RangeKey)),
        Ok("@record-gap") => Some(Named::Ghosts(AnyGhostTable::RecordGap)),
        Ok("@range-ghost") => Some(Named::Ghosts(AnyGhostTable::RangeGhost)),
        Ok("@next-key-ghost") => Some(Named::Ghosts(AnyGhostTable::NextKeyGhost)),
        _ => None,
    }
}

/// The table that bytes of another format than 3 are.
fn read_gone(alloc: Global, bytes: &[u8]) -> Result<Named, Fault>
    requires { is_of_format_three bytes.now ≡ false }
    ensures table { IfOk result (IsTable bytes.now) }
    ensures fault { IfErr result (ExplainsTable bytes.now) }
{
    match kr_table::read(alloc, bytes) {
        Ok(table) => Ok(Named::Table(AnyTable::Read(table))),
        Err(fault) => match at_table_fault(alloc, "table", fault) {
            Ending::Told(line) => Err(Fault::NoTable(line)),
            _ => Err(Fault::Memory),
        },
    }
}

/// The table with ghosts that bytes of format 3 are.
fn read_leaving(alloc: Global, bytes: &[u8]) -> Result<Named, Fault>
    requires { is_of_format_three bytes.now ≡ true }
    ensures table { IfOk result (IsTable bytes.now) }
    ensures fault { IfErr result (ExplainsTable bytes.now) }
{
    match kr_ghost_table::read(alloc, bytes) {
        Ok(table) => Ok(Named::Ghosts(AnyGhostTable::Read(table))),
        Err(fault) => match at_ghost_fault(alloc, "table", fault) {
            Ending::Told(told) => Err(Fault::NoTable(told)),
            _ => Err(Fault::Memory),
        },
    }
}

/// The table that the bytes are: the word of a bundled one, or a text in TOML. A text of format 3 is a table with ghosts. Else the
/// line that tells their first fault; or a growth was refused.
pub fn table_in(alloc: Global, bytes: &[u8]) -> Result<Named, Fault>
    ensures table { IfOk result (IsTable bytes.now) }
    ensures fault { IfErr result (ExplainsTable bytes.now) }
{
    if let Some(table) = bundled(bytes) {
        return Ok(table);
    }
    if has_ghosts(alloc, bytes)? {
        read_leaving(alloc, bytes)
    } else {
        read_gone(alloc, bytes)
    }
}
