//! What the word of a table names: a table whose deletes leave ghosts, or one whose deleted keys go at once.
ghost use Rattle.std.specs.Prelude.{◌≡◌, false, IfErr, IfOk};
ghost use Rattle.kr_cli.specs.declared.endings.Ending.TheVariants as ending;
ghost use Rattle.kr_cli.specs.Endings.{MemoryOrTold, is_output};
ghost use Rattle.kr_cli.specs.Lines.{told_line};
ghost use Rattle.kr_cli.specs.GhostLines.{ghost_fault_text};
ghost use Rattle.kr_cli.specs.NamedTables.{Names, TellsNone};
ghost use Rattle.kr_ghost_table.specs.declared.faults.GhostTableFault.TheVariants as ghost_fault;
ghost use Rattle.kr_table.specs.declared.faults.TableFault.TheVariants as table_fault;

use crate::endings::Ending;
use crate::files::{Files, whole};
use crate::ghost_tables::AnyGhostTable;
use crate::tables::{AnyTable, TABLE_BYTES, at_table_fault};
use kr_ghost_table::{GhostTableFault, has_ghosts};
use std::alloc::Global;

/// A table that a word names.
#[derive(Drop)]
pub enum Named {
    /// Under it a deleted key goes at once: formats 1 and 2.
    Table(AnyTable),
    /// Under it a deleted key stays as a ghost: format 3.
    Ghosts(AnyGhostTable),
}

/// The table that a word names, with ghosts or without, or how the program ends: the word is that of no bundled table, and its
/// file can't be read, or its bytes are no table, and the first of their faults is told.
pub fn named_at<F: Files>(alloc: Global, word: &str, files: &F) -> Result<Named, Ending>
    ensures table { IfOk result (Names (F.may_give files.now) word.now) }
    ensures fault { IfErr result (λ e. MemoryOrTold e (TellsNone (F.may_give files.now) word.now)) }
    ensures other { IfErr result (λ e. is_output e ≡ false) }
{
    match word {
        "@kvl" => Ok(Named::Table(AnyTable::Kvl)),
        "@kvl-update" => Ok(Named::Table(AnyTable::KvlUpdate)),
        "@im" => Ok(Named::Table(AnyTable::Im)),
        "@range-key" => Ok(Named::Table(AnyTable::RangeKey)),
        "@record-gap" => Ok(Named::Ghosts(AnyGhostTable::RecordGap)),
        "@range-ghost" => Ok(Named::Ghosts(AnyGhostTable::RangeGhost)),
        "@next-key-ghost" => Ok(Named::Ghosts(AnyGhostTable::NextKeyGhost)),
        _ => read_named(alloc, word, files),
    }
}

/// The table in the file that a word names, or how the program ends.
fn read_named<F: Files>(alloc: Global, word: &str, files: &F) -> Result<Named, Ending>
    ensures table { IfOk result (Names (F.may_give files.now) word.now) }
    ensures fault { IfErr result (λ e. MemoryOrTold e (TellsNone (F.may_give files.now) word.now)) }
    ensures other { IfErr result (λ e. is_output e ≡ false) }
{
    let bytes = whole(alloc, word, files, TABLE_BYTES)?;
    if has_ghosts(alloc, bytes.as_slice())? {
        match kr_ghost_table::read(alloc, bytes.as_slice()) {
            Ok(table) => Ok(Named::Ghosts(AnyGhostTable::Read(table))),
            Err(fault) => Err(at_ghost_fault(alloc, word, fault)),
        }
    } else {
        match kr_table::read(alloc, bytes.as_slice()) {
            Ok(table) => Ok(Named::Table(AnyTable::Read(table))),
            Err(fault) => Err(at_table_fault(alloc, word, fault)),
        }
    }
}

/// How the program ends at a fault of the table with ghosts that a word names.
pub fn at_ghost_fault(alloc: Global, word: &str, fault: GhostTableFault) -> Ending
    ensures line { MemoryOrTold result (λ line. line ≡ told_line word.now (ghost_fault_text fault)) }
    ensures memory { fault ≡ ghost_fault.Table table_fault.Memory → result ≡ ending.Memory }
    ensures other { is_output result ≡ false }
{
    match fault {
        GhostTableFault::Table(fault) => at_table_fault(alloc, word, fault),
        GhostTableFault::Purge(path) => {
            match format!(in alloc; "fault 12 Purge at {path}") {
                Ok(what) => Ending::told(alloc, word, what.as_str()),
                Err(_) => Ending::Memory,
            }
        }
    }
}
