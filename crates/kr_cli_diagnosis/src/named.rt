//! Tables that words name, with ghosts or without, and what helps where a word names none.
ghost use Rattle.std.specs.Prelude.{◌≡◌, false, IfErr, IfOk, OnOk, string_bytes};
ghost use Rattle.kr_cli.specs.Endings.{MemoryOrTold, is_output};
ghost use Rattle.kr_cli.specs.NamedTables.{Names, TellsNone};
ghost use Rattle.kr_cli_diagnosis.specs.Finding.{AddsHelp, AddsLines};

use crate::bundled::{Bundled, bundled_help};
use crate::finding::{Wanted, add, no_file};
use crate::tables::table_help;
use kr_cli::{
    AnyGhostTable, AnyTable, Ending, Files, Named, TABLE_BYTES, at_ghost_fault, at_table_fault,
    is_no_file, named_at, read_file,
};
use kr_ghost_table::has_ghosts;
use std::alloc::Global;

/// The table that a word names, with ghosts or without, as `kr_cli::named_at` finds it. Its file is read once. Where it names
/// none, what helps is put behind `help`, unless it names a file of a table with ghosts; and else `help` stays as it is.
pub fn named_with_help<F: Files>(
    alloc: Global,
    word: &str,
    files: &F,
    help: &mut String,
) -> Result<Named, Ending>
    ensures table { IfOk result (Names (F.may_give files.now) word.now) }
    ensures fault { IfErr result (λ e. MemoryOrTold e (TellsNone (F.may_give files.now) word.now)) }
    ensures other { IfErr result (λ e. is_output e ≡ false) }
    ensures unhelped { OnOk result (help.new ≡ help.old) }
    ensures help { AddsHelp word.now (string_bytes help.old) (string_bytes help.new) }
    ensures lines { AddsLines (string_bytes help.old) (string_bytes help.new) }
{
    if is_no_file(word) {
        return match named_at(alloc, word, files) {
            Ok(table) => Ok(table),
            Err(ending) => {
                add(help, bundled_help(alloc, word, Bundled::All));
                Err(ending)
            }
        };
    }
    named_in_file(alloc, word, files, help)
}

/// The table in the file that a word names.
fn named_in_file<F: Files>(
    alloc: Global,
    word: &str,
    files: &F,
    help: &mut String,
) -> Result<Named, Ending>
    ensures table { IfOk result (Names (F.may_give files.now) word.now) }
    ensures fault { IfErr result (λ e. MemoryOrTold e (TellsNone (F.may_give files.now) word.now)) }
    ensures other { IfErr result (λ e. is_output e ≡ false) }
    ensures unhelped { OnOk result (help.new ≡ help.old) }
    ensures help { AddsHelp word.now (string_bytes help.old) (string_bytes help.new) }
{
    let bytes = match read_file(alloc, word, files, TABLE_BYTES) {
        Ok(bytes) => bytes,
        Err(fault) => {
            let wanted = Wanted::Table(Bundled::All);
            return Err(no_file(alloc, word, wanted, fault, help));
        }
    };
    if has_ghosts(alloc, bytes.as_slice())? {
        match kr_ghost_table::read(alloc, bytes.as_slice()) {
            Ok(table) => Ok(Named::Ghosts(AnyGhostTable::Read(table))),
            Err(fault) => Err(at_ghost_fault(alloc, word, fault)),
        }
    } else {
        match kr_table::read(alloc, bytes.as_slice()) {
            Ok(table) => Ok(Named::Table(AnyTable::Read(table))),
            Err(fault) => {
                add(help, table_help(alloc, word, bytes.as_slice(), &fault));
                Err(at_table_fault(alloc, word, fault))
            }
        }
    }
}
