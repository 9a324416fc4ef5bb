//! Tables and scripts that words name, and what helps where they name none.
ghost use Rattle.std.specs.Prelude.{◌≡◌, ℕ, List, Some, false, IfOk, IfErr, IsOk, IsTrue, OnErr, OnOk, string_bytes};
ghost use Rattle.kr_cli.specs.declared.endings.Ending.TheVariants as ending;
ghost use Rattle.kr_cli.specs.declared.files.FileFault.TheVariants as file_fault;
ghost use Rattle.kr_cli.specs.Endings.{MemoryOrTold, is_output};
ghost use Rattle.kr_cli.specs.Files.{MayBeScript};
ghost use Rattle.kr_cli.specs.Lines.{unreadable_line};
ghost use Rattle.kr_cli.specs.Named.{NamesScript, NamesTable, TellsNoScript, TellsNoTable};
ghost use Rattle.kr_cli.specs.Words.{is_bundled};
ghost use Rattle.kr_cli_diagnosis.specs.Finding.{MayBePut, AddsHelp, AddsHelps, AddsLines};
ghost use Rattle.kr_cli_diagnosis.specs.Repeated.{HasNoMemberTwice};

use crate::bundled::{Bundled, bundled_help};
use crate::repeated::repeated_help;
use crate::scripts::script_help;
use crate::tables::table_help;
use crate::unreadable::{file_help, script_file_help};
use kr_cli::{
    AnyTable, Ending, FileFault, Files, SCRIPT_BYTES, TABLE_BYTES, at_fault, at_table_fault,
    is_no_file, read_file, unreadable,
};
use kr_script::{Script, read_script};
use std::alloc::{AllocError, Global};

/// Puts a text behind what helps, where memory allows.
pub(crate) fn add(help: &mut String, more: Result<String, AllocError>)
    ensures ok { IfOk more (λ text. MayBePut (string_bytes help.old) (string_bytes help.new) (string_bytes text)) }
    ensures err { OnErr more (string_bytes help.new ≡ string_bytes help.old) }
{
    if let Ok(text) = more {
        let _ = help.push_str(text.as_str());
    }
}

/// The table that a word names, as `kr_cli::table_at` finds it. Where it names none, what helps is put behind `help`, and
/// else `help` stays as it is.
pub fn table_at<F: Files>(
    alloc: Global,
    word: &str,
    files: &F,
    help: &mut String,
) -> Result<AnyTable, Ending>
    ensures table { IfOk result (NamesTable (F.may_give files.now) word.now) }
    ensures bundled { IsTrue (is_bundled word.now) → IsOk result }
    ensures fault { IfErr result (λ e. MemoryOrTold e (TellsNoTable (F.may_give files.now) word.now)) }
    ensures other { IfErr result (λ e. is_output e ≡ false) }
    ensures unhelped { OnOk result (help.new ≡ help.old) }
    ensures help { AddsHelp word.now (string_bytes help.old) (string_bytes help.new) }
    ensures lines { AddsLines (string_bytes help.old) (string_bytes help.new) }
{
    if is_no_file(word) {
        return match kr_cli::table_at(alloc, word, files) {
            Ok(table) => Ok(table),
            Err(ending) => {
                add(help, bundled_help(alloc, word, Bundled::WithoutGhosts));
                Err(ending)
            }
        };
    }
    table_in_file(alloc, word, files, help)
}

/// The table in the file that a word names.
fn table_in_file<F: Files>(
    alloc: Global,
    word: &str,
    files: &F,
    help: &mut String,
) -> Result<AnyTable, Ending>
    ensures table { IfOk result (NamesTable (F.may_give files.now) word.now) }
    ensures fault { IfErr result (λ e. MemoryOrTold e (TellsNoTable (F.may_give files.now) word.now)) }
    ensures other { IfErr result (λ e. is_output e ≡ false) }
    ensures unhelped { OnOk result (help.new ≡ help.old) }
    ensures help { AddsHelp word.now (string_bytes help.old) (string_bytes help.new) }
{
    let bytes = match read_file(alloc, word, files, TABLE_BYTES) {
        Ok(bytes) => bytes,
        Err(fault) => {
            let wanted = Wanted::Table(Bundled::WithoutGhosts);
            return Err(no_file(alloc, word, wanted, fault, help));
        }
    };
    match kr_table::read(alloc, bytes.as_slice()) {
        Ok(table) => Ok(AnyTable::Read(table)),
        Err(fault) => {
            add(help, table_help(alloc, word, bytes.as_slice(), &fault));
            Err(at_table_fault(alloc, word, fault))
        }
    }
}

/// What a word is to name.
#[derive(Clone, Copy)]
pub(crate) enum Wanted {
    /// A table: a file, or one of these bundled ones.
    Table(Bundled),
    Script,
}

/// How a program ends at a word whose file can't be read. What helps is put behind `help`.
pub(crate) fn no_file(
    alloc: Global,
    word: &str,
    wanted: Wanted,
    fault: FileFault,
    help: &mut String,
) -> Ending
    ensures line { MemoryOrTold result (λ line. line ≡ unreadable_line word.now) }
    ensures memory { fault ≡ file_fault.Memory → result ≡ ending.Memory }
    ensures other { is_output result ≡ false }
    ensures help { AddsHelp word.now (string_bytes help.old) (string_bytes help.new) }
{
    if fault == FileFault::Memory {
        return Ending::Memory;
    }
    let more = match wanted {
        Wanted::Table(tables) => file_help(alloc, word, fault, tables),
        Wanted::Script => script_file_help(alloc, word, fault),
    };
    add(help, more);
    unreadable(alloc, word)
}

/// The script that a word names, as `kr_cli::script_at` finds it. Where it names none, what helps is put behind `help`, and
/// else a warning of each member that the script has twice: where none is twice, `help` says what it said.
pub fn script_at<F: Files>(
    alloc: Global,
    word: &str,
    files: &F,
    help: &mut String,
) -> Result<Script, Ending>
    ensures script { IfOk result (NamesScript (F.may_give files.now) word.now) }
    ensures fault { IfErr result (λ e. MemoryOrTold e (TellsNoScript (F.may_give files.now) word.now)) }
    ensures other { IfErr result (λ e. is_output e ≡ false) }
    ensures help { AddsHelps word.now (string_bytes help.old) (string_bytes help.new) }
    ensures unwarned { ((bytes : List ℕ) → MayBeScript (F.may_give files.now) word.now (Some bytes) → HasNoMemberTwice bytes)
        → OnOk result (string_bytes help.new ≡ string_bytes help.old) }
    ensures lines { AddsLines (string_bytes help.old) (string_bytes help.new) }
{
    let bytes = match read_file(alloc, word, files, SCRIPT_BYTES) {
        Ok(bytes) => bytes,
        Err(fault) => return Err(no_file(alloc, word, Wanted::Script, fault, help)),
    };
    match read_script(alloc, bytes.as_slice()) {
        Ok(script) => {
            add(help, repeated_help(alloc, word, bytes.as_slice()));
            Ok(script)
        }
        Err(fault) => {
            add(help, script_help(alloc, word, bytes.as_slice(), &fault));
            Err(at_fault(alloc, word, fault))
        }
    }
}
