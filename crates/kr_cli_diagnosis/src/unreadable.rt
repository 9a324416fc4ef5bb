//! Files that can't be read.
ghost use Rattle.std.specs.Prelude.{[], IfOk, string_bytes};
ghost use Rattle.kr_cli_diagnosis.specs.Help.{IsHelp};

use crate::bundled::{Bundled, is_bundled, is_bundled_with_ghosts, near_help};
use crate::help::Help;
use kr_cli::FileFault;
use std::alloc::{AllocError, Global};

/// What is said of a fault of a file.
fn said(fault: FileFault) -> &'static str {
    match fault {
        FileFault::Missing => "there is no such file",
        FileFault::Denied => "the file may not be read: its permissions refuse it",
        FileFault::Directory => "this is a directory",
        FileFault::Unreadable => "reading the file failed",
        FileFault::Memory => "memory ran out",
    }
}

/// What helps at a word whose file can't be read: why, and the one of these bundled tables whose name is near.
pub fn file_help(
    alloc: Global,
    word: &str,
    fault: FileFault,
    tables: Bundled,
) -> Result<String, AllocError>
    ensures help { IfOk result (λ text. IsHelp word.now [] (string_bytes text)) }
{
    near_help(alloc, word, said(fault), tables)
}

/// What helps at a word whose script can't be read: why, or that the word is that of a bundled table.
pub fn script_file_help(alloc: Global, word: &str, fault: FileFault) -> Result<String, AllocError>
    ensures help { IfOk result (λ text. IsHelp word.now [] (string_bytes text)) }
{
    let what = if is_bundled(word) || is_bundled_with_ghosts(word) {
        "this is a bundled table, and a script is expected here"
    } else {
        said(fault)
    };
    let help = Help::of(alloc, None, what)?;
    help.print(alloc, word, &[])
}
