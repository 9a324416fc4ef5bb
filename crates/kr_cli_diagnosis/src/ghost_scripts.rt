//! Scripts that words name, which may have purges, with warnings of what stands twice in them.
ghost use Rattle.std.specs.Prelude.{◌≡◌, ℕ, List, Some, false, IfErr, IfOk, string_bytes};
ghost use Rattle.kr_cli.specs.Endings.{MemoryOrTold, is_output};
ghost use Rattle.kr_cli.specs.Files.{MayBeScript};
ghost use Rattle.kr_cli.specs.GhostScripts.{NamesGhostScript, TellsNoGhostScript};
ghost use Rattle.kr_cli_diagnosis.specs.Finding.{AddsLines};
ghost use Rattle.kr_cli_diagnosis.specs.Repeated.{HasNoMemberTwice};

use crate::finding::add;
use crate::repeated::repeated_help;
use kr_cli::{Ending, Files, SCRIPT_BYTES, at_fault, whole};
use kr_script::{GhostScript, read_ghost_script};
use std::alloc::Global;

/// The script that a word names, which may have purges, as `kr_cli::ghost_script_at` finds it. Its file is read once. Where it
/// names one, a warning of each member that the script has twice is put behind `help`: where none is twice, `help` says what it
/// said, as it does at a fault.
pub fn ghost_script_with_help<F: Files>(
    alloc: Global,
    word: &str,
    files: &F,
    help: &mut String,
) -> Result<GhostScript, Ending>
    ensures script { IfOk result (NamesGhostScript (F.may_give files.now) word.now) }
    ensures fault { IfErr result (λ e. MemoryOrTold e (TellsNoGhostScript (F.may_give files.now) word.now)) }
    ensures other { IfErr result (λ e. is_output e ≡ false) }
    ensures unwarned { ((bytes : List ℕ) → MayBeScript (F.may_give files.now) word.now (Some bytes) → HasNoMemberTwice bytes)
        → string_bytes help.new ≡ string_bytes help.old }
    ensures lines { AddsLines (string_bytes help.old) (string_bytes help.new) }
{
    let bytes = whole(alloc, word, files, SCRIPT_BYTES)?;
    match read_ghost_script(alloc, bytes.as_slice()) {
        Ok(script) => {
            add(help, repeated_help(alloc, word, bytes.as_slice()));
            Ok(script)
        }
        Err(fault) => Err(at_fault(alloc, word, fault)),
    }
}
