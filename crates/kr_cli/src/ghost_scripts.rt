//! Scripts that words name, which may have purges.
ghost use Rattle.std.specs.Prelude.{◌≡◌, false, IfErr, IfOk};
ghost use Rattle.kr_cli.specs.Endings.{MemoryOrTold, is_output};
ghost use Rattle.kr_cli.specs.GhostScripts.{NamesGhostScript, TellsNoGhostScript};

use crate::endings::Ending;
use crate::files::{Files, SCRIPT_BYTES, at_fault, whole};
use kr_script::{GhostScript, read_ghost_script};
use std::alloc::Global;

/// The script in the file that a word names, or how the program ends: its file can't be read, or its bytes are no script, and
/// the first of their faults is told.
pub fn ghost_script_at<F: Files>(
    alloc: Global,
    word: &str,
    files: &F,
) -> Result<GhostScript, Ending>
    ensures script { IfOk result (NamesGhostScript (F.may_give files.now) word.now) }
    ensures fault { IfErr result (λ e. MemoryOrTold e (TellsNoGhostScript (F.may_give files.now) word.now)) }
    ensures other { IfErr result (λ e. is_output e ≡ false) }
{
    let bytes = whole(alloc, word, files, SCRIPT_BYTES)?;
    match read_ghost_script(alloc, bytes.as_slice()) {
        Ok(script) => Ok(script),
        Err(fault) => Err(at_fault(alloc, word, fault)),
    }
}
