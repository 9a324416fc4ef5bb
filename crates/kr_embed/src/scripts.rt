//! Scripts from bytes.
ghost use Rattle.std.specs.Prelude.{◌≡◌, Ok, IfOk, IfErr};
ghost use Rattle.kr_script.specs.Reading.{reading};
ghost use Rattle.kr_script.specs.GhostReading as ghost_script;
ghost use Rattle.kr_embed.specs.Inputs.{ExplainsGoneScript, ExplainsGhostScript};

use crate::faults::Fault;
use kr_cli::{Ending, at_fault};
use kr_script::{GhostScript, Script, read_ghost_script, read_script};
use std::alloc::Global;

/// The script that the bytes are, of format 1 or 2. Else the line that tells their first fault; or a growth was refused.
pub fn script_in(alloc: Global, bytes: &[u8]) -> Result<Script, Fault>
    ensures script { IfOk result (λ s. reading bytes.now ≡ Ok s) }
    ensures fault { IfErr result (ExplainsGoneScript bytes.now) }
{
    match read_script(alloc, bytes) {
        Ok(script) => Ok(script),
        Err(fault) => match at_fault(alloc, "script", fault) {
            Ending::Told(line) => Err(Fault::NoScript(line)),
            _ => Err(Fault::Memory),
        },
    }
}

/// The same of a script of format 1, 2 or 3, which may have purges.
pub fn ghost_script_in(alloc: Global, bytes: &[u8]) -> Result<GhostScript, Fault>
    ensures script { IfOk result (λ s. ghost_script.reading bytes.now ≡ Ok s) }
    ensures fault { IfErr result (ExplainsGhostScript bytes.now) }
{
    match read_ghost_script(alloc, bytes) {
        Ok(script) => Ok(script),
        Err(fault) => match at_fault(alloc, "script", fault) {
            Ending::Told(told) => Err(Fault::NoScript(told)),
            _ => Err(Fault::Memory),
        },
    }
}
