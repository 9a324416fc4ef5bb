//! Calls on bytes.
ghost use Rattle.std.specs.Prelude.{◌≡◌, Bool, true, IfOk, IfErr, Option, Result, String, option_map, string_bytes};
ghost use Rattle.std.specs.Global.{Global};
ghost use Rattle.kr_embed.specs.Explanations.{IsExplanation, IsCauseScript};
ghost use Rattle.kr_embed.specs.Inputs.{ExplainsTable, Explains};
ghost use Rattle.kr_embed.specs.Reports.{IsChecked, IsDecided, IsModeName, IsRun};
ghost use Rattle.kr_embed.specs.declared.faults.Fault.{Fault};
ghost use Rattle.kr_c.specs.Out.{IsTold, IsFound};

use crate::out::{found, tell};
use kr_embed::{check_bytes, decide_bytes, explain_bytes, mode_in, run_bytes, script_of_cause};
use std::alloc::Global;

/// Checks the table that the bytes are: the word of a bundled table, or a text in TOML.
///
/// The code is 0 where it is accepted and 1 where it is rejected, and the text is the report of the check; 2 where the bytes are no
/// table, and the text is the line that tells their first fault; 4 where a growth was refused, with no text.
#[unsafe(no_mangle)]
pub extern "C" fn krr_check(alloc: Global, table: &[u8], out: &mut [u8], length: &mut usize) -> u32
    ensures { (told : Result (Bool × String Global) Fault) × (IfOk told (λ it. IsChecked table.now it.0 (string_bytes it.1))
        × (IfErr told (ExplainsTable table.now) × IsTold told result out.old out.new length.new)) }
{
    tell(check_bytes(alloc, table), out, length)
}

/// Decides whether the table that the bytes are is safe: whether every run under it is serializable in commit order.
///
/// The code is 0 where it is safe and 1 where it isn't, with no text; 2 and 4 as of a check.
#[unsafe(no_mangle)]
pub extern "C" fn krr_decide(alloc: Global, table: &[u8], out: &mut [u8], length: &mut usize) -> u32
    ensures { (told : Result (Bool × String Global) Fault) × (IfOk told (λ it. IsDecided table.now it.0)
        × (IfErr told (ExplainsTable table.now) × IsTold told result out.old out.new length.new)) }
{
    match decide_bytes(alloc, table) {
        Ok(is_safe) => tell(Ok((is_safe, String::new(alloc))), out, length),
        Err(fault) => tell(Err(fault), out, length),
    }
}

/// Explains the table that the bytes are: whether it is safe, accepted or not.
///
/// The code is 0 where it is safe and 1 where it isn't, and the text is the explanation; 2 and 4 as of a check.
#[unsafe(no_mangle)]
pub extern "C" fn krr_explain(
    alloc: Global,
    table: &[u8],
    out: &mut [u8],
    length: &mut usize,
) -> u32
    ensures { (told : Result (Bool × String Global) Fault) × (IfOk told (λ it. IsExplanation table.now it.0 (string_bytes it.1))
        × (IfErr told (ExplainsTable table.now) × IsTold told result out.old out.new length.new)) }
{
    tell(explain_bytes(alloc, table), out, length)
}

/// Tells the script of the run that is shown of a cause of the table that the bytes are, of this number, from 1; of a table with
/// ghosts one schedule is shown, of number 1.
///
/// The code is 0 where there is one, and the text is its line; 1 where there is none, with no text; 2 and 4 as of a check.
#[unsafe(no_mangle)]
pub extern "C" fn krr_explain_script(
    alloc: Global,
    table: &[u8],
    number: usize,
    out: &mut [u8],
    length: &mut usize,
) -> u32
    ensures { (told : Result (Option (String Global)) Fault)
        × (IfOk told (λ script. IsCauseScript table.now number (option_map string_bytes script))
        × (IfErr told (ExplainsTable table.now) × IsFound told result out.old out.new length.new)) }
{
    found(script_of_cause(alloc, table, number), out, length)
}

/// Runs the script that bytes are under the table that bytes are, and judges the run. Under a table with ghosts the script may
/// have purges.
///
/// The code is 0 where the run is serializable in commit order and 1 where it isn't, and the text is the report of the run; 2 where
/// the bytes of the table are no table, 3 where those of the script are no script, and the text is the line that tells their first
/// fault, the table's first; 4 where a growth was refused, with no text.
#[unsafe(no_mangle)]
pub extern "C" fn krr_run(
    alloc: Global,
    table: &[u8],
    script: &[u8],
    out: &mut [u8],
    length: &mut usize,
) -> u32
    ensures { (told : Result (Bool × String Global) Fault) × (IfOk told (λ it. IsRun table.now script.now it.0 (string_bytes it.1))
        × (IfErr told (Explains table.now script.now) × IsTold told result out.old out.new length.new)) }
{
    tell(run_bytes(alloc, table, script), out, length)
}

/// Tells the name of a mode of the table that the bytes are; a number beyond its modes has none, which is the empty text.
///
/// The code is 0; 2 and 4 as of a check.
#[unsafe(no_mangle)]
pub extern "C" fn krr_mode(
    alloc: Global,
    table: &[u8],
    mode: u32,
    out: &mut [u8],
    length: &mut usize,
) -> u32
    ensures { (told : Result (Bool × String Global) Fault) × (IfOk told (λ it. (it.0 ≡ true) × IsModeName table.now mode (string_bytes it.1))
        × (IfErr told (ExplainsTable table.now) × IsTold told result out.old out.new length.new)) }
{
    match mode_in(alloc, table, mode) {
        Ok(name) => tell(Ok((true, name)), out, length),
        Err(fault) => tell(Err(fault), out, length),
    }
}
