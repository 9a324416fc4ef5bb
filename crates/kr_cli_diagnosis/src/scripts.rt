//! What helps at a fault of a script.
ghost use Rattle.std.specs.Prelude.{IfOk, string_bytes};
ghost use Rattle.kr_cli_diagnosis.specs.Help.{IsHelp};

use crate::help::{Help, print_said};
use crate::json_faults::not_json;
use crate::script_members::{field_fault, format_fault, opening_fault, too_long, too_many};
use crate::script_steps::step_fault;
use crate::source::Source;
use kr_script::ScriptFault;
use serde_json::Value;
use std::alloc::{AllocError, Global};

fn source_fault(
    alloc: Global,
    source: &Source,
    fault: &ScriptFault,
) -> Result<Option<Help>, AllocError> {
    let help = match fault {
        ScriptFault::Format => format_fault(alloc, source),
        ScriptFault::Field(name) => field_fault(alloc, source, name.as_str()),
        ScriptFault::Opening(index) => opening_fault(alloc, source, *index),
        ScriptFault::TooMany(name) => too_many(alloc, source, name.as_str()),
        ScriptFault::Step(index) => no_step(alloc, source, *index),
        _ => return Ok(None),
    };
    Ok(Some(help?))
}

/// What is said of the step at an index.
fn no_step(alloc: Global, source: &Source, index: usize) -> Result<Help, AllocError> {
    let place = source.element_of(alloc, "steps", index)?;
    let step = source.element("steps", index);
    step_fault(alloc, source.text, place, source.is_later(), step)
}

fn of_source(alloc: Global, text: &[u8], fault: &ScriptFault) -> Result<Option<Help>, AllocError> {
    match Value::from_slice(alloc, text) {
        Ok(value) => {
            let source = Source { text, value };
            source_fault(alloc, &source, fault)
        }
        Err(e) if e.is_memory() => Err(AllocError),
        Err(_) => Ok(None),
    }
}

fn help_of(alloc: Global, bytes: &[u8], fault: &ScriptFault) -> Result<Option<Help>, AllocError> {
    match fault {
        ScriptFault::Memory => Ok(None),
        ScriptFault::TooLong => Ok(Some(too_long(alloc)?)),
        ScriptFault::NotJson => not_json(alloc, bytes),
        _ => of_source(alloc, bytes, fault),
    }
}

/// What helps at a fault of a script: lines of text, each ended by a line feed, that begin with the word, the line and the
/// column. Empty where nothing can be said.
pub fn script_help(
    alloc: Global,
    word: &str,
    bytes: &[u8],
    fault: &ScriptFault,
) -> Result<String, AllocError>
    ensures { IfOk result (λ text. IsHelp word.now bytes.now (string_bytes text)) }
{
    let said = help_of(alloc, bytes, fault)?;
    print_said(alloc, word, bytes, said)
}
