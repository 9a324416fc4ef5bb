//! What is told of the faults of tables and scripts.
ghost use Rattle.std.specs.Prelude.{◌≡◌, IfOk, string_bytes};
ghost use Rattle.kr_cli.specs.Lines.{table_fault_text, script_fault_text};

use kr_script::ScriptFault;
use kr_table::TableFault;
use std::alloc::{AllocError, Global};

/// What is told of a table's fault, which is what it shows: its number, its name and, where it has one, its path or index.
pub fn table_fault_text(alloc: Global, fault: &TableFault) -> Result<String, AllocError>
    ensures { IfOk result (λ text. string_bytes text ≡ table_fault_text fault.now) }
{
    let number = fault.number();
    let name = fault.name();
    match fault {
        TableFault::Field(path)
        | TableFault::Compatible(path)
        | TableFault::Convert(path)
        | TableFault::Rule(path)
        | TableFault::OwnNotAllowed(path) => {
            format!(in alloc; "fault {number} {name} at {path}")
        }
        TableFault::ModeName(i) => format!(in alloc; "fault {number} {name} at {i}"),
        _ => format!(in alloc; "fault {number} {name}"),
    }
}

/// What is told of a script's fault, which is what it shows: its number, its name and, where it has one, its path or index.
pub fn script_fault_text(alloc: Global, fault: &ScriptFault) -> Result<String, AllocError>
    ensures { IfOk result (λ text. string_bytes text ≡ script_fault_text fault.now) }
{
    let number = fault.number();
    let name = fault.name();
    match fault {
        ScriptFault::Field(path) | ScriptFault::TooMany(path) => {
            format!(in alloc; "fault {number} {name} at {path}")
        }
        ScriptFault::Opening(i) | ScriptFault::Step(i) => {
            format!(in alloc; "fault {number} {name} at {i}")
        }
        _ => format!(in alloc; "fault {number} {name}"),
    }
}
