//! How the program ends at a fault of a trace.
ghost use Rattle.std.specs.Prelude.{◌≡◌, ◌⊎◌, IfOk, false, string_bytes};
ghost use Rattle.kr_cli.specs.Endings.{MemoryOrTold, is_output};
ghost use Rattle.kr_cli.specs.Lines.{told_line, unreadable_line};
ghost use Rattle.kr_cli.specs.declared.endings.Ending.TheVariants as ending;
ghost use Rattle.kr_trace_lines.specs.declared.faults.LineFault.TheVariants as line_fault;
ghost use Rattle.kr_trace_parts.specs.declared.source.LinesFault.TheVariants as lines_fault;
ghost use Rattle.kr_trace_parts.specs.Endings.{line_fault_text};

use crate::source::LinesFault;
use kr_cli::{Ending, unreadable};
use kr_trace_lines::LineFault;
use std::alloc::{AllocError, Global};

/// What is printed of the fault of a line, which has this number: the number and the name of the fault, and the line's number.
fn line_fault_text(alloc: Global, fault: LineFault, number: u64) -> Result<String, AllocError>
    ensures { IfOk result (λ text. string_bytes text ≡ line_fault_text fault number) }
{
    let kind = fault.number();
    let name = fault.name();
    format!(in alloc; "fault {kind} {name} at {number}")
}

/// How the program ends at a fault of a line, which has this number, of the trace that a word names.
pub fn at_line_fault(alloc: Global, word: &str, fault: LineFault, number: u64) -> Ending
    ensures line { MemoryOrTold result (λ line. line ≡ told_line word.now (line_fault_text fault number)) }
    ensures memory { fault ≡ line_fault.Memory → result ≡ ending.Memory }
    ensures other { is_output result ≡ false }
{
    if matches!(fault, LineFault::Memory) {
        return Ending::Memory;
    }
    match line_fault_text(alloc, fault, number) {
        Ok(what) => Ending::told(alloc, word, what.as_str()),
        Err(_) => Ending::Memory,
    }
}

/// How the program ends where the next line, which has this number, isn't given.
pub fn at_lines_fault(alloc: Global, word: &str, fault: LinesFault, number: u64) -> Ending
    ensures line { MemoryOrTold result (λ line. ((fault ≡ lines_fault.TooLong) × (line ≡ told_line word.now (line_fault_text line_fault.TooLong number)))
        ⊎ (line ≡ unreadable_line word.now)) }
    ensures other { is_output result ≡ false }
{
    match fault {
        LinesFault::TooLong => at_line_fault(alloc, word, LineFault::TooLong, number),
        LinesFault::Unreadable => unreadable(alloc, word),
        LinesFault::Memory => Ending::Memory,
    }
}
