//! `kr trace`: from words to what is printed of the trace that they name.
ghost use Rattle.std.specs.Prelude.{◌≡◌, ◌≤◌, ℕ, false, Ok, Err, IfOk, IfErr, OnOk, IsTrue, map, string_bytes};
ghost use Rattle.kr_sink.specs.Puts.{HasCause};
ghost use Rattle.kr_cli_diagnosis.specs.Finding.{AddsLines};
ghost use Rattle.kr_cli.specs.Endings.{MemoryOrTold, is_output};
ghost use Rattle.kr_cli.specs.Lines.{told_line};
ghost use Rattle.kr_cli.specs.declared.endings.Ending.{Ending};
ghost use Rattle.kr_cli.specs.declared.endings.Ending.TheVariants as ending;
ghost use Rattle.kr_trace_parts.specs.Endings.{StopsSo};
ghost use Rattle.kr_cli_trace.specs.Ghosts.{part_of, question_of};
ghost use Rattle.kr_cli_trace.specs.Printed.{IsPrinted};
ghost use Rattle.kr_cli_trace.specs.declared.words.Asked.TheVariants as asked;
ghost use Rattle.kr_cli_trace.specs.Program.{Answers, AnswersAsked, Explains, Holds, Tells, TellsOnePart, TellsTrace, no_part_text};
ghost use Rattle.kr_cli_trace.specs.Words.{AskNoTrace};

use crate::ghosts::AgainstGhosts;
use crate::one_ghost_part::OneGhostPart;
use crate::one_part::OnePart;
use crate::words::{Asked, read_words};
use kr_cli::{Ending, FileFault, Files, Named, unreadable};
use kr_cli_diagnosis::named_with_help;
use kr_sink::Sink;
use kr_trace_parts::{Against, Asks, InCommitOrder, InSomeOrder, Traces, read_trace};
use std::alloc::Global;

/// Reads the trace that a word names, prints of each part what is asked, and answers how many parts there are, and whether all
/// is well with each.
fn read_named<F: Traces, A: Asks, W: Sink>(
    alloc: Global,
    files: &F,
    word: &str,
    asks: &A,
    out: &mut W,
) -> Result<(u64, bool), Ending>
    ensures holds { IfOk result (λ read. Holds (A.is_printed asks.now) (F.may_name files.now) word.now (W.taken out.old) (W.taken out.new) read.0 read.1) }
    ensures err { IfErr result (StopsSo (TellsTrace (A.is_printed asks.now) (F.may_name files.now) word.now (W.taken out.old) (W.taken out.new))) }
    ensures cause { IfErr result (λ e. IsTrue (is_output e) → HasCause (W.failures out.old) (W.failures out.new)) }
{
    let mut lines = match files.open(alloc, word) {
        Ok(lines) => lines,
        Err(FileFault::Memory) => return Err(Ending::Memory),
        Err(_) => return Err(unreadable(alloc, word)),
    };
    read_trace(alloc, asks, word, &mut lines, out)
}

/// Reads the trace that a word names, prints of each part what is asked, and answers whether all is well with each.
fn read_all<F: Traces, A: Asks, W: Sink>(
    alloc: Global,
    files: &F,
    word: &str,
    asks: &A,
    out: &mut W,
) -> Result<bool, Ending>
    ensures holds { IfOk result (λ well. (parts : ℕ) × Holds (A.is_printed asks.now) (F.may_name files.now) word.now (W.taken out.old) (W.taken out.new) parts well) }
    ensures err { IfErr result (StopsSo (TellsTrace (A.is_printed asks.now) (F.may_name files.now) word.now (W.taken out.old) (W.taken out.new))) }
    ensures cause { IfErr result (λ e. IsTrue (is_output e) → HasCause (W.failures out.old) (W.failures out.new)) }
{
    let (_, is_well) = read_named(alloc, files, word, asks, out)?;
    Ok(is_well)
}

/// How the program ends where the trace that a word names has no part of this number.
fn no_part(alloc: Global, word: &str, number: usize) -> Ending
    ensures line { MemoryOrTold result (λ line. line ≡ told_line word.now (no_part_text number)) }
    ensures other { is_output result ≡ false }
{
    match format!(in alloc; "no part {number}") {
        Ok(what) => Ending::told(alloc, word, what.as_str()),
        Err(_) => Ending::Memory,
    }
}

/// Reads the trace that a word names, prints of each part what is asked, and answers whether all is well with each, if there is
/// a part of this number.
fn read_one<F: Traces, A: Asks, W: Sink>(
    alloc: Global,
    files: &F,
    word: &str,
    number: usize,
    asks: &A,
    out: &mut W,
) -> Result<bool, Ending>
    ensures holds { IfOk result (λ well. (parts : ℕ) × ((number ≤ parts) × Holds (A.is_printed asks.now) (F.may_name files.now) word.now (W.taken out.old) (W.taken out.new) parts well)) }
    ensures err { IfErr result (StopsSo (TellsOnePart (A.is_printed asks.now) (F.may_name files.now) word.now number (W.taken out.old) (W.taken out.new))) }
    ensures cause { IfErr result (λ e. IsTrue (is_output e) → HasCause (W.failures out.old) (W.failures out.new)) }
{
    let (parts, is_well) = read_named(alloc, files, word, asks, out)?;
    if parts < number as u64 {
        return Err(no_part(alloc, word, number));
    }
    Ok(is_well)
}

/// Holds the trace that the second word names against the table that the first names. `help` gets what helps where the first
/// names none.
fn hold_against<F: Files + Traces, W: Sink>(
    alloc: Global,
    words: (&str, &str),
    files: &F,
    out: &mut W,
    help: &mut String,
) -> Result<bool, Ending>
    ensures answers { IfOk result (Answers (F.may_give files.now) (F.may_name files.now) (asked.Both words.entry.0 words.entry.1) (W.taken out.old) (W.taken out.new)) }
    ensures err { IfErr result (StopsSo (Tells (F.may_give files.now) (F.may_name files.now) (asked.Both words.entry.0 words.entry.1) (W.taken out.old) (W.taken out.new))) }
    ensures cause { IfErr result (λ e. IsTrue (is_output e) → HasCause (W.failures out.old) (W.failures out.new)) }
    ensures help { AddsLines (string_bytes help.old) (string_bytes help.new) }
    ensures unhelped { OnOk result (help.new ≡ help.old) }
{
    let (word, trace) = words;
    let table = named_with_help(alloc, word, files, help)?;
    hold_named(alloc, &table, trace, files, out)
}

/// Holds the trace that a word names against a table, with ghosts or without.
fn hold_named<F: Traces, W: Sink>(
    alloc: Global,
    table: &Named,
    trace: &str,
    files: &F,
    out: &mut W,
) -> Result<bool, Ending>
    ensures holds { IfOk result (λ well. (parts : ℕ) × Holds (IsPrinted (question_of table.now)) (F.may_name files.now) trace.now (W.taken out.old) (W.taken out.new) parts well) }
    ensures err { IfErr result (StopsSo (TellsTrace (IsPrinted (question_of table.now)) (F.may_name files.now) trace.now (W.taken out.old) (W.taken out.new))) }
    ensures cause { IfErr result (λ e. IsTrue (is_output e) → HasCause (W.failures out.old) (W.failures out.new)) }
{
    match table {
        Named::Table(table) => { read_all(alloc, files, trace, &Against { protocol: table }, out) }
        Named::Ghosts(table) => {
            read_all(alloc, files, trace, &AgainstGhosts { protocol: table }, out)
        }
    }
}

/// Prints the part of this number as a text, of the trace that the second word names, held against the table that the first
/// names. `help` gets what helps where the first names none.
fn print_part<F: Files + Traces, W: Sink>(
    alloc: Global,
    words: (&str, &str),
    number: usize,
    files: &F,
    out: &mut W,
    help: &mut String,
) -> Result<bool, Ending>
    ensures answers { IfOk result (Answers (F.may_give files.now) (F.may_name files.now) (asked.OnePart words.entry.0 words.entry.1 number) (W.taken out.old) (W.taken out.new)) }
    ensures err { IfErr result (StopsSo (Tells (F.may_give files.now) (F.may_name files.now) (asked.OnePart words.entry.0 words.entry.1 number) (W.taken out.old) (W.taken out.new))) }
    ensures cause { IfErr result (λ e. IsTrue (is_output e) → HasCause (W.failures out.old) (W.failures out.new)) }
    ensures help { AddsLines (string_bytes help.old) (string_bytes help.new) }
    ensures unhelped { OnOk result (help.new ≡ help.old) }
{
    let (word, trace) = words;
    let table = named_with_help(alloc, word, files, help)?;
    print_part_of(alloc, &table, trace, number, files, out)
}

/// Prints the part of this number as a text, of the trace that a word names, held against a table, with ghosts or without.
fn print_part_of<F: Traces, W: Sink>(
    alloc: Global,
    table: &Named,
    trace: &str,
    number: usize,
    files: &F,
    out: &mut W,
) -> Result<bool, Ending>
    ensures holds { IfOk result (λ well. (parts : ℕ) × ((number ≤ parts) × Holds (IsPrinted (part_of table.now number)) (F.may_name files.now) trace.now (W.taken out.old) (W.taken out.new) parts well)) }
    ensures err { IfErr result (StopsSo (TellsOnePart (IsPrinted (part_of table.now number)) (F.may_name files.now) trace.now number (W.taken out.old) (W.taken out.new))) }
    ensures cause { IfErr result (λ e. IsTrue (is_output e) → HasCause (W.failures out.old) (W.failures out.new)) }
{
    let asked = number as u64;
    match table {
        Named::Table(protocol) => {
            let asks = OnePart { protocol, asked };
            read_one(alloc, files, trace, number, &asks, out)
        }
        Named::Ghosts(protocol) => {
            let asks = OneGhostPart { protocol, asked };
            read_one(alloc, files, trace, number, &asks, out)
        }
    }
}

/// Prints what the words ask of a trace, and answers whether all is well with each of its parts. `help` gets what helps where a
/// word names no table.
pub fn trace<F: Files + Traces, W: Sink>(
    alloc: Global,
    words: &[String],
    files: &F,
    out: &mut W,
    help: &mut String,
) -> Result<bool, Ending>
    ensures answers { IfOk result (AnswersAsked (F.may_give files.now) (F.may_name files.now) (map string_bytes words.now) (W.taken out.old) (W.taken out.new)) }
    ensures err { IfErr result (Explains (F.may_give files.now) (F.may_name files.now) (map string_bytes words.now) (W.taken out.old) (W.taken out.new)) }
    ensures unknown { AskNoTrace (map string_bytes words.now)
        → (result ≡ Err ending.NotUnderstood) × ((out.new ≡ out.old) × (help.new ≡ help.old)) }
    ensures cause { IfErr result (λ e. IsTrue (is_output e) → HasCause (W.failures out.old) (W.failures out.new)) }
    ensures help { AddsLines (string_bytes help.old) (string_bytes help.new) }
    ensures unhelped { OnOk result (help.new ≡ help.old) }
{
    let asked = read_words(words)?;
    match asked {
        Asked::Both(table, trace) => hold_against(alloc, (table, trace), files, out, help),
        Asked::OnePart(table, trace, number) => {
            print_part(alloc, (table, trace), number, files, out, help)
        }
        Asked::Serial(trace) => read_all(alloc, files, trace, &InCommitOrder, out),
        Asked::SomeOrder(trace) => read_all(alloc, files, trace, &InSomeOrder, out),
    }
}
