//! A trace, line by line: its parts, and the first fault.
ghost use Rattle.std.specs.Prelude.{◌≡◌, ◌⊎◌, ◌<◌, ◌≤◌, ◌^◌, ◌-◌, ◌+◌, Option, ◌++◌, ◌∷◌, [], ℕ, suc, List, IfOk, IfErr, OnOk, OnErr, IsTrue, Some, None, Ok, false, length, map, string_bytes};
ghost use Rattle.kr_cli.specs.Endings.{is_output};
ghost use Rattle.kr_cli.specs.Lines.{told_line};
ghost use Rattle.kr_cli.specs.declared.endings.Ending.TheVariants as ending;
ghost use Rattle.kr_sink.specs.Puts.{HasCause};
ghost use Rattle.kr_trace_lines.specs.Lines.{seen};
ghost use Rattle.kr_trace_lines.specs.Reading.{reading_line};
ghost use Rattle.kr_trace_parts.specs.Endings.{IsStopped, IsThrough, StopsSo, line_fault_text};
ghost use Rattle.kr_trace_parts.specs.Lines as spec;
ghost use Rattle.std.specs.Io.KnownBytes.{Appends};
ghost use Rattle.kr_trace_parts.specs.Printed.{printed};
ghost use Rattle.kr_trace_parts.specs.Parts.{Part, after_all, at_start, begun, fault_at, with_order, with_step};
ghost use Rattle.kr_trace_parts.specs.Reading.{CommitOnce, HasEnded, IsAsked, IsRead, RisesIn, StandsFor, StillAsks};
ghost use Rattle.kr_model.specs.Map.{IsMap};
ghost use Rattle.std.specs.Option.{option_map, option_to_list};
ghost use Rattle.kr_trace_lines.specs.declared.faults.LineFault.{LineFault};

use crate::asking::{Asks, Part};
use crate::faults::{at_line_fault, at_lines_fault};
use crate::source::Lines;
use kr_cli::{Ending, unreadable};
use kr_model::{Event, Memory, Pairs, Txns};
use kr_sink::{PrintFault, Sink, print};
use kr_trace_lines::{Line, Observed, PartLines, read_line};
use std::alloc::Global;

/// How far a trace is read.
#[derive(Drop)]
pub struct Reading<T> {
    /// How many parts have ended.
    pub ended: u64,
    /// Whether all is well with each of these.
    pub is_well: bool,
    /// Which lines may follow those so far.
    pub lines: PartLines,
    /// The part in progress.
    pub part: Option<T>,
}

/// Whether a line is one of blanks.
fn is_blank(line: &[u8]) -> bool
    ensures { result ≡ spec.is_blank line.now }
{
    for i in 0..line.len() {
        if !is_blank_byte(line[i]) {
            return false;
        }
    }
    true
}

/// Whether a byte is a blank.
fn is_blank_byte(byte: u8) -> bool
    ensures { result ≡ spec.is_blank_byte byte }
{
    byte == b' ' || byte == b'\t' || byte == b'\r'
}

/// Prints a text with a line feed behind it, if there is one.
fn print_if_any<W: Sink>(out: &mut W, text: Option<String>) -> Result<(), PrintFault>
    ensures ok { OnOk result (Appends (W.taken out.old) (W.taken out.new) (printed text)) }
    ensures count { OnOk result (W.failures out.new ≡ W.failures out.old) }
    ensures cause { OnErr result (HasCause (W.failures out.old) (W.failures out.new)) }
{
    match text {
        Some(text) => print(out, text.as_str()),
        None => Ok(()),
    }
}

/// Ends the part in progress, if there is one, and prints what is asked of it.
fn end_part<T: Part, W: Sink>(
    alloc: Global,
    reading: &mut Reading<T>,
    out: &mut W,
) -> Result<(), Ending>
    requires { reading.old.ended < 2 ^ 64 - 1 }
    ensures written { (s : Option Part) → StandsFor T.stands_for (reading.old.ended + 1) reading.old.part s → CommitOnce s
        → OnOk result (HasEnded T.asked reading.old.part s (reading.old.ended + 1) (W.taken out.old) (W.taken out.new) reading.old.is_well reading.new.is_well) }
    ensures ended { (s : Option Part) → StandsFor T.stands_for (reading.old.ended + 1) reading.old.part s
        → OnOk result (reading.new.ended ≡ reading.old.ended + length (option_to_list s)) }
    ensures part { OnOk result (reading.new.part ≡ None) }
    ensures most { OnOk result (reading.new.ended ≤ reading.old.ended + 1) }
    ensures lines { reading.new.lines ≡ reading.old.lines }
    ensures err { IfErr result (λ e. (e ≡ ending.Memory) ⊎ (e ≡ ending.Output)) }
    ensures count { OnOk result (W.failures out.new ≡ W.failures out.old) }
    ensures cause { IfErr result (λ e. IsTrue (is_output e) → HasCause (W.failures out.old) (W.failures out.new)) }
{
    if let Some(part) = reading.part.take() {
        let number = reading.ended + 1;
        let (line, is_well) = part.end(alloc, number)?;
        print_if_any(out, line)?;
        reading.ended = number;
        reading.is_well = reading.is_well && is_well;
    }
    Ok(())
}

/// Takes a head: it ends the part in progress, if there is one, and begins another.
fn take_head<A: Asks, W: Sink>(
    alloc: Global,
    asks: &A,
    reading: &mut Reading<A::Part>,
    opening: Pairs,
    tests: Vec<String>,
    out: &mut W,
) -> Result<(), Ending>
    requires few { reading.old.ended < 2 ^ 64 - 2 }
    requires rising { IsMap opening }
    ensures written { (s : Option Part) → StandsFor A.Part.stands_for (reading.old.ended + 1) reading.old.part s → CommitOnce s
        → OnOk result (HasEnded A.Part.asked reading.old.part s (reading.old.ended + 1) (W.taken out.old) (W.taken out.new) reading.old.is_well reading.new.is_well) }
    ensures ended { (s : Option Part) → StandsFor A.Part.stands_for (reading.old.ended + 1) reading.old.part s
        → OnOk result (reading.new.ended ≡ reading.old.ended + length (option_to_list s)) }
    ensures part { OnOk result (StandsFor A.Part.stands_for (reading.new.ended + 1) reading.new.part (Some (begun opening (map string_bytes tests.items)))) }
    ensures asked { OnOk result (IsAsked A.Part.asked (A.is_printed asks.now) reading.new.part) }
    ensures lines { reading.new.lines ≡ reading.old.lines }
    ensures err { IfErr result (λ e. (e ≡ ending.Memory) ⊎ (e ≡ ending.Output)) }
    ensures count { OnOk result (W.failures out.new ≡ W.failures out.old) }
    ensures cause { IfErr result (λ e. IsTrue (is_output e) → HasCause (W.failures out.old) (W.failures out.new)) }
{
    end_part(alloc, reading, out)?;
    reading.part = Some(asks.begin(alloc, reading.ended + 1, opening, tests)?);
    Ok(())
}

/// Takes a step of the part in progress, with its reply and the number of its line.
fn take_step<T: Part>(
    alloc: Global,
    part: &mut Option<T>,
    number: u64,
    event: Event,
    observed: Observed,
) -> Result<(), Memory>
    ensures part { (n : ℕ) (s : Option Part) → StandsFor T.stands_for n part.old s → OnOk result (StandsFor T.stands_for n part.new (option_map (with_step number event observed) s)) }
    ensures asked { OnOk result (StillAsks T.asked part.old part.new) }
{
    if let Some(part) = part {
        part.step(alloc, number, event, observed)?;
    }
    Ok(())
}

/// Takes the order that ends the part in progress.
fn take_order<T: Part>(part: &mut Option<T>, txns: Txns)
    ensures part { (n : ℕ) (s : Option Part) → StandsFor T.stands_for n part.old s → StandsFor T.stands_for n part.new (option_map (with_order txns) s) }
    ensures asked { StillAsks T.asked part.old part.new }
{
    if let Some(part) = part {
        part.order(txns);
    }
}

/// Takes one more line, which may follow those before it.
fn take_line<A: Asks, W: Sink>(
    alloc: Global,
    asks: &A,
    reading: &mut Reading<A::Part>,
    number: u64,
    line: Line,
    out: &mut W,
) -> Result<(), Ending>
    requires few { reading.old.ended < 2 ^ 64 - 2 }
    requires rising { RisesIn (seen line) }
    ensures read { (front : List (List ℕ)) (bytes : List ℕ) (first : Option (List ℕ))
        → number ≡ suc (length front) → spec.is_blank bytes ≡ false → reading_line bytes ≡ Ok (seen line)
        → fault_at (after_all at_start front) bytes ≡ None
        → IsRead A.Part.stands_for A.Part.asked (A.is_printed asks.now) front first (W.taken out.old) reading.old.ended reading.old.is_well (let r = after_all at_start front in r.kept) reading.old.part
        → reading.old.lines ≡ (let r = after_all at_start (front ++ bytes ∷ []) in r.kept)
        → OnOk result (IsRead A.Part.stands_for A.Part.asked (A.is_printed asks.now) (front ++ bytes ∷ []) first (W.taken out.new) reading.new.ended reading.new.is_well reading.new.lines reading.new.part) }
    ensures err { IfErr result (λ e. (e ≡ ending.Memory) ⊎ (e ≡ ending.Output)) }
    ensures count { OnOk result (W.failures out.new ≡ W.failures out.old) }
    ensures cause { IfErr result (λ e. IsTrue (is_output e) → HasCause (W.failures out.old) (W.failures out.new)) }
{
    match line {
        Line::Head { opening, tests } => {
            take_head(alloc, asks, reading, opening, tests, out)?;
            Ok(())
        }
        Line::Step(event, observed) => {
            take_step(alloc, &mut reading.part, number, event, observed)?;
            Ok(())
        }
        Line::Order(txns) => {
            take_order(&mut reading.part, txns);
            Ok(())
        }
    }
}

/// Reads one more line, which has this number.
fn read_next<A: Asks, W: Sink>(
    alloc: Global,
    asks: &A,
    word: &str,
    reading: &mut Reading<A::Part>,
    number: u64,
    bytes: &[u8],
    out: &mut W,
) -> Result<(), Ending>
    requires few { reading.old.ended < 2 ^ 64 - 2 }
    ensures read { (front : List (List ℕ)) (first : Option (List ℕ)) → number ≡ suc (length front)
        → IsRead A.Part.stands_for A.Part.asked (A.is_printed asks.now) front first (W.taken out.old) reading.old.ended reading.old.is_well reading.old.lines reading.old.part
        → OnOk result (IsRead A.Part.stands_for A.Part.asked (A.is_printed asks.now) (front ++ bytes.now ∷ []) first (W.taken out.new) reading.new.ended reading.new.is_well reading.new.lines reading.new.part) }
    ensures fault { (front : List (List ℕ)) (first : Option (List ℕ)) → number ≡ suc (length front)
        → IsRead A.Part.stands_for A.Part.asked (A.is_printed asks.now) front first (W.taken out.old) reading.old.ended reading.old.is_well reading.old.lines reading.old.part
        → IfErr result (StopsSo (λ told. ((f : LineFault) × ((fault_at (after_all at_start front) bytes.now ≡ Some f) × (told ≡ told_line word.now (line_fault_text f number)))) × (out.new ≡ out.old))) }
    ensures count { OnOk result (W.failures out.new ≡ W.failures out.old) }
    ensures cause { IfErr result (λ e. IsTrue (is_output e) → HasCause (W.failures out.old) (W.failures out.new)) }
{
    if is_blank(bytes) {
        return Ok(());
    }
    let line = match read_line(alloc, bytes) {
        Ok(line) => line,
        Err(fault) => return Err(at_line_fault(alloc, word, fault, number)),
    };
    match reading.lines.take(alloc, &line) {
        Ok(()) => take_line(alloc, asks, reading, number, line, out),
        Err(fault) => Err(at_line_fault(alloc, word, fault, number)),
    }
}

/// Reads the trace that a word names to its end, prints of each part what is asked as it ends, and answers how many parts there
/// are, and whether all is well with each.
pub fn read_trace<A: Asks, L: Lines, W: Sink>(
    alloc: Global,
    asks: &A,
    word: &str,
    lines: &mut L,
    out: &mut W,
) -> Result<(u64, bool), Ending>
    ensures through { IfOk result (λ read. IsThrough (A.is_printed asks.now) (L.may_give lines.old) (W.taken out.old) (W.taken out.new) read.0 read.1) }
    ensures err { IfErr result (StopsSo (IsStopped (A.is_printed asks.now) (L.may_give lines.old) word.now (W.taken out.old) (W.taken out.new))) }
    ensures cause { IfErr result (λ e. IsTrue (is_output e) → HasCause (W.failures out.old) (W.failures out.new)) }
{
    let mut reading = Reading {
        ended: 0,
        is_well: true,
        lines: PartLines::new(alloc),
        part: None,
    };
    read_on(alloc, asks, word, &mut reading, lines, out)
}

/// The same, where nothing is read yet.
fn read_on<A: Asks, L: Lines, W: Sink>(
    alloc: Global,
    asks: &A,
    word: &str,
    reading: &mut Reading<A::Part>,
    lines: &mut L,
    out: &mut W,
) -> Result<(u64, bool), Ending>
    requires { IsRead A.Part.stands_for A.Part.asked (A.is_printed asks.now) [] (W.taken out.old) (W.taken out.old) reading.old.ended reading.old.is_well reading.old.lines reading.old.part }
    ensures through { IfOk result (λ read. IsThrough (A.is_printed asks.now) (L.may_give lines.old) (W.taken out.old) (W.taken out.new) read.0 read.1) }
    ensures err { IfErr result (StopsSo (IsStopped (A.is_printed asks.now) (L.may_give lines.old) word.now (W.taken out.old) (W.taken out.new))) }
    ensures cause { IfErr result (λ e. IsTrue (is_output e) → HasCause (W.failures out.old) (W.failures out.new)) }
{
    for number in 1..u64::MAX {
        match lines.next_line(alloc) {
            Ok(Some(bytes)) => {
                read_next(alloc, asks, word, reading, number, bytes.as_slice(), out)?;
            }
            Ok(None) => {
                end_part(alloc, reading, out)?;
                return Ok((reading.ended, reading.is_well));
            }
            Err(fault) => return Err(at_lines_fault(alloc, word, fault, number)),
        }
    }
    Err(unreadable(alloc, word))
}
