//! The line that is printed for a part.
ghost use Rattle.std.specs.Prelude.{◌≡◌, ◌++◌, ◌∷◌, [], codes, decimal, IfOk, OnOk, map, string_bytes};
ghost use Rattle.std.specs.Option.{option_map};
ghost use Rattle.serde_json.specs.Data.{array, string};
ghost use Rattle.serde_json.specs.View.{items_of};
ghost use Rattle.serde_json.specs.Written.{compact_text};
ghost use Rattle.kr_script.specs.Replies.{reply_data};
ghost use Rattle.kr_trace_lines.specs.Replies.{observed_data};
ghost use Rattle.kr_trace_lines.specs.Report.{judged_text, part_text, tests_text, verdict_data};

use crate::deviation_writing::{write_before, write_conforms};
use crate::observed_writing::write_observed;
use crate::{Deviation, Observed, TraceVerdict};
use kr_model::{Reply, Txn};
use kr_protocol::Protocol;
use kr_script::{quoted, separator, write_number, write_reply, write_with_numbers};
use std::alloc::{AllocError, Global};

/// Writes an array of texts behind what the text has. At `Err` memory ran out, and the text may have a part of it.
pub fn write_texts(alloc: Global, out: &mut String, texts: &[String]) -> Result<(), AllocError>
    ensures { OnOk result (string_bytes out.new ≡ string_bytes out.old
        ++ compact_text (array (items_of (map string (map string_bytes texts.now))))) }
{
    out.push_str("[")?;
    let mut later = false;
    for text in texts {
        out.push_str(separator(later))?;
        let written = quoted(alloc, text.as_str())?;
        out.push_str(written.as_str())?;
        later = true;
    }
    out.push_str("]")
}

/// Writes the texts of a part's head as a member with the comma before it, where the part doesn't conform and has any.
fn write_tests(
    alloc: Global,
    out: &mut String,
    differs: bool,
    tests: &[String],
) -> Result<(), AllocError>
    ensures { OnOk result (string_bytes out.new ≡ string_bytes out.old ++ tests_text differs (map string_bytes tests.now)) }
{
    if !differs || tests.is_empty() {
        return Ok(());
    }
    out.push_str(r#","tests":"#)?;
    write_texts(alloc, out, tests)
}

/// Writes an answer, a comma, the serial answer and the closing bracket.
fn write_answers(out: &mut String, given: &Observed, serial: &Reply) -> Result<(), AllocError>
    ensures { OnOk result (string_bytes out.new ≡ string_bytes out.old
        ++ (compact_text (observed_data given.now) ++ 44 ∷ (compact_text (reply_data serial.now) ++ 93 ∷ []))) }
{
    write_observed(out, given)?;
    out.push_str(",")?;
    write_reply(out, serial)?;
    out.push_str("]")
}

/// Writes the first answer that isn't the serial one.
fn write_difference(
    out: &mut String,
    txn: Txn,
    operation: u64,
    given: &Observed,
    serial: &Reply,
) -> Result<(), AllocError>
    ensures { OnOk result (string_bytes out.new ≡ string_bytes out.old
        ++ (codes "[\"not-serial\"," ++ (decimal txn ++ 44 ∷ (decimal operation ++ 44 ∷ (compact_text (observed_data given.now)
        ++ 44 ∷ (compact_text (reply_data serial.now) ++ 93 ∷ [])))))) }
{
    write_before(out, r#"["not-serial","#, u64::from(txn))?;
    write_number(out, operation)?;
    out.push_str(",")?;
    write_answers(out, given, serial)
}

/// Writes a verdict.
#[tactic(auto, unfolding(serde_json::proofs::OnLiterals::serde_json_on_literals))]
fn write_verdict(out: &mut String, verdict: &TraceVerdict) -> Result<(), AllocError>
    ensures { OnOk result (string_bytes out.new ≡ string_bytes out.old ++ compact_text (verdict_data verdict.now)) }
{
    match verdict {
        TraceVerdict::Serial => out.push_str(r#"["serial"]"#),
        TraceVerdict::SerialInOrder(txns) => {
            write_with_numbers(out, r#"["serial","#, txns.as_slice())
        }
        TraceVerdict::NotSerial {
            txn,
            operation,
            given,
            serial,
        } => write_difference(out, *txn, *operation, given, serial),
        TraceVerdict::Unknown => out.push_str(r#"["unknown"]"#),
    }
}

/// Writes the number of a part and how many of its steps were queued, as members with the comma before each.
fn write_counts(out: &mut String, part: u64, queued: u64) -> Result<(), AllocError>
    ensures { OnOk result (string_bytes out.new ≡ string_bytes out.old
        ++ (codes ",\"part\":" ++ (decimal part ++ (codes ",\"queued\":" ++ decimal queued)))) }
{
    out.push_str(r#","part":"#)?;
    write_number(out, part)?;
    out.push_str(r#","queued":"#)?;
    write_number(out, queued)
}

/// Writes a verdict as the last member, with the comma before it, and the closing brace.
fn write_end(out: &mut String, verdict: &TraceVerdict) -> Result<(), AllocError>
    ensures { OnOk result (string_bytes out.new ≡ string_bytes out.old
        ++ (codes ",\"verdict\":" ++ (compact_text (verdict_data verdict.now) ++ 125 ∷ []))) }
{
    out.push_str(r#","verdict":"#)?;
    write_verdict(out, verdict)?;
    out.push_str("}")
}

/// The line of a part that was held against a table: compact JSON with no line feed. Its members are whether it conforms, or
/// where it first doesn't; its number; how many steps the engine queued; the texts of its head, where it doesn't conform and
/// has any; and the verdict. The error is memory alone.
pub fn write_part<P: Protocol>(
    alloc: Global,
    protocol: &P,
    part: u64,
    deviation: Option<&Deviation>,
    queued: u64,
    tests: &[String],
    verdict: &TraceVerdict,
) -> Result<String, AllocError>
    ensures { IfOk result (λ line. string_bytes line
        ≡ part_text (P.names protocol.now) part (option_map (λ d. d.now) deviation.entry) queued (map string_bytes tests.now) verdict.now) }
{
    let mut out = String::new(alloc);
    out.push_str(r#"{"conforms":"#)?;
    write_conforms(alloc, protocol, &mut out, deviation)?;
    write_counts(&mut out, part, queued)?;
    write_tests(alloc, &mut out, deviation.is_some(), tests)?;
    write_end(&mut out, verdict)?;
    Ok(out)
}

/// The line of a part that was judged with no table: compact JSON with no line feed. Its members are its number and the
/// verdict. The error is memory alone.
pub fn write_judged(alloc: Global, part: u64, verdict: &TraceVerdict) -> Result<String, AllocError>
    ensures { IfOk result (λ line. string_bytes line ≡ judged_text part verdict.now) }
{
    let mut out = String::new(alloc);
    out.push_str(r#"{"part":"#)?;
    write_number(&mut out, part)?;
    write_end(&mut out, verdict)?;
    Ok(out)
}
