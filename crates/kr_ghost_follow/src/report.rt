//! The line that is printed for a part under a table with ghosts.
ghost use Rattle.std.specs.Prelude.{◌≡◌, ◌++◌, ◌∷◌, [], codes, decimal, IfOk, OnOk, map, string_bytes};
ghost use Rattle.std.specs.Option.{option_map};
ghost use Rattle.kr_ghost_follow.specs.Report.{behind_brace, cut_text, ghost_part_text};

use kr_protocol::Protocol;
use kr_script::write_number;
use kr_trace_lines::{Deviation, TraceVerdict, write_part};
use std::alloc::{AllocError, Global};

/// A text without the brace in front, if it has one.
fn behind_brace(text: &str) -> &str
    ensures { result.now ≡ behind_brace text.now }
{
    match text.strip_prefix('{') {
        Some(rest) => rest,
        None => text,
    }
}

/// Writes the line before which states were first left out as a member with a comma behind it, if any were.
fn write_cut(out: &mut String, cut: Option<u64>) -> Result<(), AllocError>
    ensures { OnOk result (string_bytes out.new ≡ string_bytes out.old ++ cut_text cut) }
{
    match cut {
        Some(line) => {
            out.push_str(r#""cut":"#)?;
            write_number(out, line)?;
            out.push_str(",")
        }
        None => Ok(()),
    }
}

/// Writes how many states stand as a member with a comma behind it.
fn write_states(out: &mut String, states: u64) -> Result<(), AllocError>
    ensures { OnOk result (string_bytes out.new ≡ string_bytes out.old ++ (codes "\"states\":" ++ (decimal states ++ 44 ∷ []))) }
{
    out.push_str(r#""states":"#)?;
    write_number(out, states)?;
    out.push_str(",")
}

/// The line of a part that was held against a table with ghosts: that of a table without, and in front how many states stand at
/// its end, and the number of the line before which states were first left out, if any were. The error is memory alone.
pub fn write_ghost_part<P: Protocol>(
    alloc: Global,
    protocol: &P,
    part: u64,
    deviation: Option<&Deviation>,
    queued: u64,
    states: u64,
    cut: Option<u64>,
    tests: &[String],
    verdict: &TraceVerdict,
) -> Result<String, AllocError>
    ensures { IfOk result (λ line. string_bytes line
        ≡ ghost_part_text (P.names protocol.now) part (option_map (λ d. d.now) deviation.entry) queued states cut (map string_bytes tests.now) verdict.now) }
{
    let line = write_part(alloc, protocol, part, deviation, queued, tests, verdict)?;
    let mut out = String::new(alloc);
    out.push_str("{")?;
    write_cut(&mut out, cut)?;
    write_states(&mut out, states)?;
    out.push_str(behind_brace(line.as_str()))?;
    Ok(out)
}
