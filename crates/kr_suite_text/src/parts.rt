//! A part of a suite, as lines of a trace.
ghost use Rattle.std.specs.Prelude.{◌≡◌, IfOk, map, string_bytes};
ghost use Rattle.kr_model.specs.Run.{is_granted};
ghost use Rattle.kr_suite_text.specs.Parts.{head_text, line_text, lines_text, part_text};

use kr_model::{Event, Memory, Reply};
use kr_script::{write_pairs, write_reply, write_step};
use kr_trace_lines::write_texts;
use std::alloc::Global;

/// The head of a part: the index with which it begins, and what it tests.
fn head_text(alloc: Global, opening: &[(u64, u64)], tests: &[String]) -> Result<String, Memory>
    ensures { IfOk result (λ text. string_bytes text ≡ head_text opening.now (map string_bytes tests.now)) }
{
    let mut out = String::from_str(alloc, r#"{"format":1,"opening":"#)?;
    write_pairs(&mut out, opening)?;
    out.push_str(r#","tests":"#)?;
    write_texts(alloc, &mut out, tests)?;
    out.push_str("}\n")?;
    Ok(out)
}

/// A step with its reply.
fn line_text(alloc: Global, event: Event, reply: &Reply) -> Result<String, Memory>
    ensures { IfOk result (λ text. string_bytes text ≡ line_text event reply.now) }
{
    let mut out = String::from_str(alloc, "[")?;
    write_step(&mut out, event)?;
    out.push_str(",")?;
    write_reply(&mut out, reply)?;
    out.push_str("]\n")?;
    Ok(out)
}

/// Whether a reply is neither blocked nor refused.
fn is_granted(reply: &Reply) -> bool
    ensures { result ≡ is_granted reply.now }
{
    !matches!(reply, Reply::Blocked(_) | Reply::Refused(_))
}

/// Steps with their replies, up to the first that isn't granted.
fn lines_text(alloc: Global, events: &[Event], replies: &[Reply]) -> Result<String, Memory>
    ensures { IfOk result (λ text. string_bytes text ≡ lines_text events.now replies.now) }
{
    let mut out = String::new(alloc);
    for place in 0..events.len() {
        if place >= replies.len() {
            return Ok(out);
        }
        let text = line_text(alloc, events[place], &replies[place])?;
        out.push_str(text.as_str())?;
        if !is_granted(&replies[place]) {
            return Ok(out);
        }
    }
    Ok(out)
}

/// A part: its head, and its steps with their replies, up to the first that isn't granted. The error is memory alone.
pub(crate) fn part_text(
    alloc: Global,
    opening: &[(u64, u64)],
    tests: &[String],
    events: &[Event],
    replies: &[Reply],
) -> Result<String, Memory>
    ensures { IfOk result (λ text. string_bytes text ≡ part_text opening.now (map string_bytes tests.now) events.now replies.now) }
{
    let head = head_text(alloc, opening, tests)?;
    let lines = lines_text(alloc, events, replies)?;
    format!(in alloc; "{head}{lines}")
}
