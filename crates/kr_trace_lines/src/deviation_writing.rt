//! Where a part first differs from a table, written behind what a text has.
ghost use Rattle.std.specs.Prelude.{◌≡◌, ◌++◌, ◌∷◌, [], codes, decimal, OnOk, string_bytes};
ghost use Rattle.std.specs.Option.{option_map};
ghost use Rattle.serde_json.specs.Data.{string};
ghost use Rattle.serde_json.specs.Written.{compact_text};
ghost use Rattle.kr_model.specs.ModeNames.{name_of};
ghost use Rattle.kr_script.specs.Replies.{name_data, numbers_data, reply_data};
ghost use Rattle.kr_trace_lines.specs.Report.{conflict_data, conflicts_data, conforms_data, kind_data};

use crate::{Conflict, Deviation, DeviationKind};
use kr_model::{Mode, Reply, Txn};
use kr_protocol::{Protocol, name_or_empty};
use kr_script::{
    quoted, separator, write_name, write_number, write_numbers, write_reply, write_with_numbers,
};
use std::alloc::{AllocError, Global};

/// Writes the name of a mode in quotes.
fn write_mode<P: Protocol>(
    alloc: Global,
    protocol: &P,
    out: &mut String,
    mode: Mode,
) -> Result<(), AllocError>
    ensures { OnOk result (string_bytes out.new
        ≡ string_bytes out.old ++ compact_text (string (name_of (P.names protocol.now) mode))) }
{
    let name = quoted(alloc, name_or_empty(protocol, mode))?;
    out.push_str(name.as_str())
}

/// Writes the bracket and the first parts of a lock: its name, its holder and its mode, and a comma behind each.
fn write_held<P: Protocol>(
    alloc: Global,
    protocol: &P,
    out: &mut String,
    conflict: Conflict,
) -> Result<(), AllocError>
    ensures { OnOk result (string_bytes out.new ≡ string_bytes out.old
        ++ 91 ∷ (compact_text (name_data conflict.name) ++ 44 ∷ (decimal conflict.holder
        ++ 44 ∷ (compact_text (string (name_of (P.names protocol.now) conflict.held)) ++ 44 ∷ [])))) }
{
    out.push_str("[")?;
    write_name(out, conflict.name)?;
    out.push_str(",")?;
    write_number(out, u64::from(conflict.holder))?;
    out.push_str(",")?;
    write_mode(alloc, protocol, out, conflict.held)?;
    out.push_str(",")
}

/// Writes the line since which a lock is held, and a comma.
fn write_since(out: &mut String, since: u64) -> Result<(), AllocError>
    ensures { OnOk result (string_bytes out.new ≡ string_bytes out.old ++ (decimal since ++ 44 ∷ [])) }
{
    write_number(out, since)?;
    out.push_str(",")
}

/// Writes the other parts of a lock: the modes that the step asks for, and the closing bracket.
fn write_asked<P: Protocol>(
    alloc: Global,
    protocol: &P,
    out: &mut String,
    conflict: Conflict,
) -> Result<(), AllocError>
    ensures { OnOk result (string_bytes out.new ≡ string_bytes out.old
        ++ (compact_text (string (name_of (P.names protocol.now) conflict.asked))
        ++ 44 ∷ (compact_text (string (name_of (P.names protocol.now) conflict.tested)) ++ 93 ∷ []))) }
{
    write_mode(alloc, protocol, out, conflict.asked)?;
    out.push_str(",")?;
    write_mode(alloc, protocol, out, conflict.tested)?;
    out.push_str("]")
}

/// Writes a held lock that conflicts.
fn write_conflict<P: Protocol>(
    alloc: Global,
    protocol: &P,
    out: &mut String,
    conflict: Conflict,
) -> Result<(), AllocError>
    ensures { OnOk result (string_bytes out.new
        ≡ string_bytes out.old ++ compact_text (conflict_data (P.names protocol.now) conflict)) }
{
    write_held(alloc, protocol, out, conflict)?;
    write_since(out, conflict.since)?;
    write_asked(alloc, protocol, out, conflict)
}

/// Writes an array of held locks that conflict.
fn write_conflicts<P: Protocol>(
    alloc: Global,
    protocol: &P,
    out: &mut String,
    conflicts: &[Conflict],
) -> Result<(), AllocError>
    ensures { OnOk result (string_bytes out.new ≡ string_bytes out.old
        ++ compact_text (conflicts_data (P.names protocol.now) conflicts.now)) }
{
    out.push_str("[")?;
    let mut later = false;
    for conflict in conflicts {
        out.push_str(separator(later))?;
        write_conflict(alloc, protocol, out, *conflict)?;
        later = true;
    }
    out.push_str("]")
}

/// Writes the beginning of an array, a number and a comma.
pub fn write_before(out: &mut String, beginning: &str, number: u64) -> Result<(), AllocError>
    ensures { OnOk result (string_bytes out.new ≡ string_bytes out.old ++ (beginning.now ++ (decimal number ++ 44 ∷ []))) }
{
    out.push_str(beginning)?;
    write_number(out, number)?;
    out.push_str(",")
}

/// Writes the beginning of an array, the number of a line, a reply and the closing bracket.
fn write_at_line(
    out: &mut String,
    beginning: &str,
    line: u64,
    reply: &Reply,
) -> Result<(), AllocError>
    ensures { OnOk result (string_bytes out.new ≡ string_bytes out.old
        ++ (beginning.now ++ (decimal line ++ 44 ∷ (compact_text (reply_data reply.now) ++ 93 ∷ [])))) }
{
    write_before(out, beginning, line)?;
    write_reply(out, reply)?;
    out.push_str("]")
}

/// Writes a grant that the table blocks.
fn write_granted<P: Protocol>(
    alloc: Global,
    protocol: &P,
    out: &mut String,
    line: u64,
    blockers: &[Txn],
    conflicts: &[Conflict],
) -> Result<(), AllocError>
    ensures { OnOk result (string_bytes out.new ≡ string_bytes out.old
        ++ (codes "[\"granted\"," ++ (decimal line ++ 44 ∷ ((codes "[\"blocked\"," ++ (compact_text (numbers_data blockers.now) ++ codes "]"))
        ++ 44 ∷ (compact_text (conflicts_data (P.names protocol.now) conflicts.now) ++ 93 ∷ []))))) }
{
    write_before(out, r#"["granted","#, line)?;
    write_with_numbers(out, r#"["blocked","#, blockers)?;
    out.push_str(",")?;
    write_conflicts(alloc, protocol, out, conflicts)?;
    out.push_str("]")
}

/// Writes blockers that aren't the table's.
fn write_blockers(
    out: &mut String,
    line: u64,
    misnamed: &[Txn],
    blockers: &[Txn],
) -> Result<(), AllocError>
    ensures { OnOk result (string_bytes out.new ≡ string_bytes out.old
        ++ (codes "[\"blockers\"," ++ (decimal line ++ 44 ∷ (compact_text (numbers_data misnamed.now)
        ++ 44 ∷ (compact_text (numbers_data blockers.now) ++ 93 ∷ []))))) }
{
    write_before(out, r#"["blockers","#, line)?;
    write_numbers(out, misnamed)?;
    out.push_str(",")?;
    write_numbers(out, blockers)?;
    out.push_str("]")
}

/// Writes how a line differs.
#[tactic(auto, unfolding(serde_json::proofs::OnLiterals::serde_json_on_literals))]
fn write_kind<P: Protocol>(
    alloc: Global,
    protocol: &P,
    out: &mut String,
    line: u64,
    kind: &DeviationKind,
) -> Result<(), AllocError>
    ensures { OnOk result (string_bytes out.new
        ≡ string_bytes out.old ++ compact_text (kind_data (P.names protocol.now) line kind.now)) }
{
    match kind {
        DeviationKind::Granted {
            blockers,
            conflicts,
        } => write_granted(
            alloc,
            protocol,
            out,
            line,
            blockers.as_slice(),
            conflicts.as_slice(),
        ),
        DeviationKind::Blocked(reply) => write_at_line(out, r#"["blocked","#, line, reply),
        DeviationKind::Blockers { misnamed, blockers } => {
            write_blockers(out, line, misnamed.as_slice(), blockers.as_slice())
        }
        DeviationKind::Answer(reply) => write_at_line(out, r#"["answer","#, line, reply),
        DeviationKind::Refused(refusal) => {
            write_at_line(out, r#"["refused","#, line, &Reply::Refused(*refusal))
        }
    }
}

/// Writes whether a part conforms, or where it first doesn't.
#[tactic(auto, unfolding(serde_json::proofs::OnLiterals::serde_json_on_literals))]
pub fn write_conforms<P: Protocol>(
    alloc: Global,
    protocol: &P,
    out: &mut String,
    deviation: Option<&Deviation>,
) -> Result<(), AllocError>
    ensures { OnOk result (string_bytes out.new ≡ string_bytes out.old
        ++ compact_text (conforms_data (P.names protocol.now) (option_map (λ d. d.now) deviation.entry))) }
{
    match deviation {
        Some(deviation) => write_kind(alloc, protocol, out, deviation.line, &deviation.kind),
        None => out.push_str(r#"["yes"]"#),
    }
}
