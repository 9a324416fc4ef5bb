//! A script as a line of JSON.
ghost use Rattle.std.specs.Prelude.{◌≡◌, ◌++◌, All, IfOk, Ok, OnOk, string_bytes};
ghost use Rattle.serde_json.specs.Written.{compact_text};
ghost use Rattle.kr_script.specs.Line.{EventFits, OpFits, PairFits, format_number, line_text, needs_two, steps_data};
ghost use Rattle.kr_script.specs.Reading.{reading};
ghost use Rattle.kr_script.specs.Script.{IsScript};
ghost use Rattle.kr_script.specs.Steps.{is_later};

use crate::writing::{separator, write_number, write_pairs, write_step};
use kr_model::{Event, Op};
use std::alloc::{AllocError, Global};

/// Whether the form of an operation is in format 2 alone.
fn is_later(op: Op) -> bool
    ensures { result ≡ is_later op }
{
    matches!(op, Op::Update(_, _) | Op::Back)
}

/// Whether some step has a form that is in format 2 alone.
fn needs_two(steps: &[Event]) -> bool
    ensures { result ≡ needs_two steps.now }
{
    for step in steps {
        if is_later(step.op) {
            return true;
        }
    }
    false
}

fn lemma_pair_fits(pair: (u64, u64))
    ensures { PairFits pair }
{
    let (_key, _value) = pair;
}

fn lemma_op_fits(op: Op)
    ensures { OpFits op }
{
    match op {
        Op::Fetch(_key) | Op::Delete(_key) => {}
        Op::Scan(_key, _value) | Op::Insert(_key, _value) | Op::Update(_key, _value) => {}
        Op::Go | Op::Commit | Op::Abort | Op::Back => {}
    }
}

/// Says of a step that its numbers fit their types.
pub fn lemma_event_fits(event: Event)
    ensures { EventFits event }
{
    let _txn = event.txn;
    lemma_op_fits(event.op);
}

/// Says of each pair that its numbers fit their type.
pub fn lemma_pairs_fit(pairs: &[(u64, u64)])
    ensures { All PairFits pairs.now }
{
    for pair in pairs {
        lemma_pair_fits(*pair);
    }
}

/// Says of each step that its numbers fit their types.
fn lemma_steps_fit(steps: &[Event])
    ensures { All EventFits steps.now }
{
    for step in steps {
        lemma_event_fits(*step);
    }
}

/// Writes an array of steps.
fn write_steps(out: &mut String, steps: &[Event]) -> Result<(), AllocError>
    ensures { OnOk result (string_bytes out.new ≡ string_bytes out.old ++ compact_text (steps_data steps.now)) }
{
    out.push_str("[")?;
    let mut later = false;
    for step in steps {
        out.push_str(separator(later))?;
        write_step(out, *step)?;
        later = true;
    }
    out.push_str("]")
}

fn number_of_format(two: bool) -> u64
    ensures { result ≡ format_number two }
{
    if two { 2 } else { 1 }
}

/// The script of this opening index and these steps as a line of JSON with no line feed: of format 2 where a step has a form
/// that is in format 2 alone, and else of format 1. Where the opening keys rise strictly, and there are at most 100,000 pairs
/// and 100,000 steps, the line reads as this script. The error is memory alone.
pub fn write_script(
    alloc: Global,
    opening: &[(u64, u64)],
    steps: &[Event],
) -> Result<String, AllocError>
    ensures text { IfOk result (λ line. string_bytes line ≡ line_text (record { opening = opening.now; steps = steps.now })) }
    ensures reads { IfOk result (λ line. IsScript (record { opening = opening.now; steps = steps.now })
        → reading (string_bytes line) ≡ Ok (record { opening = opening.now; steps = steps.now })) }
{
    lemma_pairs_fit(opening);
    lemma_steps_fit(steps);
    let mut out = String::new(alloc);
    out.push_str(r#"{"format":"#)?;
    write_number(&mut out, number_of_format(needs_two(steps)))?;
    out.push_str(r#","opening":"#)?;
    write_pairs(&mut out, opening)?;
    out.push_str(r#","steps":"#)?;
    write_steps(&mut out, steps)?;
    out.push_str("}")?;
    Ok(out)
}
