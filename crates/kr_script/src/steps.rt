//! What a step is.
ghost use Rattle.std.specs.Prelude.{◌≡◌, ◌↔◌, ◌<◌, ◌^◌, Bool, Some, true};
ghost use Rattle.serde_json.specs.Data.{Data};
ghost use Rattle.serde_json.specs.View.{view};
ghost use Rattle.kr_model.specs.declared.Event.{Event};
ghost use Rattle.kr_script.specs.Steps as spec;

use crate::parts::{length_of, number_at, word_at};
use kr_model::{Event, Op};
use serde_json::Value;

fn one_number(value: &Value, len: usize) -> Option<u64>
    ensures { result ≡ spec.one_number len (view value.now) }
{
    if len == 3 { number_at(value, 2) } else { None }
}

fn two_numbers(value: &Value, len: usize) -> Option<(u64, u64)>
    ensures { result ≡ spec.two_numbers len (view value.now) }
{
    if len == 4 {
        Some((number_at(value, 2)?, number_at(value, 3)?))
    } else {
        None
    }
}

fn alone(len: usize, op: Op) -> Option<Op>
    ensures { result ≡ spec.alone len op }
{
    if len == 2 { Some(op) } else { None }
}

/// The operation of a step whose form is in format 2 alone.
fn later_op_of(word: &str, value: &Value, len: usize) -> Option<Op>
    ensures { result ≡ spec.later_op_of word.now len (view value.now) }
{
    match word {
        "update" => two_numbers(value, len).map(|(key, number)| Op::Update(key, number)),
        "back" => alone(len, Op::Back),
        _ => None,
    }
}

fn op_of(two: bool, word: &str, value: &Value, len: usize) -> Option<Op>
    ensures { result ≡ spec.op_of two word.now len (view value.now) }
{
    match word {
        "fetch" => one_number(value, len).map(Op::Fetch),
        "scan" => two_numbers(value, len).map(|(lo, hi)| Op::Scan(lo, hi)),
        "go" => alone(len, Op::Go),
        "insert" => two_numbers(value, len).map(|(key, number)| Op::Insert(key, number)),
        "delete" => one_number(value, len).map(Op::Delete),
        "commit" => alone(len, Op::Commit),
        "abort" => alone(len, Op::Abort),
        _ => {
            if two {
                later_op_of(word, value, len)
            } else {
                None
            }
        }
    }
}

/// The event of a step, if the value has the form of one in format 2, or else in format 1.
pub fn event_of(two: bool, value: &Value) -> Option<Event>
    ensures { result ≡ spec.event_of two (view value.now) }
{
    let len = length_of(value)?;
    let txn = number_at(value, 0)?;
    let word = word_at(value, 1)?;
    let op = op_of(two, word, value, len)?;
    let txn = u32::try_from(txn).ok()?;
    Some(Event { txn, op })
}

/// A value reads as an event exactly where it is the step that the event is written as, of a transaction whose number has
/// 32 bits, and where the format has that form: each event is written in one way, the same in both formats.
pub fn one_step_for_each_event()
    ensures { (two : Bool) (d : Data) (e : Event) → (spec.event_of two d ≡ Some e)
        ↔ ((d ≡ spec.step_of e) × (e.txn < 2 ^ 32) × (spec.is_later e.op ≡ true → two ≡ true)) }
{}
