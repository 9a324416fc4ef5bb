//! Reading a line.
ghost use Rattle.std.specs.Prelude.{◌≡◌, ◌≢◌, ◌<◌, [], Err, IfOk, MatchResult, Some, codes, length, map, option_and_then, string_bytes};
ghost use Rattle.std.specs.Option.{option_map};
ghost use Rattle.serde_json.specs.Find.{as_object};
ghost use Rattle.serde_json.specs.View.{items_view, members_view, view};
ghost use Rattle.kr_model.specs.Firsts.{first};
ghost use Rattle.kr_script.specs.Json.{list_in, number_in};
ghost use Rattle.kr_script.specs.Reading as script;
ghost use Rattle.kr_trace_lines.specs.declared.faults.LineFault.TheVariants as fault;
ghost use Rattle.kr_trace_lines.specs.Reading as spec;
ghost use Rattle.kr_trace_lines.specs.Reading.{Gives, RisesIn, are_head_names, format_faults, head_line, pairs_faults, reading_line, step_line};
ghost use Rattle.kr_trace_lines.specs.Lines.{seen};
ghost use Rattle.kr_trace_lines.specs.Replies.{each_of, txn_of};

use crate::replies::{reply_in, texts_in, txns_in};
use crate::{Line, LineFault};
use kr_model::{Event, Items, Pairs, Txns};
use kr_script::{MAX_ELEMENTS, ScriptFault, event_of, length_of, pairs_of};
use serde_json::{Map, Value};
use std::alloc::{AllocError, Global};

fn is_head_name(name: &str) -> bool
    ensures { result ≡ spec.is_head_name name.now }
{
    name == "format" || name == "opening" || name == "tests"
}

/// Whether each member has a name that a head has.
fn are_head_names(members: &Map<String, Value>) -> bool
    ensures { result ≡ are_head_names (members_view members.now.entries) }
{
    for (name, _) in members.iter() {
        if !is_head_name(name.as_str()) {
            return false;
        }
    }
    true
}

/// The texts of the member `tests`, where it is an array of texts; none where there is no member.
fn tests_in(alloc: Global, value: &Value) -> Result<Option<Vec<String>>, AllocError>
    ensures { IfOk result (λ texts. option_map (λ ts. map string_bytes ts.items) texts ≡ spec.tests_in (view value.now)) }
{
    let Some(tests) = value.get("tests") else {
        return Ok(Some(Vec::new(alloc)));
    };
    match tests.as_array() {
        Some(list) => texts_in(alloc, list.as_slice()),
        None => Ok(None),
    }
}

/// The fault of the format, if it has one.
fn fault_of_format(value: &Value) -> Option<LineFault>
    ensures { result ≡ first (format_faults (number_in (codes "format") (view value.now))) }
{
    match value.get("format").and_then(Value::as_u64) {
        None => Some(LineFault::Field),
        Some(1) => None,
        Some(_) => Some(LineFault::Format),
    }
}

/// The fault of a head for a fault of its opening.
fn fault_of_opening(fault: &ScriptFault) -> LineFault
    ensures { result ≡ spec.fault_of_opening fault.now }
{
    match fault {
        ScriptFault::Memory => LineFault::Memory,
        ScriptFault::TooLong | ScriptFault::NotJson | ScriptFault::Format => LineFault::Opening,
        ScriptFault::Field(_) | ScriptFault::Opening(_) => LineFault::Opening,
        ScriptFault::Step(_) | ScriptFault::TooMany(_) => LineFault::Opening,
    }
}

/// The pairs of an opening, whose keys rise.
fn opening_of(alloc: Global, list: &[Value]) -> Result<Pairs, LineFault>
    ensures { MatchResult result
        (λ pairs. (pairs_faults (items_view list.now) ≡ []) × (pairs ≡ script.pairs_of (items_view list.now)))
        (λ e. e ≢ fault.Memory → first (pairs_faults (items_view list.now)) ≡ Some e) }
{
    if list.len() > MAX_ELEMENTS {
        return Err(LineFault::TooMany);
    }
    match pairs_of(alloc, list) {
        Ok(pairs) => Ok(Items::from_vec(pairs)),
        Err(fault) => Err(fault_of_opening(&fault)),
    }
}

/// The head that an object is.
fn head_line(alloc: Global, value: &Value, members: &Map<String, Value>) -> Result<Line, LineFault>
    requires { as_object (view value.now) ≡ Some (members_view members.now.entries) }
    ensures { Gives result (head_line (view value.now)) }
{
    if let Some(fault) = fault_of_format(value) {
        return Err(fault);
    }
    if !are_head_names(members) {
        return Err(LineFault::Field);
    }
    let Some(opening) = value.get("opening").and_then(Value::as_array) else {
        return Err(LineFault::Field);
    };
    let Some(tests) = tests_in(alloc, value)? else {
        return Err(LineFault::Field);
    };
    let opening = opening_of(alloc, opening.as_slice())?;
    Ok(Line::Head { opening, tests })
}

/// The transactions of the member `order`.
fn txns_of_order(alloc: Global, value: &Value) -> Result<Option<Txns>, AllocError>
    ensures { IfOk result (λ txns. txns ≡ option_and_then (each_of txn_of) (list_in (codes "order") (view value.now))) }
{
    match value.get("order").and_then(Value::as_array) {
        Some(list) => txns_in(alloc, list.as_slice()),
        None => Ok(None),
    }
}

/// The transactions of the member `order`, where there is no other member.
fn order_in(
    alloc: Global,
    value: &Value,
    members: &Map<String, Value>,
) -> Result<Option<Txns>, AllocError>
    requires { as_object (view value.now) ≡ Some (members_view members.now.entries) }
    ensures { IfOk result (λ txns. txns ≡ spec.order_in (view value.now)) }
{
    if members.len() != 1 {
        return Ok(None);
    }
    txns_of_order(alloc, value)
}

/// The step that is the first of two elements.
fn event_in(value: &Value) -> Option<Event>
    ensures { result ≡ spec.event_in (view value.now) }
{
    if length_of(value)? == 2 {
        event_of(true, value.get(0)?)
    } else {
        None
    }
}

/// The step with its reply that a value is.
fn step_line(alloc: Global, value: &Value) -> Result<Line, LineFault>
    ensures { Gives result (step_line (view value.now)) }
{
    let Some(event) = event_in(value) else {
        return Err(LineFault::Step);
    };
    let Some(reply) = value.get(1) else {
        return Err(LineFault::Reply);
    };
    match reply_in(alloc, event.op, reply)? {
        Some(observed) => Ok(Line::Step(event, observed)),
        None => Err(LineFault::Reply),
    }
}

/// The line that a value is.
fn line_of(alloc: Global, value: &Value) -> Result<Line, LineFault>
    ensures { Gives result (spec.line_of (view value.now)) }
{
    let Some(members) = value.as_object() else {
        return step_line(alloc, value);
    };
    if value.get("order").is_none() {
        return head_line(alloc, value, members);
    }
    match order_in(alloc, value, members)? {
        Some(txns) => Ok(Line::Order(txns)),
        None => Err(LineFault::Field),
    }
}

/// The line of a trace that the bytes are, with no line feed, or the first of their faults. What the lines before it say
/// makes no difference: `PartLines` looks at that. `Memory` comes only where a growth was refused, and so at no empty line.
pub fn read_line(alloc: Global, bytes: &[u8]) -> Result<Line, LineFault>
    ensures reads { Gives result (reading_line bytes.now) }
    ensures rises { IfOk result (λ l. RisesIn (seen l)) }
    ensures memory { result ≡ Err fault.Memory → 0 < length bytes.now }
{
    match Value::from_slice(alloc, bytes) {
        Ok(value) => line_of(alloc, &value),
        Err(e) if e.is_memory() => Err(LineFault::Memory),
        Err(_) => Err(LineFault::NotJson),
    }
}
