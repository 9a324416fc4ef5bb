//! Reading a script.
ghost use Rattle.std.specs.Prelude.{◌≡◌, ◌<◌, ◌≤◌, ◌∷◌, Err, MatchResult, None, Some, [], codes, length, nat_lt};
ghost use Rattle.serde_json.specs.Events.{items_len};
ghost use Rattle.serde_json.specs.View.{view, items_view, members_view};
ghost use Rattle.kr_model.specs.Firsts.{unless};
ghost use Rattle.kr_model.specs.Map.{is_above};
ghost use Rattle.kr_script.specs.declared.faults.ScriptFault.TheVariants as told_as;
ghost use Rattle.kr_script.specs.Json.{number_in, list_in};
ghost use Rattle.kr_script.specs.Faults as fault;
ghost use Rattle.kr_script.specs.Faults.{Passes, Tells, format_faults, two_in, name_faults, list_faults, opening_faults, step_faults};
ghost use Rattle.kr_script.specs.Reading as spec;
ghost use Rattle.kr_script.specs.Reading.{Gives, reading, reading_of};

use crate::parts::{length_of, number_at};
use crate::plain::read_plain;
use crate::steps::event_of;
use crate::{Script, ScriptFault};
use kr_model::Event;
use serde_json::{Map, Value};
use std::alloc::Global;

/// The most bytes that a script has.
pub const MAX_BYTES: usize = 16_777_216;

/// The most pairs that a script has, and the most steps.
pub const MAX_ELEMENTS: usize = 100_000;

/// The fault of the member of this name, or `Memory` where the name can't be copied.
pub fn field(alloc: Global, name: &str) -> ScriptFault
    ensures { Tells result (fault.field name.now ∷ []) }
{
    match String::from_str(alloc, name) {
        Ok(name) => ScriptFault::Field(name),
        Err(_) => ScriptFault::Memory,
    }
}

fn too_many(alloc: Global, name: &str) -> ScriptFault
    ensures { Tells result (fault.too_many name.now ∷ []) }
{
    match String::from_str(alloc, name) {
        Ok(name) => ScriptFault::TooMany(name),
        Err(_) => ScriptFault::Memory,
    }
}

/// Whether the format is 2, or the fault that it is neither 1 nor 2.
fn test_format(alloc: Global, value: &Value) -> Result<bool, ScriptFault>
    ensures { MatchResult result
        (λ two. (format_faults (number_in (codes "format") (view value.now)) ≡ []) × (two_in (view value.now) ≡ two))
        (λ e. Tells e (format_faults (number_in (codes "format") (view value.now)))) }
{
    match value.get("format").and_then(Value::as_u64) {
        None => Err(field(alloc, "format")),
        Some(1) => Ok(false),
        Some(2) => Ok(true),
        Some(_) => Err(ScriptFault::Format),
    }
}

fn is_member_name(name: &str) -> bool
    ensures { result ≡ fault.is_member_name name.now }
{
    name == "format" || name == "opening" || name == "steps"
}

/// Tests that no member is unknown.
pub fn test_names(alloc: Global, members: &Map<String, Value>) -> Result<(), ScriptFault>
    ensures { Passes result (name_faults (members_view members.now.entries)) }
{
    for (name, _) in members.iter() {
        if !is_member_name(name.as_str()) {
            return Err(field(alloc, name.as_str()));
        }
    }
    Ok(())
}

/// The array at a member, or the fault that it is missing or no array.
pub fn list_at<'a>(alloc: Global, value: &'a Value, name: &str) -> Result<&'a [Value], ScriptFault>
    ensures { MatchResult result
        (λ s. list_in name.now (view value.entry.now) ≡ Some (items_view s.now))
        (λ e. Tells e (list_faults name.now (view value.entry.now))) }
{
    match value.get(name).and_then(Value::as_array) {
        Some(list) => Ok(list.as_slice()),
        None => Err(field(alloc, name)),
    }
}

/// Tests that the member of this name has at most 100,000 elements.
pub fn test_size(alloc: Global, list: &[Value], name: &str) -> Result<(), ScriptFault>
    ensures { Passes result (unless (nat_lt (items_len (items_view list.now)) 100001) (fault.too_many name.now)) }
{
    if list.len() > MAX_ELEMENTS {
        return Err(too_many(alloc, name));
    }
    Ok(())
}

/// The key and the value that an array of just these two whole numbers has.
pub fn pair_of(value: &Value) -> Option<(u64, u64)>
    ensures { result ≡ fault.pair_of (view value.now) }
{
    if length_of(value)? == 2 {
        Some((number_at(value, 0)?, number_at(value, 1)?))
    } else {
        None
    }
}

/// Whether a key is above the one before it.
pub fn is_above(key: u64, before: Option<u64>) -> bool
    ensures { result ≡ is_above key before }
{
    match before {
        None => true,
        Some(before) => before < key,
    }
}

/// The pairs that the elements of an opening are, whose keys rise; or the fault of the first element that is no pair or whose
/// key isn't above the one before it, or that a growth was refused.
pub fn pairs_of(alloc: Global, list: &[Value]) -> Result<Vec<(u64, u64)>, ScriptFault>
    ensures { MatchResult result
        (λ v. (opening_faults 0 None (items_view list.now) ≡ []) × (v.items ≡ spec.pairs_of (items_view list.now)))
        (λ e. Tells e (opening_faults 0 None (items_view list.now))) }
{
    let Ok(mut pairs) = Vec::with_capacity(alloc, list.len()) else {
        return Err(ScriptFault::Memory);
    };
    let mut before = None;
    for (i, item) in list.iter().enumerate() {
        let Some((key, number)) = pair_of(item) else {
            return Err(ScriptFault::Opening(i));
        };
        if !is_above(key, before) {
            return Err(ScriptFault::Opening(i));
        }
        if pairs.push((key, number)).is_err() {
            return Err(ScriptFault::Memory);
        }
        before = Some(key);
    }
    Ok(pairs)
}

fn events_of(alloc: Global, two: bool, list: &[Value]) -> Result<Vec<Event>, ScriptFault>
    ensures { MatchResult result
        (λ v. (step_faults two 0 (items_view list.now) ≡ []) × (v.items ≡ spec.events_of two (items_view list.now)))
        (λ e. Tells e (step_faults two 0 (items_view list.now))) }
{
    let Ok(mut events) = Vec::with_capacity(alloc, list.len()) else {
        return Err(ScriptFault::Memory);
    };
    for (i, item) in list.iter().enumerate() {
        let Some(event) = event_of(two, item) else {
            return Err(ScriptFault::Step(i));
        };
        if events.push(event).is_err() {
            return Err(ScriptFault::Memory);
        }
    }
    Ok(events)
}

/// The script that a document is, or the first of its faults.
#[tactic(auto, using(crate::proofs::Firsts::first_append))]
fn script_of(alloc: Global, value: &Value) -> Result<Script, ScriptFault>
    ensures { Gives result (reading_of (Some (view value.now))) }
{
    let Some(members) = value.as_object() else {
        return Err(field(alloc, ""));
    };
    let two = test_format(alloc, value)?;
    test_names(alloc, members)?;
    let opening = list_at(alloc, value, "opening")?;
    let steps = list_at(alloc, value, "steps")?;
    test_size(alloc, opening, "opening")?;
    test_size(alloc, steps, "steps")?;
    let opening = pairs_of(alloc, opening)?;
    let steps = events_of(alloc, two, steps)?;
    Ok(Script::new(opening, steps))
}

/// The script that the bytes are, of format 1 or 2, or the first of their faults. `Memory` comes only
/// where a growth was refused, and so at no empty text and at none that is too long.
pub fn read_script(alloc: Global, bytes: &[u8]) -> Result<Script, ScriptFault>
    ensures reads { Gives result (reading bytes.now) }
    ensures memory { (result ≡ Err told_as.Memory) → (0 < length bytes.now) × (length bytes.now ≤ 16777216) }
{
    if bytes.len() > MAX_BYTES {
        return Err(ScriptFault::TooLong);
    }
    if let Some(script) = read_plain(alloc, bytes) {
        return Ok(script);
    }
    match Value::from_slice(alloc, bytes) {
        Ok(value) => script_of(alloc, &value),
        Err(e) if e.is_memory() => Err(ScriptFault::Memory),
        Err(_) => Err(ScriptFault::NotJson),
    }
}
