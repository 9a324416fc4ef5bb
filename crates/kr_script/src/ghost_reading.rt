//! Reading a script that may have purges.
ghost use Rattle.std.specs.Prelude.{◌≡◌, ◌<◌, ◌≤◌, Err, MatchResult, Some, [], codes, length};
ghost use Rattle.serde_json.specs.View.{view, items_view};
ghost use Rattle.kr_script.specs.declared.faults.ScriptFault.TheVariants as told_as;
ghost use Rattle.kr_script.specs.Faults.{Tells};
ghost use Rattle.kr_script.specs.Json.{number_in};
ghost use Rattle.kr_script.specs.GhostReading as spec;
ghost use Rattle.kr_script.specs.GhostReading.{Gives, format_faults, format_in, move_faults, reading, reading_of};

use crate::ghost_plain::read_plain_moves;
use crate::moves::move_of;
use crate::reading::{MAX_BYTES, field, list_at, pairs_of, test_names, test_size};
use crate::{GhostScript, ScriptFault};
use kr_ghost::Move;
use serde_json::Value;
use std::alloc::Global;

/// The format, or the fault that it is none of 1, 2 and 3.
fn format_of(alloc: Global, value: &Value) -> Result<u64, ScriptFault>
    ensures { MatchResult result
        (λ n. (format_faults (number_in (codes "format") (view value.now)) ≡ []) × (format_in (view value.now) ≡ n))
        (λ e. Tells e (format_faults (number_in (codes "format") (view value.now)))) }
{
    match value.get("format").and_then(Value::as_u64) {
        None => Err(field(alloc, "format")),
        Some(format @ (1 | 2 | 3)) => Ok(format),
        Some(_) => Err(ScriptFault::Format),
    }
}

/// The moves that the elements of `steps` are; or the fault of the first that is no step of the format, or that a growth was
/// refused.
fn moves_of(alloc: Global, format: u64, list: &[Value]) -> Result<Vec<Move>, ScriptFault>
    ensures { MatchResult result
        (λ v. (move_faults format 0 (items_view list.now) ≡ []) × (v.items ≡ spec.moves_of format (items_view list.now)))
        (λ e. Tells e (move_faults format 0 (items_view list.now))) }
{
    let Ok(mut moves) = Vec::with_capacity(alloc, list.len()) else {
        return Err(ScriptFault::Memory);
    };
    for (i, item) in list.iter().enumerate() {
        let Some(next) = move_of(format, item) else {
            return Err(ScriptFault::Step(i));
        };
        if moves.push(next).is_err() {
            return Err(ScriptFault::Memory);
        }
    }
    Ok(moves)
}

/// The script that a document is, or the first of its faults.
#[tactic(auto, using(crate::proofs::Firsts::first_append))]
fn script_of(alloc: Global, value: &Value) -> Result<GhostScript, ScriptFault>
    ensures { Gives result (reading_of (Some (view value.now))) }
{
    let Some(members) = value.as_object() else {
        return Err(field(alloc, ""));
    };
    let format = format_of(alloc, value)?;
    test_names(alloc, members)?;
    let opening = list_at(alloc, value, "opening")?;
    let steps = list_at(alloc, value, "steps")?;
    test_size(alloc, opening, "opening")?;
    test_size(alloc, steps, "steps")?;
    let opening = pairs_of(alloc, opening)?;
    let moves = moves_of(alloc, format, steps)?;
    Ok(GhostScript::new(opening, moves))
}

/// The script that the bytes are, of format 1, 2 or 3, or the first of their faults; `Format` comes at a whole number other than
/// these. `Memory` comes only where a growth was refused, and so at no empty text and at none that is too long.
pub fn read_ghost_script(alloc: Global, bytes: &[u8]) -> Result<GhostScript, ScriptFault>
    ensures reads { Gives result (reading bytes.now) }
    ensures memory { (result ≡ Err told_as.Memory) → (0 < length bytes.now) × (length bytes.now ≤ 16777216) }
{
    if bytes.len() > MAX_BYTES {
        return Err(ScriptFault::TooLong);
    }
    if let Some(script) = read_plain_moves(alloc, bytes) {
        return Ok(script);
    }
    match Value::from_slice(alloc, bytes) {
        Ok(value) => script_of(alloc, &value),
        Err(e) if e.is_memory() => Err(ScriptFault::Memory),
        Err(_) => Err(ScriptFault::NotJson),
    }
}
