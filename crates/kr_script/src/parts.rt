//! Parts of JSON values.
ghost use Rattle.std.specs.Prelude.{◌≡◌, option_map};
ghost use Rattle.serde_json.specs.View.{view};
ghost use Rattle.kr_script.specs.Json as spec;

use serde_json::Value;

/// The whole number at an index of an array.
pub fn number_at(value: &Value, i: usize) -> Option<u64>
    ensures { result ≡ spec.number_at i (view value.now) }
{
    value.get(i).and_then(Value::as_u64)
}

/// The text at an index of an array.
pub fn word_at(value: &Value, i: usize) -> Option<&str>
    ensures { option_map (λ s. s.now) result ≡ spec.word_at i (view value.now) }
{
    value.get(i).and_then(Value::as_str)
}

/// How many elements an array has.
pub fn length_of(value: &Value) -> Option<usize>
    ensures { result ≡ spec.length_of (view value.now) }
{
    match value.as_array() {
        Some(list) => Some(list.as_slice().len()),
        None => None,
    }
}
