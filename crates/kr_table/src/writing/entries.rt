//! The members of a written document but for its rules: names, which modes stand together, and conversions.
ghost use Rattle.std.specs.Prelude.{◌≡◌, ◌*◌, IfOk, OnOk, length, map, string_bytes};
ghost use Rattle.toml.specs.View.{view, members_view};
ghost use Rattle.toml.specs.Data.{array, string as a_text, table as a_table, no_members};
ghost use Rattle.kr_model.specs.ModeNames.{name_of};
ghost use Rattle.kr_table.specs.Writing as spec;

use kr_model::{Memory, Mode};
use std::alloc::Global;
use toml::{Table as Document, Value};

/// Puts a value at a name. `Memory` comes only where a growth was refused.
pub fn put_in(alloc: Global, table: &mut Document, name: &str, value: Value) -> Result<(), Memory>
    ensures { OnOk result (members_view table.new.entries ≡ spec.put name.now (view value) (members_view table.old.entries)) }
{
    table.insert(String::from_str(alloc, name)?, value)?;
    Ok(())
}

/// The names, as an array of texts.
pub fn texts_of(alloc: Global, names: &[String]) -> Result<Value, Memory>
    ensures { IfOk result (λ v. view v ≡ array (spec.strings (map string_bytes names.now))) }
{
    let mut texts = Vec::new(alloc);
    for name in names {
        texts.push(Value::String(name.clone()?))?;
    }
    Ok(Value::Array(texts))
}

/// The names at which the line says yes, as an array of texts.
fn chosen(alloc: Global, names: &[String], line: &[bool]) -> Result<Value, Memory>
    requires { length line.now ≡ length names.now }
    ensures { IfOk result (λ v. view v ≡ array (spec.strings (spec.chosen (map string_bytes names.now) line.now))) }
{
    let mut texts = Vec::new(alloc);
    for (i, name) in names.iter().enumerate() {
        if line[i] {
            texts.push(Value::String(name.clone()?))?;
        }
    }
    Ok(Value::Array(texts))
}

/// An entry for each requested mode: the modes that it is compatible with.
pub fn compatibility(alloc: Global, names: &[String], matrix: &[bool]) -> Result<Document, Memory>
    requires { length matrix.now ≡ length names.now * length names.now }
    ensures { IfOk result (λ t. members_view t.entries ≡ spec.with_compatible (map string_bytes names.now) (map string_bytes names.now) matrix.now no_members) }
{
    let mut entries = Document::new(alloc);
    let mut rest = matrix;
    for requested in names {
        let line = &rest[..names.len()];
        let beside = chosen(alloc, names, line)?;
        put_in(alloc, &mut entries, requested.as_str(), beside)?;
        rest = &rest[names.len()..];
    }
    Ok(entries)
}

/// The name of a mode, `none` for 0.
pub fn name_at(names: &[String], mode: Mode) -> &str
    ensures { result.now ≡ name_of (map string_bytes names.now) mode }
{
    if mode == 0 {
        return "none";
    }
    match names.get(mode as usize - 1) {
        Some(name) => name.as_str(),
        None => "",
    }
}

/// A text.
pub fn text(alloc: Global, bytes: &str) -> Result<Value, Memory>
    ensures { IfOk result (λ v. view v ≡ a_text bytes.now) }
{
    Ok(Value::String(String::from_str(alloc, bytes)?))
}

/// A pair for each requested mode: the name of the mode in the line.
fn pairs(alloc: Global, names: &[String], line: &[Mode]) -> Result<Value, Memory>
    requires { length line.now ≡ length names.now }
    ensures { IfOk result (λ v. view v ≡ a_table (spec.with_pairs (map string_bytes names.now) (map string_bytes names.now) line.now no_members)) }
{
    let mut entries = Document::new(alloc);
    for (i, requested) in names.iter().enumerate() {
        let converted = text(alloc, name_at(names, line[i]))?;
        put_in(alloc, &mut entries, requested.as_str(), converted)?;
    }
    Ok(Value::Table(entries))
}

/// An entry for each held mode, with its pairs.
pub fn conversions(alloc: Global, names: &[String], matrix: &[Mode]) -> Result<Document, Memory>
    requires { length matrix.now ≡ length names.now * length names.now }
    ensures { IfOk result (λ t. members_view t.entries ≡ spec.with_conversion (map string_bytes names.now) (map string_bytes names.now) matrix.now no_members) }
{
    let mut entries = Document::new(alloc);
    let mut rest = matrix;
    for held in names {
        let line = &rest[..names.len()];
        let converted = pairs(alloc, names, line)?;
        put_in(alloc, &mut entries, held.as_str(), converted)?;
        rest = &rest[names.len()..];
    }
    Ok(entries)
}
