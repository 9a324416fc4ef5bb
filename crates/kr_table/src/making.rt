//! What a document without faults gives. A reader of another format of tables calls these for what
//! it shares with them.
ghost use Rattle.std.specs.Prelude.{◌≡◌, ◌≤◌, ◌++◌, ◌∷◌, IfOk, OnOk, [], codes, length, map, string_bytes, unwrap_or};
ghost use Rattle.toml.specs.View.{view, items_view};
ghost use Rattle.kr_table.specs.Matrix.{IsMatrix};
ghost use Rattle.kr_table.specs.Members.{names_of, items_in, text_in, pair_in};
ghost use Rattle.kr_table.specs.DocumentFaults.{is_mode};
ghost use Rattle.kr_table.specs.Reading as spec;
ghost use Rattle.kr_table.specs.Shown.{data_of};

use crate::modes::Modes;
use crate::table::Parts;
use kr_model::{Memory, Mode};
use kr_protocol::Span;
use std::alloc::Global;
use toml::Value;

/// The number of a mode's name, 0 where it isn't there.
pub fn number(modes: &[String], name: &str) -> Mode
    requires { length modes.now ≤ 15 }
    ensures { result ≡ spec.number (map string_bytes modes.now) name.now }
{
    for (i, mode) in modes.iter().enumerate() {
        if mode.as_str() == name {
            return (i + 1) as Mode;
        }
    }
    0
}

/// Whether the text stands in the list.
fn contains(list: &[Value], name: &str) -> bool
    ensures { result ≡ is_mode (names_of (items_view list.now)) name.now }
{
    for item in list {
        if let Some(text) = item.as_str() {
            if text == name {
                return true;
            }
        }
    }
    false
}

/// The array at a name, and an empty one where none stands there.
fn items_at<'a>(value: &'a Value, name: &str) -> &'a [Value]
    ensures { items_view result.now ≡ items_in name.now (view value.entry.now) }
{
    match value.get(name).and_then(Value::as_array) {
        Some(list) => list.as_slice(),
        None => &[],
    }
}

/// The text at a name, and an empty one where none stands there.
pub fn text_at<'a>(value: &'a Value, name: &str) -> &'a str
    ensures { result.now ≡ unwrap_or (text_in name.now (view value.entry.now)) [] }
{
    match value.get(name).and_then(Value::as_str) {
        Some(text) => text,
        None => "",
    }
}

/// The name of the mode that a held mode and a requested one convert to.
fn pair_at<'a>(value: &'a Value, held: &str, requested: &str) -> &'a str
    ensures { result.now ≡ spec.text_of (pair_in (view value.entry.now) held.now requested.now) }
{
    match value.get(held) {
        Some(pairs) => text_at(pairs, requested),
        None => "",
    }
}

/// Puts behind the line, for each mode held, whether the requested mode is compatible with it.
fn stand_in_line(
    line: &mut Vec<bool>,
    modes: &[String],
    entries: &Value,
    requested: &str,
) -> Result<(), Memory>
    ensures { OnOk result (line.new.items ≡ line.old.items ++ map (spec.stands (view entries.now) requested.now) (map string_bytes modes.now)) }
{
    let list = items_at(entries, requested);
    for held in modes {
        line.push(contains(list, held.as_str()))?;
    }
    Ok(())
}

/// Which modes stand together: a line for each requested mode.
fn compatible_of(alloc: Global, modes: &[String], entries: &Value) -> Result<Vec<bool>, Memory>
    ensures { IfOk result (λ v. v.items ≡ spec.square (spec.stands (view entries.now)) (map string_bytes modes.now) (map string_bytes modes.now)) }
{
    let mut compatible = Vec::new(alloc);
    for requested in modes {
        stand_in_line(&mut compatible, modes, entries, requested.as_str())?;
    }
    Ok(compatible)
}

/// Puts behind the line, for each mode requested, what the held mode converts to.
fn convert_in_line(
    line: &mut Vec<Mode>,
    modes: &[String],
    entries: &Value,
    held: &str,
) -> Result<(), Memory>
    requires { length modes.now ≤ 15 }
    ensures { OnOk result (line.new.items ≡ line.old.items ++ map (spec.converts (map string_bytes modes.now) (view entries.now) held.now) (map string_bytes modes.now)) }
{
    for requested in modes {
        line.push(number(modes, pair_at(entries, held, requested.as_str())))?;
    }
    Ok(())
}

/// What modes convert to: a line for each held mode.
fn conversion_of(alloc: Global, modes: &[String], entries: &Value) -> Result<Vec<Mode>, Memory>
    requires { length modes.now ≤ 15 }
    ensures { IfOk result (λ v. v.items ≡ spec.square (spec.converts (map string_bytes modes.now) (view entries.now)) (map string_bytes modes.now) (map string_bytes modes.now)) }
{
    let mut conversion = Vec::new(alloc);
    for held in modes {
        convert_in_line(&mut conversion, modes, entries, held.as_str())?;
    }
    Ok(conversion)
}

/// The clauses of a row and side, and none where they are missing.
fn clauses_of<'a>(rules: &'a Value, row: &str, side: &str) -> &'a [Value]
    ensures { items_view result.now ≡ spec.clauses_of (view rules.entry.now) row.now side.now }
{
    match rules.get(row) {
        Some(sides) => items_at(sides, side),
        None => &[],
    }
}

/// The span of a word.
fn span_of(word: &str) -> Span
    ensures { result ≡ spec.span_of word.now }
{
    if word == "instant" {
        Span::Instant
    } else {
        Span::Commit
    }
}

/// Whether the clause is for a requester with this own mode on the next name.
fn fits(clause: &Value, own: &str) -> bool
    ensures { result ≡ spec.fits own.now (view clause.now) }
{
    match clause.get("own") {
        None => true,
        Some(value) => match value.as_array() {
            Some(list) => contains(list.as_slice(), own),
            None => false,
        },
    }
}

/// What a clause requests.
fn request(modes: &[String], clause: &Value) -> Option<(Mode, Span)>
    requires { length modes.now ≤ 15 }
    ensures { result ≡ spec.request (map string_bytes modes.now) (view clause.now) }
{
    Some((
        number(modes, text_at(clause, "mode")),
        span_of(text_at(clause, "span")),
    ))
}

/// What the first clause that fits requests.
fn asked(modes: &[String], clauses: &[Value], own: &str) -> Option<(Mode, Span)>
    requires { length modes.now ≤ 15 }
    ensures { result ≡ spec.asked (map string_bytes modes.now) (items_view clauses.now) own.now }
{
    for clause in clauses {
        if fits(clause, own) {
            return request(modes, clause);
        }
    }
    None
}

/// What is requested at each own mode, from 0, for no lock.
fn asked_each(
    alloc: Global,
    modes: &[String],
    clauses: &[Value],
) -> Result<Vec<Option<(Mode, Span)>>, Memory>
    requires { length modes.now ≤ 15 }
    ensures { IfOk result (λ v. v.items ≡ spec.asked_each (map string_bytes modes.now) (items_view clauses.now)) }
{
    let mut requests = Vec::new(alloc);
    requests.push(asked(modes, clauses, "none"))?;
    for mode in modes {
        requests.push(asked(modes, clauses, mode.as_str()))?;
    }
    Ok(requests)
}

/// What a row requests whose operation moves no key.
pub fn asked_at(modes: &[String], rules: &Value, row: &str, side: &str) -> Option<(Mode, Span)>
    requires { length modes.now ≤ 15 }
    ensures { result ≡ spec.asked (map string_bytes modes.now) (spec.clauses_of (view rules.now) row.now side.now) (codes "none") }
{
    asked(modes, clauses_of(rules, row, side), "none")
}

/// What an update requests, where updates are offered.
fn update_at(updates: bool, modes: &[String], rules: &Value) -> Option<Option<(Mode, Span)>>
    requires { length modes.now ≤ 15 }
    ensures { result ≡ spec.asked_update updates (map string_bytes modes.now) (view rules.now) }
{
    if updates {
        Some(asked_at(modes, rules, "update", "current"))
    } else {
        None
    }
}

/// What a row requests at each own mode, from 0, for no lock.
fn each_at(
    alloc: Global,
    modes: &[String],
    rules: &Value,
    row: &str,
    side: &str,
) -> Result<Vec<Option<(Mode, Span)>>, Memory>
    requires { length modes.now ≤ 15 }
    ensures { IfOk result (λ v. v.items ≡ spec.asked_each (map string_bytes modes.now) (spec.clauses_of (view rules.now) row.now side.now)) }
{
    asked_each(alloc, modes, clauses_of(rules, row, side))
}

/// The modes of these names, by `compatible` and `convert`.
fn modes_of(
    alloc: Global,
    names: Vec<String>,
    compatible: &Value,
    convert: &Value,
) -> Result<Modes, Memory>
    requires few { length names.items ≤ 15 }
    requires matrix { IsMatrix (spec.matrix_in (map string_bytes names.items) (view compatible.now) (view convert.now)) }
    ensures { IfOk result (λ m. m ≡ spec.matrix_in (map string_bytes names.items) (view compatible.now) (view convert.now)) }
{
    let ok = compatible_of(alloc, names.as_slice(), compatible)?;
    let conversion = conversion_of(alloc, names.as_slice(), convert)?;
    Ok(Modes::new(names, ok, conversion))
}

/// The table of modes of these names, by `compatible`, `convert` and `rules`, and whether it offers updates.
pub fn parts_of(
    alloc: Global,
    updates: bool,
    names: Vec<String>,
    compatible: &Value,
    convert: &Value,
    rules: &Value,
) -> Result<Parts, Memory>
    requires few { length names.items ≤ 15 }
    requires matrix { IsMatrix (spec.matrix_in (map string_bytes names.items) (view compatible.now) (view convert.now)) }
    ensures { IfOk result (λ p. data_of p ≡ spec.table_of_parts updates (map string_bytes names.items) (view compatible.now) (view convert.now) (view rules.now)) }
{
    let list = names.as_slice();
    let fetch_hit = asked_at(list, rules, "fetch-hit", "current");
    let fetch_miss = asked_at(list, rules, "fetch-miss", "next");
    let scan_key = asked_at(list, rules, "scan-key", "current");
    let scan_stop = asked_at(list, rules, "scan-stop", "next");
    let update = update_at(updates, list, rules);
    let insert_current = each_at(alloc, list, rules, "insert", "current")?;
    let insert_next = each_at(alloc, list, rules, "insert", "next")?;
    let delete_current = each_at(alloc, list, rules, "delete", "current")?;
    let delete_next = each_at(alloc, list, rules, "delete", "next")?;
    let modes = modes_of(alloc, names, compatible, convert)?;
    Ok(Parts {
        modes,
        fetch_hit,
        fetch_miss,
        scan_key,
        scan_stop,
        insert_current,
        insert_next,
        delete_current,
        delete_next,
        update,
    })
}
