//! The member `rules` of a written document: rows, their sides, and the clauses of each side.
ghost use Rattle.std.specs.Prelude.{◌≡◌, ◌+◌, ◌++◌, IfOk, OnOk, [], ◌∷◌, codes, length, map, string_bytes};
ghost use Rattle.toml.specs.View.{view, members_view};
ghost use Rattle.toml.specs.Data.{array, table as a_table, no_members};
ghost use Rattle.kr_table.specs.Tables.{IsTable};
ghost use Rattle.kr_table.specs.Shown.{data_of};
ghost use Rattle.kr_table.specs.Writing as spec;

use crate::table::Parts;
use crate::writing::entries::{name_at, put_in, text};
use kr_model::{Memory, Mode};
use kr_protocol::Span;
use std::alloc::Global;
use toml::{Table as Document, Value};

/// The word of a span.
fn word_of(span: Span) -> &'static str
    ensures { result.now ≡ spec.word_of span }
{
    match span {
        Span::Instant => "instant",
        Span::Commit => "commit",
    }
}

/// A clause with no `own`.
fn plain_clause(alloc: Global, names: &[String], mode: Mode, span: Span) -> Result<Document, Memory>
    ensures { IfOk result (λ t. members_view t.entries ≡ spec.plain_clause (map string_bytes names.now) mode span) }
{
    let mut clause = Document::new(alloc);
    put_in(
        alloc,
        &mut clause,
        "mode",
        text(alloc, name_at(names, mode))?,
    )?;
    put_in(alloc, &mut clause, "span", text(alloc, word_of(span))?)?;
    Ok(clause)
}

/// The clauses of a side of a row whose operation moves no key.
fn plain_clauses(
    alloc: Global,
    names: &[String],
    request: Option<(Mode, Span)>,
) -> Result<Value, Memory>
    ensures { IfOk result (λ v. view v ≡ array (spec.plain_clauses (map string_bytes names.now) request)) }
{
    let mut clauses = Vec::new(alloc);
    if let Some((mode, span)) = request {
        clauses.push(Value::Table(plain_clause(alloc, names, mode, span)?))?;
    }
    Ok(Value::Array(clauses))
}

/// An array of one name.
fn own_text(alloc: Global, own: &str) -> Result<Value, Memory>
    ensures { IfOk result (λ v. view v ≡ array (spec.strings (own.now ∷ []))) }
{
    let mut texts = Vec::new(alloc);
    texts.push(text(alloc, own)?)?;
    Ok(Value::Array(texts))
}

/// A clause for a requester with this own mode on the next name.
fn own_clause(
    alloc: Global,
    names: &[String],
    own: &str,
    mode: Mode,
    span: Span,
) -> Result<Document, Memory>
    ensures { IfOk result (λ t. members_view t.entries ≡ spec.own_clause (map string_bytes names.now) own.now mode span) }
{
    let mut clause = plain_clause(alloc, names, mode, span)?;
    put_in(alloc, &mut clause, "own", own_text(alloc, own)?)?;
    Ok(clause)
}

/// Puts a clause for this own mode behind the others, where something is requested.
fn push_clause(
    alloc: Global,
    clauses: &mut Vec<Value>,
    names: &[String],
    own: &str,
    request: Option<(Mode, Span)>,
) -> Result<(), Memory>
    ensures { OnOk result (map view clauses.new.items ≡ map view clauses.old.items ++ spec.own_one (map string_bytes names.now) own.now request) }
{
    if let Some((mode, span)) = request {
        clauses.push(Value::Table(own_clause(alloc, names, own, mode, span)?))?;
    }
    Ok(())
}

/// The clauses of a side of insert or delete: one for each own mode at which something is requested.
fn own_clauses(
    alloc: Global,
    names: &[String],
    requests: &[Option<(Mode, Span)>],
) -> Result<Value, Memory>
    requires { length requests.now ≡ length names.now + 1 }
    ensures { IfOk result (λ v. view v ≡ array (spec.own_clauses (map string_bytes names.now) (codes "none" ∷ map string_bytes names.now) requests.now)) }
{
    let mut clauses = Vec::new(alloc);
    push_clause(alloc, &mut clauses, names, "none", requests[0])?;
    for (i, name) in names.iter().enumerate() {
        push_clause(alloc, &mut clauses, names, name.as_str(), requests[i + 1])?;
    }
    Ok(Value::Array(clauses))
}

/// A row of one side.
fn one_side(alloc: Global, side: &str, clauses: Value) -> Result<Value, Memory>
    ensures { IfOk result (λ v. view v ≡ a_table (spec.put side.now (view clauses) no_members)) }
{
    let mut sides = Document::new(alloc);
    put_in(alloc, &mut sides, side, clauses)?;
    Ok(Value::Table(sides))
}

/// A row of both sides.
fn both_sides(alloc: Global, current: Value, next: Value) -> Result<Value, Memory>
    ensures { IfOk result (λ v. view v ≡ a_table (spec.put (codes "next") (view next) (spec.put (codes "current") (view current) no_members))) }
{
    let mut sides = Document::new(alloc);
    put_in(alloc, &mut sides, "current", current)?;
    put_in(alloc, &mut sides, "next", next)?;
    Ok(Value::Table(sides))
}

/// Puts a row of one side, whose operation moves no key, at its name. `Memory` comes only where a growth was refused.
pub fn put_one_side(
    alloc: Global,
    rules: &mut Document,
    row: &str,
    side: &str,
    names: &[String],
    request: Option<(Mode, Span)>,
) -> Result<(), Memory>
    ensures { OnOk result (members_view rules.new.entries ≡ spec.put row.now (a_table (spec.one_side side.now (spec.plain_clauses (map string_bytes names.now) request))) (members_view rules.old.entries)) }
{
    let clauses = plain_clauses(alloc, names, request)?;
    put_in(alloc, rules, row, one_side(alloc, side, clauses)?)
}

/// Puts a row of both sides, with a request for each own mode, from 0, for no lock, at its name. `Memory` comes only where a
/// growth was refused.
pub fn put_both_sides(
    alloc: Global,
    rules: &mut Document,
    row: &str,
    names: &[String],
    current: &[Option<(Mode, Span)>],
    next: &[Option<(Mode, Span)>],
) -> Result<(), Memory>
    requires current { length current.now ≡ length names.now + 1 }
    requires next { length next.now ≡ length names.now + 1 }
    ensures { OnOk result (members_view rules.new.entries ≡ spec.put row.now (a_table (spec.changing_row (map string_bytes names.now) current.now next.now)) (members_view rules.old.entries)) }
{
    let current = own_clauses(alloc, names, current)?;
    let next = own_clauses(alloc, names, next)?;
    put_in(alloc, rules, row, both_sides(alloc, current, next)?)
}

/// Puts a row of both sides, whose requests go by no own mode, at its name. `Memory` comes only where a growth was refused.
pub fn put_plain_sides(
    alloc: Global,
    rules: &mut Document,
    row: &str,
    names: &[String],
    current: Option<(Mode, Span)>,
    next: Option<(Mode, Span)>,
) -> Result<(), Memory>
    ensures { OnOk result (members_view rules.new.entries ≡ spec.put row.now (a_table (spec.both_sides (spec.plain_clauses (map string_bytes names.now) current) (spec.plain_clauses (map string_bytes names.now) next))) (members_view rules.old.entries)) }
{
    let current = plain_clauses(alloc, names, current)?;
    let next = plain_clauses(alloc, names, next)?;
    put_in(alloc, rules, row, both_sides(alloc, current, next)?)
}

/// Puts the rows that every table has into a member with none.
fn put_rows(alloc: Global, rules: &mut Document, p: &Parts) -> Result<(), Memory>
    requires { IsTable (data_of p.now) }
    ensures { OnOk result (members_view rules.old.entries ≡ no_members → members_view rules.new.entries ≡ spec.all_rows (data_of p.now)) }
{
    let names = p.modes.names();
    put_one_side(alloc, rules, "fetch-hit", "current", names, p.fetch_hit)?;
    put_one_side(alloc, rules, "fetch-miss", "next", names, p.fetch_miss)?;
    put_one_side(alloc, rules, "scan-key", "current", names, p.scan_key)?;
    put_one_side(alloc, rules, "scan-stop", "next", names, p.scan_stop)?;
    put_both_sides(
        alloc,
        rules,
        "insert",
        names,
        p.insert_current.as_slice(),
        p.insert_next.as_slice(),
    )?;
    put_both_sides(
        alloc,
        rules,
        "delete",
        names,
        p.delete_current.as_slice(),
        p.delete_next.as_slice(),
    )
}

/// The member `rules`: the row of updates is there where they are offered.
pub fn rules_of(alloc: Global, p: &Parts) -> Result<Document, Memory>
    requires { IsTable (data_of p.now) }
    ensures { IfOk result (λ t. members_view t.entries ≡ spec.written_rules (data_of p.now)) }
{
    let mut rules = Document::new(alloc);
    put_rows(alloc, &mut rules, p)?;
    if let Some(request) = p.update {
        put_one_side(
            alloc,
            &mut rules,
            "update",
            "current",
            p.modes.names(),
            request,
        )?;
    }
    Ok(rules)
}
