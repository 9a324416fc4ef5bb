//! Writing a table with ghosts.
ghost use Rattle.std.specs.Prelude.{◌≡◌, ◌≤◌, Err, IfOk, Ok, OnOk, codes, false, length, map, string_bytes, true};
ghost use Rattle.toml.specs.View.{view, members_view, table_view};
ghost use Rattle.toml.specs.Data.{table as a_table, members_depth, members_have_valid_dates, no_members};
ghost use Rattle.toml.specs.Text.{IsDocumentText};
ghost use Rattle.kr_table.specs.declared.writing.WriteFault.TheVariants as fault;
ghost use Rattle.kr_table.specs.Writing.{IsLongText, put, with_pairs};
ghost use Rattle.kr_ghost_table.specs.Tables.{are_heirs};
ghost use Rattle.kr_ghost_table.specs.Reading.{judged, reading};
ghost use Rattle.kr_ghost_table.specs.Shown as shown;
ghost use Rattle.kr_ghost_table.specs.Answer.{ghost_data};
ghost use Rattle.kr_ghost_table.specs.Writing as spec;
ghost use Rattle.kr_ghost_table.specs.Writing.{IsTextOf, IsTooLong};

use crate::reading::MAX_BYTES;
use crate::table::GhostTable;
use crate::vain::{Sides, VainRows};
use kr_model::Memory;
use kr_protocol::{Mode, Span};
use kr_table::WriteFault;
use kr_table::writing::entries::{compatibility, conversions, name_at, put_in, text, texts_of};
use kr_table::writing::rules::{put_both_sides, put_one_side, put_plain_sides};
use std::alloc::Global;
use toml::{Table as Document, Value};

/// A table with the name of its heir at that of each mode, `none` where it has none.
fn heirs_table(alloc: Global, names: &[String], heirs: &[Mode]) -> Result<Value, Memory>
    requires { length heirs.now ≡ length names.now }
    ensures { IfOk result (λ v. view v ≡ a_table (with_pairs (map string_bytes names.now) (map string_bytes names.now) heirs.now no_members)) }
{
    let mut entries = Document::new(alloc);
    for (i, mode) in names.iter().enumerate() {
        let heir = text(alloc, name_at(names, heirs[i]))?;
        put_in(alloc, &mut entries, mode.as_str(), heir)?;
    }
    Ok(Value::Table(entries))
}

/// What stands at `purge`.
fn purge_of(alloc: Global, names: &[String], heirs: &Option<Vec<Mode>>) -> Result<Value, Memory>
    requires { are_heirs (length names.now) (shown.heirs_of heirs.now) ≡ true }
    ensures { IfOk result (λ v. view v ≡ spec.purge_of (map string_bytes names.now) (shown.heirs_of heirs.now)) }
{
    match heirs {
        Some(heirs) => heirs_table(alloc, names, heirs.as_slice()),
        None => text(alloc, "unlocked"),
    }
}

/// Puts a row that has the side `next` only where something is requested there.
fn put_sides(
    alloc: Global,
    rules: &mut Document,
    row: &str,
    names: &[String],
    sides: Sides,
) -> Result<(), Memory>
    ensures { OnOk result (members_view rules.new.entries ≡ put row.now (spec.sides_row (map string_bytes names.now) sides.current sides.next) (members_view rules.old.entries)) }
{
    match sides.next {
        Some(_) => put_plain_sides(alloc, rules, row, names, sides.current, sides.next),
        None => put_one_side(alloc, rules, row, "current", names, sides.current),
    }
}

/// Puts the row of an insert of a present key, if it is given.
fn put_hit(
    alloc: Global,
    rules: &mut Document,
    names: &[String],
    given: Option<Sides>,
) -> Result<(), Memory>
    ensures { OnOk result (members_view rules.new.entries ≡ spec.with_row (codes "insert-hit") (spec.hit_row (map string_bytes names.now)) given (members_view rules.old.entries)) }
{
    match given {
        Some(sides) => put_sides(alloc, rules, "insert-hit", names, sides),
        None => Ok(()),
    }
}

/// Puts a row of one side, if it is given.
fn put_given(
    alloc: Global,
    rules: &mut Document,
    row: &str,
    side: &str,
    names: &[String],
    given: Option<Option<(Mode, Span)>>,
) -> Result<(), Memory>
    ensures { OnOk result (members_view rules.new.entries ≡ spec.with_row row.now (spec.side_row side.now (map string_bytes names.now)) given (members_view rules.old.entries)) }
{
    match given {
        Some(request) => put_one_side(alloc, rules, row, side, names, request),
        None => Ok(()),
    }
}

/// Puts the rows of the vain steps that are given.
fn put_vain(
    alloc: Global,
    rules: &mut Document,
    names: &[String],
    vain: VainRows,
) -> Result<(), Memory>
    ensures { OnOk result (members_view rules.new.entries ≡ spec.with_vain (map string_bytes names.now) vain (members_view rules.old.entries)) }
{
    put_hit(alloc, rules, names, vain.insert_hit)?;
    put_given(alloc, rules, "delete-miss", "next", names, vain.delete_miss)?;
    put_given(alloc, rules, "update-miss", "next", names, vain.update_miss)
}

/// The member `rules`: all rows, since a table with ghosts offers updates, but those of vain steps that it hasn't.
fn rules_of(alloc: Global, table: &GhostTable) -> Result<Document, Memory>
    ensures { IfOk result (λ t. members_view t.entries ≡ spec.written_rules (ghost_data table.now)) }
{
    let p = table.table.parts();
    let names = p.modes.names();
    let update = p.update.flatten();
    let mut rules = Document::new(alloc);
    put_one_side(
        alloc,
        &mut rules,
        "fetch-hit",
        "current",
        names,
        p.fetch_hit,
    )?;
    put_one_side(alloc, &mut rules, "fetch-miss", "next", names, p.fetch_miss)?;
    put_one_side(alloc, &mut rules, "scan-key", "current", names, p.scan_key)?;
    put_one_side(alloc, &mut rules, "scan-stop", "next", names, p.scan_stop)?;
    put_both_sides(
        alloc,
        &mut rules,
        "insert",
        names,
        p.insert_current.as_slice(),
        p.insert_next.as_slice(),
    )?;
    put_one_side(
        alloc,
        &mut rules,
        "delete",
        "current",
        names,
        p.delete_current[0],
    )?;
    put_one_side(alloc, &mut rules, "update", "current", names, update)?;
    let revive = Sides {
        current: table.revive,
        next: table.revive_next,
    };
    put_sides(alloc, &mut rules, "revive", names, revive)?;
    put_vain(alloc, &mut rules, names, table.vain)?;
    Ok(rules)
}

/// The document that is written for a table.
fn document_of(alloc: Global, table: &GhostTable) -> Result<Document, Memory>
    ensures { IfOk result (λ t. table_view t ≡ spec.written (ghost_data table.now)) }
{
    let modes = &table.table.parts().modes;
    let names = modes.names();
    let mut document = Document::new(alloc);
    put_in(alloc, &mut document, "format", Value::Integer(3))?;
    put_in(alloc, &mut document, "deletes", text(alloc, "ghosts")?)?;
    put_in(alloc, &mut document, "modes", texts_of(alloc, names)?)?;
    let compatible = compatibility(alloc, names, modes.compatible())?;
    put_in(alloc, &mut document, "compatible", Value::Table(compatible))?;
    let conversion = conversions(alloc, names, modes.conversion())?;
    put_in(alloc, &mut document, "convert", Value::Table(conversion))?;
    put_in(
        alloc,
        &mut document,
        "purge",
        purge_of(alloc, names, &table.heirs)?,
    )?;
    put_in(
        alloc,
        &mut document,
        "rules",
        Value::Table(rules_of(alloc, table)?),
    )?;
    Ok(document)
}

/// The text of a document, which reads as the document does.
fn printed(alloc: Global, document: &Document) -> Result<String, WriteFault>
    requires depth { members_depth (table_view document.now) ≤ 80 }
    requires dates { members_have_valid_dates (table_view document.now) ≡ true }
    ensures text { IfOk result (λ s. IsDocumentText false (table_view document.now) (string_bytes s)) }
    ensures reads_back { IfOk result (λ s. reading (string_bytes s) ≡ judged (a_table (table_view document.now))) }
    ensures too_long { (result ≡ Err fault.TooLong) → IsLongText (table_view document.now) }
{
    match toml::table_to_string(alloc, document) {
        Ok(text) if text.as_str().len() > MAX_BYTES => Err(WriteFault::TooLong),
        Ok(text) => Ok(text),
        Err(_) => Err(WriteFault::Memory),
    }
}

/// The text of a table, in TOML, which is read back as the same table. At `TooLong` the text has more than 65,536 bytes;
/// `Memory` comes only where a growth was refused.
pub fn write(alloc: Global, table: &GhostTable) -> Result<String, WriteFault>
    ensures text { IfOk result (λ s. IsTextOf (ghost_data table.now) (string_bytes s)) }
    ensures reads_back { IfOk result (λ s. reading (string_bytes s) ≡ Ok (ghost_data table.now)) }
    ensures too_long { (result ≡ Err fault.TooLong) → IsTooLong (ghost_data table.now) }
{
    match document_of(alloc, table) {
        Ok(document) => printed(alloc, &document),
        Err(_) => Err(WriteFault::Memory),
    }
}
