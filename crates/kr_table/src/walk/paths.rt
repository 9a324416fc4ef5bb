//! Faults at a path. Each is reported, or `Memory` where its path can't be made.
ghost use Rattle.std.specs.Prelude.{◌≡◌, ◌++◌, ◌∷◌, [], codes};
ghost use Rattle.kr_table.specs.Faults as fault;
ghost use Rattle.kr_table.specs.Faults.{Tells};
ghost use Rattle.kr_table.specs.DocumentFaults as spec;

use crate::faults::TableFault;
use std::alloc::Global;

/// The fault of a member of the document.
pub fn field(alloc: Global, name: &str) -> TableFault
    ensures { Tells result (fault.field name.now ∷ []) }
{
    match String::from_str(alloc, name) {
        Ok(name) => TableFault::Field(name),
        Err(_) => TableFault::Memory,
    }
}

/// The fault of the entry of a mode in `compatible`.
pub fn compatible_entry(alloc: Global, name: &str) -> TableFault
    ensures { Tells result (fault.compatible (codes "compatible." ++ name.now) ∷ []) }
{
    match format!(in alloc; "compatible.{name}") {
        Ok(path) => TableFault::Compatible(path),
        Err(_) => TableFault::Memory,
    }
}

/// The fault of the entry of a held mode in `convert`.
pub fn convert_entry(alloc: Global, held: &str) -> TableFault
    ensures { Tells result (fault.convert (codes "convert." ++ held.now) ∷ []) }
{
    match format!(in alloc; "convert.{held}") {
        Ok(path) => TableFault::Convert(path),
        Err(_) => TableFault::Memory,
    }
}

/// The fault of a pair of a held mode and a requested one.
pub fn convert_pair(alloc: Global, held: &str, requested: &str) -> TableFault
    ensures { Tells result (fault.convert (spec.pair_path held.now requested.now) ∷ []) }
{
    match format!(in alloc; "convert.{held}.{requested}") {
        Ok(path) => TableFault::Convert(path),
        Err(_) => TableFault::Memory,
    }
}

/// The fault of a row.
pub fn rule_row(alloc: Global, row: &str) -> TableFault
    ensures { Tells result (fault.rule (codes "rules." ++ row.now) ∷ []) }
{
    match format!(in alloc; "rules.{row}") {
        Ok(path) => TableFault::Rule(path),
        Err(_) => TableFault::Memory,
    }
}

/// The fault of a side of a row.
pub fn rule_side(alloc: Global, row: &str, side: &str) -> TableFault
    ensures { Tells result (fault.rule (codes "rules." ++ row.now ++ codes "." ++ side.now) ∷ []) }
{
    match format!(in alloc; "rules.{row}.{side}") {
        Ok(path) => TableFault::Rule(path),
        Err(_) => TableFault::Memory,
    }
}

/// The fault of a clause, by its index from 0.
pub fn rule_clause(alloc: Global, row: &str, side: &str, i: usize) -> TableFault
    ensures { Tells result (fault.rule (spec.clause_path row.now side.now i) ∷ []) }
{
    match format!(in alloc; "rules.{row}.{side}.{i}") {
        Ok(path) => TableFault::Rule(path),
        Err(_) => TableFault::Memory,
    }
}

/// The fault of an `own` that a clause may not have.
pub fn own_clause(alloc: Global, row: &str, side: &str, i: usize) -> TableFault
    ensures { Tells result (fault.own_not_allowed (spec.clause_path row.now side.now i) ∷ []) }
{
    match format!(in alloc; "rules.{row}.{side}.{i}") {
        Ok(path) => TableFault::OwnNotAllowed(path),
        Err(_) => TableFault::Memory,
    }
}
