//! Explanations of tables from bytes.
ghost use Rattle.std.specs.Prelude.{IfOk, IfErr, option_map, string_bytes};
ghost use Rattle.kr_cli.specs.Tables.{table_of, names_of};
ghost use Rattle.kr_cli.specs.GhostTables as ghost;
ghost use Rattle.kr_embed.specs.Explanations.{IsCauseScript, IsExplanation, IsExplanationFor, IsExplanationOf, IsGhostExplanationOf, IsScheduleAt, IsScriptAt, IsScriptFor};
ghost use Rattle.kr_embed.specs.Inputs.{ExplainsTable};

use crate::faults::Fault;
use crate::tables::table_in;
use kr_cli::{AnyGhostTable, AnyTable, Named};
use kr_explain_core::explain;
use kr_ghost_explain::explain_ghosts;
use kr_ghost_explain_text::ghost_text;
use std::alloc::{AllocError, Global};

/// Whether a table without ghosts is safe, and the text that says why.
fn explain_gone(alloc: Global, table: &AnyTable) -> Result<(bool, String), AllocError>
    ensures { IfOk result (λ told. IsExplanationOf (table_of table.now) (names_of table.now) told.0 (string_bytes told.1)) }
{
    let explanation = explain(alloc, table)?;
    let text = explanation.text(alloc, table, "table")?;
    Ok((explanation.is_safe(), text))
}

/// The same of a table with ghosts.
fn explain_leaving(alloc: Global, table: &AnyGhostTable) -> Result<(bool, String), AllocError>
    ensures { IfOk result (λ told. IsGhostExplanationOf (ghost.ghosts_of table.now) (ghost.names_of table.now) told.0 (string_bytes told.1)) }
{
    let explanation = explain_ghosts(alloc, table)?;
    let is_safe = explanation.is_safe();
    let text = ghost_text(alloc, table, &explanation, "table")?;
    Ok((is_safe, text))
}

/// Whether a table is safe, and the text that says why.
fn explain_table(alloc: Global, table: &Named) -> Result<(bool, String), AllocError>
    ensures { IfOk result (λ told. IsExplanationFor table.now told.0 (string_bytes told.1)) }
{
    match table {
        Named::Table(table) => explain_gone(alloc, table),
        Named::Ghosts(table) => explain_leaving(alloc, table),
    }
}

/// Whether the table that the bytes are is safe, accepted or not, and the text that says why, as `kr explain` prints it of a
/// file named `table`.
pub fn explain_bytes(alloc: Global, table: &[u8]) -> Result<(bool, String), Fault>
    ensures explained { IfOk result (λ told. IsExplanation table.now told.0 (string_bytes told.1)) }
    ensures fault { IfErr result (ExplainsTable table.now) }
{
    let table = table_in(alloc, table)?;
    Ok(explain_table(alloc, &table)?)
}

/// The script of the run that is shown of a cause of a table without ghosts.
fn script_of_gone(
    alloc: Global,
    table: &AnyTable,
    number: usize,
) -> Result<Option<String>, AllocError>
    ensures { IfOk result (λ found. IsScriptAt (table_of table.now) number (option_map string_bytes found)) }
{
    let explanation = explain(alloc, table)?;
    explanation.script(alloc, number)
}

/// The script of the schedule that is shown of a table with ghosts.
fn script_of_leaving(
    alloc: Global,
    table: &AnyGhostTable,
    number: usize,
) -> Result<Option<String>, AllocError>
    ensures { IfOk result (λ found. IsScheduleAt (ghost.ghosts_of table.now) number (option_map string_bytes found)) }
{
    let explanation = explain_ghosts(alloc, table)?;
    explanation.script(alloc, number)
}

/// The script that is shown of a cause of a table, or of its schedule.
fn script_of_table(
    alloc: Global,
    table: &Named,
    number: usize,
) -> Result<Option<String>, AllocError>
    ensures { IfOk result (λ found. IsScriptFor table.now number (option_map string_bytes found)) }
{
    match table {
        Named::Table(table) => script_of_gone(alloc, table, number),
        Named::Ghosts(table) => script_of_leaving(alloc, table, number),
    }
}

/// The script of the run that is shown of a cause of the table that the bytes are, as a line of JSON with no line feed. Causes
/// have numbers from 1, as in the text; of a table with ghosts one schedule is shown, of number 1. `None` where there is no such
/// cause, or no run of it is known.
pub fn script_of_cause(alloc: Global, table: &[u8], number: usize) -> Result<Option<String>, Fault>
    ensures script { IfOk result (λ found. IsCauseScript table.now number (option_map string_bytes found)) }
    ensures fault { IfErr result (ExplainsTable table.now) }
{
    let table = table_in(alloc, table)?;
    Ok(script_of_table(alloc, &table, number)?)
}
