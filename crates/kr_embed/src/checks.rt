//! Checks and decisions of tables from bytes.
ghost use Rattle.std.specs.Prelude.{◌≡◌, ◌↔◌, IfOk, IfErr, IsTrue, string_bytes};
ghost use Rattle.kr_model.specs.Covers.{IsCovered};
ghost use Rattle.kr_model.specs.Safe.{IsSafe};
ghost use Rattle.kr_ghost.specs.Covers.{IsCoveredGhost};
ghost use Rattle.kr_ghost.specs.Safe.{IsSafeGhost};
ghost use Rattle.kr_kinds.specs.Kinds.{IsCoveredIndex, IsSafeIndex};
ghost use Rattle.kr_cli.specs.Tables.{table_of};
ghost use Rattle.kr_cli.specs.GhostTables.{ghosts_of};
ghost use Rattle.kr_embed.specs.Inputs.{ExplainsTable};
ghost use Rattle.kr_embed.specs.Reports.{IsChecked, IsDecided, report_of_check, report_of_gone, report_of_leaving};
ghost use Rattle.kr_embed.specs.Tables.{index_of};

use crate::faults::Fault;
use crate::tables::table_in;
use kr_cases::{Rejected, WhyRejected, check};
use kr_cli::{AnyGhostTable, AnyTable, Named};
use kr_decide::{Decision, decide};
use kr_ghost_check::failed_cases;
use kr_ghost_decide::is_safe_ghost;
use kr_report::{report_check, report_ghost_check};
use std::alloc::{AllocError, Global};

/// Whether a table without ghosts is accepted, and the report of its check.
fn check_gone(alloc: Global, table: AnyTable) -> Result<(bool, String), AllocError>
    ensures accepted { IfOk result (λ told. IsTrue told.0 ↔ IsCovered (table_of table)) }
    ensures text { IfOk result (λ told. string_bytes told.1 ≡ report_of_gone table) }
{
    match check(alloc, table) {
        Ok(checked) => {
            let text = report_check(alloc, checked.protocol(), &[])?;
            Ok((true, text))
        }
        Err(Rejected { protocol, cause }) => match cause {
            WhyRejected::Failed(failed) => {
                let text = report_check(alloc, &protocol, failed.as_slice())?;
                Ok((failed.is_empty(), text))
            }
            WhyRejected::Memory => Err(AllocError),
        },
    }
}

/// The same of a table with ghosts.
fn check_leaving(alloc: Global, table: &AnyGhostTable) -> Result<(bool, String), AllocError>
    ensures accepted { IfOk result (λ told. IsTrue told.0 ↔ IsCoveredGhost (ghosts_of table.now)) }
    ensures text { IfOk result (λ told. string_bytes told.1 ≡ report_of_leaving table.now) }
{
    let failed = failed_cases(alloc, table)?;
    let is_accepted = failed.is_empty();
    let text = report_ghost_check(alloc, table, failed.as_slice())?;
    Ok((is_accepted, text))
}

/// Whether a table is accepted, and the report of its check.
fn check_table(alloc: Global, table: Named) -> Result<(bool, String), AllocError>
    ensures accepted { IfOk result (λ told. IsTrue told.0 ↔ IsCoveredIndex (index_of table)) }
    ensures text { IfOk result (λ told. string_bytes told.1 ≡ report_of_check table) }
{
    match table {
        Named::Table(table) => check_gone(alloc, table),
        Named::Ghosts(table) => check_leaving(alloc, &table),
    }
}

/// Whether the table that the bytes are is accepted, and the report of its check.
pub fn check_bytes(alloc: Global, table: &[u8]) -> Result<(bool, String), Fault>
    ensures checked { IfOk result (λ told. IsChecked table.now told.0 (string_bytes told.1)) }
    ensures fault { IfErr result (ExplainsTable table.now) }
{
    let table = table_in(alloc, table)?;
    Ok(check_table(alloc, table)?)
}

/// Whether a table without ghosts is safe.
fn decide_gone(alloc: Global, table: &AnyTable) -> Result<bool, AllocError>
    ensures { IfOk result (λ safe. IsTrue safe ↔ IsSafe (table_of table.now)) }
{
    match decide(alloc, table)? {
        Decision::Safe => Ok(true),
        Decision::Unsafe(_) => Ok(false),
    }
}

/// The same of a table with ghosts.
fn decide_leaving(alloc: Global, table: &AnyGhostTable) -> Result<bool, AllocError>
    ensures { IfOk result (λ safe. IsTrue safe ↔ IsSafeGhost (ghosts_of table.now)) }
{
    is_safe_ghost(alloc, table)
}

/// Whether a table is safe.
fn decide_table(alloc: Global, table: &Named) -> Result<bool, AllocError>
    ensures { IfOk result (λ safe. IsTrue safe ↔ IsSafeIndex (index_of table.now)) }
{
    match table {
        Named::Table(table) => decide_gone(alloc, table),
        Named::Ghosts(table) => decide_leaving(alloc, table),
    }
}

/// Whether the table that the bytes are is safe: every run under it is serializable in commit order.
pub fn decide_bytes(alloc: Global, table: &[u8]) -> Result<bool, Fault>
    ensures decided { IfOk result (IsDecided table.now) }
    ensures fault { IfErr result (ExplainsTable table.now) }
{
    let table = table_in(alloc, table)?;
    Ok(decide_table(alloc, &table)?)
}
