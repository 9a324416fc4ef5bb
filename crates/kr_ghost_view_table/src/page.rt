//! The page of a table.
ghost use Rattle.std.specs.Prelude.{◌≡◌, ◌↔◌, IfOk, IsTrue, string_bytes};
ghost use Rattle.kr_ghost.specs.Covers.{failed_cases};
ghost use Rattle.kr_ghost.specs.Safe.{IsSafeGhost};
ghost use Rattle.kr_explain_core.specs.declared.explanation.Explanation.TheVariants as explanation;
ghost use Rattle.kr_view_table.specs.Matrices.{matrix_words};
ghost use Rattle.kr_ghost_view_table.specs.Page.{IsGhostTablePage, tables_words};

use crate::cases::cases_text;
use crate::covers::covers;
use crate::ghosts::ghosts;
use crate::verdict::verdict_text;
use kr_explain_core::Explanation;
use kr_ghost::FailedCase;
use kr_ghost_check::{cases, failed_cases};
use kr_ghost_decide::is_safe_ghost;
use kr_ghost_protocol::GhostProtocol;
use kr_model::Memory;
use kr_view_scenes::escape;
use kr_view_table::{Matrix, framed, matrix_text, rules_text};
use std::alloc::Global;

/// The page of a protocol with ghosts, whose table has this name, and whether the table is safe, accepted or not.
///
/// The page is HTML that stands alone. It has the name as its title and heading, and then the verdict: accepted, safe, or rejected.
/// Below that are its two matrices and its rules, as on the page of a table without ghosts; what an insert of a ghost requests, and
/// what becomes of locks at a purge; a row for each mode, with what it protects; and an item for each case that fails. No text of the
/// table is markup. The only error is that a growth was refused.
pub fn ghost_table_page<P: GhostProtocol>(
    alloc: Global,
    protocol: &P,
    table: &str,
) -> Result<(String, bool), Memory>
    ensures page { IfOk result (λ told. IsGhostTablePage (P.ghosts protocol.now) (P.names protocol.now) table.now (string_bytes told.0) told.1) }
    ensures safe { IfOk result (λ told. IsTrue told.1 ↔ IsSafeGhost (P.ghosts protocol.now)) }
{
    let failed = failed_cases(alloc, protocol)?;
    let is_safe = is_safe_ghost(alloc, protocol)?;
    let page = page(alloc, protocol, table, &failed, is_safe)?;
    Ok((page, is_safe))
}

/// The page of a protocol, of which these cases fail.
fn page<P: GhostProtocol>(
    alloc: Global,
    protocol: &P,
    table: &str,
    failed: &[FailedCase],
    is_safe: bool,
) -> Result<String, Memory>
    requires failed { failed.now ≡ failed_cases (P.ghosts protocol.now) }
    requires safe { IsTrue is_safe ↔ IsSafeGhost (P.ghosts protocol.now) }
    ensures { IfOk result (λ page. IsGhostTablePage (P.ghosts protocol.now) (P.names protocol.now) table.now (string_bytes page) is_safe) }
{
    let name = escape(alloc, table)?;
    let count = cases(protocol);
    let verdict = verdict_text(alloc, is_safe, failed.len(), count)?;
    let shown = escape(alloc, verdict.as_str())?;
    let tables = tables(alloc, protocol)?;
    let items = cases_text(alloc, protocol, failed)?;
    framed(
        alloc,
        name.as_str(),
        is_safe,
        shown.as_str(),
        tables.as_str(),
        items.as_str(),
    )
}

/// The matrices, the rules, what is done with ghosts, and what the modes protect.
fn tables<P: GhostProtocol>(alloc: Global, protocol: &P) -> Result<String, Memory>
    ensures { IfOk result (λ text. string_bytes text ≡ tables_words (P.ghosts protocol.now) (P.names protocol.now)) }
{
    let compatible = matrix(alloc, protocol, Matrix::Compatible)?;
    let converted = matrix(alloc, protocol, Matrix::Converted)?;
    let rules = rules_text(alloc, protocol, &[])?;
    let ghosts = ghosts(alloc, protocol)?;
    let covers = covers(alloc, protocol)?;
    format!(in alloc; "{compatible}{converted}{rules}{ghosts}{covers}")
}

/// A matrix, without numbers of causes: on this page no entry is blamed.
fn matrix<P: GhostProtocol>(alloc: Global, protocol: &P, which: Matrix) -> Result<String, Memory>
    ensures { IfOk result (λ text. string_bytes text ≡ matrix_words (P.table protocol.now) (P.names protocol.now) (explanation.Accepted 0) which) }
{
    let none = Explanation::Accepted { cases: 0 };
    matrix_text(alloc, protocol, &none, which)
}
