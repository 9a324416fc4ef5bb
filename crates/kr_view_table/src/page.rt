//! The page of a table.
ghost use Rattle.std.specs.Prelude.{◌≡◌, ◌↔◌, ◌++◌, IfOk, IsTrue, string_bytes};
ghost use Rattle.kr_model.specs.Safe.{IsSafe};
ghost use Rattle.kr_explain_core.specs.Explained.{IsExplained};
ghost use Rattle.kr_view_table.specs.Page.{IsTablePage, tables_words};

use crate::causes::{causes, heading};
use crate::covers::covers;
use crate::frame::framed;
use crate::matrices::{Matrix, matrix_text};
use crate::rules::rules_text;
use crate::told::causes_of;
use kr_explain_core::{Explanation, explain, verdict_text};
use kr_model::Memory;
use kr_protocol::Protocol;
use kr_view_scenes::escape;
use std::alloc::Global;

/// The page of a protocol, whose table has this name, and whether the table is safe, accepted or not.
///
/// The page is HTML that stands alone. It has the name as its title and heading, and then the verdict, in the words of
/// `kr explain`: accepted, safe, or rejected exactly where the table is. Below that are its two matrices, with a cell for each
/// two modes; a row for each operation, with what it requests; a row for each mode, with what it protects; and a block for
/// each cause, with its title, and a band for each step of its schedule, if it has one and is among the first 16. An entry
/// that a cause blames has its number. No text of the table is markup. The only error is that a growth was refused.
pub fn table_page<P: Protocol>(
    alloc: Global,
    protocol: &P,
    table: &str,
) -> Result<(String, bool), Memory>
    ensures page { IfOk result (λ told. IsTablePage (P.table protocol.now) (P.names protocol.now) table.now (string_bytes told.0)) }
    ensures safe { IfOk result (λ told. IsTrue told.1 ↔ IsSafe (P.table protocol.now)) }
{
    let explanation = explain(alloc, protocol)?;
    let page = page(alloc, protocol, table, &explanation)?;
    Ok((page, explanation.is_safe()))
}

/// The page of a protocol that this explains.
fn page<P: Protocol>(
    alloc: Global,
    protocol: &P,
    table: &str,
    explanation: &Explanation,
) -> Result<String, Memory>
    requires explained { IsExplained (P.table protocol.now) explanation.now }
    ensures { IfOk result (λ page. IsTablePage (P.table protocol.now) (P.names protocol.now) table.now (string_bytes page)) }
{
    let name = escape(alloc, table)?;
    let verdict = verdict_text(alloc, explanation)?;
    let shown = escape(alloc, verdict.as_str())?;
    let tables = tables(alloc, protocol, explanation)?;
    let blocks = causes(alloc, protocol, causes_of(explanation))?;
    framed(
        alloc,
        name.as_str(),
        explanation.is_safe(),
        shown.as_str(),
        tables.as_str(),
        blocks.as_str(),
    )
}

/// The matrices, the rules, what the modes protect, and what stands before the causes.
fn tables<P: Protocol>(
    alloc: Global,
    protocol: &P,
    explanation: &Explanation,
) -> Result<String, Memory>
    ensures { IfOk result (λ text. string_bytes text ≡ tables_words (P.table protocol.now) (P.names protocol.now) explanation.now) }
{
    let causes = causes_of(explanation);
    let compatible = matrix_text(alloc, protocol, explanation, Matrix::Compatible)?;
    let converted = matrix_text(alloc, protocol, explanation, Matrix::Converted)?;
    let rules = rules_text(alloc, protocol, causes)?;
    let covers = covers(alloc, protocol)?;
    let heading = heading(causes.len());
    format!(in alloc; "{compatible}{converted}{rules}{covers}{heading}")
}
