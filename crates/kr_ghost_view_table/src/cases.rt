//! The cases of a table that fail.
ghost use Rattle.std.specs.Prelude.{◌≡◌, IfOk, flat_map, string_bytes};
ghost use Rattle.kr_ghost_view_table.specs.declared.cases.TheConstants.{CASES};
ghost use Rattle.kr_ghost_view_table.specs.Cases.{case_item, cases_words, origin_words};

use crate::covers::requester_text;
use crate::ghosts::mode_text;
use kr_ghost::{FailedCase, cover_code, rule_code};
use kr_model::{Memory, Origin};
use kr_protocol::Protocol;
use std::alloc::Global;

/// What stands before the failed cases.
pub const CASES: &str = "<h2>Failed cases</h2>
<p class=\"note\">The group of the case, what it has to protect, and the modes that it is taken at; then the mode that has to protect it, and the first that this mode lets through.</p>
<ol>
";

/// An item for each failed case, in order; nothing where there are none.
pub fn cases_text<P: Protocol>(
    alloc: Global,
    protocol: &P,
    failed: &[FailedCase],
) -> Result<String, Memory>
    ensures { IfOk result (λ text. string_bytes text ≡ cases_words (P.names protocol.now) failed.now) }
{
    if failed.is_empty() {
        return Ok(String::new(alloc));
    }
    let opening = opening();
    let items = case_items(alloc, protocol, failed)?;
    format!(in alloc; "{opening}{items}</ol>\n")
}

/// What stands before the failed cases.
fn opening() -> &'static str
    ensures { result.now ≡ CASES.now }
{
    CASES
}

/// An item for each of these cases.
fn case_items<P: Protocol>(
    alloc: Global,
    protocol: &P,
    failed: &[FailedCase],
) -> Result<String, Memory>
    ensures { IfOk result (λ text. string_bytes text ≡ flat_map (case_item (P.names protocol.now)) failed.now) }
{
    let mut out = String::new(alloc);
    for case in failed {
        let piece = case_item(alloc, protocol, *case)?;
        out.push_str(piece.as_str())?;
    }
    Ok(out)
}

/// The item of a case.
fn case_item<P: Protocol>(alloc: Global, protocol: &P, case: FailedCase) -> Result<String, Memory>
    ensures { IfOk result (λ text. string_bytes text ≡ case_item (P.names protocol.now) case) }
{
    let (rule, cover) = (rule_code(case.case), cover_code(case.cover));
    let origin = origin_text(alloc, protocol, case.from)?;
    let mode = mode_text(alloc, protocol, case.mode)?;
    let let_in = requester_text(alloc, protocol, case.hole)?;
    format!(in alloc; "<li>{rule} {cover}, from {origin}: {mode} lets through {let_in}</li>\n")
}

/// The modes that a case is taken at.
fn origin_text<P: Protocol>(alloc: Global, protocol: &P, from: Origin) -> Result<String, Memory>
    ensures { IfOk result (λ text. string_bytes text ≡ origin_words (P.names protocol.now) from) }
{
    match from {
        Origin::Own(own) => mode_text(alloc, protocol, own),
        Origin::Conversion { held, asked } => {
            let held = mode_text(alloc, protocol, held)?;
            let asked = mode_text(alloc, protocol, asked)?;
            format!(in alloc; "{held} and {asked}")
        }
        Origin::Insert { own_next, own: _ } => mode_text(alloc, protocol, own_next),
    }
}
