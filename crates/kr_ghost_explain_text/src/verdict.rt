//! What the text begins with: the verdict.
ghost use Rattle.std.specs.Prelude.{◌≡◌, IfOk, string_bytes};
ghost use Rattle.kr_ghost_explain_text.specs.Told.{safe_words, verdict_words};
ghost use Rattle.kr_ghost_explain.specs.declared.explanation.GhostExplanation.TheVariants as told;

use kr_explain_text::{accepted_words, causes_words, rejected_words};
use kr_ghost_explain::{GhostExplanation, GhostFailures};
use kr_model::Memory;
use std::alloc::Global;

/// The words that the text begins with.
pub(crate) fn verdict_text(alloc: Global, explanation: &GhostExplanation) -> Result<String, Memory>
    ensures { IfOk result (λ text. string_bytes text ≡ verdict_words explanation.now) }
{
    match explanation {
        GhostExplanation::Accepted { cases } => accepted_words(alloc, *cases),
        GhostExplanation::Safe(failures) => safe_words(alloc, failures.failed, failures.cases),
        GhostExplanation::Rejected(failures) => rejected_text(alloc, failures),
    }
}

/// The same of a table that isn't safe.
fn rejected_text(alloc: Global, failures: &GhostFailures) -> Result<String, Memory>
    ensures { IfOk result (λ text. string_bytes text ≡ verdict_words (told.Rejected failures.now)) }
{
    let has_schedule = failures.schedule.is_some();
    let words = rejected_words(alloc, has_schedule, failures.failed, failures.cases)?;
    let count = causes_words(alloc, failures.causes.len())?;
    format!(in alloc; "{words}{count}")
}

/// The words for a table that is safe, though so many cases fail.
fn safe_words(alloc: Global, failed: usize, cases: usize) -> Result<String, Memory>
    ensures { IfOk result (λ text. string_bytes text ≡ safe_words failed cases) }
{
    format!(in alloc;
        "safe: {failed} of {cases} cases fail, but no schedule reaches their locks. Every run under this table is serializable in commit order."
    )
}
