//! What the text of an explanation begins with: the verdict, and whether it is exact.
ghost use Rattle.std.specs.Prelude.{◌≡◌, IfOk, string_bytes};
ghost use Rattle.kr_explain_core.specs.declared.explanation.Explanation.TheVariants as told;
ghost use Rattle.kr_explain_core.specs.Told.{exact_words, safe_words, shown_words, verdict_words};

use crate::explanation::{Explanation, Failures};
use kr_cases::Memory;
use kr_explain_text::{accepted_words, causes_words, rejected_words};
use std::alloc::Global;

/// The words that the text begins with. The only fault is that a growth was refused.
pub fn verdict_text(alloc: Global, explanation: &Explanation) -> Result<String, Memory>
    ensures { IfOk result (λ text. string_bytes text ≡ verdict_words explanation.now) }
{
    match explanation {
        Explanation::Accepted { cases } => accepted_words(alloc, *cases),
        Explanation::Safe(failures) => safe_text(alloc, failures),
        Explanation::Rejected(failures) => rejected_text(alloc, failures),
    }
}

/// The same of a table that is safe, though cases fail.
fn safe_text(alloc: Global, failures: &Failures) -> Result<String, Memory>
    ensures { IfOk result (λ text. string_bytes text ≡ verdict_words (told.Safe failures.now)) }
{
    let words = safe_words(alloc, failures.failed, failures.cases)?;
    let exact = exact_words(failures.is_ordered);
    format!(in alloc; "{words}{exact}")
}

/// The same of a table that isn't safe.
fn rejected_text(alloc: Global, failures: &Failures) -> Result<String, Memory>
    ensures { IfOk result (λ text. string_bytes text ≡ verdict_words (told.Rejected failures.now)) }
{
    let has_run = failures.has_run();
    let words = rejected_words(alloc, has_run, failures.failed, failures.cases)?;
    let count = causes_words(alloc, failures.causes.len())?;
    let shown = shown_words(has_run, failures.is_ordered);
    format!(in alloc; "{words}{count}{shown}")
}

/// The words that the text of a table begins with that is safe, though so many cases fail.
fn safe_words(alloc: Global, failed: usize, cases: usize) -> Result<String, Memory>
    ensures { IfOk result (λ text. string_bytes text ≡ safe_words failed cases) }
{
    format!(in alloc;
        "safe: {failed} of {cases} cases fail, but no schedule reaches their locks. Every run is serializable in commit order."
    )
}

/// What is said below the verdict where a table is ordered: that the verdict is exact.
fn exact_words(is_ordered: bool) -> &'static str
    ensures { result.now ≡ exact_words is_ordered }
{
    if is_ordered {
        "\nThis table is ordered, so the verdict is exact: safe if and only if every run is serializable in commit order."
    } else {
        ""
    }
}

/// What is said below the verdict of a table that isn't safe, where a run is known or isn't: that the verdict is exact, or
/// that the run shows it.
fn shown_words(has_run: bool, is_ordered: bool) -> &'static str
    ensures { result.now ≡ shown_words has_run is_ordered }
{
    if !has_run {
        ""
    } else if is_ordered {
        exact_words(true)
    } else {
        "\nThis table is not ordered: a schedule below shows that some run is not serializable in commit order."
    }
}
