//! What is said of a whole table.
ghost use Rattle.std.specs.Prelude.{◌≡◌, IfOk, string_bytes};
ghost use Rattle.kr_explain_text.specs.Whole.{accepted_words, causes_words, command_words, rejected_words};

use crate::lists::joined;
use kr_cases::Memory;
use std::alloc::Global;

/// The words that the text of a table begins with of which all cases hold, so many. The only fault is that a growth was refused.
pub fn accepted_words(alloc: Global, cases: usize) -> Result<String, Memory>
    ensures { IfOk result (λ text. string_bytes text ≡ accepted_words cases) }
{
    format!(in alloc;
        "accepted: all {cases} cases hold. Every run under this table is serializable in commit order."
    )
}

/// The words that the text of a table begins with that isn't safe, of which so many cases fail, and for which a run is known
/// or isn't. The only fault is that a growth was refused.
pub fn rejected_words(
    alloc: Global,
    has_run: bool,
    failed: usize,
    cases: usize,
) -> Result<String, Memory>
    ensures { IfOk result (λ text. string_bytes text ≡ rejected_words has_run failed cases) }
{
    if has_run {
        format!(in alloc; "rejected: {failed} of {cases} cases fail. ")
    } else {
        format!(in alloc; "not known to be safe: {failed} of {cases} cases fail. ")
    }
}

/// How many causes there are, as a sentence: up to nine in words. The only fault is that a growth was refused.
pub fn causes_words(alloc: Global, count: usize) -> Result<String, Memory>
    ensures { IfOk result (λ text. string_bytes text ≡ causes_words count) }
{
    let words = match count {
        1 => "One cause.",
        2 => "Two causes.",
        3 => "Three causes.",
        4 => "Four causes.",
        5 => "Five causes.",
        6 => "Six causes.",
        7 => "Seven causes.",
        8 => "Eight causes.",
        9 => "Nine causes.",
        _ => return format!(in alloc; "{count} causes."),
    };
    String::from_str(alloc, words)
}

/// The commands that run the schedule of a cause, where `word` names the table, behind an empty line.
pub fn command_text(alloc: Global, word: &str) -> Result<String, Memory>
    ensures { IfOk result (λ text. string_bytes text ≡ command_words word.now) }
{
    joined(
        alloc,
        &[
            "\n\nTo replay the schedule of cause N:\n    kr explain ",
            word,
            " --script N >schedule.json\n    kr run ",
            word,
            " schedule.json",
        ],
    )
}
