//! Schedules that are shown, each with its script as a line of JSON.
ghost use Rattle.std.specs.Prelude.{string_bytes};
ghost use Rattle.kr_explain_core.specs.Lines.{IsLineOf};

use kr_explain_runs::Counterexample;
use kr_model::FailedCase;

/// A run that goes wrong, and the case that it was made from.
#[derive(Drop)]
pub struct Run {
    /// The case that it was made from.
    pub case: FailedCase,
    /// Whether the holder comes to the case's mode as the case says; if not, it comes to that mode in another way.
    pub is_as_case: bool,
    /// Its opening map and its steps, and how it was put together.
    pub script: Counterexample,
    /// Its script as a line of JSON, with no line feed.
    pub line: String,
    ghost reads: { IsLineOf script.opening.items script.events.items (string_bytes line) },
}
