//! The scripts of the schedules that are shown.
ghost use Rattle.std.specs.Prelude.{◌≡◌, ◌≢◌, All, IfOk, IfSome, IsTrue, option_map, string_bytes};
ghost use Rattle.kr_explain_core.specs.Explained.{run_at};
ghost use Rattle.kr_explain_core.specs.Telling.{IsRunWith};
ghost use Rattle.kr_explain_core.specs.Told.{IsScriptOf};

use crate::explanation::Explanation;
use crate::run::Run;
use kr_cases::Memory;
use kr_explain_runs::Counterexample;
use kr_model::FailedCase;
use kr_script::{MAX_ELEMENTS, write_script};
use std::alloc::Global;

impl Explanation {
    /// The script of the run of the cause of this number, from 1, as a line of JSON with no line feed; or `None` where there
    /// is no such cause, or it has no run. The only fault is that a growth was refused.
    pub fn script(&self, alloc: Global, number: usize) -> Result<Option<String>, Memory>
        ensures { IfOk result (λ line. IsScriptOf (run_at number self.now) (option_map string_bytes line)) }
    {
        let Explanation::Rejected(failures) = self else {
            return Ok(None);
        };
        if number == 0 {
            return Ok(None);
        }
        let Some(explained) = failures.causes.get(number - 1) else {
            return Ok(None);
        };
        match &explained.run {
            Some(run) => Ok(Some(String::from_str(alloc, run.line.as_str())?)),
            None => Ok(None),
        }
    }
}

/// Whether none of the bytes is a line feed.
fn has_no_line_feed(bytes: &[u8]) -> bool
    ensures { IsTrue result → All (λ b. b ≢ 10) bytes.now }
{
    bytes.iter().all(|byte| *byte != b'\n')
}

/// The run of a script that was made from a case, if it is no longer than scripts may be, and its line has no line feed.
pub fn run_of(
    alloc: Global,
    case: FailedCase,
    is_as_case: bool,
    script: Counterexample,
) -> Result<Option<Run>, Memory>
    ensures { IfOk result (λ found. IfSome found (IsRunWith case is_as_case script)) }
{
    if script.opening.len() > MAX_ELEMENTS || script.events.len() > MAX_ELEMENTS {
        return Ok(None);
    }
    let line = write_script(alloc, &script.opening, &script.events)?;
    if has_no_line_feed(line.as_bytes()) {
        Ok(Some(Run {
            case,
            is_as_case,
            script,
            line,
        }))
    } else {
        Ok(None)
    }
}
