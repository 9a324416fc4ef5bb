//! What is explained of a table with ghosts.
ghost use Rattle.std.specs.Prelude.{◌≡◌, IfOk, IfSome, option_map, string_bytes};
ghost use Rattle.kr_ghost_explain.specs.Explained.{is_safe, schedule_at};

use crate::causes::GhostCause;
use crate::schedule::GhostSchedule;
use kr_explain_causes::Mend;
use kr_model::Memory;
use std::alloc::Global;

/// What is said of a table with ghosts, and where cases of it fail, why.
pub enum GhostExplanation {
    /// All cases hold, so many.
    Accepted { cases: usize },
    /// Some case fails, but the table is safe: no schedule reaches the locks of the cases that fail.
    Safe(GhostFailures),
    /// Some case fails, and the table isn't safe.
    Rejected(GhostFailures),
}

/// Which cases of a table with ghosts fail, and why.
#[derive(Drop)]
pub struct GhostFailures {
    /// How many cases the table has.
    pub cases: usize,
    /// How many of them fail.
    pub failed: usize,
    /// What is to blame, with each failed case in exactly one of them, and what mends it.
    pub causes: Vec<MendedCause>,
    /// A schedule that goes wrong, if one was found. None is sought where the table is safe.
    pub schedule: Option<GhostSchedule>,
}

/// A cause, with what mends it.
#[derive(Drop)]
pub struct MendedCause {
    pub cause: GhostCause,
    /// The changes that mend it, of those that were tried; or `None` where none was tried, since so many causes come before it.
    pub mend: Option<Mend>,
}

impl GhostExplanation {
    /// Whether the table is safe, accepted or not.
    pub fn is_safe(&self) -> bool
        ensures { result ≡ is_safe self.now }
    {
        match self {
            GhostExplanation::Accepted { .. } => true,
            GhostExplanation::Safe(_) => true,
            GhostExplanation::Rejected(_) => false,
        }
    }

    /// The script of the schedule of this number as a line of JSON with no line feed; or `None` where there is no such schedule: a
    /// table that isn't safe has one at most, of number 1. The only fault is that a growth was refused.
    pub fn script(&self, alloc: Global, number: usize) -> Result<Option<String>, Memory>
        ensures { IfOk result (λ line. option_map string_bytes line ≡ option_map (λ s. string_bytes s.line) (schedule_at number self.now)) }
    {
        let GhostExplanation::Rejected(failures) = self else {
            return Ok(None);
        };
        if number != 1 {
            return Ok(None);
        }
        match &failures.schedule {
            Some(schedule) => Ok(Some(String::from_str(alloc, schedule.line.as_str())?)),
            None => Ok(None),
        }
    }
}

/// By hand, so that crates above call it by its contract and don't prove a destructor of their own.
impl Drop for GhostExplanation {
    fn drop(self) {
        match self {
            GhostExplanation::Accepted { cases: _ } => {}
            GhostExplanation::Safe(_failures) => {}
            GhostExplanation::Rejected(_failures) => {}
        }
    }
}
