//! What is explained of a table.
ghost use Rattle.std.specs.Prelude.{◌≡◌};
ghost use Rattle.kr_explain_core.specs.Explained.{has_run, is_safe};

use crate::harmless::Harmless;
use crate::run::Run;
use kr_decide::Survey;
use kr_explain_causes::{Cause, Mend};

/// What is said of a table, and where cases of it fail, why.
pub enum Explanation {
    /// All cases hold, so many.
    Accepted { cases: usize },
    /// Some case fails, but the table is safe: no schedule reaches the locks of the cases that fail. Each cause is harmless.
    Safe(Failures),
    /// Some case fails, and the table isn't safe.
    Rejected(Failures),
}

impl Explanation {
    /// Whether the table is safe, accepted or not.
    pub fn is_safe(&self) -> bool
        ensures { result ≡ is_safe self.now }
    {
        match self {
            Explanation::Accepted { .. } => true,
            Explanation::Safe(_) => true,
            Explanation::Rejected(_) => false,
        }
    }
}

/// Which cases of a table fail, and why.
#[derive(Drop)]
pub struct Failures {
    /// How many cases the table has.
    pub cases: usize,
    /// How many of them fail.
    pub failed: usize,
    /// Whether the table is ordered: then it is safe if and only if every run under it is serializable in commit order.
    pub is_ordered: bool,
    /// What schedules reach under the table.
    pub survey: Survey,
    /// What is to blame, with each failed case in exactly one of them.
    pub causes: Vec<Explained>,
}

impl Failures {
    /// Whether some cause has a run that goes wrong.
    pub fn has_run(&self) -> bool
        ensures { result ≡ has_run self.now }
    {
        self.causes.iter().any(|explained| explained.run.is_some())
    }
}

/// A cause, with what is known of it.
#[derive(Drop)]
pub struct Explained {
    pub cause: Cause,
    /// Why no schedule goes wrong by it; or `None` where one reaches a lock of it that doesn't block what it has to keep out.
    pub harmless: Option<Harmless>,
    /// The shortest of the runs that the cause's cases gave; for a void place the shortest through that place, if there is
    /// one. None is sought for a cause that is harmless.
    pub run: Option<Run>,
    /// How many of the cases that were tried gave one.
    pub runs: usize,
    /// How many of its cases were tried: all of them, unless the effort didn't last or the cause is harmless.
    pub tried: usize,
    /// Where no run is known, whether one transaction comes to the modes of a case that was tried.
    pub is_reached: bool,
    /// The changes that mend it, of those that were tried; or `None` where none was tried, since so many causes come before
    /// it.
    pub mend: Option<Mend>,
}

/// By hand, so that crates above call it by its contract and don't prove a destructor of their own.
impl Drop for Explanation {
    fn drop(self) {
        match self {
            Explanation::Accepted { cases: _ } => {}
            Explanation::Safe(_failures) => {}
            Explanation::Rejected(_failures) => {}
        }
    }
}
