//! Looking for a script with so many runs at most.
ghost use Rattle.std.specs.Prelude.{◌≡◌, ◌≤◌, IfOk, IfSome, vec_len};
ghost use Rattle.kr_explain_runs.specs.declared.fit.Fit.TheVariants as fit;
ghost use Rattle.kr_theorem.specs.Wrong.{GoesWrong};
ghost use Rattle.kr_explain_runs.specs.Marks.{AreMarked, IsShown};

use crate::closure::Closure;
use crate::counterexample::Counterexample;
use crate::finder::Finder;
use crate::table::Table;
use kr_cases::Memory;
use kr_model::{FailedCase, Row, Side};
use kr_protocol::Protocol;
use std::alloc::Global;

/// So many ways to the case are tried again, where no fresh intruder comes through after any.
const WAYS_AGAIN: usize = 6;

/// What was found for a failed case.
#[derive(Drop)]
pub struct Sought {
    /// The first script that goes wrong, or `None` where none is known.
    pub script: Option<Counterexample>,
    /// How many scripts were run.
    pub runs: usize,
}

impl Closure {
    /// How many states there are: at most 20,000. A search for one case looks at each of them.
    pub fn states(&self) -> usize
        ensures { result ≡ vec_len self.now.reached }
    {
        self.reached.len()
    }

    /// What `find` answers where it may run `most_runs` scripts and no more, with the number of those that it ran. The only
    /// fault is that a growth was refused.
    pub fn find_within<P: Protocol>(
        &self,
        alloc: Global,
        protocol: &P,
        case: &FailedCase,
        prefer: Option<(Row, Side)>,
        most_runs: usize,
    ) -> Result<Sought, Memory>
        ensures wrong { IfOk result (λ sought. IfSome sought.script (λ c. GoesWrong (P.table protocol.now) c.opening.items c.events.items)) }
        ensures marked { IfOk result (λ sought. IfSome sought.script (AreMarked (P.table protocol.now) case.now fit.Case)) }
        ensures few { IfOk result (λ sought. sought.runs ≤ most_runs) }
    {
        let finder = Finder {
            alloc,
            table: Table { protocol },
            closure: self,
            case,
        };
        let mut runs_left = most_runs;
        let script = finder.first(prefer, &mut runs_left)?;
        Ok(Sought {
            script,
            runs: most_runs.saturating_sub(runs_left),
        })
    }
}

impl<P: Protocol> Finder<'_, P> {
    /// The first script that goes wrong, in the order of trial.
    fn first(
        &self,
        prefer: Option<(Row, Side)>,
        runs_left: &mut usize,
    ) -> Result<Option<Counterexample>, Memory>
        ensures { IfOk result (λ found. IfSome found (IsShown (P.table self.now.table.protocol.now) self.now.case.now fit.Case)) }
    {
        let ways = self.ways(*runs_left)?;
        let found = self.fresh(&ways, prefer, runs_left)?;
        if found.is_some() {
            return Ok(found);
        }
        let again = &ways[..ways.len().min(WAYS_AGAIN)];
        let found = self.going_on(again, runs_left)?;
        if found.is_some() {
            return Ok(found);
        }
        self.readied(again, runs_left)
    }
}
