//! How much is tried.
ghost use Rattle.std.specs.Prelude.{◌≡◌, ◌≤◌, ◌-◌, IfSome};

/// The searches for all cases of a table look at so many states at most.
const MOST_STATES: usize = 1_000_000;

/// The searches for all cases of a table run so many scripts at most.
const MOST_RUNS: usize = 4_000;

/// A search for one case runs so many scripts at most.
const MOST_RUNS_OF_CASE: usize = 100;

/// Scripts by scenes are sought for so many cases of a cause at most.
pub const MOST_STAGED: usize = 100;

/// Of these, so many are run for one case at most.
pub const MOST_STAGED_RUNS: usize = 10;

/// What may still be tried for the cases of a cause.
#[derive(Clone, Copy, PartialEq, Eq)]
pub struct Effort {
    /// How many states may be looked at.
    states: usize,
    /// How many scripts may be run.
    runs: usize,
}

impl Effort {
    /// What may be tried for each of so many causes of a table: each has an even part.
    pub fn of_each(causes: usize) -> Effort {
        Effort {
            states: MOST_STATES.checked_div(causes).unwrap_or(0),
            runs: MOST_RUNS.checked_div(causes).unwrap_or(0),
        }
    }

    /// How many scripts a search may run that looks at so many states, or `None` where it may not begin.
    pub fn for_case(self, states: usize) -> Option<usize>
        ensures { IfSome result (λ most_runs. states ≤ self.states) }
    {
        if self.states < states || self.runs == 0 {
            None
        } else {
            Some(self.runs.min(MOST_RUNS_OF_CASE))
        }
    }

    /// What is left after a search.
    pub fn after(self, states: usize, runs: usize) -> Effort
        ensures { result.states ≡ self.states - states }
    {
        Effort {
            states: self.states.saturating_sub(states),
            runs: self.runs.saturating_sub(runs),
        }
    }
}
