//! The order in which scripts are tried.
ghost use Rattle.std.specs.Prelude.{IfOk, IfSome};
ghost use Rattle.kr_explain_runs.specs.declared.fit.Fit.TheVariants as fit;
ghost use Rattle.kr_theorem.specs.Wrong.{GoesWrong};
ghost use Rattle.kr_explain_runs.specs.Marks.{AreMarked, IsShown};

use crate::closure::Closure;
use crate::counterexample::Counterexample;
use crate::entrances::Entrance;
use crate::finder::{Finder, Way};
use crate::moves::{Move, Moved, moved_by, moves};
use crate::state::State;
use kr_cases::Memory;
use kr_model::{Cover, FailedCase, Op, Row, Side};
use kr_protocol::Protocol;
use std::alloc::Global;

/// So many scripts are run for one case at most.
const MOST_RUNS: usize = 400;

impl Closure {
    /// The first script that goes wrong made from a failed case of the closure's table, those through the entrance `prefer`
    /// tried first; or `None` where none is known, which does not say that there is none. At most 400 scripts are run. The
    /// only fault is that a growth was refused.
    ///
    /// First a fresh intruder comes after each way to the case; where none gets in after any, the holder takes one step
    /// more; and where that lets none in either, the intruder has modes of its own.
    pub fn find<P: Protocol>(
        &self,
        alloc: Global,
        protocol: &P,
        case: &FailedCase,
        prefer: Option<(Row, Side)>,
    ) -> Result<Option<Counterexample>, Memory>
        ensures wrong { IfOk result (λ found. IfSome found (λ c. GoesWrong (P.table protocol.now) c.opening.items c.events.items)) }
        ensures marked { IfOk result (λ found. IfSome found (AreMarked (P.table protocol.now) case.now fit.Case)) }
    {
        let sought = self.find_within(alloc, protocol, case, prefer, MOST_RUNS)?;
        Ok(sought.script)
    }
}

impl<P: Protocol> Finder<'_, P> {
    /// A fresh intruder after each way, the preferred entrance first.
    pub(crate) fn fresh(
        &self,
        ways: &[Way],
        prefer: Option<(Row, Side)>,
        runs_left: &mut usize,
    ) -> Result<Option<Counterexample>, Memory>
        ensures { IfOk result (λ found. IfSome found (IsShown (P.table self.now.table.protocol.now) self.now.case.now fit.Case)) }
    {
        for way in ways {
            let draft = self.draft(*way)?;
            let found = self.first_ended(&draft, self.case.mode, prefer, runs_left)?;
            if found.is_some() {
                return Ok(found);
            }
        }
        Ok(None)
    }

    /// The holder takes one step more after each way, and then a fresh intruder comes.
    pub(crate) fn going_on(
        &self,
        ways: &[Way],
        runs_left: &mut usize,
    ) -> Result<Option<Counterexample>, Memory>
        ensures { IfOk result (λ found. IfSome found (IsShown (P.table self.now.table.protocol.now) self.now.case.now fit.Case)) }
    {
        let mut found = Vec::new(self.alloc);
        for way in ways {
            if let Some(state) = moved_by(&self.table, way.end.state, way.op, &mut found)? {
                moves(&self.table, state, &mut found)?;
                let shown = self.gone_on(*way, state, &found, runs_left)?;
                if shown.is_some() {
                    return Ok(shown);
                }
            }
        }
        Ok(None)
    }

    /// The holder takes one of these moves after a way that led to a state.
    fn gone_on(
        &self,
        way: Way,
        state: State,
        moves: &[Moved],
        runs_left: &mut usize,
    ) -> Result<Option<Counterexample>, Memory>
        ensures { IfOk result (λ found. IfSome found (IsShown (P.table self.now.table.protocol.now) self.now.case.now fit.Case)) }
    {
        for moved in moves {
            if let Some(op) = self.weakens(state, *moved) {
                let mut draft = self.draft(way)?;
                draft.go_on(op)?;
                let found = self.first_ended(&draft, moved.to.on_a, None, runs_left)?;
                if found.is_some() {
                    return Ok(found);
                }
            }
        }
        Ok(None)
    }

    /// The move's step, if it changes the holder's mode on A, leaves A as it is, and keeps the gap that the cover is about.
    fn weakens(&self, from: State, moved: Moved) -> Option<Op> {
        let Move::Own(op) = moved.by else {
            return None;
        };
        let to = moved.to;
        let is_of_gap = matches!(self.case.cover, Cover::ReadGap | Cover::DeletedGap);
        if from.a && to.a && to.on_a != from.on_a && !(is_of_gap && to.p) {
            Some(op)
        } else {
            None
        }
    }
}
