//! Intruders that have modes of their own.
ghost use Rattle.std.specs.Prelude.{IfOk, IfSome};
ghost use Rattle.kr_explain_runs.specs.declared.fit.Fit.TheVariants as fit;
ghost use Rattle.kr_explain_runs.specs.Marks.{IsShown};

use crate::counterexample::Counterexample;
use crate::draft::Draft;
use crate::entrances::{Entrance, entrances};
use crate::finder::{Finder, Way};
use crate::ready::Ready;
use crate::scripts::{opening_beside, script_to};
use crate::step::Step;
use kr_cases::Memory;
use kr_model::Side;
use kr_protocol::Protocol;

/// How an intruder gets ready beside a holder.
#[derive(Drop)]
struct Beside {
    /// The opening map for both.
    opening: Vec<(u64, u64)>,
    /// The intruder's steps.
    steps: Vec<Step>,
}

impl<P: Protocol> Finder<'_, P> {
    /// An intruder that has modes already comes after each way.
    pub(crate) fn readied(
        &self,
        ways: &[Way],
        runs_left: &mut usize,
    ) -> Result<Option<Counterexample>, Memory>
        ensures { IfOk result (λ found. IfSome found (IsShown (P.table self.now.table.protocol.now) self.now.case.now fit.Case)) }
    {
        for way in ways {
            let draft = self.draft(*way)?;
            for entrance in entrances(self.case.cover) {
                let found = self.readied_at(*way, &draft, *entrance, runs_left)?;
                if found.is_some() {
                    return Ok(found);
                }
            }
        }
        Ok(None)
    }

    /// An intruder comes through by modes that it has at an entrance, after a way of which this is the draft.
    fn readied_at(
        &self,
        way: Way,
        draft: &Draft,
        entrance: Entrance,
        runs_left: &mut usize,
    ) -> Result<Option<Counterexample>, Memory>
        ensures { IfOk result (λ found. IfSome found (IsShown (P.table self.now.table.protocol.now) self.now.case.now fit.Case)) }
    {
        for ready in self.closure.ready.iter() {
            if *runs_left > 0 && self.opens(entrance, *ready) {
                let beside = self.beside(way, *ready)?;
                let found = self.woven(draft, entrance, &beside, runs_left)?;
                if found.is_some() {
                    return Ok(found);
                }
            }
        }
        Ok(None)
    }

    /// Whether an intruder comes through by these modes, where one without modes may not.
    fn opens(&self, entrance: Entrance, ready: Ready) -> bool {
        let (row, side, _) = entrance;
        let own_next = match side {
            Side::Current => ready.on_y,
            Side::Next => ready.on_a,
        };
        (ready.on_a != 0 || own_next != 0)
            && self.table.offers(self.case.cover, row)
            && self
                .table
                .is_open(row, side, ready.on_a, own_next, self.case.mode)
    }

    /// How the intruder gets ready beside a way.
    fn beside(&self, way: Way, ready: Ready) -> Result<Beside, Memory> {
        let reached = &self.closure.reached;
        let mut steps = script_to(self.alloc, reached, ready.end)?;
        for step in steps.iter_mut() {
            *step = step.of_intruder();
        }
        let opening = opening_beside(self.alloc, reached, way.end.world, ready.end.world)?;
        Ok(Beside { opening, steps })
    }

    /// The intruder gets ready before the holder's steps, then before the holder's last, then after it.
    fn woven(
        &self,
        draft: &Draft,
        entrance: Entrance,
        beside: &Beside,
        runs_left: &mut usize,
    ) -> Result<Option<Counterexample>, Memory>
        ensures { IfOk result (λ found. IfSome found (IsShown (P.table self.now.table.protocol.now) self.now.case.now fit.Case)) }
    {
        for place in [0, draft.weak, draft.steps.len()] {
            let woven = draft.woven(self.alloc, &beside.opening, &beside.steps, place)?;
            let found = self.ended(&woven, entrance, runs_left)?;
            if found.is_some() {
                return Ok(found);
            }
        }
        Ok(None)
    }
}
