//! Scripts up to where the intruder comes through.
ghost use Rattle.std.specs.Prelude.{IfOk, IfSome};
ghost use Rattle.kr_explain_runs.specs.Marks.{IsShown};
ghost use Rattle.kr_theorem.specs.Wrong.{GoesWrong};

use crate::counterexample::Counterexample;
use crate::ending::Ending;
use crate::entrances::Entrance;
use crate::fit::Fit;
use crate::judging::goes_wrong;
use crate::last_steps::last_steps;
use crate::marks::are_marked;
use crate::numbers::Numbers;
use crate::step::{Actor, Step};
use kr_cases::Memory;
use kr_model::{Event, FailedCase, Op, Txn};
use kr_protocol::Protocol;
use std::alloc::{AllocError, Global};

/// A script up to where the intruder comes through.
#[derive(Drop)]
pub(crate) struct Draft {
    /// The opening map.
    pub opening: Vec<(u64, u64)>,
    pub steps: Vec<Step>,
    /// The place in `steps`, from 0, of the holder's step whose lock is too weak.
    pub weak: usize,
}

impl Draft {
    /// The holder takes one step more, whose lock is now the one that is too weak.
    pub(crate) fn go_on(&mut self, op: Op) -> Result<(), AllocError> {
        let weak = self.steps.len();
        self.steps.push(Step::own(op))?;
        self.weak = weak;
        Ok(())
    }

    /// The script on this opening map, with more steps put in before the step at this place.
    pub(crate) fn woven(
        &self,
        alloc: Global,
        opening: &[(u64, u64)],
        more: &[Step],
        place: usize,
    ) -> Result<Draft, AllocError> {
        let place = place.min(self.steps.len());
        let mut steps = Vec::new(alloc);
        steps.extend_from_slice(&self.steps[..place])?;
        steps.extend_from_slice(more)?;
        steps.extend_from_slice(&self.steps[place..])?;
        let weak = if place <= self.weak {
            self.weak.saturating_add(more.len())
        } else {
            self.weak
        };
        let opening = opening.to_vec(alloc)?;
        Ok(Draft {
            opening,
            steps,
            weak,
        })
    }

    /// The events of the script with this ending, and who is the third in it.
    fn events(
        &self,
        alloc: Global,
        ending: Ending,
    ) -> Result<(Vec<Event>, Option<Txn>), AllocError> {
        let mut numbers = Numbers::new(alloc);
        let mut events = Vec::new(alloc);
        for step in self.steps.iter() {
            numbers.put(&mut events, *step)?;
        }
        let (through, last) = last_steps(ending);
        let by = Actor::Intruder;
        numbers.put(&mut events, Step { by, op: through })?;
        for (by, op) in last {
            numbers.put(&mut events, Step { by: *by, op: *op })?;
        }
        Ok((events, numbers.given(Actor::Third)))
    }

    /// The script with an ending by this entrance, if it goes wrong. The only fault is that a growth was refused.
    fn wrong<P: Protocol>(
        &self,
        alloc: Global,
        protocol: &P,
        entrance: Entrance,
    ) -> Result<Option<Counterexample>, Memory>
        ensures { IfOk result (λ found. IfSome found (λ c. GoesWrong (P.table protocol.now) c.opening.items c.events.items)) }
    {
        let (row, side, ending) = entrance;
        let (events, third) = self.events(alloc, ending)?;
        let opening = self.opening.to_vec(alloc)?;
        if !goes_wrong(alloc, protocol, &opening, &events)? {
            return Ok(None);
        }
        let (weak, let_in) = (self.weak, self.steps.len());
        let (Some(own), Some(through)) = (events.get(weak), events.get(let_in)) else {
            return Ok(None);
        };
        let (holder, intruder) = (own.txn, through.txn);
        Ok(Some(Counterexample {
            opening,
            events,
            row,
            side,
            ending,
            weak,
            let_in,
            holder,
            intruder,
            third,
        }))
    }

    /// The script with an ending by this entrance, made from a case, if it goes wrong, and its marks are those of its run. The
    /// only fault is that a growth was refused.
    pub(crate) fn ended<P: Protocol>(
        &self,
        alloc: Global,
        protocol: &P,
        case: &FailedCase,
        fit: Fit,
        entrance: Entrance,
    ) -> Result<Option<Counterexample>, Memory>
        ensures { IfOk result (λ found. IfSome found (IsShown (P.table protocol.now) case.now fit)) }
    {
        let Some(script) = self.wrong(alloc, protocol, entrance)? else {
            return Ok(None);
        };
        if are_marked(alloc, protocol, case, fit, &script)? {
            Ok(Some(script))
        } else {
            Ok(None)
        }
    }
}
