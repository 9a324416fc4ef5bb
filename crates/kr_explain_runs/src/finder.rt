//! What is tried for a failed case.
ghost use Rattle.std.specs.Prelude.{IfOk, IfSome};
ghost use Rattle.kr_explain_runs.specs.declared.fit.Fit.TheVariants as fit;
ghost use Rattle.kr_explain_runs.specs.Marks.{IsShown};

use crate::closure::Closure;
use crate::counterexample::Counterexample;
use crate::draft::Draft;
use crate::entrances::{Entrance, entrances};
use crate::fit::Fit;
use crate::own_steps::own_steps;
use crate::reached::Reached;
use crate::scripts::{opening_of, script_to};
use crate::table::Table;
use kr_cases::Memory;
use kr_model::{FailedCase, Mode, Op, Row, Side};
use kr_protocol::Protocol;
use std::alloc::Global;

/// A state of the closure, and a step of it that the case is about.
#[derive(Clone, Copy)]
pub(crate) struct Way {
    pub end: Reached,
    pub op: Op,
}

/// A failed case of a table, and the states that the table's transactions can come to.
#[derive(Drop)]
pub(crate) struct Finder<'a, P: Protocol> {
    pub alloc: Global,
    pub table: Table<'a, P>,
    pub closure: &'a Closure,
    pub case: &'a FailedCase,
}

impl<P: Protocol> Finder<'_, P> {
    /// The first ways to the case, so many at most.
    pub(crate) fn ways(&self, most: usize) -> Result<Vec<Way>, Memory> {
        let mut ways = Vec::new(self.alloc);
        for end in self.closure.reached.iter() {
            for step in own_steps(&self.table, end.state, self.case) {
                if ways.len() >= most {
                    return Ok(ways);
                }
                if let Some(op) = step {
                    ways.push(Way { end: *end, op })?;
                }
            }
        }
        Ok(ways)
    }

    /// The script of a way, up to the step that the case is about.
    pub(crate) fn draft(&self, way: Way) -> Result<Draft, Memory> {
        let reached = &self.closure.reached;
        let mut draft = Draft {
            opening: opening_of(self.alloc, reached, way.end.world)?,
            steps: script_to(self.alloc, reached, way.end)?,
            weak: 0,
        };
        draft.go_on(way.op)?;
        Ok(draft)
    }

    /// Whether a requester without modes comes through at a row and a side beside a mode.
    fn is_open(&self, row: Row, side: Side, mode: Mode) -> bool {
        self.table.offers(self.case.cover, row) && self.table.is_open(row, side, 0, 0, mode)
    }

    /// The draft with the ending of an entrance, if that goes wrong and there are runs left for the case.
    pub(crate) fn ended(
        &self,
        draft: &Draft,
        entrance: Entrance,
        runs_left: &mut usize,
    ) -> Result<Option<Counterexample>, Memory>
        ensures { IfOk result (λ found. IfSome found (IsShown (P.table self.now.table.protocol.now) self.now.case.now fit.Case)) }
    {
        if *runs_left == 0 {
            return Ok(None);
        }
        *runs_left -= 1;
        draft.ended(
            self.alloc,
            self.table.protocol,
            self.case,
            Fit::Case,
            entrance,
        )
    }

    /// The draft with the first ending that goes wrong, of those by an entrance of the case's cover that a requester without
    /// modes comes through beside a mode: the preferred entrance first, and else in the cover's order.
    pub(crate) fn first_ended(
        &self,
        draft: &Draft,
        mode: Mode,
        prefer: Option<(Row, Side)>,
        runs_left: &mut usize,
    ) -> Result<Option<Counterexample>, Memory>
        ensures { IfOk result (λ found. IfSome found (IsShown (P.table self.now.table.protocol.now) self.now.case.now fit.Case)) }
    {
        for is_preferred in [true, false] {
            for entrance in entrances(self.case.cover) {
                let (row, side, _) = *entrance;
                if (prefer == Some((row, side))) == is_preferred && self.is_open(row, side, mode) {
                    let found = self.ended(draft, *entrance, runs_left)?;
                    if found.is_some() {
                        return Ok(found);
                    }
                }
            }
        }
        Ok(None)
    }
}
