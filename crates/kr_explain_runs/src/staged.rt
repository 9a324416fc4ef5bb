//! Looking for a script among scenes.
ghost use Rattle.std.specs.Prelude.{◌≡◌, ◌≤◌, IfOk, IfSome};
ghost use Rattle.kr_theorem.specs.Wrong.{GoesWrong};
ghost use Rattle.kr_explain_runs.specs.Marks.{AreMarked, IsShown};

use crate::counterexample::Counterexample;
use crate::draft::Draft;
use crate::entrances::{Entrance, entrances};
use crate::fit::{Fit, is_step};
use crate::footing::Footings;
use crate::request::TAKE;
use crate::scene::Scene;
use crate::scenes::Scenes;
use crate::staging::staged;
use crate::step::Step;
use crate::table::Table;
use crate::within::Sought;
use kr_cases::Memory;
use kr_decide::{FREE, protects};
use kr_model::{Cover, FailedCase, LockState, Row, Side};
use kr_protocol::Protocol;
use std::alloc::Global;

/// The delete of A, which requests a lock on the next name too.
const DELETES_A: (Row, Side) = (Row::Delete, Side::Current);

/// A scene, with one of the two as the holder, for a failed case of a table.
#[derive(Drop)]
struct Stage<'a, P: Protocol> {
    alloc: Global,
    table: Table<'a, P>,
    scenes: &'a Scenes,
    case: &'a FailedCase,
    fit: Fit,
}

/// A scene by its place, seen by its holder, and whether this is the second.
#[derive(Clone, Copy)]
struct Held {
    at: usize,
    scene: Scene,
    is_second: bool,
}

impl Scenes {
    /// The first script that goes wrong in which the lock is too weak that a failed case of the table is about: the holder has
    /// the case's mode, and that to protect. At most so many are run. `None` where none is known, which does not say that
    /// there is none. The only fault is that a growth was refused.
    pub fn find<P: Protocol>(
        &self,
        alloc: Global,
        protocol: &P,
        case: &FailedCase,
        fit: Fit,
        most_runs: usize,
    ) -> Result<Sought, Memory>
        ensures wrong { IfOk result (λ sought. IfSome sought.script (λ c. GoesWrong (P.table protocol.now) c.opening.items c.events.items)) }
        ensures marked { IfOk result (λ sought. IfSome sought.script (AreMarked (P.table protocol.now) case.now fit)) }
        ensures few { IfOk result (λ sought. sought.runs ≤ most_runs) }
    {
        let stage = Stage {
            alloc,
            table: Table { protocol },
            scenes: self,
            case,
            fit,
        };
        let mut runs_left = most_runs;
        let script = stage.first(&mut runs_left)?;
        Ok(Sought {
            script,
            runs: most_runs.saturating_sub(runs_left),
        })
    }
}

impl<P: Protocol> Stage<'_, P> {
    /// The first script that goes wrong.
    fn first(&self, runs_left: &mut usize) -> Result<Option<Counterexample>, Memory>
        ensures { IfOk result (λ found. IfSome found (IsShown (P.table self.now.table.protocol.now) self.now.case.now self.now.fit)) }
    {
        for (at, reach) in self.scenes.reached.iter().enumerate() {
            for is_second in [false, true] {
                let scene = reach.scene.seen_by(is_second);
                let held = Held {
                    at,
                    scene,
                    is_second,
                };
                if self.is_about(held) {
                    let found = self.let_in(held, runs_left)?;
                    if found.is_some() {
                        return Ok(found);
                    }
                }
            }
        }
        Ok(None)
    }

    /// Whether the case is about the holder's lock on A.
    fn is_about(&self, held: Held) -> bool {
        let first = held.scene.first;
        if first.mode != self.case.mode
            || !protects(first, self.case.cover)
            || !held.scene.has_a()
        {
            return false;
        }
        match self.fit {
            Fit::Mode => true,
            Fit::Case => match self.scenes.last_turn(held.at, held.is_second) {
                Some((from, turn)) => {
                    is_step(&self.table, self.case, from.seen_by(held.is_second), turn)
                }
                None => false,
            },
        }
    }

    /// The scene with the first ending that goes wrong.
    fn let_in(&self, held: Held, runs_left: &mut usize) -> Result<Option<Counterexample>, Memory>
        ensures { IfOk result (λ found. IfSome found (IsShown (P.table self.now.table.protocol.now) self.now.case.now self.now.fit)) }
    {
        for entrance in entrances(self.case.cover) {
            let (row, side, _) = *entrance;
            if self.table.offers(self.case.cover, row) && !self.is_left(held.scene, side) {
                let found = self.through(held, *entrance, runs_left)?;
                if found.is_some() {
                    return Ok(found);
                }
            }
        }
        Ok(None)
    }

    /// Whether A is left when the holder undoes that it put A in anew: then who came on the next side has its lock there.
    fn is_left(&self, scene: Scene, side: Side) -> bool {
        self.case.cover == Cover::InsertedKey && scene.stood && side == Side::Next
    }

    /// The scene with this ending, if the intruder comes through and it goes wrong.
    fn through(
        &self,
        held: Held,
        entrance: Entrance,
        runs_left: &mut usize,
    ) -> Result<Option<Counterexample>, Memory>
        ensures { IfOk result (λ found. IfSome found (IsShown (P.table self.now.table.protocol.now) self.now.case.now self.now.fit)) }
    {
        let (row, side, _) = entrance;
        if (row, side) == DELETES_A {
            return self.deleting(held, entrance, runs_left);
        }
        let Scene { first, second, .. } = held.scene;
        if self.table.lets_in_at((row, side), second, FREE, first) {
            self.ended(held, entrance, &[], runs_left)
        } else {
            Ok(None)
        }
    }

    /// The same where the intruder deletes A, which goes by what it has on the next name.
    fn deleting(
        &self,
        held: Held,
        entrance: Entrance,
        runs_left: &mut usize,
    ) -> Result<Option<Counterexample>, Memory>
        ensures { IfOk result (λ found. IfSome found (IsShown (P.table self.now.table.protocol.now) self.now.case.now self.now.fit)) }
    {
        let above = held.scene.above;
        let footings = Footings::beside(self.alloc, &self.table, above)?;
        for (at, footing) in footings.reached.iter().enumerate() {
            let beside = if footing.is_between { FREE } else { above };
            let may_be = !footing.is_between || self.is_of_key();
            if may_be && self.lets_delete(held.scene, footing.state, beside) {
                let steps = footings.steps(self.alloc, at)?;
                return self.ended(held, entrance, &steps, runs_left);
            }
        }
        Ok(None)
    }

    /// Whether the case is about a key. What is said of one about a gap takes Y for the name after A, so that the intruder may
    /// not put a key in between.
    fn is_of_key(&self) -> bool {
        !matches!(self.case.cover, Cover::ReadGap | Cover::DeletedGap)
    }

    /// Whether the intruder can delete A with this lock state on the next name, beside another's there.
    fn lets_delete(&self, scene: Scene, next: LockState, beside: LockState) -> bool {
        let Scene { first, second, .. } = scene;
        self.table.lets_in_at(DELETES_A, second, next, first)
            && self.table.lets_in_at(TAKE, next, FREE, beside)
    }

    /// The scene with more steps of the intruder and this ending, if that goes wrong and there are runs left.
    fn ended(
        &self,
        held: Held,
        entrance: Entrance,
        more: &[Step],
        runs_left: &mut usize,
    ) -> Result<Option<Counterexample>, Memory>
        ensures { IfOk result (λ found. IfSome found (IsShown (P.table self.now.table.protocol.now) self.now.case.now self.now.fit)) }
    {
        let way = self.scenes.way(self.alloc, held.at)?;
        let is_of_deleted = self.case.cover == Cover::DeletedGap;
        let draft = staged(
            self.alloc,
            &way,
            held.scene.stood,
            held.is_second,
            is_of_deleted,
        )?;
        let Some(mut draft) = draft else {
            return Ok(None);
        };
        if *runs_left == 0 {
            return Ok(None);
        }
        *runs_left -= 1;
        draft.steps.extend_from_slice(more)?;
        draft.ended(
            self.alloc,
            self.table.protocol,
            self.case,
            self.fit,
            entrance,
        )
    }
}
