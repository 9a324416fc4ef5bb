//! The states that one transaction can come to.
ghost use Rattle.std.specs.Prelude.{◌≡◌, ◌≤◌, ◌↔◌, vec_len, All, IfOk, IsTrue};
ghost use Rattle.std.specs.List.{Any};
ghost use Rattle.kr_explain_runs.specs.declared.reached.TheConstants.{MOST_STATES};
ghost use Rattle.kr_explain_runs.specs.About.{is_about};
ghost use Rattle.kr_explain_runs.specs.Reached.{IsReached};

use crate::leading::is_reached;
use crate::moves::{Moved, moves};
use crate::own_steps::is_about;
use crate::reached::{Last, MOST_STATES, Reached, World};
use crate::ready::{Ready, ready_of};
use crate::state::{NUMBERS, State};
use crate::table::Table;
use kr_cases::Memory;
use kr_model::{FailedCase, Mode};
use kr_protocol::Protocol;
use std::alloc::{AllocError, Global};

/// Whether P and whether A stand in the openings, in their order of trial.
const OPENINGS: [(bool, bool); 4] = [(false, true), (false, false), (true, true), (true, false)];

/// The states that one transaction can come to at two neighbouring names, each with the first script that leads to it: at
/// most 20,000.
///
/// They are found breadth first, by a fixed list of moves at fixed keys, from four openings; then once more, from each mode
/// that was reached on the first name alone, with its script moved one name up. The script of each was run: all its steps
/// were granted, and it left the state's modes.
#[derive(Drop)]
pub struct Closure {
    pub(crate) reached: Vec<Reached>,
    pub(crate) ready: Vec<Ready>,
    ghost few: { vec_len reached ≤ MOST_STATES },
}

impl Closure {
    ghost use Rattle.kr_explain_runs.specs.Comes.{CanComeTo, IsClosureOf};

    /// The closure over the modes of a table: a script leads to each of its states under the table. The only fault is
    /// that a growth was refused.
    pub fn of<P: Protocol>(alloc: Global, protocol: &P) -> Result<Closure, Memory>
        ensures { IfOk result (IsClosureOf (P.table protocol.now)) }
    {
        let mut growing = Growing::new(alloc, protocol)?;
        growing.begin(alloc, 0, None)?;
        growing.grow(alloc, 0)?;
        let on_one_name = growing.reached.len();
        growing.raise(alloc)?;
        growing.grow(alloc, on_one_name)?;
        let reached = growing.reached;
        let ready = ready_of(alloc, &reached)?;
        Ok(Closure { reached, ready })
    }

    /// Whether the case is about some state of the closure: there a transaction has the modes of the case, and can take the
    /// step that it is about. Where it is about none, a script may still come to the case. Takes no memory. In the closure
    /// of the table a script leads to those modes.
    pub fn is_reached<P: Protocol>(&self, protocol: &P, case: &FailedCase) -> bool
        ensures exactly { IsTrue result ↔ Any (λ r. IsTrue (is_about (P.table protocol.now) case.now r.state)) self.now.reached.items }
        ensures comes { IsClosureOf (P.table protocol.now) self.now → IsTrue result → CanComeTo (P.table protocol.now) case.now }
    {
        let table = Table { protocol };
        has_about(&table, &self.reached, case)
    }
}

/// Whether the case is about some of the states.
fn has_about<P: Protocol>(table: &Table<'_, P>, states: &[Reached], case: &FailedCase) -> bool
    ensures { IsTrue result ↔ Any (λ r. IsTrue (is_about (P.table table.now.protocol.now) case.now r.state)) states.now }
{
    states
        .iter()
        .any(|reached| is_about(table, reached.state, case))
}

/// A closure that is being made.
#[derive(Drop)]
struct Growing<'a, P: Protocol> {
    protocol: &'a P,
    reached: Vec<Reached>,
    /// Whether a state was reached, by its number.
    seen: Vec<bool>,
    ghost few: { vec_len reached ≤ MOST_STATES },
    ghost are_reached: { All (λ r. IsReached (P.table protocol.now) r.state) reached.items },
}

impl<'a, P: Protocol> Growing<'a, P> {
    fn new(alloc: Global, protocol: &'a P) -> Result<Growing<'a, P>, AllocError>
        ensures { IfOk result (λ g. g.protocol.now ≡ protocol.now) }
    {
        Ok(Growing {
            protocol,
            reached: Vec::new(alloc),
            seen: vec![in alloc; false; NUMBERS]?,
        })
    }

    /// Puts a state behind the others, if it is new, there is room, and its script leads to it.
    fn put(&mut self, alloc: Global, reached: Reached) -> Result<(), Memory>
        ensures { self.new.protocol.now ≡ self.old.protocol.now }
    {
        let Some(seen) = self.seen.get_mut(reached.state.number()) else {
            return Ok(());
        };
        if *seen || self.reached.len() >= MOST_STATES {
            return Ok(());
        }
        *seen = true;
        if is_reached(alloc, self.protocol, &self.reached, reached)? {
            self.reached.push(reached)?;
        }
        Ok(())
    }

    /// Begins with each opening, where a transaction has this mode on Y by the script of the state `above`.
    fn begin(&mut self, alloc: Global, on_y: Mode, above: Option<usize>) -> Result<(), Memory>
        ensures { self.new.protocol.now ≡ self.old.protocol.now }
    {
        for (p, a) in OPENINGS {
            self.put(
                alloc,
                Reached {
                    state: State::fresh(p, a, on_y),
                    world: World { p, a, above },
                    last: None,
                },
            )?;
        }
        Ok(())
    }

    /// Moves on from each state, from a place of the list on.
    fn grow(&mut self, alloc: Global, from: usize) -> Result<(), Memory>
        ensures { self.new.protocol.now ≡ self.old.protocol.now }
    {
        let table = Table {
            protocol: self.protocol,
        };
        let mut found: Vec<Moved> = Vec::new(alloc);
        for at in from..MOST_STATES {
            let Some(reached) = self.reached.get(at).copied() else {
                return Ok(());
            };
            moves(&table, reached.state, &mut found)?;
            for moved in found.iter() {
                let by = moved.by;
                self.put(
                    alloc,
                    Reached {
                        state: moved.to,
                        world: reached.world,
                        last: Some(Last { before: at, by }),
                    },
                )?;
            }
        }
        Ok(())
    }

    /// Begins anew with each mode that was reached on A, where it stands above an empty gap, and not on Y.
    fn raise(&mut self, alloc: Global) -> Result<(), Memory>
        ensures { self.new.protocol.now ≡ self.old.protocol.now }
    {
        let mut had = [false; 16];
        for reached in self.reached.iter() {
            had[(reached.state.on_y % 16) as usize] = true;
        }
        for at in 0..self.reached.len() {
            if let Some(reached) = self.reached.get(at).copied() {
                let state = reached.state;
                let mode = (state.on_a % 16) as usize;
                if state.a && !state.p && !state.b && !had[mode] {
                    had[mode] = true;
                    self.begin(alloc, state.on_a, Some(at))?;
                }
            }
        }
        Ok(())
    }
}
