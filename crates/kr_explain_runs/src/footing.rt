//! What an intruder can have above A, where its delete of A comes to request a lock.

use crate::keys::{BELOW_G, G, Y};
use crate::request::{READS, Request, Spot};
use crate::step::{Actor, Step};
use crate::table::Table;
use kr_decide::{FREE, STATES, keeps_out, state_number};
use kr_model::{LockState, Op, Row, Side};
use kr_protocol::Protocol;
use std::alloc::{AllocError, Global};

/// What an intruder has on the name above A: on Y, beside what another has there; or on a key of its own between A and Y.
#[derive(Clone, Copy)]
pub(crate) struct Footing {
    pub state: LockState,
    /// Whether it has put a key in between.
    pub is_between: bool,
    /// The step that led there, from the footing at a place of the list.
    last: Option<(usize, Op)>,
}

/// All that an intruder can have above A, beside what another has on Y.
#[derive(Drop)]
pub(crate) struct Footings {
    pub reached: Vec<Footing>,
    /// Whether it was found, by its number.
    seen: Vec<bool>,
}

impl Footings {
    /// All of them, breadth first, from nothing.
    pub(crate) fn beside<P: Protocol>(
        alloc: Global,
        table: &Table<P>,
        other: LockState,
    ) -> Result<Footings, AllocError> {
        let mut footings = Footings {
            reached: Vec::new(alloc),
            seen: vec![in alloc; false; 2 * STATES]?,
        };
        footings.put(Footing {
            state: FREE,
            is_between: false,
            last: None,
        })?;
        for at in 0..2 * STATES {
            let Some(from) = footings.reached.get(at).copied() else {
                return Ok(footings);
            };
            footings.read(table, at, from, other)?;
            footings.go_between(table, at, from, other)?;
        }
        Ok(footings)
    }

    /// Puts a footing behind the others, if it is new.
    fn put(&mut self, footing: Footing) -> Result<(), AllocError> {
        let between = if footing.is_between { STATES } else { 0 };
        let state = LockState {
            mode: footing.state.mode % 16,
            ..footing.state
        };
        let Some(seen) = self.seen.get_mut(between + state_number(state)) else {
            return Ok(());
        };
        if *seen {
            return Ok(());
        }
        *seen = true;
        self.reached.push(footing)?;
        Ok(())
    }

    /// What comes of reads and updates there.
    fn read<P: Protocol>(
        &mut self,
        table: &Table<P>,
        at: usize,
        from: Footing,
        other: LockState,
    ) -> Result<(), AllocError> {
        let beside = if from.is_between { FREE } else { other };
        for request in READS {
            if table.has_row(request.0) && is_let_in(table, request, from.state, beside) {
                let state = table.moved(request, from.state, FREE);
                let op = spot(from.is_between).step(request);
                self.put(Footing {
                    state,
                    last: Some((at, op)),
                    ..from
                })?;
            }
        }
        Ok(())
    }

    /// What comes of an insert between A and Y.
    fn go_between<P: Protocol>(
        &mut self,
        table: &Table<P>,
        at: usize,
        from: Footing,
        other: LockState,
    ) -> Result<(), AllocError> {
        let request = (Row::Insert, Side::Next);
        if from.is_between || !is_let_in(table, request, from.state, other) {
            return Ok(());
        }
        self.put(Footing {
            state: table.moved((Row::Insert, Side::Current), FREE, from.state),
            is_between: true,
            last: Some((at, Op::Insert(G, 0))),
        })
    }

    /// The intruder's steps to the footing at a place.
    pub(crate) fn steps(&self, alloc: Global, at: usize) -> Result<Vec<Step>, AllocError> {
        let mut steps = Vec::new(alloc);
        let mut end = at;
        for _ in 0..2 * STATES {
            let Some((before, op)) = self.reached.get(end).and_then(|footing| footing.last) else {
                steps.reverse();
                return Ok(steps);
            };
            steps.push(Step {
                by: Actor::Intruder,
                op,
            })?;
            end = before;
        }
        Ok(steps)
    }
}

/// Whether another grants a request that it needn't keep out.
fn is_let_in<P: Protocol>(
    table: &Table<P>,
    request: Request,
    own: LockState,
    other: LockState,
) -> bool {
    !keeps_out(other, request.0, request.1) && table.lets_in_at(request, own, FREE, other)
}

/// The keys of the steps there.
fn spot(is_between: bool) -> Spot {
    if is_between {
        Spot {
            key: G,
            free: BELOW_G,
            before: G,
        }
    } else {
        Spot {
            key: Y,
            free: G,
            before: G,
        }
    }
}
