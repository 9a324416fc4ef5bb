//! How states were come to.

use crate::moves::Move;
use kr_model::{Event, Memory, Txn};
use std::alloc::Global;

/// The most steps of a script.
pub(crate) const MOST_STEPS: usize = 64;

/// A step, and the one before it.
#[derive(Clone, Copy)]
struct Link {
    before: Option<usize>,
    event: Event,
}

/// Steps, each of which knows the one before it.
#[derive(Drop)]
pub(crate) struct Trail {
    links: Vec<Link>,
}

impl Trail {
    /// No steps.
    pub(crate) fn new(alloc: Global) -> Trail {
        Trail {
            links: Vec::new(alloc),
        }
    }

    /// Puts the steps of a move behind a step, and answers its last.
    pub(crate) fn put(
        &mut self,
        before: Option<usize>,
        txn: Txn,
        by: Move,
    ) -> Result<Option<usize>, Memory> {
        let mut last = before;
        for op in by.steps() {
            let Some(op) = op else {
                break;
            };
            let event = Event { txn, op };
            let at = self.links.len();
            self.links.push(Link {
                before: last,
                event,
            })?;
            last = Some(at);
        }
        Ok(last)
    }

    /// The script that ends with a step.
    pub(crate) fn script(&self, alloc: Global, last: Option<usize>) -> Result<Vec<Event>, Memory> {
        let mut script = Vec::new(alloc);
        let mut at = last;
        for _ in 0..MOST_STEPS {
            let Some(place) = at else {
                break;
            };
            let Some(link) = self.links.get(place) else {
                break;
            };
            script.push(link.event)?;
            at = link.before;
        }
        script.reverse();
        Ok(script)
    }
}
