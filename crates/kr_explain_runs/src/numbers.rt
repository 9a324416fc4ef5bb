//! Numbers of a script's transactions, and its values.

use crate::step::{Actor, Step};
use kr_model::{Event, Op, Txn};
use std::alloc::{AllocError, Global};

/// The value before the first that a script's steps are given; those of its opening map are below.
const VALUES_OF_OPENING: u64 = 4;

/// Numbers of transactions, from 1, and values, from 5: each is given when it is first needed.
#[derive(Drop)]
pub(crate) struct Numbers {
    given: Vec<(Actor, Txn)>,
    last: Txn,
    value: u64,
}

impl Numbers {
    /// None is given yet.
    pub(crate) fn new(alloc: Global) -> Numbers {
        Numbers {
            given: Vec::new(alloc),
            last: 0,
            value: VALUES_OF_OPENING,
        }
    }

    /// The number of one that has a number.
    pub(crate) fn given(&self, actor: Actor) -> Option<Txn> {
        for (known, number) in self.given.iter() {
            if *known == actor {
                return Some(*number);
            }
        }
        None
    }

    /// The number of one, which is new where it has none.
    fn number(&mut self, actor: Actor) -> Result<Txn, AllocError> {
        if let Some(number) = self.given(actor) {
            return Ok(number);
        }
        let number = self.last.saturating_add(1);
        self.given.push((actor, number))?;
        self.last = number;
        Ok(number)
    }

    /// A new value.
    fn next_value(&mut self) -> u64 {
        self.value = self.value.saturating_add(1);
        self.value
    }

    /// The event of a step.
    pub(crate) fn event(&mut self, step: Step) -> Result<Event, AllocError> {
        let txn = self.number(step.by)?;
        let op = match step.op {
            Op::Insert(key, _) => Op::Insert(key, self.next_value()),
            Op::Update(key, _) => Op::Update(key, self.next_value()),
            other => other,
        };
        Ok(Event { txn, op })
    }

    /// Puts the event of a step behind the others.
    pub(crate) fn put(&mut self, events: &mut Vec<Event>, step: Step) -> Result<(), AllocError> {
        let event = self.event(step)?;
        events.push(event)?;
        Ok(())
    }
}

/// The events of a script.
pub(crate) fn events_of(alloc: Global, steps: &[Step]) -> Result<Vec<Event>, AllocError> {
    let mut numbers = Numbers::new(alloc);
    let mut events = Vec::with_capacity(alloc, steps.len())?;
    for step in steps {
        numbers.put(&mut events, *step)?;
    }
    Ok(events)
}
