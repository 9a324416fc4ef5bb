//! Scripts, and what they tell apart.

use crate::keys::opening;
use crate::naming::Naming;
use kr_model::{Event, Memory};
use std::alloc::Global;

/// A script that was found.
#[derive(PartialEq, Eq, Drop)]
pub(crate) struct Script {
    /// The number of its opening.
    pub opening: usize,
    pub events: Vec<Event>,
}

/// A script of which all steps but the last are granted, and the changes that it tells apart.
#[derive(Drop)]
pub struct Part {
    /// The opening map, keys rising.
    pub opening: Vec<(u64, u64)>,
    /// The steps.
    pub events: Vec<Event>,
    /// The numbers of the changes, rising.
    pub tells: Vec<usize>,
}

impl Part {
    /// The part of a script: its keys are 10, 20 and so on, in their order, its transactions 1, 2 and so on, and each value
    /// is another.
    pub(crate) fn new(alloc: Global, script: &Script, tells: &[usize]) -> Result<Part, Memory> {
        let mut part = Part {
            opening: Vec::new(alloc),
            events: Vec::new(alloc),
            tells: Vec::new(alloc),
        };
        part.fill(alloc, script, tells)?;
        Ok(part)
    }

    /// Fills a part that has nothing yet.
    fn fill(&mut self, alloc: Global, script: &Script, tells: &[usize]) -> Result<(), Memory> {
        for number in tells {
            self.tells.push(*number)?;
        }
        let mut naming = Naming::new(alloc, script)?;
        for key in opening(script.opening) {
            let value = naming.value();
            self.opening.push((naming.key(*key), value))?;
        }
        for event in script.events.iter() {
            self.events.push(naming.event(*event))?;
        }
        Ok(())
    }
}
