//! The search for scripts.

use crate::choice::choice;
use crate::closure::{Closure, MOST_NODES};
use crate::flat::Flat;
use crate::open::Open;
use crate::part::{Part, Script};
use crate::tables::Tables;
use crate::trail::Trail;
use kr_change::Change;
use kr_model::Memory;
use std::alloc::Global;

/// A script that tells a change apart.
#[derive(Clone, Copy)]
pub(crate) struct Found {
    /// The number of its opening.
    pub opening: usize,
    /// Its last step.
    pub last: Option<usize>,
}

/// A search for scripts, each of which tells one change apart.
#[derive(Drop)]
pub(crate) struct Search<'a> {
    pub alloc: Global,
    pub tables: Tables,
    pub changes: &'a [Change],
    /// The changes that are open.
    pub open: Open,
    /// The script for each change.
    pub found: Vec<Option<Found>>,
    pub trail: Trail,
    /// Whether changes are taken back.
    pub backs: bool,
}

/// Few scripts that tell all the changes apart for which the search finds one, each with the numbers of those that it
/// tells apart by the light machine. The only fault is that a growth was refused.
pub fn parts(alloc: Global, flat: &Flat, changes: &[Change]) -> Result<Vec<Part>, Memory> {
    let mut search = Search::new(alloc, flat, changes)?;
    search.pass(MOST_PAIRS)?;
    if search.open.count() > 0 {
        search.backs = true;
        search.pass(MORE_PAIRS)?;
    }
    let scripts = search.scripts()?;
    choice(alloc, flat, changes, &scripts)
}

/// For each change that is left so many states under both tables are looked at first, so that those that are told soon don't
/// wait for the others.
const FEW_PAIRS: usize = 100;

/// For each change so many states under both tables are looked at, at most, as long as no change is taken back.
const MOST_PAIRS: usize = 3000;

/// And so many where changes are taken back.
const MORE_PAIRS: usize = 30000;

impl<'a> Search<'a> {
    /// A search in which nothing is found yet.
    fn new(alloc: Global, flat: &Flat, changes: &'a [Change]) -> Result<Search<'a>, Memory> {
        let mut open = Open::new(alloc)?;
        let mut found = Vec::new(alloc);
        for (number, change) in changes.iter().enumerate() {
            open.put(*change, number)?;
            found.push(None)?;
        }
        Ok(Search {
            alloc,
            tables: Tables::new(flat),
            changes,
            open,
            found,
            trail: Trail::new(alloc),
            backs: false,
        })
    }

    /// Looks at the states of the table as they are found; then, for each change that is left, at the states under both.
    fn pass(&mut self, most_pairs: usize) -> Result<(), Memory> {
        let mut closure = Closure::new(self.alloc, &self.tables.one, self.backs)?;
        let mut looking = self.looking()?;
        for place in 0..MOST_NODES {
            if self.open.count() == 0 {
                break;
            }
            let Some(node) = closure.get(place).copied() else {
                break;
            };
            self.look_at(&mut looking, &node)?;
            closure.grow(&self.tables.one, &mut self.trail, &node)?;
        }
        self.follow(&looking, FEW_PAIRS)?;
        self.follow(&looking, most_pairs)
    }

    /// Notes the script of a change.
    pub(crate) fn tell(&mut self, number: usize, found: Found) {
        if let Some(place) = self.found.get_mut(number) {
            *place = Some(found);
        }
        if let Some(change) = self.changes.get(number) {
            self.open.take(*change, number);
        }
    }

    /// The scripts that were found, in the order of their changes.
    fn scripts(&self) -> Result<Vec<Script>, Memory> {
        let mut scripts = Vec::new(self.alloc);
        for found in self.found.iter().flatten() {
            scripts.push(Script {
                opening: found.opening,
                events: self.trail.script(self.alloc, found.last)?,
            })?;
        }
        Ok(scripts)
    }
}
