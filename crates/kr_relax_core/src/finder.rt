//! Requests beside locks, as they are found.
ghost use Rattle.std.specs.Prelude.{◌≡◌, ◌≤◌, ◌<◌, Contains, IfOk, OnOk};
ghost use Rattle.kr_kinds.specs.Kinds.{table_of};
ghost use Rattle.kr_relax_core.specs.Finding.{spot_number, FindsMore, IsFinding};
ghost use Rattle.kr_relax_core.specs.Met.{IsMetSpot};

use crate::place::{Spot, place_number};
use kr_kinds::IndexProtocol;
use kr_model::Memory;
use std::alloc::Global;

/// How many numbers spots have.
const NUMBERS: usize = 94208;

/// The number of a spot; each has its own.
fn spot_number(spot: Spot) -> usize
    requires own { spot.request.own ≤ 15 }
    requires next { spot.request.next ≤ 15 }
    requires held { spot.held ≤ 15 }
    ensures value { result ≡ spot_number spot.request.place spot.request.own spot.request.next spot.held }
    ensures below { result < 94208 }
{
    let at = place_number(spot.request.place) * 16 + spot.request.own as usize;
    (at * 16 + spot.request.next as usize) * 16 + spot.held as usize
}

/// The spots that were found so far, and which were seen.
#[derive(Drop)]
pub(crate) struct Finder {
    pub(crate) spots: Vec<Spot>,
    /// Of each spot, by its number, whether it is found.
    seen: Vec<bool>,
}

impl Finder {
    /// At first none is found.
    pub(crate) fn new<P: IndexProtocol>(alloc: Global, protocol: &P) -> Result<Finder, Memory>
        ensures { IfOk result (IsFinding (P.index protocol.now)) }
    {
        let _ = protocol;
        let spots = Vec::new(alloc);
        let seen = vec![in alloc; false; NUMBERS]?;
        Ok(Finder { spots, seen })
    }

    /// Adds a request that schedules bring beside a lock, if it is new.
    pub(crate) fn add<P: IndexProtocol>(&mut self, protocol: &P, spot: Spot) -> Result<(), Memory>
        requires finding { IsFinding (P.index protocol.now) self.old }
        requires met { IsMetSpot (P.index protocol.now) spot }
        requires own { spot.request.own ≤ (table_of (P.index protocol.now)).count }
        requires next { spot.request.next ≤ (table_of (P.index protocol.now)).count }
        requires held { spot.held ≤ (table_of (P.index protocol.now)).count }
        requires few { (table_of (P.index protocol.now)).count ≤ 15 }
        ensures more { OnOk result (FindsMore (P.index protocol.now) self.old self.new) }
        ensures at { OnOk result (Contains self.new.spots.items spot) }
    {
        let _ = protocol;
        let number = spot_number(spot);
        if self.seen[number] {
            return Ok(());
        }
        self.spots.push(spot)?;
        self.seen[number] = true;
        Ok(())
    }
}
