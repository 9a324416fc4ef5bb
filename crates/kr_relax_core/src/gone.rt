//! Which requests schedules bring beside which locks, where a deleted key goes at once.
ghost use Rattle.std.specs.Prelude.{◌≡◌, ◌≤◌, ◌↔◌, IsTrue, IfOk, OnOk, length};
ghost use Rattle.kr_model.specs.Safe.{Beside, free};
ghost use Rattle.kr_decide.specs.Every.{AreAllPairs};
ghost use Rattle.kr_kinds.specs.Kinds as kind;
ghost use Rattle.kr_relax_core.specs.Finding.{all_places, FindsAt, FindsMore, FindsNexts, FindsPairs, IsFinding};
ghost use Rattle.kr_relax_core.specs.Met.{AreApart, IsMetBy, next_mode};

use crate::finder::Finder;
use crate::place::{Place, Request, Spot};
use kr_decide::{FREE, Pair, may_ask, may_beside, pairs_of};
use kr_kinds::Gone;
use kr_model::{LockState, Memory, Mode, Row, Side};
use kr_protocol::Protocol;
use std::alloc::Global;

/// The places at which locks are requested.
fn places() -> &'static [(Row, Side)]
    ensures { result.now ≡ all_places }
{
    &[
        (Row::FetchHit, Side::Current),
        (Row::FetchMiss, Side::Next),
        (Row::ScanKey, Side::Current),
        (Row::ScanStop, Side::Next),
        (Row::Insert, Side::Current),
        (Row::Insert, Side::Next),
        (Row::Delete, Side::Current),
        (Row::Delete, Side::Next),
        (Row::Update, Side::Current),
    ]
}

/// The mode on the next name, where a request goes by it, else none.
fn next_mode(row: Row, side: Side, next: LockState) -> Mode
    ensures value { result ≡ next_mode row side next }
    ensures within { result ≤ next.mode }
{
    match (row, side) {
        (Row::Insert, Side::Current) => next.mode,
        (Row::Delete, Side::Current) => next.mode,
        _ => 0,
    }
}

/// Whether a lock state is that of a transaction that has nothing on the name.
fn is_free(state: LockState) -> bool
    ensures { IsTrue result ↔ (state ≡ free) }
{
    state == FREE
}

impl Finder {
    /// Adds the request of one who has `own` on a name, and `next` on the next one, beside another who has `other`, where it
    /// may come to make it.
    fn add_request<P: Protocol>(
        &mut self,
        protocol: &Gone<P>,
        row: Row,
        side: Side,
        own: LockState,
        other: LockState,
        next: LockState,
    ) -> Result<(), Memory>
        requires finding { IsFinding (kind.Gone (P.table protocol.now.0)) self.old }
        requires own { own.mode ≤ (P.table protocol.now.0).count }
        requires other { other.mode ≤ (P.table protocol.now.0).count }
        requires next { next.mode ≤ (P.table protocol.now.0).count }
        requires beside { Beside (P.table protocol.now.0) own other }
        requires alone { Beside (P.table protocol.now.0) next free }
        ensures more { OnOk result (FindsMore (kind.Gone (P.table protocol.now.0)) self.old self.new) }
        ensures at { OnOk result (FindsAt (P.table protocol.now.0) self.new.spots.items row side own other next) }
    {
        if !may_ask(protocol, row, side, own, next) || !may_beside(protocol, row, side, other) {
            return Ok(());
        }
        let next = next_mode(row, side, next);
        let request = Request {
            place: Place::Row(row, side),
            own: own.mode,
            next,
        };
        let held = other.mode;
        self.add(protocol, Spot { request, held })?;
        Ok(())
    }

    /// The same with each lock state that a transaction can have on the next name.
    fn add_pair<P: Protocol>(
        &mut self,
        protocol: &Gone<P>,
        row: Row,
        side: Side,
        pairs: &[Pair],
        pair: Pair,
    ) -> Result<(), Memory>
        requires finding { IsFinding (kind.Gone (P.table protocol.now.0)) self.old }
        requires pairs { AreAllPairs (P.table protocol.now.0) pairs.now }
        requires own { pair.own.mode ≤ (P.table protocol.now.0).count }
        requires other { pair.other.mode ≤ (P.table protocol.now.0).count }
        requires beside { Beside (P.table protocol.now.0) pair.own pair.other }
        ensures more { OnOk result (FindsMore (kind.Gone (P.table protocol.now.0)) self.old self.new) }
        ensures nexts { OnOk result (FindsNexts (P.table protocol.now.0) self.new.spots.items row side pairs.now (length pairs.now) pair.own pair.other) }
    {
        for at in 0..pairs.len() {
            let above = pairs[at];
            if is_free(above.other) {
                self.add_request(protocol, row, side, pair.own, pair.other, above.own)?;
            }
        }
        Ok(())
    }

    /// Adds the requests of a row at a side.
    fn add_place<P: Protocol>(
        &mut self,
        protocol: &Gone<P>,
        row: Row,
        side: Side,
        pairs: &[Pair],
    ) -> Result<(), Memory>
        requires finding { IsFinding (kind.Gone (P.table protocol.now.0)) self.old }
        requires pairs { AreAllPairs (P.table protocol.now.0) pairs.now }
        ensures more { OnOk result (FindsMore (kind.Gone (P.table protocol.now.0)) self.old self.new) }
        ensures pairs { OnOk result (FindsPairs (P.table protocol.now.0) self.new.spots.items row side pairs.now (length pairs.now)) }
    {
        for at in 0..pairs.len() {
            self.add_pair(protocol, row, side, pairs, pairs[at])?;
        }
        Ok(())
    }
}

/// Which requests schedules bring beside which locks, each once.
pub(crate) fn gone_spots<P: Protocol>(
    alloc: Global,
    protocol: &Gone<P>,
) -> Result<Vec<Spot>, Memory>
    ensures met { IfOk result (λ spots. IsMetBy (kind.Gone (P.table protocol.now.0)) spots.items) }
    ensures apart { IfOk result (λ spots. AreApart spots.items) }
{
    let pairs = pairs_of(alloc, protocol)?;
    let places = places();
    let mut finder = Finder::new(alloc, protocol)?;
    for at in 0..places.len() {
        let (row, side) = places[at];
        finder.add_place(protocol, row, side, &pairs)?;
    }
    Ok(finder.spots)
}
