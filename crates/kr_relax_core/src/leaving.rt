//! Which requests schedules bring beside which locks, where a deleted key stays as a ghost.
ghost use Rattle.std.specs.Prelude.{◌≡◌, ◌↔◌, IsTrue, IfOk, OnOk, All, length};
ghost use Rattle.kr_ghost.specs.Safe as ghost_safe;
ghost use Rattle.kr_ghost_decide.specs.Every.{AreAllPairs};
ghost use Rattle.kr_ghost_decide.specs.Found.{IsReached};
ghost use Rattle.kr_ghost_decide.specs.Holds.{asking, fact, hold};
ghost use Rattle.kr_kinds.specs.Kinds as kind;
ghost use Rattle.kr_relax_core.specs.Finding.{FindsAll, FindsAsk, FindsAsks, FindsMore, FindsNew, FindsPurge, FindsPurges, IsFinding, IsLeft, MayInherit};
ghost use Rattle.kr_relax_core.specs.Met.{AreApart, IsMetBy, place_of};
ghost use Rattle.kr_relax_core.specs.Met as spec;

use crate::finder::Finder;
use crate::place::{Place, Request, Spot};
use kr_change::GhostRow;
use kr_ghost_decide::{Ask, Hold, KeyUse, Pair, asks, is_changed, may_ask, pairs_of};
use kr_ghost_protocol::GhostProtocol;
use kr_kinds::Leaves;
use kr_model::{Memory, Mode, Row, Side};
use std::alloc::Global;

/// Where what is requested of a name is asked for.
fn place_of(ask: Ask) -> Place
    ensures { result ≡ place_of (asking ask) }
{
    match ask {
        Ask::FetchHit => Place::Row(Row::FetchHit, Side::Current),
        Ask::FetchMiss => Place::Row(Row::FetchMiss, Side::Next),
        Ask::ScanName => Place::Row(Row::ScanKey, Side::Current),
        Ask::ScanStop => Place::Row(Row::ScanStop, Side::Next),
        Ask::Insert => Place::Row(Row::Insert, Side::Next),
        Ask::Delete => Place::Row(Row::Delete, Side::Current),
        Ask::Update => Place::Row(Row::Update, Side::Current),
        Ask::Revive => Place::GhostRow(GhostRow::Revive, Side::Current),
        Ask::InsertHit => Place::GhostRow(GhostRow::InsertHit, Side::Current),
        Ask::DeleteMiss => Place::GhostRow(GhostRow::DeleteMiss, Side::Next),
        Ask::UpdateMiss => Place::GhostRow(GhostRow::UpdateMiss, Side::Next),
        Ask::ReviveNext => Place::GhostRow(GhostRow::Revive, Side::Next),
        Ask::InsertHitNext => Place::GhostRow(GhostRow::InsertHit, Side::Next),
    }
}

/// A request beside a lock.
fn spot(place: Place, own: Mode, next: Mode, held: Mode) -> Spot
    ensures { result ≡ spec.spot place own next held }
{
    let request = Request { place, own, next };
    Spot { request, held }
}

/// Whether a lock state is that of one who has nothing on the name.
fn is_free(state: Hold) -> bool
    ensures { IsTrue result ↔ (hold state ≡ ghost_safe.free) }
{
    state.mode == 0 && state.key == KeyUse::Free && !state.gap && !state.rolling
}

/// Whether this may be on a ghost that is purged while one alone has a lock there.
fn is_left(pair: Pair) -> bool
    ensures { IsTrue result ↔ IsLeft (fact pair) }
{
    !pair.present && is_free(pair.other) && !pair.own.rolling && !is_changed(pair.own.key)
}

/// Whether one alone has this on a name, and inherits locks there.
fn may_inherit<P: GhostProtocol>(protocol: &P, pair: Pair) -> bool
    ensures { IsTrue result ↔ MayInherit (P.ghosts protocol.now) (fact pair) }
{
    protocol.inherits() && is_free(pair.other) && !pair.own.rolling
}

impl Finder {
    /// Adds what the first of two may come to request.
    fn add_asks<P: GhostProtocol>(&mut self, protocol: &Leaves<P>, pair: Pair) -> Result<(), Memory>
        requires finding { IsFinding (kind.Leaves (P.ghosts protocol.now.0)) self.old }
        requires reached { IsReached (P.ghosts protocol.now.0) (fact pair) }
        ensures more { OnOk result (FindsMore (kind.Leaves (P.ghosts protocol.now.0)) self.old self.new) }
        ensures asks { OnOk result (FindsAsks (P.ghosts protocol.now.0) self.new.spots.items (fact pair) 13) }
    {
        let asks = asks();
        for number in 0..asks.len() {
            self.add_ask(protocol, pair, asks[number])?;
        }
        Ok(())
    }

    /// Adds this, if it may come to request it.
    fn add_ask<P: GhostProtocol>(
        &mut self,
        protocol: &Leaves<P>,
        pair: Pair,
        ask: Ask,
    ) -> Result<(), Memory>
        requires finding { IsFinding (kind.Leaves (P.ghosts protocol.now.0)) self.old }
        requires reached { IsReached (P.ghosts protocol.now.0) (fact pair) }
        ensures more { OnOk result (FindsMore (kind.Leaves (P.ghosts protocol.now.0)) self.old self.new) }
        ensures ask { OnOk result (FindsAsk (P.ghosts protocol.now.0) self.new.spots.items (fact pair) (asking ask)) }
    {
        if !may_ask(protocol, pair.present, pair.own, ask) {
            return Ok(());
        }
        let place = place_of(ask);
        let spot = spot(place, pair.own.mode, 0, pair.other.mode);
        self.add(protocol, spot)?;
        Ok(())
    }

    /// Adds the request on a key that the first inserts below the name, where the other has nothing.
    fn add_new<P: GhostProtocol>(&mut self, protocol: &Leaves<P>, pair: Pair) -> Result<(), Memory>
        requires finding { IsFinding (kind.Leaves (P.ghosts protocol.now.0)) self.old }
        requires reached { IsReached (P.ghosts protocol.now.0) (fact pair) }
        ensures more { OnOk result (FindsMore (kind.Leaves (P.ghosts protocol.now.0)) self.old self.new) }
        ensures new { OnOk result (FindsNew self.new.spots.items (fact pair)) }
    {
        if !is_free(pair.other) || pair.own.rolling {
            return Ok(());
        }
        let place = Place::Row(Row::Insert, Side::Current);
        let spot = spot(place, 0, pair.own.mode, 0);
        self.add(protocol, spot)?;
        Ok(())
    }

    /// Adds the purge of a ghost below the name, where two have this.
    fn add_purge<P: GhostProtocol>(
        &mut self,
        protocol: &Leaves<P>,
        pair: Pair,
        below: Pair,
    ) -> Result<(), Memory>
        requires finding { IsFinding (kind.Leaves (P.ghosts protocol.now.0)) self.old }
        requires reached { IsReached (P.ghosts protocol.now.0) (fact pair) }
        requires inherits { MayInherit (P.ghosts protocol.now.0) (fact pair) }
        requires below { IsReached (P.ghosts protocol.now.0) (fact below) }
        ensures more { OnOk result (FindsMore (kind.Leaves (P.ghosts protocol.now.0)) self.old self.new) }
        ensures purge { OnOk result (FindsPurge (P.ghosts protocol.now.0) self.new.spots.items (fact pair) (fact below)) }
    {
        if !is_left(below) {
            return Ok(());
        }
        let spot = spot(Place::Purge, pair.own.mode, below.own.mode, 0);
        self.add(protocol, spot)?;
        Ok(())
    }

    /// Adds the purges of all ghosts below the name.
    fn add_purges<P: GhostProtocol>(
        &mut self,
        protocol: &Leaves<P>,
        pairs: &[Pair],
        pair: Pair,
    ) -> Result<(), Memory>
        requires finding { IsFinding (kind.Leaves (P.ghosts protocol.now.0)) self.old }
        requires all { All (λ q. IsReached (P.ghosts protocol.now.0) (fact q)) pairs.now }
        requires reached { IsReached (P.ghosts protocol.now.0) (fact pair) }
        ensures more { OnOk result (FindsMore (kind.Leaves (P.ghosts protocol.now.0)) self.old self.new) }
        ensures purges { OnOk result (FindsPurges (P.ghosts protocol.now.0) self.new.spots.items pairs.now (length pairs.now) (fact pair)) }
    {
        if !may_inherit(protocol, pair) {
            return Ok(());
        }
        for at in 0..pairs.len() {
            self.add_purge(protocol, pair, pairs[at])?;
        }
        Ok(())
    }

    /// Adds all that comes of what two have on a name.
    fn add_all<P: GhostProtocol>(
        &mut self,
        protocol: &Leaves<P>,
        pairs: &[Pair],
        pair: Pair,
    ) -> Result<(), Memory>
        requires finding { IsFinding (kind.Leaves (P.ghosts protocol.now.0)) self.old }
        requires all { All (λ q. IsReached (P.ghosts protocol.now.0) (fact q)) pairs.now }
        requires reached { IsReached (P.ghosts protocol.now.0) (fact pair) }
        ensures more { OnOk result (FindsMore (kind.Leaves (P.ghosts protocol.now.0)) self.old self.new) }
        ensures all { OnOk result (FindsAll (P.ghosts protocol.now.0) self.new.spots.items pairs.now (fact pair)) }
    {
        self.add_asks(protocol, pair)?;
        self.add_new(protocol, pair)?;
        self.add_purges(protocol, pairs, pair)?;
        Ok(())
    }
}

/// Which requests schedules bring beside which locks, and which locks are inherited beside which, each once.
pub(crate) fn leaving_spots<P: GhostProtocol>(
    alloc: Global,
    protocol: &Leaves<P>,
) -> Result<Vec<Spot>, Memory>
    ensures met { IfOk result (λ spots. IsMetBy (kind.Leaves (P.ghosts protocol.now.0)) spots.items) }
    ensures apart { IfOk result (λ spots. AreApart spots.items) }
{
    let pairs = pairs_of(alloc, protocol)?;
    let mut finder = Finder::new(alloc, protocol)?;
    for at in 0..pairs.len() {
        finder.add_all(protocol, &pairs, pairs[at])?;
    }
    Ok(finder.spots)
}
