//! All pairs of lock states that two transactions can have on one name.
ghost use Rattle.std.specs.Prelude.{◌≡◌, false, ◌+◌, ◌<◌, ◌≤◌, length, IfOk, OnOk, IsTrue, ◌↔◌};
ghost use Rattle.kr_model.specs.Protocol.{IsLawful};
ghost use Rattle.kr_model.specs.Safe.{free};
ghost use Rattle.kr_decide.specs.Pairs.{pair_at, IsWay};
ghost use Rattle.kr_decide.specs.Findings.{Has, left, IsFound, Grows, IsAbove, AreNexts, IsSpot, MovesTo, MovesPlainly, MovesByNext, MovesByNexts, AllMoveByNext, IsAlike, HasNext, HasAllOf, IsFirst, IsGoing};
ghost use Rattle.std.specs.List.{Any};

use crate::moves::{FREE, after, is_blocked, may_ask, may_beside};
use crate::numbers::{PAIRS, pair_number};
use crate::pair::{Pair, Way};
use kr_model::{LockState, Memory, Row, Side};
use kr_protocol::Protocol;
use std::alloc::Global;

/// The pairs that were found so far.
#[derive(Drop)]
pub(crate) struct Found {
    /// The pairs, in the order in which they were found: breadth first.
    pub(crate) pairs: Vec<Pair>,
    /// Of each pair, by its number, whether it hasn't been found.
    unseen: Vec<bool>,
    /// The lock states that a transaction can have on the next name of a key, one of each mode and use of the gap.
    pub(crate) nexts: Vec<Above>,
}

/// A lock state that a transaction can have on the next name, where no other has anything: that of the first of the pair at
/// a place.
#[derive(Clone, Copy)]
pub(crate) struct Above {
    pub(crate) place: usize,
    pub(crate) state: LockState,
}

/// A transaction that may come to request something beside another: what the two have on the name, with the place of the
/// pair, and what the first has on the next name.
#[derive(Clone, Copy)]
struct Spot {
    from: usize,
    pair: Pair,
    above: Above,
}

/// Nothing on the next name, which is so in the first pair.
pub(crate) const NOTHING_ABOVE: Above = Above {
    place: 0,
    state: FREE,
};

/// Whether two lock states on the next name are the same to a request.
fn is_alike(state: LockState, other: LockState) -> bool
    ensures { IsTrue result ↔ IsAlike state other }
{
    state.mode == other.mode && state.gap == other.gap && state.deleted == other.deleted
}

/// Whether a lock state is that of a transaction that has nothing on the name.
fn is_free(state: LockState) -> bool
    ensures { IsTrue result ↔ (state ≡ free) }
{
    state == FREE
}

impl Found {
    /// At first no transaction has anything.
    pub(crate) fn new<P: Protocol>(alloc: Global, protocol: &P) -> Result<Found, Memory>
        ensures { IfOk result (λ f. IsGoing (P.table protocol.now) f 0) }
    {
        let mut found = Found {
            pairs: Vec::new(alloc),
            unseen: vec![in alloc; true; PAIRS]?,
            nexts: Vec::new(alloc),
        };
        found.pairs.push(Pair {
            own: FREE,
            other: FREE,
            way: Way::Start,
        })?;
        found.unseen[pair_number(FREE, FREE)] = false;
        Ok(found)
    }

    /// Puts a pair behind the others, unless it has been found before.
    fn add<P: Protocol>(&mut self, protocol: &P, pair: Pair) -> Result<(), Memory>
        requires found { IsFound (P.table protocol.now) self.old }
        requires way { IsWay (P.table protocol.now) self.old.pairs.items (length self.old.pairs.items) pair.own pair.other pair.way }
        requires own { pair.own.mode ≤ (P.table protocol.now).count }
        requires other { pair.other.mode ≤ (P.table protocol.now).count }
        ensures grows { OnOk result (Grows (P.table protocol.now) self.old self.new) }
        ensures has { OnOk result (Has self.new.pairs.items pair.own pair.other) }
    {
        let number = pair_number(pair.own, pair.other);
        if self.unseen[number] {
            self.pairs.push(pair)?;
            self.unseen[number] = false;
        }
        Ok(())
    }

    /// What a transaction comes to by a request, if it may make it and isn't blocked.
    fn add_move<P: Protocol>(
        &mut self,
        protocol: &P,
        spot: Spot,
        row: Row,
        side: Side,
    ) -> Result<(), Memory>
        requires found { IsFound (P.table protocol.now) self.old }
        requires spot { IsSpot self.old.pairs.items spot }
        ensures grows { OnOk result (Grows (P.table protocol.now) self.old self.new) }
        ensures moves { OnOk result (MovesTo (P.table protocol.now) self.new.pairs.items spot.pair.own spot.pair.other spot.above.state row side) }
    {
        let (own, other, next) = (spot.pair.own, spot.pair.other, spot.above.state);
        if !may_ask(protocol, row, side, own, next) || !may_beside(protocol, row, side, other) {
            return Ok(());
        }
        if is_blocked(protocol, row, side, own, next, other) {
            return Ok(());
        }
        let way = Way::Moved {
            from: spot.from,
            row,
            side,
            next: spot.above.place,
        };
        self.add(
            protocol,
            Pair {
                own: after(protocol, row, side, own, next),
                other,
                way,
            },
        )
    }

    /// What a transaction comes to by the requests that don't go by the next name.
    fn add_plain<P: Protocol>(&mut self, protocol: &P, spot: Spot) -> Result<(), Memory>
        requires found { IsFound (P.table protocol.now) self.old }
        requires spot { IsSpot self.old.pairs.items spot }
        ensures grows { OnOk result (Grows (P.table protocol.now) self.old self.new) }
        ensures moves { OnOk result (MovesPlainly (P.table protocol.now) self.new.pairs.items spot.pair.own spot.pair.other spot.above.state) }
    {
        self.add_move(protocol, spot, Row::FetchHit, Side::Current)?;
        self.add_move(protocol, spot, Row::FetchMiss, Side::Next)?;
        self.add_move(protocol, spot, Row::ScanKey, Side::Current)?;
        self.add_move(protocol, spot, Row::ScanStop, Side::Next)?;
        self.add_move(protocol, spot, Row::Insert, Side::Next)?;
        self.add_move(protocol, spot, Row::Delete, Side::Next)?;
        self.add_move(protocol, spot, Row::Update, Side::Current)?;
        Ok(())
    }

    /// What it comes to by the two that do.
    fn add_by_next<P: Protocol>(&mut self, protocol: &P, spot: Spot) -> Result<(), Memory>
        requires found { IsFound (P.table protocol.now) self.old }
        requires spot { IsSpot self.old.pairs.items spot }
        ensures grows { OnOk result (Grows (P.table protocol.now) self.old self.new) }
        ensures moves { OnOk result (MovesByNext (P.table protocol.now) self.new.pairs.items spot.pair.own spot.pair.other spot.above.state) }
    {
        self.add_move(protocol, spot, Row::Insert, Side::Current)?;
        self.add_move(protocol, spot, Row::Delete, Side::Current)?;
        Ok(())
    }

    /// The same, with each lock state on the next name that was found so far.
    fn add_nexts<P: Protocol>(
        &mut self,
        protocol: &P,
        from: usize,
        pair: Pair,
    ) -> Result<(), Memory>
        requires found { IsFound (P.table protocol.now) self.old }
        requires nexts { AreNexts self.old.pairs.items self.old.nexts.items }
        requires from { from < length self.old.pairs.items }
        requires pair { pair_at self.old.pairs.items from ≡ pair }
        ensures grows { OnOk result (Grows (P.table protocol.now) self.old self.new) }
        ensures moves { OnOk result (MovesByNexts (P.table protocol.now) self.new.pairs.items self.old.nexts.items (length self.old.nexts.items) pair.own pair.other) }
    {
        for at in 0..self.nexts.len() {
            let above = self.nexts[at];
            self.add_by_next(protocol, Spot { from, pair, above })?;
        }
        Ok(())
    }

    /// The same, for each pair up to a place, with one lock state on the next name.
    fn add_everywhere<P: Protocol>(
        &mut self,
        protocol: &P,
        last: usize,
        above: Above,
    ) -> Result<(), Memory>
        requires found { IsFound (P.table protocol.now) self.old }
        requires last { last < length self.old.pairs.items }
        requires above { IsAbove self.old.pairs.items above }
        ensures grows { OnOk result (Grows (P.table protocol.now) self.old self.new) }
        ensures moves { OnOk result (AllMoveByNext (P.table protocol.now) self.new.pairs.items self.old.pairs.items (last + 1) above.state) }
    {
        for from in 0..last + 1 {
            let pair = self.pairs[from];
            self.add_by_next(protocol, Spot { from, pair, above })?;
        }
        Ok(())
    }

    /// Whether a lock state like this is among those on the next name.
    fn has_next(&self, state: LockState) -> bool
        ensures { IsTrue result ↔ Any (λ a. IsAlike a.state state) self.now.nexts.items }
    {
        self.nexts.iter().any(|above| is_alike(above.state, state))
    }

    /// All that comes of a pair, with the lock states on the next name that were found so far.
    fn add_all<P: Protocol>(&mut self, protocol: &P, from: usize, pair: Pair) -> Result<(), Memory>
        requires found { IsFound (P.table protocol.now) self.old }
        requires first { IsFirst self.old.pairs.items }
        requires nexts { AreNexts self.old.pairs.items self.old.nexts.items }
        requires from { from < length self.old.pairs.items }
        requires pair { pair_at self.old.pairs.items from ≡ pair }
        ensures grows { OnOk result (Grows (P.table protocol.now) self.old self.new) }
        ensures all { OnOk result (HasAllOf (P.table protocol.now) self.new.pairs.items self.old.nexts.items pair.own pair.other) }
    {
        self.add(
            protocol,
            Pair {
                own: pair.other,
                other: pair.own,
                way: Way::Turned(from),
            },
        )?;
        self.add(
            protocol,
            Pair {
                own: FREE,
                other: pair.other,
                way: Way::Left(from),
            },
        )?;
        self.add_plain(
            protocol,
            Spot {
                from,
                pair,
                above: NOTHING_ABOVE,
            },
        )?;
        self.add_nexts(protocol, from, pair)?;
        Ok(())
    }

    /// Whether the first of a pair may stand on the next name with a lock state like none found so far.
    fn is_next(&self, pair: Pair) -> bool
        ensures alone { IsTrue result → pair.other ≡ free }
        ensures known { result ≡ false → pair.other ≡ free → pair.own.deleted ≡ false → HasNext self.now.nexts.items pair.own }
    {
        is_free(pair.other) && !pair.own.deleted && !self.has_next(pair.own)
    }

    /// Adds all that comes of the pair at a place, where this was done with those before it.
    pub(crate) fn follow<P: Protocol>(&mut self, protocol: &P, at: usize) -> Result<(), Memory>
        requires going { IsGoing (P.table protocol.now) self.old at }
        requires at { at < length self.old.pairs.items }
        ensures going { OnOk result (IsGoing (P.table protocol.now) self.new (at + 1)) }
        ensures longer { OnOk result (length self.old.pairs.items ≤ length self.new.pairs.items) }
        ensures total { OnOk result (length self.new.pairs.items + left self.new.unseen.items ≡ length self.old.pairs.items + left self.old.unseen.items) }
    {
        let pair = self.pairs[at];
        self.add_all(protocol, at, pair)?;
        if self.is_next(pair) {
            let above = Above {
                place: at,
                state: pair.own,
            };
            self.add_everywhere(protocol, at, above)?;
            self.nexts.push(above)?;
        }
        Ok(())
    }

    /// All pairs of lock states that two transactions can have on one name under a protocol. The only fault is that a growth
    /// was refused.
    pub(crate) fn all<P: Protocol>(alloc: Global, protocol: &P) -> Result<Found, Memory>
        ensures { IfOk result (λ f. IsGoing (P.table protocol.now) f (length f.pairs.items)) }
    {
        let mut found = Found::new(alloc, protocol)?;
        let mut at = 0;
        while at < found.pairs.len() {
            found.follow(protocol, at)?;
            at += 1;
        }
        Ok(found)
    }
}
