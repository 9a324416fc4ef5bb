//! All pairs of lock states that two transactions can have on one name, as far as they are found.
ghost use Rattle.std.specs.Prelude.{◌≡◌, ◌+◌, ◌*◌, ◌<◌, ◌≤◌, true, IfOk, IfSome, IfNone, OnOk};
ghost use Rattle.kr_ghost.specs.Protocol.{inherits};
ghost use Rattle.kr_ghost_decide.specs.Holds.{fact, facts, hold_at};
ghost use Rattle.kr_ghost_decide.specs.Found.{IsFound, IsReached, IsNew, IsPassed, HasMoved, HasAltered, HasInherited, HasAll, HasLeft, AreFollowed, AreLeft, AreHeirs, has, is_altered, found_at};

use crate::ask::count;
use crate::heir::{Heirs, has_heirs, inherited_by, left_of};
use crate::hold::{PLACES, Pair, hold_at, pair_at, place};
use crate::way::{alters, moved, ways};
use kr_ghost_protocol::GhostProtocol;
use kr_model::Memory;
use std::alloc::Global;

/// What is found so far.
#[derive(Drop)]
pub(crate) struct Found {
    /// Of each pair, by its number, whether it is found.
    marks: Vec<bool>,
    /// How many are.
    pub(crate) count: usize,
}

impl Found {
    /// At first neither has anything.
    pub(crate) fn new<P: GhostProtocol>(alloc: Global, protocol: &P) -> Result<Found, Memory>
        ensures { IfOk result (IsFound (P.ghosts protocol.now)) }
    {
        let _ = protocol;
        let mut marks = vec![in alloc; false; PLACES]?;
        marks[0] = true;
        marks[1] = true;
        Ok(Found { marks, count: 2 })
    }

    /// Whether a pair is found.
    fn has(&self, pair: Pair) -> bool
        ensures { result ≡ has self.now.marks.items (fact pair) }
    {
        match self.marks.get(place(pair)) {
            Some(mark) => *mark,
            None => false,
        }
    }

    /// The pair with this number, if it is found.
    pub(crate) fn at<P: GhostProtocol>(&self, protocol: &P, place: usize) -> Option<Pair>
        requires found { IsFound (P.ghosts protocol.now) self.now }
        requires place { place < 294912 }
        ensures found { facts result ≡ found_at self.now.marks.items place }
        ensures reached { IfSome result (λ q. IsReached (P.ghosts protocol.now) (fact q)) }
    {
        let _ = protocol;
        if self.marks[place] {
            Some(pair_at(place))
        } else {
            None
        }
    }

    /// Marks a pair that is new.
    fn mark<P: GhostProtocol>(&mut self, protocol: &P, pair: Pair)
        requires found { IsFound (P.ghosts protocol.now) self.old }
        requires new { IsNew (P.ghosts protocol.now) self.old.marks.items (fact pair) }
        ensures found { IsFound (P.ghosts protocol.now) self.new }
        ensures more { self.new.count ≡ self.old.count + 1 }
    {
        let _ = protocol;
        let place = place(pair);
        self.marks[place] = true;
        self.count += 1;
    }

    /// The first that is new of what comes of a pair by itself.
    fn new_by_ways<P: GhostProtocol>(&self, protocol: &P, pair: Pair) -> Option<Pair>
        requires { IsReached (P.ghosts protocol.now) (fact pair) }
        ensures some { IfSome result (λ q. IsNew (P.ghosts protocol.now) self.now.marks.items (fact q)) }
        ensures none { IfNone result (HasMoved (P.ghosts protocol.now) self.now.marks.items (fact pair)) }
    {
        let ways = ways();
        for number in 0..ways.len() {
            if let Some(then) = moved(protocol, pair, ways[number]) {
                if !self.has(then) {
                    return Some(then);
                }
            }
        }
        None
    }

    /// Whether a third with this lock state stands beside both, and may take the key away or bring it back.
    fn is_altered<P: GhostProtocol>(&self, protocol: &P, pair: Pair, number: usize) -> bool
        requires reached { IsReached (P.ghosts protocol.now) (fact pair) }
        requires number { number < ((P.ghosts protocol.now).table.count + 1) * 24 }
        requires few { (P.ghosts protocol.now).table.count ≤ 15 }
        ensures { result ≡ is_altered (P.ghosts protocol.now) self.now.marks.items (fact pair) (hold_at number) }
    {
        let (present, third) = (pair.present, hold_at(number));
        self.has(Pair {
            present,
            own: third,
            other: pair.own,
        }) && self.has(Pair {
            present,
            own: third,
            other: pair.other,
        }) && alters(protocol, pair, third)
    }

    /// The pair once a third takes the key away, or brings it back, if it is new.
    fn new_by_third<P: GhostProtocol>(&self, protocol: &P, pair: Pair) -> Option<Pair>
        requires found { IsFound (P.ghosts protocol.now) self.now }
        requires reached { IsReached (P.ghosts protocol.now) (fact pair) }
        ensures some { IfSome result (λ q. IsNew (P.ghosts protocol.now) self.now.marks.items (fact q)) }
        ensures none { IfNone result (HasAltered (P.ghosts protocol.now) self.now.marks.items (fact pair)) }
    {
        let then = Pair {
            present: !pair.present,
            own: pair.own,
            other: pair.other,
        };
        if self.has(then) {
            return None;
        }
        for number in 0..(count(protocol) as usize + 1) * 24 {
            if self.is_altered(protocol, pair, number) {
                return Some(then);
            }
        }
        None
    }

    /// The first that is new of what two have once a ghost below the name is purged.
    fn new_by_heirs<P: GhostProtocol>(
        &self,
        protocol: &P,
        heirs: &[Heirs],
        pair: Pair,
    ) -> Option<Pair>
        requires left { AreLeft (P.ghosts protocol.now) heirs.now }
        requires reached { IsReached (P.ghosts protocol.now) (fact pair) }
        ensures some { IfSome result (λ q. IsNew (P.ghosts protocol.now) self.now.marks.items (fact q)) }
        ensures none { IfNone result (HasInherited (P.ghosts protocol.now) self.now.marks.items heirs.now (fact pair)) }
    {
        for at in 0..heirs.len() {
            if let Some(then) = inherited_by(protocol, pair, heirs[at]) {
                if !self.has(then) {
                    return Some(then);
                }
            }
        }
        None
    }

    /// The first that is new of all that comes of a pair.
    fn new_from<P: GhostProtocol>(&self, protocol: &P, heirs: &[Heirs], pair: Pair) -> Option<Pair>
        requires found { IsFound (P.ghosts protocol.now) self.now }
        requires left { AreLeft (P.ghosts protocol.now) heirs.now }
        requires reached { IsReached (P.ghosts protocol.now) (fact pair) }
        ensures some { IfSome result (λ q. IsNew (P.ghosts protocol.now) self.now.marks.items (fact q)) }
        ensures none { IfNone result (HasAll (P.ghosts protocol.now) self.now.marks.items heirs.now (fact pair)) }
    {
        if let Some(then) = self.new_by_ways(protocol, pair) {
            return Some(then);
        }
        if let Some(then) = self.new_by_third(protocol, pair) {
            return Some(then);
        }
        self.new_by_heirs(protocol, heirs, pair)
    }

    /// Marks all that comes of a pair.
    fn follow<P: GhostProtocol>(&mut self, protocol: &P, heirs: &[Heirs], pair: Pair)
        requires found { IsFound (P.ghosts protocol.now) self.old }
        requires left { AreLeft (P.ghosts protocol.now) heirs.now }
        requires reached { IsReached (P.ghosts protocol.now) (fact pair) }
        ensures { IsPassed (P.ghosts protocol.now) (λ m. HasAll (P.ghosts protocol.now) m heirs.now (fact pair)) self.old self.new }
    {
        while let Some(then) = self.new_from(protocol, heirs, pair) {
            self.mark(protocol, then);
        }
    }

    /// Marks all that comes of each pair.
    pub(crate) fn pass<P: GhostProtocol>(&mut self, protocol: &P, heirs: &[Heirs])
        requires found { IsFound (P.ghosts protocol.now) self.old }
        requires left { AreLeft (P.ghosts protocol.now) heirs.now }
        ensures { IsPassed (P.ghosts protocol.now) (AreFollowed (P.ghosts protocol.now) heirs.now 294912) self.old self.new }
    {
        for place in 0..PLACES {
            if let Some(pair) = self.at(protocol, place) {
                self.follow(protocol, heirs, pair);
            }
        }
    }

    /// Puts what is left of the pair with this number behind the list, if the pair is found and that is new.
    fn add_left<P: GhostProtocol>(
        &self,
        protocol: &P,
        list: &mut Vec<Heirs>,
        place: usize,
    ) -> Result<(), Memory>
        requires found { IsFound (P.ghosts protocol.now) self.now }
        requires inherits { inherits (P.ghosts protocol.now).purges ≡ true }
        requires place { place < 294912 }
        requires heirs { AreHeirs (P.ghosts protocol.now) self.now.marks.items place list.old.items }
        ensures { OnOk result (AreHeirs (P.ghosts protocol.now) self.now.marks.items (place + 1) list.new.items) }
    {
        if let Some(pair) = self.at(protocol, place) {
            if let Some(heirs) = left_of(protocol, pair) {
                if !has_heirs(list, heirs) {
                    list.push(heirs)?;
                }
            }
        }
        Ok(())
    }

    /// What is left of each pair on a ghost that is purged.
    pub(crate) fn heirs<P: GhostProtocol>(
        &self,
        alloc: Global,
        protocol: &P,
    ) -> Result<Vec<Heirs>, Memory>
        requires { IsFound (P.ghosts protocol.now) self.now }
        ensures { IfOk result (λ l. AreHeirs (P.ghosts protocol.now) self.now.marks.items 294912 l.items) }
    {
        let mut list = Vec::new(alloc);
        if protocol.inherits() {
            for place in 0..PLACES {
                self.add_left(protocol, &mut list, place)?;
            }
        }
        Ok(list)
    }
}
