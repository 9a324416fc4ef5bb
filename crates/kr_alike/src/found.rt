//! The least set of what two transactions can hold on one name that is closed, as far as it is found.
ghost use Rattle.std.specs.Prelude.{◌≡◌, ◌<◌, ◌↔◌, ℕ, true, false, IsTrue, IfOk};
ghost use Rattle.kr_alike.specs.Closed.{none, IsClosedFor, HasClosedSetFor};
ghost use Rattle.kr_alike.specs.Marks.{ask, has, is_marked, is_met, is_within, modes_of, plain_ask, AreMovesMet, IsPairMet, AreMetBeside};
ghost use Rattle.kr_alike.specs.Growth.{Comes, IsFound, IsPassed, IsReached};

use crate::answer::{after, answer, plain};
use crate::coming::Coming;
use crate::modes::{Ask, Modes, NONE, is_within, modes_of, place};
use kr_model::{Memory, Row, Side};
use kr_protocol::Protocol;
use std::alloc::Global;

/// How many places there are, of at most 15 modes.
const PLACES: usize = 65536;

/// What is found so far.
#[derive(Drop)]
pub(crate) struct Found {
    /// By its place, whether what two transactions hold is found.
    marks: Vec<bool>,
    /// How many are.
    count: usize,
}

impl Found {
    /// At first neither holds a lock.
    pub(crate) fn new<P: Protocol, Q: Protocol>(
        alloc: Global,
        first: &P,
        second: &Q,
        coming: &Coming,
    ) -> Result<Found, Memory>
        ensures { IfOk result (IsFound (P.table first.now) (Q.table second.now) coming.now) }
    {
        let mut marks = vec![in alloc; false; PLACES]?;
        marks[place(NONE, NONE)] = true;
        Ok(Found { marks, count: 1 })
    }

    /// Whether what two transactions hold is found, and the first alone.
    fn has<P: Protocol, Q: Protocol>(&self, first: &P, second: &Q, own: Modes, other: Modes) -> bool
        ensures { result ≡ has (P.table first.now) (Q.table second.now) self.now.marks.items own other }
    {
        if !is_within(first, second, own) || !is_within(first, second, other) {
            return false;
        }
        self.is_marked(own, NONE) && self.is_marked(own, other)
    }

    /// Whether what two transactions hold is marked.
    fn is_marked(&self, own: Modes, other: Modes) -> bool
        ensures { result ≡ is_marked self.now.marks.items own other }
    {
        match self.marks.get(place(own, other)) {
            Some(mark) => *mark,
            None => false,
        }
    }

    /// Marks what two transactions hold.
    fn mark<P: Protocol, Q: Protocol>(
        &mut self,
        first: &P,
        second: &Q,
        coming: &Coming,
        own: Modes,
        other: Modes,
    )
        requires found { IsFound (P.table first.now) (Q.table second.now) coming.now self.old }
        requires own { IsTrue (is_within (P.table first.now) (Q.table second.now) own) }
        requires other { IsTrue (is_within (P.table first.now) (Q.table second.now) other) }
        requires reached { IsReached (P.table first.now) (Q.table second.now) coming.now own other }
        ensures { IsPassed (P.table first.now) (Q.table second.now) coming.now (λ m. IsTrue (is_marked m own other)) self.old self.new true }
    {
        let place = place(own, other);
        if !self.marks[place] {
            self.marks[place] = true;
            self.count += 1;
        }
    }

    /// Takes what two transactions hold into the set, and the first alone.
    fn put<P: Protocol, Q: Protocol>(
        &mut self,
        first: &P,
        second: &Q,
        coming: &Coming,
        own: Modes,
        other: Modes,
    )
        requires found { IsFound (P.table first.now) (Q.table second.now) coming.now self.old }
        requires own { IsTrue (is_within (P.table first.now) (Q.table second.now) own) }
        requires other { IsTrue (is_within (P.table first.now) (Q.table second.now) other) }
        requires reached { IsReached (P.table first.now) (Q.table second.now) coming.now own other }
        ensures { IsPassed (P.table first.now) (Q.table second.now) coming.now (λ m. IsTrue (has (P.table first.now) (Q.table second.now) m own other)) self.old self.new true }
    {
        self.mark(first, second, coming, own, NONE);
        self.mark(first, second, coming, own, other);
    }

    /// Takes what follows a request into the set. `false` where it is blocked under one table alone.
    fn follow<P: Protocol, Q: Protocol>(
        &mut self,
        first: &P,
        second: &Q,
        coming: &Coming,
        ask: Ask,
    ) -> bool
        requires found { IsFound (P.table first.now) (Q.table second.now) coming.now self.old }
        requires own { IsTrue (is_within (P.table first.now) (Q.table second.now) ask.own) }
        requires other { IsTrue (is_within (P.table first.now) (Q.table second.now) ask.other) }
        requires next { IsTrue (is_within (P.table first.now) (Q.table second.now) ask.next) }
        requires reached { IsReached (P.table first.now) (Q.table second.now) coming.now ask.own ask.other }
        requires alone { IsReached (P.table first.now) (Q.table second.now) coming.now ask.next none }
        ensures { IsPassed (P.table first.now) (Q.table second.now) coming.now (λ m. IsTrue (is_met (P.table first.now) (Q.table second.now) coming.now m ask)) self.old self.new result }
    {
        if !coming.has(ask) {
            return true;
        }
        match answer(first, second, ask) {
            None => false,
            Some(true) => true,
            Some(false) => {
                let after = after(first, second, ask);
                self.put(first, second, coming, after, ask.other);
                true
            }
        }
    }

    /// Follows all requests that go by no mode on another name.
    fn follow_plain<P: Protocol, Q: Protocol>(
        &mut self,
        first: &P,
        second: &Q,
        coming: &Coming,
        own: Modes,
        other: Modes,
    ) -> bool
        requires found { IsFound (P.table first.now) (Q.table second.now) coming.now self.old }
        requires own { IsTrue (is_within (P.table first.now) (Q.table second.now) own) }
        requires other { IsTrue (is_within (P.table first.now) (Q.table second.now) other) }
        requires reached { IsReached (P.table first.now) (Q.table second.now) coming.now own other }
        ensures { IsPassed (P.table first.now) (Q.table second.now) coming.now (λ m. (k : ℕ) → k < 12 → IsTrue (is_met (P.table first.now) (Q.table second.now) coming.now m (plain_ask own other k))) self.old self.new result }
    {
        for number in 0..12 {
            let (row, side) = plain(number);
            let ask = Ask {
                row,
                side,
                own,
                other,
                next: NONE,
            };
            if !self.follow(first, second, coming, ask) {
                return false;
            }
        }
        true
    }

    /// Follows an insert and a delete at the side current, with these modes on the next name, if one alone can hold them.
    fn follow_moves<P: Protocol, Q: Protocol>(
        &mut self,
        first: &P,
        second: &Q,
        coming: &Coming,
        own: Modes,
        other: Modes,
        next: Modes,
    ) -> bool
        requires found { IsFound (P.table first.now) (Q.table second.now) coming.now self.old }
        requires own { IsTrue (is_within (P.table first.now) (Q.table second.now) own) }
        requires other { IsTrue (is_within (P.table first.now) (Q.table second.now) other) }
        requires reached { IsReached (P.table first.now) (Q.table second.now) coming.now own other }
        ensures { IsPassed (P.table first.now) (Q.table second.now) coming.now (λ m. AreMovesMet (P.table first.now) (Q.table second.now) coming.now m own other next) self.old self.new result }
    {
        if !self.has(first, second, next, NONE) {
            return true;
        }
        let side = Side::Current;
        let insert = Ask {
            row: Row::Insert,
            side,
            own,
            other,
            next,
        };
        let delete = Ask {
            row: Row::Delete,
            side,
            own,
            other,
            next,
        };
        self.follow(first, second, coming, insert) && self.follow(first, second, coming, delete)
    }

    /// Follows them with all modes on the next name.
    fn follow_all_moves<P: Protocol, Q: Protocol>(
        &mut self,
        first: &P,
        second: &Q,
        coming: &Coming,
        own: Modes,
        other: Modes,
    ) -> bool
        requires found { IsFound (P.table first.now) (Q.table second.now) coming.now self.old }
        requires own { IsTrue (is_within (P.table first.now) (Q.table second.now) own) }
        requires other { IsTrue (is_within (P.table first.now) (Q.table second.now) other) }
        requires reached { IsReached (P.table first.now) (Q.table second.now) coming.now own other }
        ensures { IsPassed (P.table first.now) (Q.table second.now) coming.now (λ m. (c : ℕ) → c < 256 → AreMovesMet (P.table first.now) (Q.table second.now) coming.now m own other (modes_of c)) self.old self.new result }
    {
        for code in 0..=255 {
            if !self.follow_moves(first, second, coming, own, other, modes_of(code)) {
                return false;
            }
        }
        true
    }

    /// Takes all that two transactions come to from what they hold into the set, if it has that.
    fn follow_pair<P: Protocol, Q: Protocol>(
        &mut self,
        first: &P,
        second: &Q,
        coming: &Coming,
        own: Modes,
        other: Modes,
    ) -> bool
        requires { IsFound (P.table first.now) (Q.table second.now) coming.now self.old }
        ensures { IsPassed (P.table first.now) (Q.table second.now) coming.now (λ m. IsTrue (has (P.table first.now) (Q.table second.now) m own other) → IsPairMet (P.table first.now) (Q.table second.now) coming.now m own other) self.old self.new result }
    {
        if !self.has(first, second, own, other) {
            return true;
        }
        self.put(first, second, coming, other, own);
        self.put(first, second, coming, NONE, other);
        self.follow_plain(first, second, coming, own, other)
            && self.follow_all_moves(first, second, coming, own, other)
    }

    /// Does so for all that the other can hold.
    fn follow_beside<P: Protocol, Q: Protocol>(
        &mut self,
        first: &P,
        second: &Q,
        coming: &Coming,
        own: Modes,
    ) -> bool
        requires { IsFound (P.table first.now) (Q.table second.now) coming.now self.old }
        ensures { IsPassed (P.table first.now) (Q.table second.now) coming.now (λ m. AreMetBeside (P.table first.now) (Q.table second.now) coming.now m own) self.old self.new result }
    {
        if !self.has(first, second, own, NONE) {
            return true;
        }
        for code in 0..=255 {
            if !self.follow_pair(first, second, coming, own, modes_of(code)) {
                return false;
            }
        }
        true
    }

    /// Does so for all that the set has. `false` where a request is blocked under one table alone: then no set is closed.
    fn pass<P: Protocol, Q: Protocol>(&mut self, first: &P, second: &Q, coming: &Coming) -> bool
        requires { IsFound (P.table first.now) (Q.table second.now) coming.now self.old }
        ensures { IsPassed (P.table first.now) (Q.table second.now) coming.now (λ m. (c : ℕ) → c < 256 → AreMetBeside (P.table first.now) (Q.table second.now) coming.now m (modes_of c)) self.old self.new result }
    {
        for code in 0..=255 {
            if !self.follow_beside(first, second, coming, modes_of(code)) {
                return false;
            }
        }
        true
    }

    /// Passes until nothing is new: whether the set is closed then. Else no set is.
    pub(crate) fn close<P: Protocol, Q: Protocol>(
        &mut self,
        first: &P,
        second: &Q,
        coming: &Coming,
    ) -> bool
        requires { IsFound (P.table first.now) (Q.table second.now) coming.now self.old }
        ensures closed { IsTrue result → IsClosedFor (P.table first.now) (Q.table second.now) (Comes coming.now) (λ x y. IsTrue (has (P.table first.now) (Q.table second.now) self.new.marks.items x y)) }
        ensures none { result ≡ false → HasClosedSetFor (P.table first.now) (Q.table second.now) (Comes coming.now) → ⊥ }
    {
        let mut before = 0;
        while before < self.count {
            before = self.count;
            if !self.pass(first, second, coming) {
                return false;
            }
        }
        true
    }
}
