//! Turns of workers at the engine.
ghost use Rattle.std.specs.Prelude.{◌≡◌, ◌↔◌, ◌-◌, ◌<◌, ◌≤◌, IsTrue};

use std::marker::Model;
use std::sync::{Mutex, MutexGuard, Wait};

/// How many calls a worker makes in one turn at most.
pub const MOST_CALLS: usize = 256;

/// Turns of fewer calls than this are short.
const SHORT: usize = 32;

/// The turn of one worker, which it has or hasn't. One worker has it at a time, and makes some calls in it before another
/// gets in: so the engine's lock is found free, and no worker sleeps at each call. It never waits for others' transactions
/// in its turn.
///
/// A worker's first turn is of one call, and each further one of twice as many, up to the most: the transactions of a short
/// script meet step by step, and the workers of a long one seldom sleep. A worker begins each transaction in its turn. Once its
/// turns are long, it ends one without it where it has lost the turn meanwhile. Contracts see how many calls are left of the
/// turn, none where the worker hasn't it.
#[derive(Drop)]
pub struct Turn<'a> {
    turns: &'a Mutex<()>,
    own: Option<MutexGuard<'a, ()>>,
    /// How many calls are left of the turn, where the worker has it.
    left: usize,
    /// How many calls the next turn is of.
    next: usize,
}

impl<'a> Model for Turn<'a> {
    ghost use Rattle.std.specs.Prelude.{ℕ, ◌<◌, ◌≤◌, is_some, if◌then◌else◌};

    ghost Value = { ℕ };

    ghost view = { λ t. if is_some t.own then t.left else 0 };

    ghost invariant = { λ t. (0 < t.left) × ((t.left ≤ 256) × ((0 < t.next) × (t.next ≤ 256))) };
}

impl<'a> Turn<'a> {
    /// The turn of a worker that hasn't it yet.
    pub fn new(turns: &'a Mutex<()>) -> Turn<'a>
        ensures { result ≡ 0 }
    {
        Turn {
            turns,
            own: None,
            left: 1,
            next: 1,
        }
    }

    /// Waits for the turn, where the worker hasn't it.
    pub fn take<R: Wait>(&mut self, rt: &R)
        ensures own { 0 < self.new }
        ensures most { self.new ≤ MOST_CALLS }
        ensures kept { 0 < self.old → self.new ≡ self.old }
    {
        if self.own.is_none() {
            self.own = Some(self.turns.lock(rt));
            self.left = self.next;
            self.next = self.next.saturating_mul(2).min(MOST_CALLS);
        }
    }

    /// Waits for the turn amid a transaction, while the worker's turns are short. Where they are long, and the worker has lost its
    /// turn, it goes on without one: so a transaction whose locks others wait for doesn't wait for their turns.
    pub fn retake<R: Wait>(&mut self, rt: &R)
        ensures most { self.new ≤ MOST_CALLS }
        ensures kept { 0 < self.old → self.new ≡ self.old }
    {
        if self.next <= SHORT {
            self.take(rt);
        }
    }

    /// Gives the turn up.
    pub fn give(&mut self)
        ensures { self.new ≡ 0 }
    {
        self.own = None;
    }

    /// Counts a call that is made in the turn, and at the last one gives it up.
    pub fn count(&mut self)
        ensures { self.new ≡ self.old - 1 }
    {
        if self.left <= 1 {
            self.give();
        } else {
            self.left -= 1;
        }
    }

    /// Whether the worker has the turn.
    pub fn is_own(&self) -> bool
        ensures { IsTrue result ↔ (0 < self.now) }
    {
        self.own.is_some()
    }
}
