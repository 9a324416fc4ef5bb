//! A protocol that keeps an insert inside the engine's lock until a gate is opened.

use kr_protocol::{Covered, Mode, Protocol, Row, Side, Span};
use std::sync::{Mutex, Wait};
use std::thread;

/// How far threads are, told to each other.
#[derive(Drop)]
pub struct Gate {
    /// A thread is inside the engine's lock.
    pub inside: Mutex<bool>,
    /// It may go on.
    pub open: Mutex<bool>,
    /// It went on, though nobody let it.
    pub late: Mutex<bool>,
    /// A fetch was answered.
    pub answered: Mutex<bool>,
}

impl Gate {
    pub fn new() -> Gate {
        Gate {
            inside: Mutex::new(false),
            open: Mutex::new(false),
            late: Mutex::new(false),
            answered: Mutex::new(false),
        }
    }
}

/// Whether a flag is set within so many turns.
pub fn comes<R: Wait>(rt: &R, flag: &Mutex<bool>, turns: u32) -> bool {
    for _ in 0..turns {
        if *flag.lock(rt) {
            return true;
        }
        thread::yield_now();
    }
    false
}

/// A protocol whose answer to an insert waits until the gate is open. An engine asks under its lock.
#[derive(Drop)]
pub struct Gated<'a, P: Covered, R: Wait> {
    pub protocol: P,
    pub rt: &'a R,
    pub gate: &'a Gate,
}

impl<'a, P: Covered, R: Wait> Gated<'a, P, R> {
    fn hold(&self) {
        *self.gate.inside.lock(self.rt) = true;
        if !comes(self.rt, &self.gate.open, 100_000_000) {
            *self.gate.late.lock(self.rt) = true;
        }
    }
}

impl<'a, P: Covered, R: Wait> Protocol for Gated<'a, P, R> {
    ghost table = { λ p. P.table p.protocol };

    ghost names = { λ p. P.names p.protocol };

    fn count(&self) -> Mode {
        P::count(&self.protocol)
    }

    fn ok(&self, requested: Mode, held: Mode) -> bool {
        P::ok(&self.protocol, requested, held)
    }

    fn row(&self, requested: Mode) -> u16 {
        P::row(&self.protocol, requested)
    }

    fn convert(&self, held: Mode, requested: Mode) -> Mode {
        P::convert(&self.protocol, held, requested)
    }

    fn name(&self, mode: Mode) -> &str {
        P::name(&self.protocol, mode)
    }

    fn ask(&self, row: Row, side: Side, own_next: Mode) -> Option<(Mode, Span)> {
        if matches!(row, Row::Insert) {
            self.hold();
        }
        P::ask(&self.protocol, row, side, own_next)
    }

    fn updates(&self) -> bool {
        P::updates(&self.protocol)
    }

    ghost lawful = { λ p. P.lawful p.protocol };

    ghost named = { λ p. P.named p.protocol };
}

impl<'a, P: Covered, R: Wait> Covered for Gated<'a, P, R> {
    ghost covered = { λ p. P.covered p.protocol };
}
