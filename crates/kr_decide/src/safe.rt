//! Protocols that the decision calls safe.
ghost use Rattle.std.specs.Prelude.{◌≡◌, ◌↔◌, IfOk, IfErr};
ghost use Rattle.kr_model.specs.Safe.{IsSafe};
ghost use Rattle.kr_decide.specs.Survey.{Tells};

use crate::decision::{Decision, decide};
use crate::pair::Hole;
use kr_model::{Mode, Row, Side, Span};
use kr_protocol::{Protocol, SafeProtocol};
use std::alloc::Global;
use thiserror::Error;

/// A protocol that is safe: it answers as the one that was given, and every run under it is serializable in commit order.
#[derive(Drop)]
pub struct Safe<P: Protocol> {
    protocol: P,
    ghost safe: { IsSafe (P.table protocol) },
}

impl<P: Protocol> Safe<P> {
    /// Takes a protocol if it is safe; else gives it back with a hole, or where a growth was refused.
    pub fn new(alloc: Global, protocol: P) -> Result<Safe<P>, Rejected<P>>
        ensures ok { IfOk result (λ s. s.protocol ≡ protocol) }
        ensures safe { IfOk result (λ s. IsSafe (P.table protocol)) }
        ensures given_back { IfErr result (λ r. r.protocol ≡ protocol) }
        ensures cause { IfErr result (λ r. Tells (P.table protocol) r.cause) }
    {
        match decide(alloc, &protocol) {
            Ok(Decision::Safe) => Ok(Safe { protocol }),
            Ok(Decision::Unsafe(hole)) => Err(Rejected {
                protocol,
                cause: WhyRejected::Hole(hole),
            }),
            Err(_) => Err(Rejected {
                protocol,
                cause: WhyRejected::Memory,
            }),
        }
    }

    /// The protocol that was given.
    pub fn protocol(&self) -> &P
        ensures { result.now ≡ self.now.protocol }
    {
        &self.protocol
    }

    /// Gives the protocol back.
    pub fn into_inner(self) -> P
        ensures { result ≡ self.protocol }
    {
        self.protocol
    }
}

impl<P: Protocol> Protocol for Safe<P> {
    ghost table = { λ s. P.table s.protocol };

    ghost names = { λ s. P.names s.protocol };

    fn count(&self) -> Mode {
        self.protocol.count()
    }

    fn ok(&self, requested: Mode, held: Mode) -> bool {
        self.protocol.ok(requested, held)
    }

    fn row(&self, requested: Mode) -> u16 {
        self.protocol.row(requested)
    }

    fn convert(&self, held: Mode, requested: Mode) -> Mode {
        self.protocol.convert(held, requested)
    }

    fn name(&self, mode: Mode) -> &str {
        self.protocol.name(mode)
    }

    fn ask(&self, row: Row, side: Side, own_next: Mode) -> Option<(Mode, Span)> {
        self.protocol.ask(row, side, own_next)
    }

    fn updates(&self) -> bool {
        self.protocol.updates()
    }

    ghost lawful = { λ s. P.lawful s.protocol };

    ghost named = { λ s. P.named s.protocol };
}

impl<P: Protocol> SafeProtocol for Safe<P> {
    ghost safe = { λ s. s.safe };
}

/// Why a protocol isn't taken to be safe.
#[derive(Debug, Drop, Error)]
pub enum WhyRejected {
    /// It isn't: this lock lets in what it has to keep out.
    #[error("a lock lets in what it has to keep out")]
    Hole(Hole),
    /// A growth was refused.
    #[error("out of memory")]
    Memory,
}

/// A protocol that isn't taken to be safe, given back as it was.
#[derive(Drop)]
pub struct Rejected<P: Protocol> {
    pub protocol: P,
    pub cause: WhyRejected,
}
