//! The checker, and the protocols that it accepts.
ghost use Rattle.std.specs.Prelude.{◌≡◌, ◌≢◌, ◌≤◌, ◌↔◌, [], IsOk, IfOk, IfErr, ℕ, length};
ghost use Rattle.kr_model.specs.Protocol as model;
ghost use Rattle.kr_model.specs.Covers.{IsCovered, cases};
ghost use Rattle.kr_cases.specs.Told.{Tells};

use crate::finder::failed_cases;
use kr_model::{FailedCase, Mode, Row, Side, Span};
use kr_protocol::{Covered, Protocol};
use std::alloc::Global;
use thiserror::Error;

/// A protocol that the checker accepted: it answers as the one that was given, and every case of it holds.
#[derive(Drop)]
pub struct Checked<P: Protocol> {
    protocol: P,
    ghost covered: { IsCovered (P.table protocol) },
}

impl<P: Protocol> Checked<P> {
    /// The protocol that was given.
    pub fn protocol(&self) -> &P
        ensures { result.now ≡ self.now.protocol }
    {
        &self.protocol
    }

    /// Gives the protocol back.
    pub fn into_inner(self) -> P
        ensures { result ≡ self.protocol }
    {
        self.protocol
    }
}

impl<P: Protocol> Protocol for Checked<P> {
    ghost table = { λ c. P.table c.protocol };

    ghost names = { λ c. P.names c.protocol };

    fn count(&self) -> Mode {
        self.protocol.count()
    }

    fn ok(&self, requested: Mode, held: Mode) -> bool {
        self.protocol.ok(requested, held)
    }

    fn row(&self, requested: Mode) -> u16 {
        self.protocol.row(requested)
    }

    fn convert(&self, held: Mode, requested: Mode) -> Mode {
        self.protocol.convert(held, requested)
    }

    fn name(&self, mode: Mode) -> &str {
        self.protocol.name(mode)
    }

    fn ask(&self, row: Row, side: Side, own_next: Mode) -> Option<(Mode, Span)> {
        self.protocol.ask(row, side, own_next)
    }

    fn updates(&self) -> bool {
        self.protocol.updates()
    }

    ghost lawful = { λ c. P.lawful c.protocol };

    ghost named = { λ c. P.named c.protocol };
}

impl<P: Protocol> Covered for Checked<P> {
    ghost covered = { λ c. c.covered };
}

/// Why a protocol isn't accepted.
#[derive(Debug, Drop, Error)]
pub enum WhyRejected {
    /// These cases don't hold: all that fail, in the order in which they are checked.
    #[error("cases fail")]
    Failed(Vec<FailedCase>),
    /// Some case fails, and the growth of the list of them was refused.
    #[error("out of memory")]
    Memory,
}

/// A protocol that the checker doesn't accept, given back as it was.
#[derive(Drop)]
pub struct Rejected<P: Protocol> {
    pub protocol: P,
    pub cause: WhyRejected,
}

/// Accepts a protocol exactly where every case of it holds; else lists all cases that fail.
///
/// It looks once at each requester that a lock has to conflict with, and then at each case. The list alone takes memory, so a
/// protocol that is covered is accepted in any case.
pub fn check<P: Protocol>(alloc: Global, protocol: P) -> Result<Checked<P>, Rejected<P>>
    ensures exactly { IsOk result ↔ IsCovered (P.table protocol) }
    ensures ok { IfOk result (λ c. c.protocol ≡ protocol) }
    ensures given_back { IfErr result (λ r. r.protocol ≡ protocol) }
    ensures cause { IfErr result (λ r. Tells (P.table protocol) r.cause) }
{
    match failed_cases(alloc, &protocol) {
        Ok(failed) => {
            if failed.is_empty() {
                Ok(Checked { protocol })
            } else {
                let cause = WhyRejected::Failed(failed);
                Err(Rejected { protocol, cause })
            }
        }
        Err(_) => Err(Rejected {
            protocol,
            cause: WhyRejected::Memory,
        }),
    }
}

/// The number of cases of a protocol of so many modes that offers updates, or none.
pub fn cases(count: Mode, updates: bool) -> usize
    ensures { (p : model.Protocol) → p.count ≡ count → p.updates ≡ updates → length (cases p) ≡ result }
{
    let modes = count as usize;
    if updates {
        5 * (modes * modes) + 7 * (modes + 1) + 3 * ((modes + 1) * (modes + 1))
    } else {
        4 * (modes * modes) + 6 * (modes + 1) + 3 * ((modes + 1) * (modes + 1))
    }
}
