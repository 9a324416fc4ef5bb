//! A protocol whose deleted keys go at once.
ghost use Rattle.std.specs.Prelude.{refl};
ghost use Rattle.kr_kinds.specs.Kinds.{plain_ghosts};
ghost use Rattle.kr_kinds.specs.Kinds as kind;
ghost use Rattle.kr_kinds.specs.Lawful.{plain_lawful};

use crate::protocol::IndexProtocol;
use kr_ghost::Vain;
use kr_ghost_protocol::GhostProtocol;
use kr_protocol::{Mode, Protocol, Row, Side, Span};

/// A protocol whose deleted keys go at once. As a `GhostProtocol` it has no row for a ghost or a vain step, and inherits no locks.
#[derive(Clone, Copy, Drop)]
pub struct Gone<P>(pub P);

impl<P: Protocol> Protocol for Gone<P> {
    ghost table = { λ p. P.table p.0 };

    ghost names = { λ p. P.names p.0 };

    fn count(&self) -> Mode {
        self.0.count()
    }

    fn ok(&self, requested: Mode, held: Mode) -> bool {
        self.0.ok(requested, held)
    }

    fn row(&self, requested: Mode) -> u16 {
        self.0.row(requested)
    }

    fn convert(&self, held: Mode, requested: Mode) -> Mode {
        self.0.convert(held, requested)
    }

    fn name(&self, mode: Mode) -> &str {
        self.0.name(mode)
    }

    fn ask(&self, row: Row, side: Side, own_next: Mode) -> Option<(Mode, Span)> {
        self.0.ask(row, side, own_next)
    }

    fn updates(&self) -> bool {
        self.0.updates()
    }

    ghost lawful = { λ p. P.lawful p.0 };

    ghost named = { λ p. P.named p.0 };
}

impl<P: Protocol> GhostProtocol for Gone<P> {
    ghost ghosts = { λ p. plain_ghosts (P.table p.0) };

    fn revive(&self) -> Option<(Mode, Span)> {
        None
    }

    fn revive_next(&self) -> Option<(Mode, Span)> {
        None
    }

    fn vain(&self, _vain: Vain) -> Option<Option<(Mode, Span)>> {
        None
    }

    fn insert_hit_next(&self) -> Option<(Mode, Span)> {
        None
    }

    fn inherits(&self) -> bool {
        false
    }

    fn heir(&self, _mode: Mode) -> Mode {
        0
    }

    ghost tables = { λ _. refl };

    ghost lawful_ghosts = { λ p. plain_lawful (P.table p.0) (P.lawful p.0) };
}

impl<P: Protocol> IndexProtocol for Gone<P> {
    ghost index = { λ p. kind.Gone (P.table p.0) };

    fn leaves_ghosts(&self) -> bool {
        false
    }

    ghost has_tables = { λ _. refl };
}
