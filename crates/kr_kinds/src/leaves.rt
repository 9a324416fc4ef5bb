//! A protocol whose deleted keys stay as ghosts.
ghost use Rattle.std.specs.Prelude.{refl};
ghost use Rattle.kr_kinds.specs.Kinds as kind;

use crate::protocol::IndexProtocol;
use kr_ghost::Vain;
use kr_ghost_protocol::GhostProtocol;
use kr_protocol::{Mode, Protocol, Row, Side, Span};

/// A protocol whose deleted keys stay as ghosts until they are purged: it answers as the one inside.
#[derive(Clone, Copy, Drop)]
pub struct Leaves<P>(pub P);

impl<P: GhostProtocol> Protocol for Leaves<P> {
    ghost table = { λ p. P.table p.0 };

    ghost names = { λ p. P.names p.0 };

    fn count(&self) -> Mode {
        self.0.count()
    }

    fn ok(&self, requested: Mode, held: Mode) -> bool {
        self.0.ok(requested, held)
    }

    fn row(&self, requested: Mode) -> u16 {
        self.0.row(requested)
    }

    fn convert(&self, held: Mode, requested: Mode) -> Mode {
        self.0.convert(held, requested)
    }

    fn name(&self, mode: Mode) -> &str {
        self.0.name(mode)
    }

    fn ask(&self, row: Row, side: Side, own_next: Mode) -> Option<(Mode, Span)> {
        self.0.ask(row, side, own_next)
    }

    fn updates(&self) -> bool {
        self.0.updates()
    }

    ghost lawful = { λ p. P.lawful p.0 };

    ghost named = { λ p. P.named p.0 };
}

impl<P: GhostProtocol> GhostProtocol for Leaves<P> {
    ghost ghosts = { λ p. P.ghosts p.0 };

    fn revive(&self) -> Option<(Mode, Span)> {
        self.0.revive()
    }

    fn revive_next(&self) -> Option<(Mode, Span)> {
        self.0.revive_next()
    }

    fn vain(&self, vain: Vain) -> Option<Option<(Mode, Span)>> {
        self.0.vain(vain)
    }

    fn insert_hit_next(&self) -> Option<(Mode, Span)> {
        self.0.insert_hit_next()
    }

    fn inherits(&self) -> bool {
        self.0.inherits()
    }

    fn heir(&self, mode: Mode) -> Mode {
        self.0.heir(mode)
    }

    ghost tables = { λ p. P.tables p.0 };

    ghost lawful_ghosts = { λ p. P.lawful_ghosts p.0 };
}

impl<P: GhostProtocol> IndexProtocol for Leaves<P> {
    ghost index = { λ p. kind.Leaves (P.ghosts p.0) };

    fn leaves_ghosts(&self) -> bool {
        true
    }

    ghost has_tables = { λ _. refl };
}
