//! Tables whose deletes leave ghosts.
ghost use Rattle.std.specs.Prelude.{refl};
ghost use Rattle.kr_cli.specs.GhostLawful.{lawful_ghosts_of, named_of};
ghost use Rattle.kr_cli.specs.GhostTables.{ghosts_of, names_of};

use kr_ghost::Vain;
use kr_ghost_protocol::{GhostProtocol, NextKeyGhost, RangeGhost, RecordGap};
use kr_ghost_table::GhostTable;
use kr_protocol::{Mode, Protocol, Row, Side, Span};

/// One of the tables with ghosts that the programs bring, or one that was read.
#[derive(Drop)]
pub enum AnyGhostTable {
    /// `@record-gap`
    RecordGap,
    /// `@range-ghost`
    RangeGhost,
    /// `@next-key-ghost`
    NextKeyGhost,
    /// The table in a file.
    Read(GhostTable),
}

impl Protocol for AnyGhostTable {
    ghost table = { λ t. (ghosts_of t).table };

    ghost names = { λ t. names_of t };

    fn count(&self) -> Mode {
        match self {
            AnyGhostTable::RecordGap => RecordGap.count(),
            AnyGhostTable::RangeGhost => RangeGhost.count(),
            AnyGhostTable::NextKeyGhost => NextKeyGhost.count(),
            AnyGhostTable::Read(table) => table.count(),
        }
    }

    fn ok(&self, requested: Mode, held: Mode) -> bool {
        match self {
            AnyGhostTable::RecordGap => RecordGap.ok(requested, held),
            AnyGhostTable::RangeGhost => RangeGhost.ok(requested, held),
            AnyGhostTable::NextKeyGhost => NextKeyGhost.ok(requested, held),
            AnyGhostTable::Read(table) => table.ok(requested, held),
        }
    }

    fn row(&self, requested: Mode) -> u16 {
        match self {
            AnyGhostTable::RecordGap => RecordGap.row(requested),
            AnyGhostTable::RangeGhost => RangeGhost.row(requested),
            AnyGhostTable::NextKeyGhost => NextKeyGhost.row(requested),
            AnyGhostTable::Read(table) => table.row(requested),
        }
    }

    fn convert(&self, held: Mode, requested: Mode) -> Mode {
        match self {
            AnyGhostTable::RecordGap => RecordGap.convert(held, requested),
            AnyGhostTable::RangeGhost => RangeGhost.convert(held, requested),
            AnyGhostTable::NextKeyGhost => NextKeyGhost.convert(held, requested),
            AnyGhostTable::Read(table) => table.convert(held, requested),
        }
    }

    fn name(&self, mode: Mode) -> &str {
        match self {
            AnyGhostTable::RecordGap => RecordGap.name(mode),
            AnyGhostTable::RangeGhost => RangeGhost.name(mode),
            AnyGhostTable::NextKeyGhost => NextKeyGhost.name(mode),
            AnyGhostTable::Read(table) => table.name(mode),
        }
    }

    fn ask(&self, row: Row, side: Side, own_next: Mode) -> Option<(Mode, Span)> {
        match self {
            AnyGhostTable::RecordGap => RecordGap.ask(row, side, own_next),
            AnyGhostTable::RangeGhost => RangeGhost.ask(row, side, own_next),
            AnyGhostTable::NextKeyGhost => NextKeyGhost.ask(row, side, own_next),
            AnyGhostTable::Read(table) => table.ask(row, side, own_next),
        }
    }

    fn updates(&self) -> bool {
        match self {
            AnyGhostTable::RecordGap => RecordGap.updates(),
            AnyGhostTable::RangeGhost => RangeGhost.updates(),
            AnyGhostTable::NextKeyGhost => NextKeyGhost.updates(),
            AnyGhostTable::Read(table) => table.updates(),
        }
    }

    ghost lawful = { λ t. (lawful_ghosts_of t).table };

    ghost named = { λ t. named_of t };
}

impl GhostProtocol for AnyGhostTable {
    ghost ghosts = { λ t. ghosts_of t };

    fn revive(&self) -> Option<(Mode, Span)> {
        match self {
            AnyGhostTable::RecordGap => RecordGap.revive(),
            AnyGhostTable::RangeGhost => RangeGhost.revive(),
            AnyGhostTable::NextKeyGhost => NextKeyGhost.revive(),
            AnyGhostTable::Read(table) => table.revive(),
        }
    }

    fn revive_next(&self) -> Option<(Mode, Span)> {
        match self {
            AnyGhostTable::RecordGap => RecordGap.revive_next(),
            AnyGhostTable::RangeGhost => RangeGhost.revive_next(),
            AnyGhostTable::NextKeyGhost => NextKeyGhost.revive_next(),
            AnyGhostTable::Read(table) => table.revive_next(),
        }
    }

    fn vain(&self, vain: Vain) -> Option<Option<(Mode, Span)>> {
        match self {
            AnyGhostTable::RecordGap => RecordGap.vain(vain),
            AnyGhostTable::RangeGhost => RangeGhost.vain(vain),
            AnyGhostTable::NextKeyGhost => NextKeyGhost.vain(vain),
            AnyGhostTable::Read(table) => table.vain(vain),
        }
    }

    fn insert_hit_next(&self) -> Option<(Mode, Span)> {
        match self {
            AnyGhostTable::RecordGap => RecordGap.insert_hit_next(),
            AnyGhostTable::RangeGhost => RangeGhost.insert_hit_next(),
            AnyGhostTable::NextKeyGhost => NextKeyGhost.insert_hit_next(),
            AnyGhostTable::Read(table) => table.insert_hit_next(),
        }
    }

    fn inherits(&self) -> bool {
        match self {
            AnyGhostTable::RecordGap => RecordGap.inherits(),
            AnyGhostTable::RangeGhost => RangeGhost.inherits(),
            AnyGhostTable::NextKeyGhost => NextKeyGhost.inherits(),
            AnyGhostTable::Read(table) => table.inherits(),
        }
    }

    fn heir(&self, mode: Mode) -> Mode {
        match self {
            AnyGhostTable::RecordGap => RecordGap.heir(mode),
            AnyGhostTable::RangeGhost => RangeGhost.heir(mode),
            AnyGhostTable::NextKeyGhost => NextKeyGhost.heir(mode),
            AnyGhostTable::Read(table) => table.heir(mode),
        }
    }

    ghost tables = { λ _. refl };

    ghost lawful_ghosts = { λ t. lawful_ghosts_of t };
}
