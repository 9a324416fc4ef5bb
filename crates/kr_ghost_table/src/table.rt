//! A table with ghosts in memory.
ghost use Rattle.std.specs.Prelude.{◌≡◌, refl};
ghost use Rattle.kr_table.specs.Tables.{protocol_of};
ghost use Rattle.kr_table.specs.Answer.{table_data};
ghost use Rattle.kr_ghost_table.specs.Tables.{IsGhostTable, ghost_protocol_of};
ghost use Rattle.kr_ghost_table.specs.Shown.{data_of, heirs_of};
ghost use Rattle.kr_ghost_table.specs.Lawful.{AsksModes, LeavesModes, lawful_ghosts_of};

use crate::vain::VainRows;
use kr_ghost::Vain;
use kr_ghost_protocol::GhostProtocol;
use kr_protocol::{Mode, Protocol, Row, Side, Span};
use kr_table::Table;

/// A table with ghosts that was read: its modes, what its rows request, and what becomes of the locks on a ghost that is purged. It
/// takes memory only where it is read.
#[derive(Debug)]
pub struct GhostTable {
    pub(crate) table: Table,
    pub(crate) revive: Option<(Mode, Span)>,
    pub(crate) revive_next: Option<(Mode, Span)>,
    pub(crate) vain: VainRows,
    pub(crate) heirs: Option<Vec<Mode>>,
    ghost sound: { IsGhostTable (data_of table revive revive_next vain heirs) },
    ghost asks: { AsksModes (data_of table revive revive_next vain heirs) },
    ghost leaves: { LeavesModes (protocol_of (table_data table)) (heirs_of heirs) },
}

impl GhostTable {
    /// The table of these parts: what an insert of a ghost requests on it and on the next name, what each vain step requests, and
    /// the heir of each mode from 1, 0 for none, or no heirs where a purge waits until there is no lock.
    pub(crate) fn new(
        table: Table,
        revive: Option<(Mode, Span)>,
        revive_next: Option<(Mode, Span)>,
        vain: VainRows,
        heirs: Option<Vec<Mode>>,
    ) -> GhostTable
        requires { IsGhostTable (data_of table revive revive_next vain heirs) }
        ensures { data_of result.table result.revive result.revive_next result.vain result.heirs ≡ data_of table revive revive_next vain heirs }
    {
        GhostTable {
            table,
            revive,
            revive_next,
            vain,
            heirs,
        }
    }
}

impl Protocol for GhostTable {
    ghost table = { λ t. protocol_of (table_data t.table) };

    ghost names = { λ t. (table_data t.table).modes.names };

    fn count(&self) -> Mode {
        self.table.count()
    }

    fn ok(&self, requested: Mode, held: Mode) -> bool {
        self.table.ok(requested, held)
    }

    fn row(&self, requested: Mode) -> u16 {
        self.table.row(requested)
    }

    fn convert(&self, held: Mode, requested: Mode) -> Mode {
        self.table.convert(held, requested)
    }

    fn name(&self, mode: Mode) -> &str {
        self.table.name(mode)
    }

    fn ask(&self, row: Row, side: Side, own_next: Mode) -> Option<(Mode, Span)> {
        self.table.ask(row, side, own_next)
    }

    fn updates(&self) -> bool {
        self.table.updates()
    }

    ghost lawful = { λ t. t.table.lawful };

    ghost named = { λ t. t.table.named };
}

impl GhostProtocol for GhostTable {
    ghost ghosts = { λ t. ghost_protocol_of (data_of t.table t.revive t.revive_next t.vain t.heirs) };

    fn revive(&self) -> Option<(Mode, Span)> {
        self.revive
    }

    fn revive_next(&self) -> Option<(Mode, Span)> {
        self.revive_next
    }

    fn vain(&self, vain: Vain) -> Option<Option<(Mode, Span)>> {
        self.vain.row(vain)
    }

    fn insert_hit_next(&self) -> Option<(Mode, Span)> {
        self.vain.insert_hit_next()
    }

    fn inherits(&self) -> bool {
        self.heirs.is_some()
    }

    fn heir(&self, mode: Mode) -> Mode {
        if mode == 0 {
            return 0;
        }
        match &self.heirs {
            Some(heirs) => heirs[mode as usize - 1],
            None => 0,
        }
    }

    ghost tables = { λ t. refl };

    ghost lawful_ghosts = { λ t. lawful_ghosts_of (data_of t.table t.revive t.revive_next t.vain t.heirs) t.table.lawful t.asks t.leaves };
}

/// By hand, so that crates above call it by its contract and don't prove a destructor of their own.
impl Drop for GhostTable {
    fn drop(self) {
        let GhostTable {
            table: _,
            revive: _,
            revive_next: _,
            vain: _,
            heirs: _,
        } = self;
    }
}
