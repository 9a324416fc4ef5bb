//! A table in memory.
ghost use Rattle.std.specs.Prelude.{◌≡◌, ◌≤◌, ℕ, IfNone, IfSome, length};
ghost use Rattle.kr_model.specs.Protocol.{Protocol, IsLawful};
ghost use Rattle.kr_model.specs.ModeNames.{name_of, AreModeNames};
ghost use Rattle.kr_table.specs.Matrix.{IsNamed};
ghost use Rattle.kr_table.specs.Tables.{IsTable, protocol_of};
ghost use Rattle.kr_table.specs.Shown.{data_of};

use crate::modes::Modes;
use kr_model::Mode;
use kr_protocol::{Protocol, Row, Side, Span};

/// What a table is made of. Insert and delete have a request for each own mode on the next name,
/// from 0, for no lock. Where updates are offered, the last is what they request.
#[derive(Debug, Drop)]
pub struct Parts {
    pub modes: Modes,
    pub fetch_hit: Option<(Mode, Span)>,
    pub fetch_miss: Option<(Mode, Span)>,
    pub scan_key: Option<(Mode, Span)>,
    pub scan_stop: Option<(Mode, Span)>,
    pub insert_current: Vec<Option<(Mode, Span)>>,
    pub insert_next: Vec<Option<(Mode, Span)>>,
    pub delete_current: Vec<Option<(Mode, Span)>>,
    pub delete_next: Vec<Option<(Mode, Span)>>,
    pub update: Option<Option<(Mode, Span)>>,
}

/// A table that was read: its modes and what its rows request. It takes memory only where it is
/// read.
#[derive(Debug)]
pub struct Table {
    pub(crate) parts: Parts,
    ghost sound: { IsTable (data_of parts) },
    ghost lawful: { IsLawful (protocol_of (data_of parts)) },
    ghost named: { AreModeNames (data_of parts).modes.names (length (data_of parts).modes.names) },
}

impl Table {
    /// The table of these parts. Takes no memory.
    pub fn new(parts: Parts) -> Table
        requires { IsTable (data_of parts) }
        ensures { result.parts ≡ parts }
    {
        Table { parts }
    }

    /// What the table is made of.
    pub fn parts(&self) -> &Parts
        ensures { result.now ≡ self.now.parts }
    {
        &self.parts
    }

    /// The mode with exactly this name. `none` is the name of no mode.
    pub fn find(&self, name: &str) -> Option<Mode>
        ensures some { IfSome result (IsNamed (data_of self.now.parts).modes name.now) }
        ensures only { IfSome result (λ m. (k : ℕ) → IsNamed (data_of self.now.parts).modes name.now k → k ≡ m) }
        ensures none { IfNone result ((m : ℕ) → IsNamed (data_of self.now.parts).modes name.now m → ⊥) }
    {
        self.parts.modes.find(name)
    }
}

impl Protocol for Table {
    ghost table = { λ t. protocol_of (data_of t.parts) };

    ghost names = { λ t. (data_of t.parts).modes.names };

    fn count(&self) -> Mode {
        self.parts.modes.count()
    }

    fn ok(&self, requested: Mode, held: Mode) -> bool {
        self.parts.modes.ok(requested, held)
    }

    fn row(&self, requested: Mode) -> u16 {
        self.parts.modes.row(requested)
    }

    fn convert(&self, held: Mode, requested: Mode) -> Mode {
        self.parts.modes.convert(held, requested)
    }

    fn name(&self, mode: Mode) -> &str {
        self.parts.modes.name(mode)
    }

    fn ask(&self, row: Row, side: Side, own_next: Mode) -> Option<(Mode, Span)> {
        match (row, side) {
            (Row::FetchHit, Side::Current) => self.parts.fetch_hit,
            (Row::FetchMiss, Side::Next) => self.parts.fetch_miss,
            (Row::ScanKey, Side::Current) => self.parts.scan_key,
            (Row::ScanStop, Side::Next) => self.parts.scan_stop,
            (Row::Insert, Side::Current) => self.parts.insert_current[own_next as usize],
            (Row::Insert, Side::Next) => self.parts.insert_next[own_next as usize],
            (Row::Delete, Side::Current) => self.parts.delete_current[own_next as usize],
            (Row::Delete, Side::Next) => self.parts.delete_next[own_next as usize],
            (Row::Update, Side::Current) => match self.parts.update {
                Some(request) => request,
                None => None,
            },
            (_, _) => None,
        }
    }

    fn updates(&self) -> bool {
        self.parts.update.is_some()
    }

    ghost lawful = { λ t. t.lawful };

    ghost named = { λ t. t.named };
}

/// By hand, so that crates above call it by its contract and don't prove a destructor of their own.
impl Drop for Table {
    fn drop(self) {
        let Table { parts: _ } = self;
    }
}
