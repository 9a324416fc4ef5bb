//! Key-value locking with updates: one more rule than key-value locking has.
ghost use Rattle.kr_model.specs.ModeNames.{kvl_names};
ghost use Rattle.kr_model.specs.KvlUpdate.{kvl_update};
ghost use Rattle.kr_model.proofs.Bundled.{kvl_update_lawful, kvl_named, kvl_update_covered};

use crate::kvl::{Kvl, X, mode_name};
use crate::protocol::{Covered, Protocol};
use crate::request::for_commit;
use kr_model::{Mode, Row, Side, Span};

/// Key-value locking with updates: its modes and its rows are those of `Kvl`, and an update takes X
/// on its key, to commit. That row is this project's own.
#[derive(Clone, Copy, Debug, PartialEq, Eq)]
pub struct KvlUpdate;

impl Protocol for KvlUpdate {
    ghost table = { λ _. kvl_update };

    ghost names = { λ _. kvl_names };

    fn count(&self) -> Mode {
        Kvl.count()
    }

    fn ok(&self, requested: Mode, held: Mode) -> bool {
        Kvl.ok(requested, held)
    }

    fn row(&self, requested: Mode) -> u16 {
        Kvl.row(requested)
    }

    fn convert(&self, held: Mode, requested: Mode) -> Mode {
        Kvl.convert(held, requested)
    }

    fn name(&self, mode: Mode) -> &str {
        mode_name(mode)
    }

    fn ask(&self, row: Row, side: Side, own_next: Mode) -> Option<(Mode, Span)> {
        match (row, side) {
            (Row::Update, Side::Current) => for_commit(X),
            _ => Kvl.ask(row, side, own_next),
        }
    }

    fn updates(&self) -> bool {
        true
    }

    ghost lawful = { λ _. kvl_update_lawful };

    ghost named = { λ _. kvl_named };
}

impl Covered for KvlUpdate {
    ghost covered = { λ _. kvl_update_covered };
}
