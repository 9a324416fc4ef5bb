//! Range-key locking with ghosts, which aren't purged while they are locked: rules of its own over range-key locking's modes.
ghost use Rattle.std.specs.Prelude.{refl};
ghost use Rattle.kr_model.specs.ModeNames.{range_key_names};
ghost use Rattle.kr_model.proofs.Bundled.{range_key_named};
ghost use Rattle.kr_ghost.specs.Tables.{range_ghost};
ghost use Rattle.kr_ghost.proofs.Bundled.{range_ghost_lawful};

use crate::protocol::GhostProtocol;
use kr_ghost::Vain;
use kr_protocol::{Mode, Protocol, RangeKey, Row, Side, Span};

// A mode is named by its range part and its key part.
const NONE: Mode = 0;

const N_S: Mode = 1;

const N_X: Mode = 2;

const S_N: Mode = 3;

const S_S: Mode = 4;

const S_X: Mode = 5;

const I_N: Mode = 6;

const X_N: Mode = 9;

const X_S: Mode = 10;

const X_X: Mode = 11;

/// Range-key locking with ghosts: its modes, their compatibility and their conversion are those of `RangeKey`.
///
/// What each row requests on the current name and on the next name, and until when it is held:
///
/// ```text
///   row          current                               next
///   fetch hit    N-S, to commit
///   fetch miss                                         S-S, to commit
///   scan key     S-S, to commit
///   scan stop                                          S-S, to commit
///   insert       X-X, to commit, where S-N, S-S,       I-N, for an instant
///                S-X, X-N, X-S or X-X is held on
///                next; else N-X, to commit
///   revive       N-X, to commit
///   delete       N-X, to commit
///   update       N-X, to commit
/// ```
///
/// A ghost isn't purged while there is a lock on it. The rows are this project's own.
#[derive(Clone, Copy, Debug, PartialEq, Eq)]
pub struct RangeGhost;

impl Protocol for RangeGhost {
    ghost table = { λ _. range_ghost.table };

    ghost names = { λ _. range_key_names };

    fn count(&self) -> Mode {
        RangeKey.count()
    }

    fn ok(&self, requested: Mode, held: Mode) -> bool {
        RangeKey.ok(requested, held)
    }

    fn row(&self, requested: Mode) -> u16 {
        RangeKey.row(requested)
    }

    fn convert(&self, held: Mode, requested: Mode) -> Mode {
        RangeKey.convert(held, requested)
    }

    fn name(&self, mode: Mode) -> &str {
        RangeKey.name(mode)
    }

    fn ask(&self, row: Row, side: Side, own_next: Mode) -> Option<(Mode, Span)> {
        match (row, side) {
            (Row::FetchHit, Side::Current) => Some((N_S, Span::Commit)),
            (Row::FetchMiss, Side::Next) => Some((S_S, Span::Commit)),
            (Row::ScanKey, Side::Current) => Some((S_S, Span::Commit)),
            (Row::ScanStop, Side::Next) => Some((S_S, Span::Commit)),
            (Row::Insert, Side::Current) => match own_next {
                S_N | S_S | S_X | X_N | X_S | X_X => Some((X_X, Span::Commit)),
                _ => Some((N_X, Span::Commit)),
            },
            (Row::Insert, Side::Next) => Some((I_N, Span::Instant)),
            (Row::Delete, Side::Current) => Some((N_X, Span::Commit)),
            (Row::Update, Side::Current) => Some((N_X, Span::Commit)),
            _ => None,
        }
    }

    fn updates(&self) -> bool {
        true
    }

    ghost lawful = { λ _. range_ghost_lawful.table };

    ghost named = { λ _. range_key_named };
}

impl GhostProtocol for RangeGhost {
    ghost ghosts = { λ _. range_ghost };

    fn revive(&self) -> Option<(Mode, Span)> {
        Some((N_X, Span::Commit))
    }

    fn revive_next(&self) -> Option<(Mode, Span)> {
        None
    }

    fn vain(&self, _vain: Vain) -> Option<Option<(Mode, Span)>> {
        None
    }

    fn insert_hit_next(&self) -> Option<(Mode, Span)> {
        None
    }

    fn inherits(&self) -> bool {
        false
    }

    fn heir(&self, _mode: Mode) -> Mode {
        NONE
    }

    ghost tables = { λ _. refl };

    ghost lawful_ghosts = { λ _. range_ghost_lawful };
}
