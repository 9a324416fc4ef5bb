//! Index-specific locking: its tables and its rules.
ghost use Rattle.kr_model.specs.ModeNames.{im_names};
ghost use Rattle.kr_model.specs.Im.{im};
ghost use Rattle.kr_model.proofs.Bundled.{im_lawful, im_named, im_covered};

use crate::protocol::{Covered, Protocol};
use crate::request::{at_once, for_commit};
use kr_model::{Mode, Row, Side, Span};

const NONE: Mode = 0;

/// Shared.
const S: Mode = 1;

/// Exclusive.
const X: Mode = 2;

/// Index-specific locking, with the modes S and X, which are 1 and 2.
///
/// A request (down) is compatible with a lock that another transaction holds (across) where there is
/// a `+`:
///
/// ```text
///   requested \ held   none   S     X
///   none                +     +     +
///   S                   +     +
///   X                   +
/// ```
///
/// The mode of one who holds a mode (down) and requests another (across):
///
/// ```text
///   held \ requested   none   S     X
///   none               none   S     X
///   S                  S      S     X
///   X                  X      X     X
/// ```
///
/// What each row requests on the current name and on the next name, and until when it is held:
///
/// ```text
///   row          current            next
///   fetch hit    S, to commit
///   fetch miss                      S, to commit
///   scan key     S, to commit
///   scan stop                       S, to commit
///   insert       X, to commit       X, for an instant
///   delete       X, for an instant  X, to commit
/// ```
///
/// Source: ARIES/IM (C. Mohan and F. Levine, SIGMOD 1992), index-specific locking. The profile
/// (which mode insert takes on its own key by the own mode on the next name, and how) is this
/// project's own, and nothing is claimed of what the source says.
#[derive(Clone, Copy, Debug, PartialEq, Eq)]
pub struct Im;

/// Whether a request (down) is compatible with a held lock (across).
static COMPATIBLE: [[bool; 3]; 3] = [
    // none, S, X
    [true, true, true], // none
    [true, true, false], // S
    [true, false, false], // X
];

/// The mode of one who holds a mode (down) and requests another (across).
static CONVERTED: [[Mode; 3]; 3] = [
    // none, S, X
    [NONE, S, X],
    [S, S, X],
    [X, X, X],
];

/// The modes that a request conflicts with, each as a bit, by the mode requested.
static ROWS: [u16; 3] = [0, 4, 6];

impl Protocol for Im {
    ghost table = { λ _. im };

    ghost names = { λ _. im_names };

    fn count(&self) -> Mode {
        X
    }

    fn ok(&self, requested: Mode, held: Mode) -> bool {
        COMPATIBLE[requested as usize][held as usize]
    }

    fn row(&self, requested: Mode) -> u16 {
        ROWS[requested as usize]
    }

    fn convert(&self, held: Mode, requested: Mode) -> Mode {
        CONVERTED[held as usize][requested as usize]
    }

    fn name(&self, mode: Mode) -> &str {
        match mode {
            S => "S",
            X => "X",
            _ => "none",
        }
    }

    fn ask(&self, row: Row, side: Side, _own_next: Mode) -> Option<(Mode, Span)> {
        match (row, side) {
            (Row::FetchHit, Side::Current) => for_commit(S),
            (Row::FetchMiss, Side::Next) => for_commit(S),
            (Row::ScanKey, Side::Current) => for_commit(S),
            (Row::ScanStop, Side::Next) => for_commit(S),
            (Row::Insert, Side::Current) => for_commit(X),
            (Row::Insert, Side::Next) => at_once(X),
            (Row::Delete, Side::Current) => at_once(X),
            (Row::Delete, Side::Next) => for_commit(X),
            _ => None,
        }
    }

    fn updates(&self) -> bool {
        false
    }

    ghost lawful = { λ _. im_lawful };

    ghost named = { λ _. im_named };
}

impl Covered for Im {
    ghost covered = { λ _. im_covered };
}
