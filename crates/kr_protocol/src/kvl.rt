//! Key-value locking: its tables and its rules.
ghost use Rattle.std.specs.Prelude.{◌≡◌, ◌≤◌};
ghost use Rattle.kr_model.specs.ModeNames.{kvl_names, name_of};
ghost use Rattle.kr_model.specs.Kvl.{kvl};
ghost use Rattle.kr_model.proofs.Bundled.{kvl_lawful, kvl_named, kvl_covered};

use crate::protocol::{Covered, Protocol};
use crate::request::{at_once, for_commit};
use kr_model::{Mode, Row, Side, Span};

const NONE: Mode = 0;

/// Intention shared.
const IS: Mode = 1;

/// Intention exclusive.
const IX: Mode = 2;

/// Shared.
const S: Mode = 3;

/// Shared, and intention exclusive.
const SIX: Mode = 4;

/// Exclusive.
pub(crate) const X: Mode = 5;

/// Key-value locking on a unique index, with the modes IS, IX, S, SIX and X, which are 1 to 5.
///
/// A request (down) is compatible with a lock that another transaction holds (across) where there is
/// a `+`:
///
/// ```text
///   requested \ held   none   IS    IX    S     SIX   X
///   none                +     +     +     +     +     +
///   IS                  +     +     +     +     +
///   IX                  +     +     +
///   S                   +     +           +
///   SIX                 +     +
///   X                   +
/// ```
///
/// The mode of one who holds a mode (down) and requests another (across):
///
/// ```text
///   held \ requested   none   IS    IX    S     SIX   X
///   none               none   IS    IX    S     SIX   X
///   IS                 IS     IS    IX    S     SIX   X
///   IX                 IX     IX    IX    SIX   SIX   X
///   S                  S      S     SIX   S     SIX   X
///   SIX                SIX    SIX   SIX   SIX   SIX   X
///   X                  X      X     X     X     X     X
/// ```
///
/// What each row requests on the current name and on the next name, and until when it is held:
///
/// ```text
///   row          current                               next
///   fetch hit    S, to commit
///   fetch miss                                         S, to commit
///   scan key     S, to commit
///   scan stop                                          S, to commit
///   insert       X, to commit, where S, SIX or X is    IX, for an instant
///                held on next; else IX, to commit
///   delete       X, for an instant                     X, to commit
/// ```
///
/// Source: ARIES/KVL (C. Mohan, VLDB 1990), the rows for unique indexes. The profile (which mode
/// insert takes on its own key by the own mode on the next name, and how) is this project's own,
/// and nothing is claimed of what the source says.
#[derive(Clone, Copy, Debug, PartialEq, Eq)]
pub struct Kvl;

/// Whether a request (down) is compatible with a held lock (across).
static COMPATIBLE: [[bool; 6]; 6] = [
    // none, IS, IX, S, SIX, X
    [true, true, true, true, true, true], // none
    [true, true, true, true, true, false], // IS
    [true, true, true, false, false, false], // IX
    [true, true, false, true, false, false], // S
    [true, true, false, false, false, false], // SIX
    [true, false, false, false, false, false], // X
];

/// The mode of one who holds a mode (down) and requests another (across).
static CONVERTED: [[Mode; 6]; 6] = [
    // none, IS, IX, S, SIX, X
    [NONE, IS, IX, S, SIX, X],
    [IS, IS, IX, S, SIX, X],
    [IX, IX, IX, SIX, SIX, X],
    [S, S, SIX, S, SIX, X],
    [SIX, SIX, SIX, SIX, SIX, X],
    [X, X, X, X, X, X],
];

/// The modes that a request conflicts with, each as a bit, by the mode requested.
static ROWS: [u16; 6] = [0, 32, 56, 52, 60, 62];

/// The name of a mode.
pub(crate) fn mode_name(mode: Mode) -> &'static str
    requires { mode ≤ 5 }
    ensures { result.now ≡ name_of kvl_names mode }
{
    match mode {
        IS => "IS",
        IX => "IX",
        S => "S",
        SIX => "SIX",
        X => "X",
        _ => "none",
    }
}

impl Protocol for Kvl {
    ghost table = { λ _. kvl };

    ghost names = { λ _. kvl_names };

    fn count(&self) -> Mode {
        X
    }

    fn ok(&self, requested: Mode, held: Mode) -> bool {
        COMPATIBLE[requested as usize][held as usize]
    }

    fn row(&self, requested: Mode) -> u16 {
        ROWS[requested as usize]
    }

    fn convert(&self, held: Mode, requested: Mode) -> Mode {
        CONVERTED[held as usize][requested as usize]
    }

    fn name(&self, mode: Mode) -> &str {
        mode_name(mode)
    }

    fn ask(&self, row: Row, side: Side, own_next: Mode) -> Option<(Mode, Span)> {
        match (row, side) {
            (Row::FetchHit, Side::Current) => for_commit(S),
            (Row::FetchMiss, Side::Next) => for_commit(S),
            (Row::ScanKey, Side::Current) => for_commit(S),
            (Row::ScanStop, Side::Next) => for_commit(S),
            (Row::Insert, Side::Current) => match own_next {
                S | SIX | X => for_commit(X),
                _ => for_commit(IX),
            },
            (Row::Insert, Side::Next) => at_once(IX),
            (Row::Delete, Side::Current) => at_once(X),
            (Row::Delete, Side::Next) => for_commit(X),
            _ => None,
        }
    }

    fn updates(&self) -> bool {
        false
    }

    ghost lawful = { λ _. kvl_lawful };

    ghost named = { λ _. kvl_named };
}

impl Covered for Kvl {
    ghost covered = { λ _. kvl_covered };
}
