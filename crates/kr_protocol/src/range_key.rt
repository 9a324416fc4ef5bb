//! Range-key locking: its modes, part by part, and its rules.
ghost use Rattle.std.specs.Prelude.{◌≡◌, ◌≤◌};
ghost use Rattle.kr_model.specs.ModeNames.{range_key_names};
ghost use Rattle.kr_model.specs.RangeKey.{range_key, range_part, key_part, mode_of};
ghost use Rattle.kr_model.proofs.Bundled.{range_key_lawful, range_key_named, range_key_covered};
ghost use Rattle.kr_protocol.specs.Parts.{range_number, key_number};

use crate::parts::{KeyPart, RangePart};
use crate::protocol::{Covered, Protocol};
use crate::request::{at_once, for_commit};
use kr_model::{Mode, Row, Side, Span};

// A mode is named by its range part and its key part.
const NONE: Mode = 0;

const N_S: Mode = 1;

const N_X: Mode = 2;

const S_N: Mode = 3;

const S_S: Mode = 4;

const S_X: Mode = 5;

const I_N: Mode = 6;

const I_S: Mode = 7;

const I_X: Mode = 8;

const X_N: Mode = 9;

const X_S: Mode = 10;

const X_X: Mode = 11;

/// Range-key locking. A mode has a range part, which locks the gap below a name (N none, S shared,
/// I insert, X exclusive), and a key part, which locks its key (N none, S shared, X exclusive), not
/// both N. The modes are N-S, N-X, S-N, S-S, S-X, I-N, I-S, I-X, X-N, X-S and X-X, which are 1 to
/// 11.
///
/// A request (down) is compatible with a lock that another transaction holds (across) where both
/// parts may. Those of a part that may are marked by a `+`:
///
/// ```text
///   range: requested \ held   N   S   I   X       key: requested \ held   N   S   X
///   N                         +   +   +   +       N                       +   +   +
///   S                         +   +               S                       +   +
///   I                         +       +           X                       +
///   X                         +
/// ```
///
/// So it is for whole modes (no lock, held or requested, is compatible with all):
///
/// ```text
///   requested \ held   N-S   N-X   S-N   S-S   S-X   I-N   I-S   I-X   X-N   X-S   X-X
///   N-S                +           +     +           +     +           +     +
///   N-X                            +                 +                 +
///   S-N                +     +     +     +     +
///   S-S                +           +     +
///   S-X                            +
///   I-N                +     +                       +     +     +
///   I-S                +                             +     +
///   I-X                                              +
///   X-N                +     +
///   X-S                +
///   X-X
/// ```
///
/// The parts of one who holds a part (down) and requests another (across), each for itself; where
/// it holds no lock, the mode is that requested, and where it requests no lock, that held:
///
/// ```text
///   range: held \ requested   N   S   I   X       key: held \ requested   N   S   X
///   N                         N   S   I   X       N                       N   S   X
///   S                         S   S   X   X       S                       S   S   X
///   I                         I   X   I   X       X                       X   X   X
///   X                         X   X   X   X
/// ```
///
/// What each row requests on the current name and on the next name, and until when it is held:
///
/// ```text
///   row          current                               next
///   fetch hit    N-S, to commit
///   fetch miss                                         S-N, to commit
///   scan key     S-S, to commit
///   scan stop                                          S-N, to commit
///   insert       X-X, to commit, where S-N, S-S,       I-N, for an instant
///                S-X, X-N, X-S or X-X is held on
///                next; else I-X, to commit
///   delete       X-X, for an instant                   X-N, to commit
/// ```
///
/// Source: only the idea of a mode with a range part and a key part is taken, from D. Lomet, Key
/// Range Locking Strategies, VLDB 1993. The profile (which mode insert takes on its own key by the
/// own mode on the next name, and how) is this project's own, and nothing is claimed of what the
/// source says.
#[derive(Clone, Copy, Debug, PartialEq, Eq)]
pub struct RangeKey;

/// The parts of a mode; those of no lock are both N.
fn parts_of(mode: Mode) -> (RangePart, KeyPart)
    requires { mode ≤ 11 }
    ensures range { range_number result.0 ≡ range_part mode }
    ensures key { key_number result.1 ≡ key_part mode }
{
    match mode {
        N_S => (RangePart::N, KeyPart::S),
        N_X => (RangePart::N, KeyPart::X),
        S_N => (RangePart::S, KeyPart::N),
        S_S => (RangePart::S, KeyPart::S),
        S_X => (RangePart::S, KeyPart::X),
        I_N => (RangePart::I, KeyPart::N),
        I_S => (RangePart::I, KeyPart::S),
        I_X => (RangePart::I, KeyPart::X),
        X_N => (RangePart::X, KeyPart::N),
        X_S => (RangePart::X, KeyPart::S),
        X_X => (RangePart::X, KeyPart::X),
        _ => (RangePart::N, KeyPart::N),
    }
}

/// The mode of two parts; 0, for no lock, where both are N.
fn mode_of(range: RangePart, key: KeyPart) -> Mode
    ensures { result ≡ mode_of (range_number range) (key_number key) }
{
    match (range, key) {
        (RangePart::N, KeyPart::N) => NONE,
        (RangePart::N, KeyPart::S) => N_S,
        (RangePart::N, KeyPart::X) => N_X,
        (RangePart::S, KeyPart::N) => S_N,
        (RangePart::S, KeyPart::S) => S_S,
        (RangePart::S, KeyPart::X) => S_X,
        (RangePart::I, KeyPart::N) => I_N,
        (RangePart::I, KeyPart::S) => I_S,
        (RangePart::I, KeyPart::X) => I_X,
        (RangePart::X, KeyPart::N) => X_N,
        (RangePart::X, KeyPart::S) => X_S,
        (RangePart::X, KeyPart::X) => X_X,
    }
}

/// The modes that a request conflicts with, each as a bit, by the mode requested.
static ROWS: [u16; 12] = [
    0, 2340, 3510, 4032, 4068, 4086, 3640, 3900, 4030, 4088, 4092, 4094,
];

impl Protocol for RangeKey {
    ghost table = { λ _. range_key };

    ghost names = { λ _. range_key_names };

    fn count(&self) -> Mode {
        X_X
    }

    fn ok(&self, requested: Mode, held: Mode) -> bool {
        let (range, key) = parts_of(requested);
        let (held_range, held_key) = parts_of(held);
        range.stands_beside(held_range) && key.stands_beside(held_key)
    }

    fn row(&self, requested: Mode) -> u16 {
        ROWS[requested as usize]
    }

    fn convert(&self, held: Mode, requested: Mode) -> Mode {
        let (held_range, held_key) = parts_of(held);
        let (range, key) = parts_of(requested);
        mode_of(held_range.joined_with(range), held_key.joined_with(key))
    }

    fn name(&self, mode: Mode) -> &str {
        match mode {
            N_S => "N-S",
            N_X => "N-X",
            S_N => "S-N",
            S_S => "S-S",
            S_X => "S-X",
            I_N => "I-N",
            I_S => "I-S",
            I_X => "I-X",
            X_N => "X-N",
            X_S => "X-S",
            X_X => "X-X",
            _ => "none",
        }
    }

    fn ask(&self, row: Row, side: Side, own_next: Mode) -> Option<(Mode, Span)> {
        match (row, side) {
            (Row::FetchHit, Side::Current) => for_commit(N_S),
            (Row::FetchMiss, Side::Next) => for_commit(S_N),
            (Row::ScanKey, Side::Current) => for_commit(S_S),
            (Row::ScanStop, Side::Next) => for_commit(S_N),
            (Row::Insert, Side::Current) => match own_next {
                S_N | S_S | S_X | X_N | X_S | X_X => for_commit(X_X),
                _ => for_commit(I_X),
            },
            (Row::Insert, Side::Next) => at_once(I_N),
            (Row::Delete, Side::Current) => at_once(X_X),
            (Row::Delete, Side::Next) => for_commit(X_N),
            _ => None,
        }
    }

    fn updates(&self) -> bool {
        false
    }

    ghost lawful = { λ _. range_key_lawful };

    ghost named = { λ _. range_key_named };
}

impl Covered for RangeKey {
    ghost covered = { λ _. range_key_covered };
}
