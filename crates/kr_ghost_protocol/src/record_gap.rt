//! Locks on records and on gaps, which a purge leaves to the next name: the modes, part by part, and the rules.
ghost use Rattle.std.specs.Prelude.{◌≡◌, ◌≤◌, ◌+◌, if◌then◌else◌, refl};
ghost use Rattle.kr_model.proofs.NamesTested.{named_by_test};
ghost use Rattle.kr_ghost.specs.Tables.{record_gap, locks_gap, inserts, record_part};
ghost use Rattle.kr_ghost.proofs.Bundled.{record_gap_lawful};
ghost use Rattle.kr_ghost_protocol.specs.Names.{record_gap_names};
ghost use Rattle.kr_ghost_protocol.specs.Parts.{has_gap, has_insert, record_number};

use crate::parts::{GapPart, RecordPart};
use crate::protocol::GhostProtocol;
use kr_ghost::Vain;
use kr_protocol::{Mode, Protocol, Row, Side, Span};

// A mode is named by its part for the gap and its part for the key.
const NONE: Mode = 0;

const N_S: Mode = 1;

const N_X: Mode = 2;

const G_N: Mode = 3;

const G_S: Mode = 4;

const G_X: Mode = 5;

const I_N: Mode = 6;

const I_S: Mode = 7;

const I_X: Mode = 8;

const GI_N: Mode = 9;

const GI_S: Mode = 10;

const GI_X: Mode = 11;

/// Locks on records and on gaps, with ghosts. A mode has a part for the gap below a name (N none, G the gap against inserts,
/// I an insert into it, GI both) and a part for its key (N none, S shared, X exclusive), not both N. The modes are N-S, N-X,
/// G-N, G-S, G-X, I-N, I-S, I-X, GI-N, GI-S and GI-X, which are 1 to 11.
///
/// A request (down) is compatible with a lock that another transaction holds (across) where both parts may. Those of a part
/// that may are marked by a `+`: an insert waits for a lock on the gap, and no lock on the gap waits for an insert.
///
/// ```text
///   gap: requested \ held   N    G    I    GI      key: requested \ held   N   S   X
///   N                       +    +    +    +       N                       +   +   +
///   G                       +    +    +    +       S                       +   +
///   I                       +         +            X                       +
///   GI                      +         +
/// ```
///
/// So it is for whole modes (no lock, held or requested, is compatible with all):
///
/// ```text
///   requested \ held   N-S   N-X   G-N   G-S   G-X   I-N   I-S   I-X   GI-N  GI-S  GI-X
///   N-S                +           +     +           +     +           +     +
///   N-X                            +                 +                 +
///   G-N                +     +     +     +     +     +     +     +     +     +     +
///   G-S                +           +     +           +     +           +     +
///   G-X                            +                 +                 +
///   I-N                +     +                       +     +     +
///   I-S                +                             +     +
///   I-X                                              +
///   GI-N               +     +                       +     +     +
///   GI-S               +                             +     +
///   GI-X                                             +
/// ```
///
/// The parts of one who holds a part (down) and requests another (across), each for itself; where
/// it holds no lock, the mode is that requested, and where it requests no lock, that held:
///
/// ```text
///   gap: held \ requested   N    G    I    GI      key: held \ requested   N   S   X
///   N                       N    G    I    GI      N                       N   S   X
///   G                       G    G    GI   GI      S                       S   S   X
///   I                       I    GI   I    GI      X                       X   X   X
///   GI                      GI   GI   GI   GI
/// ```
///
/// What each row requests on the current name and on the next name, and until when it is held:
///
/// ```text
///   row          current                               next
///   fetch hit    N-S, to commit
///   fetch miss                                         G-N, to commit
///   scan key     G-S, to commit
///   scan stop                                          G-S, to commit
///   insert       G-X, to commit, where G-N, G-S,       I-N, for an instant
///                G-X, GI-N, GI-S or GI-X is held
///                on next; else N-X, to commit
///   revive       N-X, to commit
///   delete       N-X, to commit
///   update       N-X, to commit
/// ```
///
/// A ghost is purged whatever locks there are on it, and each of them becomes a lock in G-N on the next name. The modes, the
/// names and the rows are this project's own.
#[derive(Clone, Copy, Debug, PartialEq, Eq)]
pub struct RecordGap;

/// The parts of a mode; those of no lock are both N.
fn parts_of(mode: Mode) -> (GapPart, RecordPart)
    requires { mode ≤ 11 }
    ensures gap { has_gap result.0 ≡ locks_gap mode }
    ensures insert { has_insert result.0 ≡ inserts mode }
    ensures record_ { record_number result.1 ≡ record_part mode }
{
    match mode {
        N_S => (GapPart::N, RecordPart::S),
        N_X => (GapPart::N, RecordPart::X),
        G_N => (GapPart::G, RecordPart::N),
        G_S => (GapPart::G, RecordPart::S),
        G_X => (GapPart::G, RecordPart::X),
        I_N => (GapPart::I, RecordPart::N),
        I_S => (GapPart::I, RecordPart::S),
        I_X => (GapPart::I, RecordPart::X),
        GI_N => (GapPart::GI, RecordPart::N),
        GI_S => (GapPart::GI, RecordPart::S),
        GI_X => (GapPart::GI, RecordPart::X),
        _ => (GapPart::N, RecordPart::N),
    }
}

/// The mode of two parts; 0, for no lock, where both are N.
fn mode_of(gap: GapPart, key: RecordPart) -> Mode
    ensures { result ≡ (if has_gap gap then 3 else 0) + (if has_insert gap then 6 else 0) + record_number key }
{
    match (gap, key) {
        (GapPart::N, RecordPart::N) => NONE,
        (GapPart::N, RecordPart::S) => N_S,
        (GapPart::N, RecordPart::X) => N_X,
        (GapPart::G, RecordPart::N) => G_N,
        (GapPart::G, RecordPart::S) => G_S,
        (GapPart::G, RecordPart::X) => G_X,
        (GapPart::I, RecordPart::N) => I_N,
        (GapPart::I, RecordPart::S) => I_S,
        (GapPart::I, RecordPart::X) => I_X,
        (GapPart::GI, RecordPart::N) => GI_N,
        (GapPart::GI, RecordPart::S) => GI_S,
        (GapPart::GI, RecordPart::X) => GI_X,
    }
}

/// The modes that a request conflicts with, each as a bit, by the mode requested.
static ROWS: [u16; 12] = [
    0, 2340, 3510, 0, 2340, 3510, 3640, 3900, 4030, 3640, 3900, 4030,
];

impl Protocol for RecordGap {
    ghost table = { λ _. record_gap.table };

    ghost names = { λ _. record_gap_names };

    fn count(&self) -> Mode {
        GI_X
    }

    fn ok(&self, requested: Mode, held: Mode) -> bool {
        let (gap, key) = parts_of(requested);
        let (held_gap, held_key) = parts_of(held);
        gap.stands_beside(held_gap) && key.stands_beside(held_key)
    }

    fn row(&self, requested: Mode) -> u16 {
        ROWS[requested as usize]
    }

    fn convert(&self, held: Mode, requested: Mode) -> Mode {
        let (held_gap, held_key) = parts_of(held);
        let (gap, key) = parts_of(requested);
        mode_of(held_gap.joined_with(gap), held_key.joined_with(key))
    }

    fn name(&self, mode: Mode) -> &str {
        match mode {
            N_S => "N-S",
            N_X => "N-X",
            G_N => "G-N",
            G_S => "G-S",
            G_X => "G-X",
            I_N => "I-N",
            I_S => "I-S",
            I_X => "I-X",
            GI_N => "GI-N",
            GI_S => "GI-S",
            GI_X => "GI-X",
            _ => "none",
        }
    }

    fn ask(&self, row: Row, side: Side, own_next: Mode) -> Option<(Mode, Span)> {
        match (row, side) {
            (Row::FetchHit, Side::Current) => Some((N_S, Span::Commit)),
            (Row::FetchMiss, Side::Next) => Some((G_N, Span::Commit)),
            (Row::ScanKey, Side::Current) => Some((G_S, Span::Commit)),
            (Row::ScanStop, Side::Next) => Some((G_S, Span::Commit)),
            (Row::Insert, Side::Current) => match own_next {
                G_N | G_S | G_X | GI_N | GI_S | GI_X => Some((G_X, Span::Commit)),
                _ => Some((N_X, Span::Commit)),
            },
            (Row::Insert, Side::Next) => Some((I_N, Span::Instant)),
            (Row::Delete, Side::Current) => Some((N_X, Span::Commit)),
            (Row::Update, Side::Current) => Some((N_X, Span::Commit)),
            _ => None,
        }
    }

    fn updates(&self) -> bool {
        true
    }

    ghost lawful = { λ _. record_gap_lawful.table };

    ghost named = { λ _. named_by_test record_gap_names 11 refl };
}

impl GhostProtocol for RecordGap {
    ghost ghosts = { λ _. record_gap };

    fn revive(&self) -> Option<(Mode, Span)> {
        Some((N_X, Span::Commit))
    }

    fn revive_next(&self) -> Option<(Mode, Span)> {
        None
    }

    fn vain(&self, _vain: Vain) -> Option<Option<(Mode, Span)>> {
        None
    }

    fn insert_hit_next(&self) -> Option<(Mode, Span)> {
        None
    }

    fn inherits(&self) -> bool {
        true
    }

    fn heir(&self, mode: Mode) -> Mode {
        match mode {
            NONE => NONE,
            _ => G_N,
        }
    }

    ghost tables = { λ _. refl };

    ghost lawful_ghosts = { λ _. record_gap_lawful };
}
