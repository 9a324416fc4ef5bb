//! Locks on keys and next keys with ghosts, which aren't purged while they are locked: the tables and the rules.
ghost use Rattle.std.specs.Prelude.{refl};
ghost use Rattle.kr_model.proofs.NamesTested.{named_by_test};
ghost use Rattle.kr_ghost.specs.Tables.{next_key_ghost};
ghost use Rattle.kr_ghost.proofs.Bundled.{next_key_ghost_lawful};
ghost use Rattle.kr_ghost_protocol.specs.Names.{next_key_ghost_names};

use crate::protocol::GhostProtocol;
use kr_ghost::Vain;
use kr_protocol::{Mode, Protocol, Row, Side, Span};

const NONE: Mode = 0;

/// The key shared.
const KS: Mode = 1;

/// The key and the gap below it shared.
const NS: Mode = 2;

/// An insert into the gap.
const NW: Mode = 3;

/// An insert of the key.
const KW: Mode = 4;

/// The key and the gap below it exclusive.
const KX: Mode = 5;

/// Locks on keys and next keys, with ghosts. A name has one lock for its key and the gap below it, in one of the modes KS (the
/// key shared), NS (the key and the gap shared), NW (an insert into the gap), KW (an insert of the key) and KX (exclusive),
/// which are 1 to 5.
///
/// A request (down) is compatible with a lock that another transaction holds (across) where there is
/// a `+`:
///
/// ```text
///   requested \ held   none   KS    NS    NW    KW    KX
///   none                +     +     +     +     +     +
///   KS                  +     +     +     +
///   NS                  +     +     +
///   NW                  +     +           +     +
///   KW                  +                 +
///   KX                  +
/// ```
///
/// The mode of one who holds a mode (down) and requests another (across):
///
/// ```text
///   held \ requested   none   KS    NS    NW    KW    KX
///   none               none   KS    NS    NW    KW    KX
///   KS                 KS     KS    NS    KX    KX    KX
///   NS                 NS     NS    NS    KX    KX    KX
///   NW                 NW     KX    KX    NW    KW    KX
///   KW                 KW     KX    KX    KW    KW    KX
///   KX                 KX     KX    KX    KX    KX    KX
/// ```
///
/// What each row requests on the current name and on the next name, and until when it is held:
///
/// ```text
///   row          current                               next
///   fetch hit    KS, to commit
///   fetch miss                                         NS, to commit
///   scan key     NS, to commit
///   scan stop                                          NS, to commit
///   insert       KX, to commit, where NS or KX is      NW, for an instant
///                held on next; else KW, to commit
///   revive       KX, to commit
///   delete       KX, to commit
///   update       KX, to commit
/// ```
///
/// A ghost isn't purged while there is a lock on it. The modes, the names and the rows are this project's own.
#[derive(Clone, Copy, Debug, PartialEq, Eq)]
pub struct NextKeyGhost;

/// Whether a request (down) is compatible with a held lock (across).
static COMPATIBLE: [[bool; 6]; 6] = [
    // none, KS, NS, NW, KW, KX
    [true, true, true, true, true, true], // none
    [true, true, true, true, false, false], // KS
    [true, true, true, false, false, false], // NS
    [true, true, false, true, true, false], // NW
    [true, false, false, true, false, false], // KW
    [true, false, false, false, false, false], // KX
];

/// The mode of one who holds a mode (down) and requests another (across).
static CONVERTED: [[Mode; 6]; 6] = [
    // none, KS, NS, NW, KW, KX
    [NONE, KS, NS, NW, KW, KX],
    [KS, KS, NS, KX, KX, KX],
    [NS, NS, NS, KX, KX, KX],
    [NW, KX, KX, NW, KW, KX],
    [KW, KX, KX, KW, KW, KX],
    [KX, KX, KX, KX, KX, KX],
];

/// The modes that a request conflicts with, each as a bit, by the mode requested.
static ROWS: [u16; 6] = [0, 48, 56, 36, 54, 62];

impl Protocol for NextKeyGhost {
    ghost table = { λ _. next_key_ghost.table };

    ghost names = { λ _. next_key_ghost_names };

    fn count(&self) -> Mode {
        KX
    }

    fn ok(&self, requested: Mode, held: Mode) -> bool {
        COMPATIBLE[requested as usize][held as usize]
    }

    fn row(&self, requested: Mode) -> u16 {
        ROWS[requested as usize]
    }

    fn convert(&self, held: Mode, requested: Mode) -> Mode {
        CONVERTED[held as usize][requested as usize]
    }

    fn name(&self, mode: Mode) -> &str {
        match mode {
            KS => "KS",
            NS => "NS",
            NW => "NW",
            KW => "KW",
            KX => "KX",
            _ => "none",
        }
    }

    fn ask(&self, row: Row, side: Side, own_next: Mode) -> Option<(Mode, Span)> {
        match (row, side) {
            (Row::FetchHit, Side::Current) => Some((KS, Span::Commit)),
            (Row::FetchMiss, Side::Next) => Some((NS, Span::Commit)),
            (Row::ScanKey, Side::Current) => Some((NS, Span::Commit)),
            (Row::ScanStop, Side::Next) => Some((NS, Span::Commit)),
            (Row::Insert, Side::Current) => match own_next {
                NS | KX => Some((KX, Span::Commit)),
                _ => Some((KW, Span::Commit)),
            },
            (Row::Insert, Side::Next) => Some((NW, Span::Instant)),
            (Row::Delete, Side::Current) => Some((KX, Span::Commit)),
            (Row::Update, Side::Current) => Some((KX, Span::Commit)),
            _ => None,
        }
    }

    fn updates(&self) -> bool {
        true
    }

    ghost lawful = { λ _. next_key_ghost_lawful.table };

    ghost named = { λ _. named_by_test next_key_ghost_names 5 refl };
}

impl GhostProtocol for NextKeyGhost {
    ghost ghosts = { λ _. next_key_ghost };

    fn revive(&self) -> Option<(Mode, Span)> {
        Some((KX, Span::Commit))
    }

    fn revive_next(&self) -> Option<(Mode, Span)> {
        None
    }

    fn vain(&self, _vain: Vain) -> Option<Option<(Mode, Span)>> {
        None
    }

    fn insert_hit_next(&self) -> Option<(Mode, Span)> {
        None
    }

    fn inherits(&self) -> bool {
        false
    }

    fn heir(&self, _mode: Mode) -> Mode {
        NONE
    }

    ghost tables = { λ _. refl };

    ghost lawful_ghosts = { λ _. next_key_ghost_lawful };
}
