//! Lock states and pairs of them, and their numbers.
ghost use Rattle.std.specs.Prelude.{◌≡◌, ◌≤◌, ◌<◌};
ghost use Rattle.kr_ghost.specs.Safe.{is_changed, is_read, rolled};
ghost use Rattle.kr_ghost_decide.specs.Holds.{key_use, hold, fact, key_number, key_at, hold_number, hold_at, place, fact_at};

use kr_ghost_protocol::Mode;

/// What a transaction has done with the key of a name so far, and not undone.
#[derive(Clone, Copy, PartialEq, Eq)]
pub enum KeyUse {
    /// Nothing.
    Free,
    /// It has read it, whether it is present or a ghost.
    Read,
    /// It has changed it once, by an insert,
    Inserted,
    /// by an update,
    Updated,
    /// or by a delete.
    Deleted,
    /// It has changed it more than once.
    Several,
}

/// What a transaction has on a name.
#[derive(Clone, Copy)]
pub struct Hold {
    /// The mode of its lock, 0 for none.
    pub mode: Mode,
    /// What it has done with the key.
    pub key: KeyUse,
    /// Whether it has read the gap below the name.
    pub gap: bool,
    /// Whether it rolls back.
    pub rolling: bool,
}

/// What two transactions have on one name at the same time.
#[derive(Clone, Copy)]
pub struct Pair {
    /// Whether the key is present.
    pub present: bool,
    pub own: Hold,
    pub other: Hold,
}

/// Nothing.
pub(crate) const FREE: Hold = Hold {
    mode: 0,
    key: KeyUse::Free,
    gap: false,
    rolling: false,
};

/// How many lock states there are, of at most 15 modes.
pub(crate) const HOLDS: usize = 384;

/// How many pairs there are.
pub(crate) const PLACES: usize = 294912;

/// Whether a key has been changed, and not only read.
pub fn is_changed(key: KeyUse) -> bool
    ensures { result ≡ is_changed (key_use key) }
{
    match key {
        KeyUse::Free | KeyUse::Read => false,
        _ => true,
    }
}

/// Whether a key has been read or changed.
pub(crate) fn is_read(key: KeyUse) -> bool
    ensures { result ≡ is_read (key_use key) }
{
    match key {
        KeyUse::Free => false,
        _ => true,
    }
}

/// What is left of a lock state once its transaction rolls back.
pub(crate) fn rolled(own: Hold) -> Hold
    ensures { hold result ≡ rolled (hold own) }
{
    let key = if is_changed(own.key) {
        own.key
    } else {
        KeyUse::Free
    };
    Hold {
        mode: own.mode,
        key,
        gap: false,
        rolling: true,
    }
}

/// The number of what was done with a key, below 6.
fn key_number(key: KeyUse) -> usize
    ensures { result ≡ key_number (key_use key) }
{
    match key {
        KeyUse::Free => 0,
        KeyUse::Read => 1,
        KeyUse::Inserted => 2,
        KeyUse::Updated => 3,
        KeyUse::Deleted => 4,
        KeyUse::Several => 5,
    }
}

/// What was done with a key, by its number.
fn key_at(number: usize) -> KeyUse
    ensures { key_use result ≡ key_at number }
{
    match number {
        0 => KeyUse::Free,
        1 => KeyUse::Read,
        2 => KeyUse::Inserted,
        3 => KeyUse::Updated,
        4 => KeyUse::Deleted,
        _ => KeyUse::Several,
    }
}

/// The number of a lock state. Of at most 15 modes it is below `HOLDS`, and each has its own.
fn hold_number(own: Hold) -> usize
    ensures number { result ≡ hold_number (hold own) }
    ensures below { result < 6144 }
{
    let gap = if own.gap { 2 } else { 0 };
    let rolling = if own.rolling { 1 } else { 0 };
    own.mode as usize * 24 + key_number(own.key) * 4 + gap + rolling
}

/// The lock state with this number.
pub(crate) fn hold_at(number: usize) -> Hold
    requires { number < 384 }
    ensures { hold result ≡ hold_at number }
{
    Hold {
        mode: (number / 24) as Mode,
        key: key_at(number / 4 % 6),
        gap: number / 2 % 2 == 1,
        rolling: number % 2 == 1,
    }
}

/// The number of a pair. Of at most 15 modes it is below `PLACES`, and each has its own.
pub(crate) fn place(pair: Pair) -> usize
    ensures { result ≡ place (fact pair) }
{
    let present = if pair.present { 1 } else { 0 };
    (hold_number(pair.own) * HOLDS + hold_number(pair.other)) * 2 + present
}

/// The pair with this number.
pub(crate) fn pair_at(place: usize) -> Pair
    requires { place < 294912 }
    ensures { fact result ≡ fact_at place }
{
    Pair {
        present: place % 2 == 1,
        own: hold_at(place / 768),
        other: hold_at(place / 2 % HOLDS),
    }
}
