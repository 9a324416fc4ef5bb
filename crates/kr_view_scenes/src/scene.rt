//! A step as its band shows it: what it was, and the keys and locks that it left.
ghost use Rattle.std.specs.Prelude.{◌≡◌};

use crate::act::Act;
use crate::asked::Asked;
use crate::bar::{Bar, push_asked, push_held};
use crate::columns::Columns;
use kr_locks::Memory;
use kr_model::{Mode, Name, Txn};
use kr_protocol::Protocol;
use std::alloc::Global;
use std::collections::BTreeSet;

/// A key of a column, as a step left it.
#[derive(Clone, Copy, PartialEq, Eq)]
pub enum KeyState {
    /// It has the value that it had.
    Kept(u64),
    /// It has another value than it had.
    Changed(u64),
    /// It was absent, and has this value.
    Came(u64),
    /// It was there, and is absent.
    Gone,
    /// It is a ghost, and was one.
    Ghost,
    /// It is a ghost, and was none.
    BecameGhost,
    /// It was a ghost, and has this value.
    Revived(u64),
    /// It was a ghost, and is absent.
    Purged,
    /// It is absent, and the step names it, or somebody holds a lock on it.
    Absent,
    /// It is absent, and nothing is told of it.
    Untold,
}

impl KeyState {
    /// The state of a key that stood and stands so.
    fn of(before: Stand, after: Stand, is_told: bool) -> KeyState {
        match (before, after) {
            (Stand::Present(was), Stand::Present(is)) if was == is => KeyState::Kept(is),
            (Stand::Present(_), Stand::Present(is)) => KeyState::Changed(is),
            (Stand::Ghost, Stand::Present(is)) => KeyState::Revived(is),
            (Stand::Absent, Stand::Present(is)) => KeyState::Came(is),
            (Stand::Ghost, Stand::Ghost) => KeyState::Ghost,
            (_, Stand::Ghost) => KeyState::BecameGhost,
            (Stand::Present(_), Stand::Absent) => KeyState::Gone,
            (Stand::Ghost, Stand::Absent) => KeyState::Purged,
            (Stand::Absent, Stand::Absent) if is_told => KeyState::Absent,
            (Stand::Absent, Stand::Absent) => KeyState::Untold,
        }
    }

    /// The value of the key, if it is present.
    pub fn value(self) -> Option<u64> {
        match self {
            KeyState::Kept(value)
            | KeyState::Changed(value)
            | KeyState::Came(value)
            | KeyState::Revived(value) => Some(value),
            KeyState::Gone
            | KeyState::Ghost
            | KeyState::BecameGhost
            | KeyState::Purged
            | KeyState::Absent
            | KeyState::Untold => None,
        }
    }

    /// Whether the key is a ghost.
    pub fn is_ghost(self) -> bool {
        matches!(self, KeyState::Ghost | KeyState::BecameGhost)
    }

    /// Whether the key is a name, present or a ghost, and so ends a gap.
    pub(crate) fn is_name(self) -> bool {
        self.value().is_some() || self.is_ghost()
    }

    /// What is told of the key beside its value, or nothing.
    pub fn note(self) -> &'static str {
        match self {
            KeyState::Changed(_) => "changed",
            KeyState::Came(_) => "came",
            KeyState::Gone => "gone",
            KeyState::Ghost | KeyState::BecameGhost => "ghost",
            KeyState::Revived(_) => "revived",
            KeyState::Purged => "purged",
            KeyState::Absent => "absent",
            KeyState::Kept(_) | KeyState::Untold => "",
        }
    }
}

/// A step with what it left.
#[derive(Drop)]
pub struct Scene {
    /// Its number, from 1.
    pub number: u64,
    pub act: Act,
    /// The key that it names.
    pub touched: Option<u64>,
    /// The key of each column.
    pub keys: Vec<KeyState>,
    /// The locks that are held on names with a column, and those that were requested there and not granted.
    pub bars: Vec<Bar>,
    /// What it requested, where it is blocked.
    pub asked: Vec<Asked>,
}

/// What the scene of a step shows beside the step and what came of it.
#[derive(Drop)]
pub struct Shown {
    touched: Option<u64>,
    keys: Vec<KeyState>,
    bars: Vec<Bar>,
    asked: Vec<Asked>,
}

/// How a key stands in an index.
#[derive(Clone, Copy, PartialEq, Eq)]
enum Stand {
    Present(u64),
    Ghost,
    Absent,
}

/// The keys of an index, rising.
#[derive(Clone, Copy)]
pub struct Keys<'a> {
    /// Those that are present, each with its value.
    pub pairs: &'a [(u64, u64)],
    pub ghosts: &'a [u64],
}

impl Keys<'_> {
    /// How a key stands.
    fn stand(self, key: u64) -> Stand {
        match self.pairs.binary_search_by_key(&key, |pair| pair.0) {
            Ok(at) => Stand::Present(self.pairs[at].1),
            Err(_) => match self.ghosts.binary_search(&key) {
                Ok(_) => Stand::Ghost,
                Err(_) => Stand::Absent,
            },
        }
    }
}

/// The keys and the locks that a step finds or leaves.
#[derive(Clone, Copy)]
pub struct Standing<'a> {
    /// The keys before the step, and after it.
    pub before: Keys<'a>,
    pub after: Keys<'a>,
    /// The locks after the step.
    pub locks: &'a [((Name, Txn), Mode)],
}

impl Scene {
    /// The scene of a step of this number.
    pub fn new(number: u64, act: Act, shown: Shown) -> Scene
        ensures number { result.number ≡ number }
        ensures act { result.act ≡ act }
    {
        let Shown {
            touched,
            keys,
            bars,
            asked,
        } = shown;
        Scene {
            number,
            act,
            touched,
            keys,
            bars,
            asked,
        }
    }

    /// Whether something is told below the value of a key.
    pub fn has_notes(&self) -> bool {
        for key in &self.keys {
            if matches!(
                key,
                KeyState::Changed(_) | KeyState::Came(_) | KeyState::Revived(_)
            ) {
                return true;
            }
        }
        false
    }
}

/// What is shown of a step of a transaction, if it is one's, that names a key, if it does. The transaction wasn't granted what
/// it asked for, if anything. The only error is that a growth was refused.
pub fn shown_of<P: Protocol>(
    alloc: Global,
    protocol: &P,
    columns: &Columns,
    (txn, touched): (Option<Txn>, Option<u64>),
    standing: Standing<'_>,
    asked: Vec<Asked>,
) -> Result<Shown, Memory> {
    let keys = states_of(alloc, columns, touched, standing)?;
    let bars = bars_of(
        alloc,
        protocol,
        (columns, keys.as_slice()),
        standing.locks,
        txn,
        asked.as_slice(),
    )?;
    Ok(Shown {
        touched,
        keys,
        bars,
        asked,
    })
}

/// The bars of a step of this transaction, which requested this and left these locks.
fn bars_of<P: Protocol>(
    alloc: Global,
    protocol: &P,
    (columns, keys): (&Columns, &[KeyState]),
    locks: &[((Name, Txn), Mode)],
    txn: Option<Txn>,
    asked: &[Asked],
) -> Result<Vec<Bar>, Memory> {
    let mut bars = Vec::new(alloc);
    push_held(alloc, protocol, columns, keys, locks, asked, &mut bars)?;
    if let Some(txn) = txn {
        push_asked(alloc, protocol, columns, keys, txn, asked, &mut bars)?;
    }
    Ok(bars)
}

/// The columns of the names that are locked.
fn locked_columns(
    alloc: Global,
    columns: &Columns,
    locks: &[((Name, Txn), Mode)],
) -> Result<BTreeSet<usize>, Memory> {
    let mut locked = BTreeSet::new(alloc);
    for ((name, _), _) in locks {
        if let Some(column) = columns.of(*name) {
            locked.insert(column)?;
        }
    }
    Ok(locked)
}

/// The key of each column as a step that names this key left it.
fn states_of(
    alloc: Global,
    columns: &Columns,
    touched: Option<u64>,
    standing: Standing<'_>,
) -> Result<Vec<KeyState>, Memory> {
    let locked = locked_columns(alloc, columns, standing.locks)?;
    let mut keys = Vec::new(alloc);
    for (column, key) in columns.keys.iter().enumerate() {
        let is_told = touched == Some(*key) || locked.contains(&column);
        let before = standing.before.stand(*key);
        let after = standing.after.stand(*key);
        keys.push(KeyState::of(before, after, is_told))?;
    }
    Ok(keys)
}
