//! One transaction of a light machine.
ghost use Rattle.std.specs.Prelude.{◌≤◌};

use kr_model::Mode;

/// The place of a lock name in a light machine, below 16: 0 is the end.
pub(crate) type Place = u8;

/// How many places there are.
pub(crate) const PLACES: usize = 16;

/// How many transactions a light machine has at most.
pub(crate) const SEATS: usize = 4;

/// How many changes of one transaction are remembered.
pub(crate) const CHANGES: usize = 8;

/// A change of a key.
#[derive(Clone, Copy)]
pub(crate) struct Change {
    /// The key's place.
    pub place: Place,
    /// Whether it stood before.
    pub stood: bool,
}

/// One transaction: what it holds, and what it has changed.
#[derive(Clone, Copy)]
pub(crate) struct Seat {
    /// The mode held on each name.
    held: [Mode; PLACES],
    /// Its changes in their order.
    changes: [Change; CHANGES],
    /// How many changes there are.
    changed: usize,
    /// Whether it has taken a change back.
    rolls_back: bool,
    ghost few: { changed ≤ 8 },
}

impl Seat {
    /// A transaction that has done nothing.
    pub(crate) fn new() -> Seat {
        Seat {
            held: [0; PLACES],
            changes: [Change {
                place: 0,
                stood: false,
            }; CHANGES],
            changed: 0,
            rolls_back: false,
        }
    }

    /// The mode held on a name.
    pub(crate) fn held(&self, place: Place) -> Mode {
        self.held[(place % 16) as usize]
    }

    /// Whether it holds the same locks as another.
    pub(crate) fn holds_as(&self, other: &Seat) -> bool {
        self.held == other.held
    }

    /// Whether it has taken a change back: then it does this and aborts alone.
    pub(crate) fn rolls_back(&self) -> bool {
        self.rolls_back
    }

    /// Whether it has a change that isn't taken back.
    pub(crate) fn has_changes(&self) -> bool {
        self.changed > 0
    }

    /// Whether it holds a lock or has a change.
    pub(crate) fn is_active(&self) -> bool {
        self.changed > 0 || self.held != [0; PLACES]
    }

    /// Whether there is room for one more change.
    pub(crate) fn has_room(&self) -> bool {
        self.changed < CHANGES
    }

    /// The place of the newest change.
    pub(crate) fn newest(&self) -> Option<Place> {
        let change = self.changes().last()?;
        Some(change.place)
    }

    /// Whether the key at a place stood before its first change of it; `None` where there is none.
    pub(crate) fn stood_first(&self, place: Place) -> Option<bool> {
        for change in self.changes() {
            if change.place == place {
                return Some(change.stood);
            }
        }
        None
    }

    /// Its changes, in their order.
    pub(crate) fn changes(&self) -> &[Change] {
        &self.changes[..self.changed]
    }

    /// Holds a mode on a name.
    pub(crate) fn hold(&mut self, place: Place, mode: Mode) {
        self.held[(place % 16) as usize] = mode;
    }

    /// Remembers a change, if there is room.
    pub(crate) fn note(&mut self, change: Change) {
        if self.changed < CHANGES {
            self.changes[self.changed] = change;
            self.changed += 1;
        }
    }

    /// Takes the newest change back, and answers it.
    pub(crate) fn take_back(&mut self) -> Option<Change> {
        if self.changed == 0 {
            return None;
        }
        self.changed -= 1;
        let newest = self.changes[self.changed];
        self.rolls_back = true;
        Some(newest)
    }
}
