//! What the holder did at a key.
ghost use Rattle.std.specs.Prelude.{◌≤◌};

/// What the holder did at a key.
#[derive(Clone, Copy)]
pub(crate) enum Deed {
    Nothing,
    Read,
    /// It deleted a committed key, which may stand again.
    Deleted,
    /// It inserted the key where none was, and may have deleted it again.
    Inserted,
    /// It gave a committed key another value, and has not deleted it.
    Updated,
}

impl Deed {
    /// The deed after a read.
    pub(crate) fn then_read(self) -> Deed {
        match self {
            Deed::Nothing => Deed::Read,
            other => other,
        }
    }

    /// The deed after an insert.
    pub(crate) fn then_inserted(self) -> Deed {
        match self {
            Deed::Deleted => Deed::Deleted,
            _ => Deed::Inserted,
        }
    }

    /// The deed after a delete.
    pub(crate) fn then_deleted(self) -> Deed {
        match self {
            Deed::Inserted => Deed::Inserted,
            _ => Deed::Deleted,
        }
    }

    /// The deed after an update.
    pub(crate) fn then_updated(self) -> Deed {
        match self {
            Deed::Nothing | Deed::Read => Deed::Updated,
            other => other,
        }
    }

    /// Whether nobody but the holder sees a change of it.
    pub(crate) fn is_change(self) -> bool {
        !matches!(self, Deed::Nothing | Deed::Read)
    }

    /// The deed's number, from 0 to 4.
    pub(crate) fn number(self) -> usize
        ensures { result ≤ 4 }
    {
        match self {
            Deed::Nothing => 0,
            Deed::Read => 1,
            Deed::Deleted => 2,
            Deed::Inserted => 3,
            Deed::Updated => 4,
        }
    }
}
