//! What an attempt does where it is granted.
ghost use Rattle.std.specs.Prelude.{◌≡◌};
ghost use Rattle.kr_ghost_machine.specs.Deeds.{change_reply};

use kr_model::{Name, Reply};

/// A change of a key.
#[derive(Clone, Copy)]
pub(crate) struct Change {
    pub(crate) key: u64,
    /// The value that the key gets; none where it becomes a ghost.
    pub(crate) value: Option<u64>,
    /// The value that stood there; none where the key wasn't present.
    pub(crate) before: Option<u64>,
}

impl Change {
    /// What it answers.
    pub(crate) fn reply(self) -> Reply
        ensures { result ≡ change_reply self }
    {
        match (self.before, self.value) {
            (None, _) => Reply::Done,
            (Some(before), None) => Reply::Deleted(before),
            (Some(before), Some(_)) => Reply::Updated(before),
        }
    }
}

/// A scan's look at a name.
#[derive(Clone, Copy)]
pub(crate) struct Glance {
    /// The least and the greatest key of a scan that begins; none where the scan in progress goes on.
    pub(crate) begins: Option<(u64, u64)>,
    /// The name that it looks at.
    pub(crate) name: Name,
    /// The value of its key, if that is present.
    pub(crate) value: Option<u64>,
}

/// What an attempt does.
#[derive(Drop)]
pub(crate) enum Deed {
    /// It answers this, and changes nothing.
    Answer(Reply),
    /// It changes a key.
    Change(Change),
    /// A scan looks at a name.
    Look(Glance),
}
