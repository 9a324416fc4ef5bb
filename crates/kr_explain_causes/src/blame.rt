//! What may be to blame for a failed case.
use kr_model::{Mode, Row, Side, Span};

/// What is to blame for failed cases.
#[derive(Clone, Copy, Debug, PartialEq, Eq)]
pub enum Blame {
    /// What the row requests at this side. No lock conflicts with it: the row requests nothing there, or its request
    /// is compatible with every mode.
    Place {
        row: Row,
        side: Side,
    },
    /// The request by which the lock was taken, or that nothing is requested there.
    Request {
        row: Row,
        side: Side,
        asked: Option<(Mode, Span)>,
    },
    /// What the held mode and the requested mode convert to.
    Conversion {
        held: Mode,
        requested: Mode,
    },
    /// That the requested mode is compatible with the held one.
    Pair {
        requested: Mode,
        held: Mode,
    },
}

impl Blame {
    /// Its place among what is blamed first where as many cases speak for another.
    pub(crate) fn rank(&self) -> u8 {
        match self {
            Blame::Place { .. } => 0,
            Blame::Conversion { .. } => 1,
            Blame::Request { .. } => 2,
            Blame::Pair { .. } => 3,
        }
    }
}
