//! Steps of a script whose transactions have no numbers yet.

use crate::keys::one_up;
use kr_model::Op;

/// Who takes a step.
#[derive(Clone, Copy, PartialEq, Eq)]
pub(crate) enum Actor {
    /// The one whose lock is too weak.
    Holder,
    /// The one that comes through.
    Intruder,
    /// One more.
    Third,
    /// Another beside the holder, told by where it comes in the holder's script.
    BesideHolder(usize),
    /// Another beside the intruder, told by where it comes in the intruder's script.
    BesideIntruder(usize),
}

/// A step of a script. Where it inserts or updates, its value is 0 until the script is whole.
#[derive(Clone, Copy)]
pub(crate) struct Step {
    pub by: Actor,
    pub op: Op,
}

impl Step {
    /// A step of the holder.
    pub(crate) fn own(op: Op) -> Step {
        Step {
            by: Actor::Holder,
            op,
        }
    }

    /// The step with its keys one name up.
    pub(crate) fn one_name_up(self) -> Step {
        let op = match self.op {
            Op::Fetch(key) => Op::Fetch(one_up(key)),
            Op::Scan(lo, hi) => Op::Scan(one_up(lo), one_up(hi)),
            Op::Insert(key, value) => Op::Insert(one_up(key), value),
            Op::Delete(key) => Op::Delete(one_up(key)),
            Op::Update(key, value) => Op::Update(one_up(key), value),
            other => other,
        };
        Step { by: self.by, op }
    }

    /// A step of the holder's script, taken in the intruder's.
    pub(crate) fn of_intruder(self) -> Step {
        let by = match self.by {
            Actor::BesideHolder(place) => Actor::BesideIntruder(place),
            _ => Actor::Intruder,
        };
        Step { by, op: self.op }
    }
}
