//! What stands at a place, and the name of one engine.

use kr_model::{Event, Reply};
use std::marker::Brand;

/// One step that was done.
#[derive(Debug, Drop)]
pub struct Entry {
    /// The seat's number, from 0.
    pub seat: usize,
    /// By which transaction, and what.
    pub event: Event,
    /// What was answered.
    pub reply: Reply,
}

/// Names one engine's row of places, its opening map and the table of its protocol, for contracts alone. It has no calls.
pub trait EngineName {
    ghost use Rattle.std.specs.Prelude.{ℕ, List};
    ghost use Rattle.kr_model.specs.Map.{Map};
    ghost use Rattle.kr_model.specs.Protocol.{Protocol};

    /// The names of the cells of its row.
    ghost places: { List ℕ };

    /// Its index before the first step.
    ghost opening: { Map };

    /// The table of its protocol.
    ghost table: { Protocol };
}

impl EngineName for Brand {
    ghost use Rattle.std.specs.Prelude.{[]};
    ghost use Rattle.kr_model.specs.Kvl.{kvl};

    ghost places = { [] };

    ghost opening = { [] };

    ghost table = { kvl };
}
