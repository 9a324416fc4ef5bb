//! Scripts that go wrong.
ghost use Rattle.std.specs.Prelude.{◌≡◌, Some};
ghost use Rattle.kr_model.specs.Map.{IsMap};
ghost use Rattle.kr_explain_runs.specs.Requests.{txn_at};

use crate::ending::Ending;
use kr_model::{Event, Row, Side, Txn};

/// A script that goes wrong under a table, and how it was put together.
#[derive(Drop)]
pub struct Counterexample {
    /// The opening map: keys rise strictly.
    pub opening: Vec<(u64, u64)>,
    /// The steps, in order.
    pub events: Vec<Event>,
    /// The row and the side of the table at which the intruder comes through: its lock there is on a name that the step
    /// `weak` is about too.
    pub row: Row,
    pub side: Side,
    /// How it ends, and so what is seen.
    pub ending: Ending,
    /// The place in `events`, from 0, of the holder's step whose lock is too weak.
    pub weak: usize,
    /// The place in `events`, from 0, of the intruder's step that comes through.
    pub let_in: usize,
    /// Whose lock is too weak.
    pub holder: Txn,
    /// Who comes through.
    pub intruder: Txn,
    /// Who else takes part in the ending.
    pub third: Option<Txn>,
    ghost rising: { IsMap opening.items },
    ghost weak_is_holders: { txn_at events.items weak ≡ Some holder },
    ghost let_in_is_intruders: { txn_at events.items let_in ≡ Some intruder },
}
