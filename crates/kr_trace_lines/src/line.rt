//! Lines of a trace.

use crate::Observed;
use kr_model::{Event, Pairs, Txns};

/// A line of a trace.
#[derive(Debug, Drop)]
pub enum Line {
    /// Begins a part: an index with these pairs, keys rising, at most 100,000, and no transactions. The texts say what the
    /// part tests, where the head has any.
    Head { opening: Pairs, tests: Vec<String> },
    /// A step with the engine's reply.
    Step(Event, Observed),
    /// Ends a part: the committed transactions in an order in which the engine says that they are serializable.
    Order(Txns),
}
