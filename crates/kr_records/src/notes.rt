//! What is noted of a seat.

use kr_model::Txn;

/// What is noted of a seat.
#[derive(Clone, Copy, Debug)]
pub struct SeatNote {
    /// How many entries are of it.
    pub count: u64,
    /// The number that it began last.
    pub last: Option<Txn>,
    /// Whether it left.
    pub left: bool,
}
