//! The verdict on a part's committed transactions.

use crate::Observed;
use kr_model::{Reply, Txn, Txns};

/// Whether the committed transactions of a part are serializable, as far as their answers are given.
#[derive(Debug, Drop)]
pub enum TraceVerdict {
    /// In commit order.
    Serial,
    /// In this order.
    SerialInOrder(Txns),
    /// Not in commit order, by the first answer that isn't the serial one.
    NotSerial {
        txn: Txn,
        /// The number of the operation in its transaction, from 1.
        operation: u64,
        /// The engine's answer.
        given: Observed,
        /// The serial answer.
        serial: Reply,
    },
    /// There are too many orders to try, and the engine tells none.
    Unknown,
}
