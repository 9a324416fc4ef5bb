//! An engine: seats of threads do the steps of transactions on one machine under one lock, each step with the write of one
//! place of a row, which is read without the lock.
#![tactic(auto)]

mod closing;
mod engine;
mod kernel;
mod seat;
mod seat_state;
mod waits;
mod wakes;
mod writes;

pub use engine::Engine;
pub use kernel::Core;
pub use kr_model::{Event, Mode, Name, Op, Pairs, Programs, Reply, Txn, Txns};
pub use kr_records::{
    CloseFault, EngineFault, EngineName, Entry, History, NewFault, PlaceRow, Receipt, SeatNote,
    Share, Watch,
};
pub use seat::Seat;
