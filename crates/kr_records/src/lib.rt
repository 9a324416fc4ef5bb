//! What an engine keeps beside its machine, and what is told of it: the numbers that were begun, what is noted of seats, the
//! operations that wait, faults and receipts, and the history that it shows. Nothing here needs the machine.
//!
//! The history is kept in a row of places. Each place is written once, and read without a lock; what was seen of a place stays so,
//! and all who saw it saw the same.
#![tactic(auto)]

mod closing;
mod faults;
mod known;
mod known_cells;
mod name;
mod notes;
mod numbers;
mod queues;
mod row;
mod seat_state;
mod seen;
mod share;
mod waits;
mod wakes;
mod watch;
mod writes;

pub use closing::{CloseFault, History, copies_of, fit_all};
pub use faults::{Attempted, EngineFault, Receipt, fault_of};
pub use known::Known;
pub use name::{EngineName, Entry};
pub use notes::SeatNote;
pub use numbers::{Number, Numbers};
pub use queues::{Queues, Woken};
pub use row::{NewFault, PlaceRow};
pub use seat_state::SeatState;
pub use seen::Seen;
pub use share::Share;
pub use waits::{forget, may_close, note, txns_of};
pub use wakes::{Change, change_of, shed_all};
pub use watch::Watch;
pub use writes::written;
