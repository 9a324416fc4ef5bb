//! What a core and a seat answer, in short.

mod alone;
mod backs;
mod closed;
mod cores;
mod gates;
mod parts;
mod races;
mod stories;
mod telling;

use kr_engine::{EngineFault, Receipt, Reply, Txn};
use kr_model::Refusal;

/// What a core or a seat answered, in short.
#[derive(Clone, Copy, PartialEq)]
pub enum Short {
    /// Begun, noted as waiting, or left.
    Ok,
    /// A place, and the reply.
    Nothing(usize),
    Done(usize),
    Found(usize, u64),
    Deleted(usize, u64),
    Updated(usize, u64),
    Absent(usize),
    Undone(usize, u64),
    Committed(usize),
    Aborted(usize),
    /// Blocked by one transaction, or a cycle of two, of which this is the last.
    Blocked(Txn),
    Deadlock(Txn),
    /// Nobody waits, or from one transaction to another, these two or one.
    Nobody,
    Waits(Txn, Txn),
    Ended,
    Full,
    NoUpdate,
    RollingBack,
    NothingLeft,
    RowFull,
    Taken,
    Open,
    NotBegun,
    Other,
}

pub fn of_fault(fault: &EngineFault) -> Short {
    match fault {
        EngineFault::Deadlock(cycle) if cycle.as_slice().len() == 2 => Short::Deadlock(
            cycle.as_slice()[1],
        ),
        EngineFault::Refused(Reply::Blocked(txns)) if txns.as_slice().len() == 1 => Short::Blocked(
            txns.as_slice()[0],
        ),
        EngineFault::Refused(Reply::Refused(refusal)) => of_refusal(*refusal),
        EngineFault::RowFull => Short::RowFull,
        EngineFault::Taken => Short::Taken,
        EngineFault::Open => Short::Open,
        EngineFault::NotBegun => Short::NotBegun,
        _ => Short::Other,
    }
}

fn of_refusal(refusal: Refusal) -> Short {
    match refusal {
        Refusal::Ended => Short::Ended,
        Refusal::Full => Short::Full,
        Refusal::NoUpdate => Short::NoUpdate,
        Refusal::RollingBack => Short::RollingBack,
        Refusal::NothingLeft => Short::NothingLeft,
        Refusal::Busy | Refusal::NoScan | Refusal::BadRange | Refusal::Memory => Short::Other,
    }
}

pub fn of_receipt(receipt: &Receipt) -> Short {
    match &receipt.reply {
        Reply::None => Short::Nothing(receipt.place),
        Reply::Done => Short::Done(receipt.place),
        Reply::Found(value) => Short::Found(receipt.place, *value),
        Reply::Deleted(value) => Short::Deleted(receipt.place, *value),
        Reply::Updated(value) => Short::Updated(receipt.place, *value),
        Reply::Absent => Short::Absent(receipt.place),
        Reply::Undone(left) => Short::Undone(receipt.place, *left),
        Reply::Committed => Short::Committed(receipt.place),
        Reply::Aborted => Short::Aborted(receipt.place),
        _ => Short::Other,
    }
}
