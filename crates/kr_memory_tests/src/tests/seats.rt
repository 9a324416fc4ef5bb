//! Calls of three seats of one engine.
ghost use Rattle.std.specs.Prelude.{◌≡◌};
ghost use Rattle.kr_model.specs.Map.{IsMap};
ghost use Rattle.kr_model.specs.Kvl.{kvl};

use kr_engine::{
    CloseFault, Engine, EngineFault, EngineName, Op, PlaceRow, Receipt, Reply, Seat, Share, Txn,
};
use kr_protocol::Kvl;
use std::alloc::{AllocError, Global};
use std::marker::Brand;
use std::process::Abort;
use std::sync::Wait;
use std::test::Fail;

/// What a seat answers, in short: a place and its reply, or who blocks.
#[derive(Clone, Copy, PartialEq, Eq, Debug)]
enum Short {
    Nothing(usize),
    Done(usize),
    Found(usize, u64),
    Deleted(usize, u64),
    Committed(usize),
    Undone(usize, u64),
    Blocked(Txn),
    Memory,
    Other,
}

fn of_receipt(receipt: &Receipt) -> Short {
    match &receipt.reply {
        Reply::None => Short::Nothing(receipt.place),
        Reply::Done => Short::Done(receipt.place),
        Reply::Found(value) => Short::Found(receipt.place, *value),
        Reply::Deleted(value) => Short::Deleted(receipt.place, *value),
        Reply::Committed => Short::Committed(receipt.place),
        Reply::Undone(left) => Short::Undone(receipt.place, *left),
        _ => Short::Other,
    }
}

fn of_fault(fault: &EngineFault) -> Short {
    match fault {
        EngineFault::Refused(Reply::Blocked(txns)) if txns.as_slice().len() == 1 => Short::Blocked(
            txns.as_slice()[0],
        ),
        EngineFault::Memory => Short::Memory,
        _ => Short::Other,
    }
}

/// An attempt of a seat.
fn attempt<K: EngineName, R: Wait>(rt: &R, seat: &mut Seat<'_, Kvl, K>, op: Op) -> Short {
    match seat.try_call(rt, op) {
        Ok(receipt) => of_receipt(&receipt),
        Err(fault) => of_fault(&fault),
    }
}

/// A call of a seat, which nobody blocks.
fn call<K: EngineName, R: Wait>(rt: &R, seat: &mut Seat<'_, Kvl, K>, op: Op) -> Short {
    match seat.call(rt, op) {
        Ok(receipt) => of_receipt(&receipt),
        Err(fault) => of_fault(&fault),
    }
}

/// A call, again where a growth was refused. A call that had left an entry would have moved the next place.
fn called<K: EngineName, R: Wait>(rt: &R, seat: &mut Seat<'_, Kvl, K>, op: Op) -> Short {
    match call(rt, seat, op) {
        Short::Memory => call(rt, seat, op),
        answer => answer,
    }
}

/// The same of an attempt.
fn tried<K: EngineName, R: Wait>(rt: &R, seat: &mut Seat<'_, Kvl, K>, op: Op) -> Short {
    match attempt(rt, seat, op) {
        Short::Memory => attempt(rt, seat, op),
        answer => answer,
    }
}

/// A new seat that began a number, each call again where a growth was refused.
fn begun<'a, K: EngineName, R: Wait + Abort>(
    rt: &R,
    engine: &'a Engine<Kvl, K>,
    txn: Txn,
) -> Result<Seat<'a, Kvl, K>, AllocError> {
    let mut seat = match engine.seat(rt) {
        Ok(seat) => seat,
        Err(_) => engine.seat(rt)?,
    };
    let began = match seat.begin(rt, txn) {
        Err(EngineFault::Memory) => seat.begin(rt, txn).is_ok(),
        answer => answer.is_ok(),
    };
    assert!(rt; began, "{txn}");
    Ok(seat)
}

/// Whether the engine, closed with this share, shows seven entries, again where a growth was refused.
fn closes<K: EngineName>(engine: &mut Engine<Kvl, K>, shares: &[Share<K>]) -> bool {
    match engine.close(shares) {
        Ok(history) => history.entries.len() == 7,
        Err(CloseFault::Memory) => match engine.close(shares) {
            Ok(history) => history.entries.len() == 7,
            Err(_) => false,
        },
        Err(_) => false,
    }
}

/// An insert is blocked by a fetch of the gap, and a fetch by the insert until its commit. False where the engine wasn't
/// made.
fn inserts<K: EngineName, R: Wait + Abort>(
    rt: &R,
    alloc: Global,
    opening: &[(u64, u64)],
    row: PlaceRow,
) -> Result<bool, AllocError>
    requires row { row ≡ K.places }
    requires opening { opening.now ≡ K.opening }
    requires table { kvl ≡ K.table }
    requires is_map { IsMap opening.now }
{
    let Ok(mut engine) = Engine::<Kvl, K>::new(alloc, Kvl, opening, row) else {
        return Ok(false);
    };
    let share = plays(rt, &engine)?;
    let mut shares = Vec::new(alloc);
    if shares.reserve(1).is_err() {
        shares.reserve(1)?;
    }
    shares.push(share)?;
    assert!(rt; closes(&mut engine, shares.as_slice()), "close");
    Ok(true)
}

/// Which of the three seats, and whose transaction is 1, 2 or 3.
#[derive(Clone, Copy)]
enum Who {
    First,
    Second,
    Third,
}

/// How a seat is asked.
#[derive(Clone, Copy)]
enum How {
    /// An attempt, which a blocked operation ends.
    Try,
    /// A call, which nobody blocks.
    Call,
    /// The same of the end of a transaction, which takes no memory.
    End,
}

/// An insert is blocked by a fetch of the gap, and a fetch by the insert until its commit; a delete is undone.
const CALLS: &[(Who, How, Op, Short)] = &[
    (Who::First, How::Call, Op::Fetch(15), Short::Nothing(0)),
    (Who::Second, How::Try, Op::Insert(17, 5), Short::Blocked(1)),
    (Who::First, How::End, Op::Commit, Short::Committed(1)),
    (Who::Second, How::Call, Op::Insert(17, 5), Short::Done(2)),
    (Who::Third, How::Try, Op::Fetch(17), Short::Blocked(2)),
    (Who::Second, How::End, Op::Commit, Short::Committed(3)),
    (Who::Third, How::Call, Op::Fetch(17), Short::Found(4, 5)),
    (Who::Third, How::Call, Op::Delete(17), Short::Deleted(5, 5)),
    (Who::Third, How::Call, Op::Back, Short::Undone(6, 0)),
];

/// Asks a seat, and compares the answer.
fn answers<K: EngineName, R: Wait + Abort>(
    rt: &R,
    seat: &mut Seat<'_, Kvl, K>,
    how: How,
    op: Op,
    expected: Short,
) {
    let answer = match how {
        How::Try => tried(rt, seat, op),
        How::Call => called(rt, seat, op),
        How::End => call(rt, seat, op),
    };
    assert_eq!(rt; answer, expected, "{op:?}");
}

/// Three seats of an engine make those calls. The share of the third.
fn plays<K: EngineName, R: Wait + Abort>(
    rt: &R,
    engine: &Engine<Kvl, K>,
) -> Result<Share<K>, AllocError> {
    let mut first = begun(rt, engine, 1)?;
    let mut second = begun(rt, engine, 2)?;
    let mut third = begun(rt, engine, 3)?;
    for &(who, how, op, expected) in CALLS {
        match who {
            Who::First => answers(rt, &mut first, how, op, expected),
            Who::Second => answers(rt, &mut second, how, op, expected),
            Who::Third => answers(rt, &mut third, how, op, expected),
        }
    }
    Ok(third.leave(rt))
}

/// The same in an engine with a row of its own.
fn in_an_engine<R: Wait + Abort>(rt: &R, alloc: Global) -> Result<bool, Fail> {
    let row = match PlaceRow::new(alloc, 10) {
        Ok(row) => row,
        Err(_) => PlaceRow::new(alloc, 10).ok().ok_or("row")?,
    };
    Ok(inserts::<Brand, _>(rt, alloc, &[], row)?)
}

#[test]
fn three_seats(rt: HostRuntime) -> Result<(), Fail> {
    let alloc = rt.alloc();
    if !in_an_engine(&rt, alloc)? {
        assert!(rt; in_an_engine(&rt, alloc)?, "no engine");
    }
    Ok(())
}
