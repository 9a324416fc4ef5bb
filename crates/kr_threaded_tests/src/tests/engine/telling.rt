//! Stories played on engines.
ghost use Rattle.std.specs.Prelude.{◌≡◌};
ghost use Rattle.kr_model.specs.Map.{IsMap};

use super::closed::closes;
use super::gates::Gate;
use super::parts::races;
use super::stories::{Ask, Lent, Line, Story, Then};
use super::{Short, of_fault, of_receipt};
use kr_engine::{
    Engine, EngineFault, EngineName, Op, PlaceRow, Receipt, Reply, Seat, Share, Watch,
};
use kr_protocol::Covered;
use std::alloc::{AllocError, Global};
use std::marker::Brand;
use std::sync::Wait;
use std::test::Fail;
use std::thread::Threads;

/// Whether all of a story is so.
pub fn is_so<P: Covered + Send, R: Threads + Wait + Sync>(
    rt: &R,
    alloc: Global,
    protocol: P,
    gate: &Gate,
    story: &Story,
) -> Result<bool, Fail> {
    let row = PlaceRow::new(alloc, story.places).ok().ok_or("row")?;
    let opening = story.opening.pairs();
    Ok(is_so_of::<P, Brand, R>(rt, alloc, protocol, gate, opening, row, story)?)
}

fn is_so_of<P: Covered + Send, K: EngineName + Send + Sync, R: Threads + Wait + Sync>(
    rt: &R,
    alloc: Global,
    protocol: P,
    gate: &Gate,
    opening: &[(u64, u64)],
    row: PlaceRow,
    story: &Story,
) -> Result<bool, AllocError>
    requires row { row ≡ K.places }
    requires opening { opening.now ≡ K.opening }
    requires table { P.table protocol ≡ K.table }
    requires is_map { IsMap opening.now }
{
    let engine = Engine::<P, K>::new(alloc, protocol, opening, row)?;
    match plays(rt, alloc, &engine, gate, story)? {
        Some(shares) => Ok(closes(alloc, engine, &shares, story)),
        None => Ok(false),
    }
}

/// Plays a story up to the closing. The shares that are lent to it, or nothing where something isn't so.
fn plays<P: Covered + Send, K: EngineName + Send + Sync, R: Threads + Wait + Sync>(
    rt: &R,
    alloc: Global,
    engine: &Engine<P, K>,
    gate: &Gate,
    story: &Story,
) -> Result<Option<Vec<Share<K>>>, AllocError> {
    let mut shares = Vec::new(alloc);
    let mut seats = Vec::new(alloc);
    for _ in 0..story.seats {
        seats.push(engine.seat(rt)?)?;
    }
    if !are_answers(rt, engine, &mut seats, story.lines)? {
        return Ok(None);
    }
    let good = match story.then {
        Then::Closes | Then::Shows(_) => true,
        Then::Watched => watches_show(engine, &seats)?,
        Then::Races(parts, fates) => races(rt, alloc, engine, gate, seats, parts, fates)?,
        Then::Lends(lent) | Then::LendsAndShows(lent, _) => lends(rt, seats, &mut shares, lent)?,
    };
    Ok(if good { Some(shares) } else { None })
}

/// Whether the seats give these answers, one after another.
fn are_answers<'a, P: Covered, K: EngineName, R: Wait>(
    rt: &R,
    engine: &'a Engine<P, K>,
    seats: &mut Vec<Seat<'a, P, K>>,
    lines: &[Line],
) -> Result<bool, AllocError> {
    for line in lines {
        let good = match *line {
            Line::By(seat, ask, expected) => is_answer(rt, seats, seat, ask, expected),
            Line::Lost => is_replaced(rt, engine, seats)?,
            Line::EachBegins(count) => each_begins(rt, seats, count),
            Line::EachFinds(count) => each_finds(rt, seats, count),
            Line::Fetches(count) => all_fetched(rt, seats, count),
        };
        if !good {
            return Ok(false);
        }
    }
    Ok(true)
}

/// The last seat is lost, and then another given. Whether there was one.
fn is_replaced<'a, P: Covered, K: EngineName, R: Wait>(
    rt: &R,
    engine: &'a Engine<P, K>,
    seats: &mut Vec<Seat<'a, P, K>>,
) -> Result<bool, AllocError> {
    let was_there = seats.pop().is_some();
    seats.push(engine.seat(rt)?)?;
    Ok(was_there)
}

/// Whether a seat gives this answer.
fn is_answer<P: Covered, K: EngineName, R: Wait>(
    rt: &R,
    seats: &mut Vec<Seat<'_, P, K>>,
    seat: usize,
    ask: Ask,
    expected: Short,
) -> bool {
    match seats.get_mut(seat) {
        Some(seat) => answer(rt, seat, ask) == expected,
        None => false,
    }
}

fn answer<P: Covered, K: EngineName, R: Wait>(
    rt: &R,
    seat: &mut Seat<'_, P, K>,
    ask: Ask,
) -> Short {
    match ask {
        Ask::Begin(txn) => begun(&seat.begin(rt, txn)),
        Ask::Try(op) => short(&seat.try_call(rt, op)),
        Ask::Call(op) => short(&seat.call(rt, op)),
    }
}

fn begun(answer: &Result<(), EngineFault>) -> Short {
    match answer {
        Ok(()) => Short::Ok,
        Err(fault) => of_fault(fault),
    }
}

fn short(answer: &Result<Receipt, EngineFault>) -> Short {
    match answer {
        Ok(receipt) => of_receipt(receipt),
        Err(fault) => of_fault(fault),
    }
}

fn each_begins<P: Covered, K: EngineName, R: Wait>(
    rt: &R,
    seats: &mut Vec<Seat<'_, P, K>>,
    count: u32,
) -> bool {
    for number in 0..count {
        let begin = Ask::Begin(number.wrapping_add(1));
        if !is_answer(rt, seats, number as usize, begin, Short::Ok) {
            return false;
        }
    }
    true
}

fn each_finds<P: Covered, K: EngineName, R: Wait>(
    rt: &R,
    seats: &mut Vec<Seat<'_, P, K>>,
    count: usize,
) -> bool {
    for place in 0..count {
        let fetch = Ask::Call(Op::Fetch(10));
        if !is_answer(rt, seats, place, fetch, Short::Found(place, 1)) {
            return false;
        }
    }
    true
}

/// A call that went over the places would not end here.
fn all_fetched<P: Covered, K: EngineName, R: Wait>(
    rt: &R,
    seats: &mut Vec<Seat<'_, P, K>>,
    count: usize,
) -> bool {
    for place in 0..count {
        let fetch = Ask::Call(Op::Fetch(10));
        if !is_answer(rt, seats, 0, fetch, Short::Nothing(place)) {
            return false;
        }
    }
    true
}

/// Whether a watch shows place 2 as the insert of 17 by transaction 2 and seat 1, and place 5 as not written.
fn shows_insert<K: EngineName>(watch: &mut Watch<'_, K>) -> bool {
    let Some(entry) = watch.entry(2) else {
        return false;
    };
    entry.seat == 1
        && entry.event.txn == 2
        && entry.event.op == Op::Insert(17, 5)
        && matches!(entry.reply, Reply::Done)
        && watch.entry(5).is_none()
}

/// Whether a watch of the engine and one of the third seat show that insert; and they meet.
fn watches_show<P: Covered, K: EngineName>(
    engine: &Engine<P, K>,
    seats: &[Seat<'_, P, K>],
) -> Result<bool, AllocError> {
    let Some(seat) = seats.get(2) else {
        return Ok(false);
    };
    let mut seen = seat.watch()?;
    let mut all = engine.watch()?;
    let shown = shows_insert(&mut all) && shows_insert(&mut seen);
    all.meet(&seen);
    Ok(shown)
}

/// The last seat leaves, and the others are lost. Whether it leaves this share.
fn lends<P: Covered, K: EngineName, R: Wait>(
    rt: &R,
    seats: Vec<Seat<'_, P, K>>,
    shares: &mut Vec<Share<K>>,
    expected: Lent,
) -> Result<bool, AllocError> {
    let mut seats = seats;
    let Some(seat) = seats.pop() else {
        return Ok(false);
    };
    let share = seat.leave(rt);
    let lent = Lent {
        seat: share.seat(),
        count: share.count(),
        last: share.last_place(),
    };
    shares.push(share)?;
    Ok(lent == expected)
}
