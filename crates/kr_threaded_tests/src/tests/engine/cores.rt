//! Rows of calls of a core of two seats, each with its answer: every call is there, and memory is ample.
ghost use Rattle.std.specs.Prelude.{◌≡◌, ◌<◌, [], true, length};
ghost use Rattle.kr_model.specs.Kvl.{kvl};
ghost use Rattle.kr_records.specs.Cores.{seat_at};

use super::{Short, of_fault, of_receipt};
use kr_engine::{Core, EngineName, Op, PlaceRow, Txn};
use kr_protocol::Kvl;
use std::alloc::Global;
use std::marker::Brand;
use std::test::Fail;

/// What a test asks of a core.
#[derive(Clone, Copy)]
enum Ask {
    Begin,
    Do(Op),
    Wait(Op),
    /// Who waits.
    Who,
    Leave,
}

/// A row of so many places, and the calls by it: a seat, a number and what is asked, one after another, each with its
/// answer.
#[derive(Clone, Copy)]
struct Story {
    name: &'static str,
    places: u64,
    lines: &'static [(usize, Txn, Ask, Short)],
}

/// An insert is blocked by a fetch of the gap, and seen after the commit. A number is one seat's.
const SEATS: Story = Story {
    name: "seats",
    places: 10,
    lines: &[
        (0, 1, Ask::Do(Op::Fetch(10)), Short::NotBegun),
        (0, 1, Ask::Begin, Short::Ok),
        (1, 1, Ask::Begin, Short::Taken),
        (1, 2, Ask::Begin, Short::Ok),
        (0, 2, Ask::Do(Op::Fetch(10)), Short::NotBegun),
        (0, 1, Ask::Do(Op::Fetch(15)), Short::Nothing(0)),
        (0, 4, Ask::Begin, Short::Open),
        (1, 2, Ask::Do(Op::Insert(17, 5)), Short::Blocked(1)),
        (0, 1, Ask::Do(Op::Commit), Short::Committed(1)),
        (1, 2, Ask::Do(Op::Insert(17, 5)), Short::Done(2)),
        (1, 2, Ask::Do(Op::Fetch(17)), Short::Found(3, 5)),
        (0, 1, Ask::Do(Op::Commit), Short::Ended),
    ],
};

/// A row of two places: the end uses the kept one, and nothing else does.
const A_FULL_ROW: Story = Story {
    name: "a full row",
    places: 2,
    lines: &[
        (0, 1, Ask::Begin, Short::Ok),
        (0, 1, Ask::Do(Op::Fetch(10)), Short::Nothing(0)),
        (0, 1, Ask::Do(Op::Fetch(10)), Short::RowFull),
        (0, 1, Ask::Do(Op::Commit), Short::Committed(1)),
        (0, 2, Ask::Begin, Short::RowFull),
    ],
};

/// A number that its seat leaves behind unended keeps its place.
const KEPT_PLACES: Story = Story {
    name: "kept places",
    places: 3,
    lines: &[
        (0, 1, Ask::Begin, Short::Ok),
        (0, 2, Ask::Begin, Short::Ok),
        (0, 2, Ask::Do(Op::Insert(10, 1)), Short::Done(0)),
        (0, 2, Ask::Do(Op::Fetch(10)), Short::RowFull),
        (0, 2, Ask::Do(Op::Abort), Short::Aborted(1)),
        (0, 3, Ask::Begin, Short::RowFull),
        (0, 1, Ask::Do(Op::Commit), Short::Committed(2)),
    ],
};

/// Two transactions that wait for each other: the second is told so, and aborts. Then its seat leaves.
const A_DEADLOCK: Story = Story {
    name: "a deadlock",
    places: 10,
    lines: &[
        (0, 1, Ask::Begin, Short::Ok),
        (1, 2, Ask::Begin, Short::Ok),
        (0, 1, Ask::Do(Op::Fetch(10)), Short::Nothing(0)),
        (1, 2, Ask::Do(Op::Fetch(20)), Short::Nothing(1)),
        (0, 1, Ask::Do(Op::Insert(10, 1)), Short::Blocked(2)),
        (0, 1, Ask::Who, Short::Nobody),
        (0, 1, Ask::Wait(Op::Insert(10, 1)), Short::Ok),
        (0, 1, Ask::Who, Short::Waits(1, 1)),
        (1, 2, Ask::Do(Op::Insert(20, 2)), Short::Blocked(1)),
        (1, 2, Ask::Wait(Op::Insert(20, 2)), Short::Deadlock(1)),
        (1, 2, Ask::Do(Op::Abort), Short::Aborted(2)),
        (0, 1, Ask::Who, Short::Waits(1, 1)),
        (0, 1, Ask::Do(Op::Insert(10, 1)), Short::Done(3)),
        (0, 1, Ask::Who, Short::Nobody),
        (1, 2, Ask::Leave, Short::Ok),
    ],
};

/// Who waits is told in order of number, and each once, in whatever order they came.
const TWO_WAIT: Story = Story {
    name: "two wait",
    places: 10,
    lines: &[
        (0, 7, Ask::Wait(Op::Fetch(10)), Short::Ok),
        (0, 3, Ask::Wait(Op::Fetch(20)), Short::Ok),
        (0, 7, Ask::Wait(Op::Fetch(30)), Short::Ok),
        (0, 0, Ask::Who, Short::Waits(3, 7)),
    ],
};

/// What a seat does to begin a number.
fn begin<K: EngineName>(core: &mut Core<Kvl, K>, row: &PlaceRow, seat: usize, txn: Txn) -> Short
    requires row { row.now ≡ K.places }
    requires seat { seat < length core.old.seats }
    ensures { length core.new.seats ≡ length core.old.seats }
{
    match core.begin(row, seat, txn) {
        Ok(()) => Short::Ok,
        Err(fault) => of_fault(&fault),
    }
}

/// What a seat does to attempt an operation: it answers itself where it didn't begin the number.
fn attempt<K: EngineName>(
    core: &mut Core<Kvl, K>,
    row: &PlaceRow,
    seat: usize,
    txn: Txn,
    op: Op,
) -> Short
    requires row { row.now ≡ K.places }
    requires seat { seat < length core.old.seats }
    ensures { length core.new.seats ≡ length core.old.seats }
{
    if !core.has_begun(txn, seat) {
        return Short::NotBegun;
    }
    match core.perform(row, seat, txn, op) {
        Ok(receipt) => of_receipt(&receipt),
        Err(fault) => of_fault(&fault),
    }
}

/// Notes an operation as waiting.
fn wait<K: EngineName>(core: &mut Core<Kvl, K>, txn: Txn, op: Op) -> Short
    ensures { length core.new.seats ≡ length core.old.seats }
{
    match core.wait(txn, op) {
        Ok(()) => Short::Ok,
        Err(fault) => of_fault(&fault),
    }
}

/// Who waits: none, one or two.
fn who<K: EngineName>(core: &Core<Kvl, K>) -> Short {
    let Ok(txns) = core.waiting() else {
        return Short::Other;
    };
    match txns.as_slice() {
        [] => Short::Nobody,
        [txn] => Short::Waits(*txn, *txn),
        [first, last] => Short::Waits(*first, *last),
        _ => Short::Other,
    }
}

/// A seat leaves, and it is noted. What is noted of a seat is seen by contracts alone.
fn leave<K: EngineName>(core: &mut Core<Kvl, K>, seat: usize) -> Short
    requires { seat < length core.old.seats }
    ensures left { (seat_at core.new.seats seat).left ≡ true }
    ensures seats { length core.new.seats ≡ length core.old.seats }
{
    core.leave(seat);
    Short::Ok
}

fn answer<K: EngineName>(
    core: &mut Core<Kvl, K>,
    row: &PlaceRow,
    seat: usize,
    txn: Txn,
    ask: Ask,
) -> Short
    requires row { row.now ≡ K.places }
    requires seat { seat < length core.old.seats }
    ensures { length core.new.seats ≡ length core.old.seats }
{
    match ask {
        Ask::Begin => begin(core, row, seat, txn),
        Ask::Do(op) => attempt(core, row, seat, txn, op),
        Ask::Wait(op) => wait(core, txn, op),
        Ask::Who => who(core),
        Ask::Leave => leave(core, seat),
    }
}

/// Whether a core of two seats gives these answers: to each line's seat, number and call, one after another.
fn are_answers<K: EngineName>(
    core: &mut Core<Kvl, K>,
    row: &PlaceRow,
    lines: &[(usize, Txn, Ask, Short)],
) -> bool
    requires row { row.now ≡ K.places }
    requires seats { length core.old.seats ≡ 2 }
{
    for &(seat, txn, ask, expected) in lines {
        if seat >= 2 || answer(core, row, seat, txn, ask) != expected {
            return false;
        }
    }
    true
}

/// Whether the next seats of a core are 0 and 1.
fn gives_two_seats<K: EngineName>(core: &mut Core<Kvl, K>) -> bool
    ensures { result ≡ true → length core.new.seats ≡ 2 }
{
    let Ok(first) = core.new_seat() else {
        return false;
    };
    let Ok(second) = core.new_seat() else {
        return false;
    };
    if second != 1 {
        return false;
    }
    first == 0
}

/// Whether a core of two seats gives these answers.
fn has_answers<K: EngineName>(
    alloc: Global,
    opening: &[(u64, u64)],
    row: &PlaceRow,
    lines: &[(usize, Txn, Ask, Short)],
) -> Result<bool, Fail>
    requires row { row.now ≡ K.places }
    requires opening { opening.now ≡ K.opening }
    requires table { kvl ≡ K.table }
    requires empty { opening.now ≡ [] }
{
    let mut core = Core::<Kvl, K>::new(alloc, Kvl, opening, row)?;
    if !gives_two_seats(&mut core) {
        return Ok(false);
    }
    let good = are_answers(&mut core, row, lines);
    core.lemma_invariant();
    Ok(good)
}

/// The same on an empty opening and a row of so many places.
fn plays(alloc: Global, places: u64, lines: &[(usize, Txn, Ask, Short)]) -> Result<bool, Fail> {
    let row = PlaceRow::new(alloc, places).ok().ok_or("row")?;
    has_answers::<Brand>(alloc, &[], &row, lines)
}

#[test]
fn rows(rt: HostRuntime) -> Result<(), Fail> {
    for story in [SEATS, A_FULL_ROW, KEPT_PLACES, A_DEADLOCK, TWO_WAIT] {
        let name = story.name;
        assert!(rt; plays(rt.alloc(), story.places, story.lines)?, "{name}");
    }
    Ok(())
}
