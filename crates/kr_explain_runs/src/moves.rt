//! The moves of the holder, and of others beside it.

use crate::keys::{A, B, C, G, K, P, Y};
use crate::state::State;
use crate::table::Table;
use kr_model::{Mode, Op, Row, Side};
use kr_protocol::Protocol;
use std::alloc::AllocError;

/// How a state comes from another.
#[derive(Clone, Copy, PartialEq, Eq)]
pub(crate) enum Move {
    /// A step of the holder.
    Own(Op),
    /// The holder inserts a key and deletes it.
    PutAndTake(u64),
    /// Another transaction takes the step and commits.
    Other(Op),
}

/// A move and the state that it leads to.
#[derive(Clone, Copy)]
pub(crate) struct Moved {
    pub by: Move,
    pub to: State,
}

/// All moves from a state, in the order in which they are tried; those in the vector before are gone.
pub(crate) fn moves<T: Protocol>(
    table: &Table<'_, T>,
    from: State,
    found: &mut Vec<Moved>,
) -> Result<(), AllocError> {
    found.clear();
    reads_of_a(table, from, found)?;
    if from.p {
        moves_above_p(table, from, found)?;
    } else {
        moves_at_p(table, from, found)?;
    }
    put_and_take_c(table, from, found)?;
    changes_of_a(table, from, found)?;
    update_of_a(table, from, found)?;
    reads_of_y(table, from, found)?;
    put_and_take_g(table, from, found)?;
    other(table, from, found)
}

fn add(found: &mut Vec<Moved>, op: Op, to: State) -> Result<(), AllocError> {
    found.push(Moved {
        by: Move::Own(op),
        to,
    })?;
    Ok(())
}

/// A read of A, and of the gap below it.
fn reads_of_a<T: Protocol>(
    table: &Table<'_, T>,
    from: State,
    found: &mut Vec<Moved>,
) -> Result<(), AllocError> {
    if !from.a {
        return Ok(());
    }
    let read = State {
        did_a: from.did_a.then_read(),
        ..from
    };
    let fetched = table.after(from.on_a, Row::FetchHit, Side::Current, 0);
    add(
        found,
        Op::Fetch(A),
        State {
            on_a: fetched,
            ..read
        },
    )?;
    let on_a = table.after(from.on_a, Row::ScanKey, Side::Current, 0);
    let scanned = State { on_a, ..read };
    if from.p {
        return add(found, Op::Scan(A, A), scanned);
    }
    let to = State {
        did_p: from.did_p.then_read(),
        ..scanned
    };
    add(found, Op::Scan(P, A), to)
}

/// Reads and changes below A and where P doesn't stand.
fn moves_at_p<T: Protocol>(
    table: &Table<'_, T>,
    from: State,
    found: &mut Vec<Moved>,
) -> Result<(), AllocError> {
    let own = from.on_above();
    let read = State {
        did_p: from.did_p.then_read(),
        ..from
    };
    let missed = table.after(own, Row::FetchMiss, Side::Next, 0);
    add(found, Op::Fetch(P), read.with_above(missed))?;
    let stopped = table.after(own, Row::ScanStop, Side::Next, 0);
    add(found, Op::Scan(P, P), read.with_above(stopped))?;
    let put = from.with_above(table.after(own, Row::Insert, Side::Next, own));
    if !from.b {
        add(found, Op::Insert(B, 0), State { b: true, ..put })?;
        if from.k {
            let taken = from.with_above(table.after(own, Row::Delete, Side::Next, own));
            add(found, Op::Delete(K), State { k: false, ..taken })?;
        }
    }
    let to = State {
        p: true,
        did_p: from.did_p.then_inserted(),
        ..put
    };
    add(found, Op::Insert(P, 0), to)
}

/// Reads between P and A, and the delete of P.
fn moves_above_p<T: Protocol>(
    table: &Table<'_, T>,
    from: State,
    found: &mut Vec<Moved>,
) -> Result<(), AllocError> {
    let own = from.on_above();
    let missed = table.after(own, Row::FetchMiss, Side::Next, 0);
    add(found, Op::Fetch(C), from.with_above(missed))?;
    let stopped = table.after(own, Row::ScanStop, Side::Next, 0);
    add(found, Op::Scan(C, C), from.with_above(stopped))?;
    let taken = from.with_above(table.after(own, Row::Delete, Side::Next, own));
    let to = State {
        p: false,
        did_p: from.did_p.then_deleted(),
        ..taken
    };
    add(found, Op::Delete(P), to)
}

/// An insert of C and its delete.
fn put_and_take_c<T: Protocol>(
    table: &Table<'_, T>,
    from: State,
    found: &mut Vec<Moved>,
) -> Result<(), AllocError> {
    found.push(Moved {
        by: Move::PutAndTake(C),
        to: from.with_above(after_put_and_take(table, from.on_above())),
    })?;
    Ok(())
}

/// An insert of G and its delete.
fn put_and_take_g<T: Protocol>(
    table: &Table<'_, T>,
    from: State,
    found: &mut Vec<Moved>,
) -> Result<(), AllocError> {
    let on_y = after_put_and_take(table, from.on_y);
    found.push(Moved {
        by: Move::PutAndTake(G),
        to: State { on_y, ..from },
    })?;
    Ok(())
}

/// The holder's mode on the next name, which was `own` before it inserts a key and deletes it again.
fn after_put_and_take<T: Protocol>(table: &Table<'_, T>, own: Mode) -> Mode {
    let put = table.after(own, Row::Insert, Side::Next, own);
    table.after(put, Row::Delete, Side::Next, put)
}

/// The delete of A where it stands, or else its insert.
fn changes_of_a<T: Protocol>(
    table: &Table<'_, T>,
    from: State,
    found: &mut Vec<Moved>,
) -> Result<(), AllocError> {
    let row = if from.a { Row::Delete } else { Row::Insert };
    let to = State {
        a: !from.a,
        on_a: table.after(from.on_a, row, Side::Current, from.on_y),
        on_y: table.after(from.on_y, row, Side::Next, from.on_y),
        did_a: if from.a {
            from.did_a.then_deleted()
        } else {
            from.did_a.then_inserted()
        },
        ..from
    };
    let op = if from.a {
        Op::Delete(A)
    } else {
        Op::Insert(A, 0)
    };
    add(found, op, to)
}

/// The update of A, where it stands and updates are offered.
fn update_of_a<T: Protocol>(
    table: &Table<'_, T>,
    from: State,
    found: &mut Vec<Moved>,
) -> Result<(), AllocError> {
    if !from.a || !table.protocol.updates() {
        return Ok(());
    }
    let to = State {
        on_a: table.after(from.on_a, Row::Update, Side::Current, 0),
        did_a: from.did_a.then_updated(),
        ..from
    };
    add(found, Op::Update(A, 0), to)
}

/// Reads of Y and of the gap between A and Y.
fn reads_of_y<T: Protocol>(
    table: &Table<'_, T>,
    from: State,
    found: &mut Vec<Moved>,
) -> Result<(), AllocError> {
    for (op, row, side) in [
        (Op::Fetch(Y), Row::FetchHit, Side::Current),
        (Op::Scan(Y, Y), Row::ScanKey, Side::Current),
        (Op::Fetch(G), Row::FetchMiss, Side::Next),
        (Op::Scan(G, G), Row::ScanStop, Side::Next),
    ] {
        let on_y = table.after(from.on_y, row, side, 0);
        add(found, op, State { on_y, ..from })?;
    }
    Ok(())
}

/// Another deletes A or inserts it, and commits: the holder's mode on A stays where it was.
fn other<T: Protocol>(
    table: &Table<'_, T>,
    from: State,
    found: &mut Vec<Moved>,
) -> Result<(), AllocError> {
    if from.did_a.is_change() || from.on_a == 0 {
        return Ok(());
    }
    let (op, row) = if from.a {
        (Op::Delete(A), Row::Delete)
    } else {
        (Op::Insert(A, 0), Row::Insert)
    };
    if table.lets_in(row, from.on_a, from.on_y) {
        found.push(Moved {
            by: Move::Other(op),
            to: State { a: !from.a, ..from },
        })?;
    }
    Ok(())
}

/// The state after a step of the holder, if that is one of its moves.
pub(crate) fn moved_by<T: Protocol>(
    table: &Table<'_, T>,
    from: State,
    op: Op,
    found: &mut Vec<Moved>,
) -> Result<Option<State>, AllocError> {
    moves(table, from, found)?;
    for moved in found.iter() {
        if moved.by == Move::Own(op) {
            return Ok(Some(moved.to));
        }
    }
    Ok(None)
}
