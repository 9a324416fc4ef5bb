//! What a closed engine shows.

use super::stories::{Story, Then, View};
use kr_engine::{Engine, EngineName, History, Op, Programs, Reply, SeatNote, Share, Txn};
use kr_protocol::Covered;
use std::alloc::Global;

/// Whether the engine is closed with these shares, and shows what the story says; and shows it again where it is used no
/// more.
pub fn closes<P: Covered, K: EngineName>(
    alloc: Global,
    engine: Engine<P, K>,
    shares: &[Share<K>],
    story: &Story,
) -> bool {
    let mut engine = engine;
    let closed = match engine.close(shares) {
        Ok(history) => shows_then(alloc, &history, &story.then),
        Err(_) => false,
    };
    match engine.into_history(shares) {
        Ok(history) => shows_then(alloc, &history, &story.then) && closed,
        Err(_) => false,
    }
}

fn shows_then(alloc: Global, history: &History, then: &Then) -> bool {
    match then {
        Then::Shows(view) | Then::LendsAndShows(_, view) => shows(alloc, history, view),
        Then::Closes | Then::Watched | Then::Races(_, _) | Then::Lends(_) => true,
    }
}

fn shows(alloc: Global, history: &History, view: &View) -> bool {
    let Ok(programs) = history.programs(alloc) else {
        return false;
    };
    history.entries.len() == view.entries
        && history.index.as_slice() == view.index
        && history.locks.as_slice() == view.locks
        && history.unfinished.as_slice() == view.unfinished
        && programs.as_slice().len() == view.programs
        && has_entry(history, view.entry)
        && has_program(&programs, view.program)
        && has_seats(history, view)
}

fn has_entry(history: &History, expected: (usize, Op)) -> bool {
    match history.entries.get(expected.0) {
        Some(entry) => entry.event.op == expected.1,
        None => false,
    }
}

fn has_program(programs: &Programs, expected: Option<(Txn, Op, u64)>) -> bool {
    let Some((txn, op, value)) = expected else {
        return true;
    };
    let Some(program) = programs.as_slice().first() else {
        return false;
    };
    match program.operations.as_slice() {
        [(done, Reply::Found(found))] => program.txn == txn && *done == op && *found == value,
        _ => false,
    }
}

fn has_seats(history: &History, view: &View) -> bool {
    match history.seats.as_slice() {
        [first, second] => is_note(first, view.first) && is_note(second, view.second),
        _ => false,
    }
}

fn is_note(note: &SeatNote, expected: (u64, bool)) -> bool {
    note.count == expected.0 && note.left == expected.1
}
