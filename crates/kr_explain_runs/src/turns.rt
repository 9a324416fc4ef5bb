//! What leads from scene to scene.

use crate::request::{REQUESTS, Request, TAKE};
use crate::scene::Scene;
use crate::table::Table;
use kr_decide::{FREE, keeps_out};
use kr_model::{LockState, Row, Side};
use kr_protocol::Protocol;
use std::alloc::AllocError;

/// A step of a scene's script.
#[derive(Clone, Copy)]
pub(crate) struct Turn {
    /// Whether the second takes it.
    pub by_second: bool,
    /// Whether its lock is requested on Y. Otherwise it is on A; an insert or a delete of A requests one on Y too.
    pub on_y: bool,
    pub request: Request,
}

/// A turn, and the scene to which it leads.
#[derive(Clone, Copy)]
pub(crate) struct Turned {
    pub by: Turn,
    pub to: Scene,
}

/// The turns from a scene, in place of those in the list.
pub(crate) fn turns<P: Protocol>(
    table: &Table<P>,
    from: Scene,
    found: &mut Vec<Turned>,
) -> Result<(), AllocError> {
    found.clear();
    if from.is_alone {
        turns_on_a(table, from, found)?;
        turns_of_a(table, from, found)?;
        turns_on_y(table, from, found)
    } else {
        turns_of(table, from, false, found)?;
        turns_of(table, from, true, found)
    }
}

/// What one has on a name after a request there that goes by no other name; or `None` where the table has no such row.
fn moved<P: Protocol>(table: &Table<P>, request: Request, own: LockState) -> Option<LockState> {
    if table.has_row(request.0) {
        Some(table.moved(request, own, FREE))
    } else {
        None
    }
}

/// The turns of one of two: requests that are granted beside the other, and that the other needn't keep out.
fn turns_of<P: Protocol>(
    table: &Table<P>,
    from: Scene,
    by_second: bool,
    found: &mut Vec<Turned>,
) -> Result<(), AllocError> {
    let seen = from.seen_by(by_second);
    for request in &REQUESTS {
        let (row, side) = *request;
        if !keeps_out(seen.second, row, side)
            && table.lets_in_at(*request, seen.first, FREE, seen.second)
        {
            if let Some(first) = moved(table, *request, seen.first) {
                let by = Turn {
                    by_second,
                    on_y: false,
                    request: *request,
                };
                let to = Scene { first, ..seen }.seen_by(by_second);
                found.push(Turned { by, to })?;
            }
        }
    }
    Ok(())
}

/// The turns of one that is alone on A, where A is present, by which it stays so.
fn turns_on_a<P: Protocol>(
    table: &Table<P>,
    from: Scene,
    found: &mut Vec<Turned>,
) -> Result<(), AllocError> {
    if !from.has_a() {
        return Ok(());
    }
    for request in &REQUESTS {
        if let Some(first) = moved(table, *request, from.first) {
            let by = Turn {
                by_second: false,
                on_y: false,
                request: *request,
            };
            let took = from.took || *request == TAKE;
            let to = Scene {
                first,
                took,
                ..from
            };
            found.push(Turned { by, to })?;
        }
    }
    Ok(())
}

/// The turn of one that is alone by which A comes or goes.
fn turns_of_a<P: Protocol>(
    table: &Table<P>,
    from: Scene,
    found: &mut Vec<Turned>,
) -> Result<(), AllocError> {
    let row = if from.has_a() {
        Row::Delete
    } else {
        Row::Insert
    };
    let by = Turn {
        by_second: false,
        on_y: false,
        request: (row, Side::Current),
    };
    let to = Scene {
        first: table.moved((row, Side::Current), from.first, from.above),
        above: table.moved((row, Side::Next), from.above, FREE),
        ..from
    };
    found.push(Turned { by, to })?;
    Ok(())
}

/// The turns of one that is alone on Y.
fn turns_on_y<P: Protocol>(
    table: &Table<P>,
    from: Scene,
    found: &mut Vec<Turned>,
) -> Result<(), AllocError> {
    for request in &REQUESTS {
        let takes = *request == TAKE;
        if !(takes && from.has_a()) {
            if let Some(above) = moved(table, *request, from.above) {
                let by = Turn {
                    by_second: false,
                    on_y: true,
                    request: *request,
                };
                let took = from.took || takes;
                let to = Scene {
                    above,
                    took,
                    ..from
                };
                found.push(Turned { by, to })?;
            }
        }
    }
    Ok(())
}
