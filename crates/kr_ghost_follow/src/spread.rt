//! The states that may stand before a line, by purges.
ghost use Rattle.std.specs.Prelude.{List, All, IfOk, IfSome, OnOk};
ghost use Rattle.kr_model.specs.Map.{Map};
ghost use Rattle.kr_trace_follow.specs.Lines.{Line};
ghost use Rattle.kr_ghost_follow.specs.Stands.{IsStanding};

use crate::known::Known;
use crate::line::Logged;
use crate::near::near;
use crate::stand::Stand;
use kr_ghost_protocol::GhostProtocol;
use kr_model::Memory;
use std::alloc::Global;

/// How many states are followed at most.
pub const MOST: usize = 64;

/// Adds a state to a list, if there is one.
fn push_if_any<'a, P: GhostProtocol>(
    list: &mut Vec<Stand<'a, P>>,
    more: Option<Stand<'a, P>>,
) -> Result<(), Memory>
    ensures { (q : P) (opening : Map) (lines : List Line) → All (IsStanding P.ghosts q opening lines) list.old.items → IfSome more.entry (IsStanding P.ghosts q opening lines) → OnOk result (All (IsStanding P.ghosts q opening lines) list.new.items) }
{
    if let Some(stand) = more {
        list.push(stand)?;
    }
    Ok(())
}

/// The states that a purge of one ghost leaves of a state, for each ghost whose purge may matter to a line.
fn purged_once<'a, P: GhostProtocol>(
    alloc: Global,
    stand: &Stand<'a, P>,
    line: Logged,
) -> Result<Vec<Stand<'a, P>>, Memory>
    ensures { (q : P) (opening : Map) (lines : List Line) → IsStanding P.ghosts q opening lines stand.now → IfOk result (λ list. All (IsStanding P.ghosts q opening lines) list.items) }
{
    let keys = near(alloc, stand, line)?;
    let mut list = Vec::new(alloc);
    for i in 0..keys.len() {
        let purged = stand.purged(alloc, line.number, keys[i])?;
        push_if_any(&mut list, purged)?;
    }
    Ok(list)
}

/// Notes a state that isn't known, if there is room. It answers whether it was noted, and whether it was left out.
fn note_new<P: GhostProtocol>(
    alloc: Global,
    known: &mut Vec<Known>,
    stand: &Stand<P>,
    has_room: bool,
) -> Result<(bool, bool), Memory> {
    let new = Known::of(alloc, stand)?;
    if new.is_in(known.as_slice()) {
        return Ok((false, false));
    }
    if has_room {
        known.push(new)?;
    }
    Ok((has_room, !has_room))
}

/// Adds a state that isn't known, as long as there are few. It answers whether it was left out.
fn add<'a, P: GhostProtocol>(
    alloc: Global,
    stands: &mut Vec<Stand<'a, P>>,
    known: &mut Vec<Known>,
    stand: Stand<'a, P>,
) -> Result<bool, Memory>
    ensures { (q : P) (opening : Map) (lines : List Line) → All (IsStanding P.ghosts q opening lines) stands.old.items → IsStanding P.ghosts q opening lines stand.entry → OnOk result (All (IsStanding P.ghosts q opening lines) stands.new.items) }
{
    let has_room = stands.len() < MOST - 1;
    let (is_new, is_left_out) = note_new(alloc, known, &stand, has_room)?;
    if !is_new {
        return Ok(is_left_out);
    }
    stands.push(stand)?;
    Ok(false)
}

/// Adds those of the states that aren't known, as long as there are few. It answers whether one was left out.
fn add_all<'a, P: GhostProtocol>(
    alloc: Global,
    stands: &mut Vec<Stand<'a, P>>,
    known: &mut Vec<Known>,
    more: Vec<Stand<'a, P>>,
) -> Result<bool, Memory>
    ensures { (q : P) (opening : Map) (lines : List Line) → All (IsStanding P.ghosts q opening lines) stands.old.items → All (IsStanding P.ghosts q opening lines) more.entry.items → OnOk result (All (IsStanding P.ghosts q opening lines) stands.new.items) }
{
    let mut more = more;
    let mut is_cut = false;
    while !more.is_empty() {
        let stand = more.remove(0);
        let left_out = add(alloc, stands, known, stand)?;
        is_cut |= left_out;
    }
    Ok(is_cut)
}

/// What tells the first state and the others from more.
fn all_known<P: GhostProtocol>(
    alloc: Global,
    first: &Stand<P>,
    others: &[Stand<P>],
) -> Result<Vec<Known>, Memory> {
    let mut known = Vec::new(alloc);
    known.push(Known::of(alloc, first)?)?;
    for stand in others {
        known.push(Known::of(alloc, stand)?)?;
    }
    Ok(known)
}

/// Adds to the states beside the first those that purges before a line leave of any of them, with few purges first; `MOST` at
/// most with the first. It answers whether one was left out.
pub(crate) fn spread<'a, P: GhostProtocol>(
    alloc: Global,
    first: &Stand<'a, P>,
    others: &mut Vec<Stand<'a, P>>,
    line: Logged,
) -> Result<bool, Memory>
    ensures { (q : P) (opening : Map) (lines : List Line) → IsStanding P.ghosts q opening lines first.now → All (IsStanding P.ghosts q opening lines) others.old.items → OnOk result (All (IsStanding P.ghosts q opening lines) others.new.items) }
{
    let mut known = all_known(alloc, first, others.as_slice())?;
    let more = purged_once(alloc, first, line)?;
    let mut is_cut = add_all(alloc, others, &mut known, more)?;
    for i in 0..MOST {
        if i >= others.len() {
            return Ok(is_cut);
        }
        let more = purged_once(alloc, &others[i], line)?;
        let left_out = add_all(alloc, others, &mut known, more)?;
        is_cut |= left_out;
    }
    Ok(is_cut)
}

/// The same, where a key may be a ghost.
pub(crate) fn spread_if<'a, P: GhostProtocol>(
    alloc: Global,
    may_purge: bool,
    first: &Stand<'a, P>,
    others: &mut Vec<Stand<'a, P>>,
    line: Logged,
) -> Result<bool, Memory>
    ensures { (q : P) (opening : Map) (lines : List Line) → IsStanding P.ghosts q opening lines first.now → All (IsStanding P.ghosts q opening lines) others.old.items → OnOk result (All (IsStanding P.ghosts q opening lines) others.new.items) }
{
    if may_purge {
        return spread(alloc, first, others, line);
    }
    Ok(false)
}
