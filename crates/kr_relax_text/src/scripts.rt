//! Scripts that show relaxations.
ghost use Rattle.std.specs.Prelude.{◌≡◌, ◌↔◌, IsTrue, IfOk, IfSome};
ghost use Rattle.kr_relax_text.specs.Scripts.{AreShown, IsShown, LetsThrough, Shows};

use crate::replies::{ends_blocked, ends_granted};
use kr_apart::{Flat, Part, parts, tells_apart};
use kr_change::{Change, Changed};
use kr_judge::is_map;
use kr_kinds::IndexProtocol;
use kr_model::{Event, Memory};
use kr_relax_core::Relaxed;
use kr_stepping::play_any;
use std::alloc::Global;

/// A script of which a table grants all steps but the last, which it blocks.
#[derive(Drop)]
pub struct Shown {
    /// The opening map, keys rising.
    pub opening: Vec<(u64, u64)>,
    /// The steps.
    pub events: Vec<Event>,
}

/// A relaxation, and a script of which the last step is granted with it, if one is known.
#[derive(Drop)]
pub struct Relaxation {
    pub relaxed: Relaxed,
    pub script: Option<Shown>,
}

/// Whether a script has the same replies under two tables, all granted, up to the last, which the first blocks and the second
/// grants.
fn lets_through<P: IndexProtocol, Q: IndexProtocol>(
    alloc: Global,
    one: &P,
    other: &Q,
    opening: &[(u64, u64)],
    events: &[Event],
) -> Result<bool, Memory>
    ensures { IfOk result (λ is. IsTrue is ↔ LetsThrough (P.index one.now) (Q.index other.now) opening.now events.now) }
{
    if !is_map(opening) || !tells_apart(alloc, one, other, opening, events)? {
        return Ok(false);
    }
    let before = play_any(alloc, one, opening, events)?;
    let after = play_any(alloc, other, opening, events)?;
    Ok(ends_blocked(before.as_slice()) && ends_granted(after.as_slice()))
}

/// A script that was found for the change of this number, if there is one.
fn found_for(alloc: Global, found: &[Part], number: usize) -> Result<Option<Shown>, Memory> {
    match found.iter().find(|part| part.tells.contains(&number)) {
        Some(part) => Ok(Some(Shown {
            opening: part.opening.as_slice().to_vec(alloc)?,
            events: part.events.as_slice().to_vec(alloc)?,
        })),
        None => Ok(None),
    }
}

/// A script, if it shows a change. It is tried under both tables.
fn if_shows<P: IndexProtocol>(
    alloc: Global,
    protocol: &P,
    change: Change,
    shown: Shown,
) -> Result<Option<Shown>, Memory>
    ensures { IfOk result (λ script. IfSome script (Shows (P.index protocol.now) change)) }
{
    let Some(changed) = Changed::new(protocol, change) else {
        return Ok(None);
    };
    if !lets_through(alloc, protocol, &changed, &shown.opening, &shown.events)? {
        return Ok(None);
    }
    Ok(Some(shown))
}

/// A relaxation with the script that was found for its number, if that shows it.
fn with_script<P: IndexProtocol>(
    alloc: Global,
    protocol: &P,
    found: &[Part],
    number: usize,
    relaxed: Relaxed,
) -> Result<Relaxation, Memory>
    ensures relaxed { IfOk result (λ r. r.relaxed ≡ relaxed) }
    ensures script { IfOk result (IsShown (P.index protocol.now)) }
{
    let script = match found_for(alloc, found, number)? {
        Some(shown) => if_shows(alloc, protocol, relaxed.change, shown)?,
        None => None,
    };
    Ok(Relaxation { relaxed, script })
}

/// Scripts that may show relaxations, by their numbers.
fn search<P: IndexProtocol>(
    alloc: Global,
    protocol: &P,
    relaxations: &[Relaxed],
) -> Result<Vec<Part>, Memory> {
    let mut changes = Vec::new(alloc);
    for relaxed in relaxations {
        changes.push(relaxed.change)?;
    }
    parts(alloc, &Flat::of(protocol), &changes)
}

/// The relaxations, each with a script that shows it, if one is found: under the table with the change the script's last step is
/// granted, and without it blocked. The error is memory alone.
pub fn with_scripts<P: IndexProtocol>(
    alloc: Global,
    protocol: &P,
    relaxations: &[Relaxed],
) -> Result<Vec<Relaxation>, Memory>
    ensures { IfOk result (λ list. AreShown (P.index protocol.now) relaxations.now list.items) }
{
    let found = search(alloc, protocol, relaxations)?;
    let mut list = Vec::new(alloc);
    for relaxed in relaxations {
        let number = list.len();
        let one = with_script(alloc, protocol, &found, number, *relaxed)?;
        list.push(one)?;
    }
    Ok(list)
}
