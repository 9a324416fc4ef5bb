//! Parts of a suite: scripts that were tried.
ghost use Rattle.std.specs.Prelude.{◌<◌, IsTrue, IfOk, IfSome, OnOk, All, length};
ghost use Rattle.std.specs.List.{Contains};
ghost use Rattle.kr_change.specs.GhostChanges.{changed_index};
ghost use Rattle.kr_change.specs.GhostEvery.{index_changes_of};
ghost use Rattle.kr_apart.specs.Apart.{TellsApart};
ghost use Rattle.kr_suite_core.specs.Tried.{IsNamed};
ghost use Rattle.kr_suite_core.specs.Suite.{IsTested};

use kr_apart::{Part, tells_apart};
use kr_change::{Change, Changed};
use kr_kinds::IndexProtocol;
use kr_model::{Event, Memory, Reply};
use kr_stepping::play_any;
use std::alloc::Global;

/// A script with the table's replies, all of which but the last are granted, and changes that it tells apart: under the
/// table with each of these the replies are the same up to the last, which is granted under one of the two and blocked under
/// the other.
#[derive(Drop)]
pub struct Tested {
    /// The opening map, keys rising.
    pub opening: Vec<(u64, u64)>,
    /// The steps.
    pub events: Vec<Event>,
    /// The table's reply to each, with no purge between them.
    pub replies: Vec<Reply>,
    /// The changes that it tells apart; there is at least one. Which of all these are listed no contract says.
    pub tells: Vec<Change>,
}

/// Of the scripts that a search found those that tell a change apart, as tried under both tables.
pub(crate) fn try_all<P: IndexProtocol>(
    alloc: Global,
    protocol: &P,
    others: &[Change],
    found: &[Part],
) -> Result<Vec<Tested>, Memory>
    requires { All (Contains (index_changes_of (P.index protocol.now))) others.now }
    ensures { IfOk result (λ parts. All (IsTested (P.index protocol.now)) parts.items) }
{
    let mut parts = Vec::new(alloc);
    for part in found {
        try_part(alloc, protocol, others, part, &mut parts)?;
    }
    Ok(parts)
}

/// Tries a script, and puts it behind the parts if it tells a change apart.
fn try_part<P: IndexProtocol>(
    alloc: Global,
    protocol: &P,
    others: &[Change],
    part: &Part,
    parts: &mut Vec<Tested>,
) -> Result<(), Memory>
    requires others { All (Contains (index_changes_of (P.index protocol.now))) others.now }
    requires parts { All (IsTested (P.index protocol.now)) parts.old.items }
    ensures { OnOk result (All (IsTested (P.index protocol.now)) parts.new.items) }
{
    let tells = named_by(alloc, protocol, others, part)?;
    if tells.is_empty() {
        return Ok(());
    }
    let part = part_of(alloc, protocol, part, tells)?;
    parts.push(part)?;
    Ok(())
}

/// The changes that a script tells apart, of those of which a search says so.
fn named_by<P: IndexProtocol>(
    alloc: Global,
    protocol: &P,
    others: &[Change],
    part: &Part,
) -> Result<Vec<Change>, Memory>
    requires { All (Contains (index_changes_of (P.index protocol.now))) others.now }
    ensures { IfOk result (λ named. All (IsNamed (P.index protocol.now) part.now.opening.items part.now.events.items) named.items) }
{
    let mut named = Vec::new(alloc);
    for number in part.tells.iter() {
        if let Some(change) = named_at(alloc, protocol, others, part, *number)? {
            named.push(change)?;
        }
    }
    Ok(named)
}

/// The change of this number, if the script tells it apart.
fn named_at<P: IndexProtocol>(
    alloc: Global,
    protocol: &P,
    others: &[Change],
    part: &Part,
    number: usize,
) -> Result<Option<Change>, Memory>
    requires { All (Contains (index_changes_of (P.index protocol.now))) others.now }
    ensures { IfOk result (λ named. IfSome named (IsNamed (P.index protocol.now) part.now.opening.items part.now.events.items)) }
{
    let Some(change) = others.get(number).copied() else {
        return Ok(None);
    };
    if is_told_apart(alloc, protocol, change, part)? {
        Ok(Some(change))
    } else {
        Ok(None)
    }
}

/// Whether a script tells a change apart.
fn is_told_apart<P: IndexProtocol>(
    alloc: Global,
    protocol: &P,
    change: Change,
    part: &Part,
) -> Result<bool, Memory>
    ensures { IfOk result (λ tells. IsTrue tells → TellsApart (P.index protocol.now) (changed_index (P.index protocol.now) change) part.now.opening.items part.now.events.items) }
{
    match Changed::new(protocol, change) {
        Some(changed) => tells_apart(alloc, protocol, &changed, &part.opening, &part.events),
        None => Ok(false),
    }
}

/// The part of a script, with the table's replies.
fn part_of<P: IndexProtocol>(
    alloc: Global,
    protocol: &P,
    part: &Part,
    tells: Vec<Change>,
) -> Result<Tested, Memory>
    requires some { 0 < length tells.items }
    requires named { All (IsNamed (P.index protocol.now) part.now.opening.items part.now.events.items) tells.items }
    ensures { IfOk result (IsTested (P.index protocol.now)) }
{
    let opening = part.opening.to_vec(alloc)?;
    let events = part.events.to_vec(alloc)?;
    let replies = play_any(alloc, protocol, &opening, &events)?;
    Ok(Tested {
        opening,
        events,
        replies,
        tells,
    })
}
