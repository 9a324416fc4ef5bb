//! What each change of one entry does to a table.
ghost use Rattle.std.specs.Prelude.{◌≡◌, All, IfOk, map};
ghost use Rattle.kr_kinds.specs.Kinds.{table_of};
ghost use Rattle.kr_relax_core.specs.Met.{AreApart, IsMetBy};
ghost use Rattle.kr_relax_core.specs.Outcomes.{IsJudged, IsOutcome};
ghost use Rattle.kr_relax_core.specs.Twins.{HasTwins};
ghost use Rattle.kr_relax_core.specs.Width.{AreGained};

use crate::differs::{differs, differs_own};
use crate::place::{Spot, is_blocked_at};
use crate::safe::is_safe_index;
use crate::spots::spots_of;
use crate::twins::{Twin, twins_of};
use kr_change::{Change, Changed};
use kr_kinds::IndexProtocol;
use kr_model::Memory;
use std::alloc::Global;

/// What a change of one entry does to a table.
#[derive(Clone, Copy, Debug, PartialEq, Eq)]
pub enum Outcome {
    /// It isn't a change of the table's.
    NoChange,
    /// It blocks somewhere what the table grants.
    BlocksMore,
    /// It blocks nothing more, and lets nothing more through.
    LetsNothingMore,
    /// It blocks nothing more and lets more through, and the table with it isn't safe.
    Unsafe,
    /// It is a relaxation, which grants so many requests beside locks that the table blocks.
    Relaxes(usize),
}

/// A change, and what it does.
#[derive(Clone, Copy, PartialEq, Eq)]
pub struct Judged {
    pub change: Change,
    pub outcome: Outcome,
}

/// Of the requests beside locks that the first protocol blocks, how many the second grants with some twins of their modes.
fn width<P: IndexProtocol, Q: IndexProtocol>(
    base: &P,
    other: &Q,
    twins: &[Twin],
    spots: &[Spot],
) -> usize
    requires same { (table_of (Q.index other.now)).count ≡ (table_of (P.index base.now)).count }
    requires twins { HasTwins (P.index base.now) (Q.index other.now) twins.now }
    requires spots { IsMetBy (P.index base.now) spots.now }
    requires apart { AreApart spots.now }
    ensures { AreGained (P.index base.now) (Q.index other.now) result }
{
    let mut width = 0;
    for at in 0..spots.len() {
        let spot = spots[at];
        if is_blocked_at(base, spot.request, spot.held)
            && differs_own(base, other, twins, spot, true)
        {
            width += 1;
        }
    }
    width
}

/// What a change of one entry does.
fn outcome_of<P: IndexProtocol>(
    alloc: Global,
    protocol: &P,
    spots: &[Spot],
    change: Change,
) -> Result<Outcome, Memory>
    requires spots { IsMetBy (P.index protocol.now) spots.now }
    requires apart { AreApart spots.now }
    ensures { IfOk result (IsOutcome (P.index protocol.now) change) }
{
    let Some(changed) = Changed::new(protocol, change) else {
        return Ok(Outcome::NoChange);
    };
    let twins = twins_of(alloc, protocol, &changed, spots)?;
    if differs(protocol, &changed, &twins, spots, false) {
        return Ok(Outcome::BlocksMore);
    }
    let width = width(protocol, &changed, &twins, spots);
    if width == 0 {
        return Ok(Outcome::LetsNothingMore);
    }
    let safe = is_safe_index(alloc, &changed)?;
    if !safe {
        return Ok(Outcome::Unsafe);
    }
    Ok(Outcome::Relaxes(width))
}

/// What each of some changes of one entry does to a protocol of either kind, in their order: whether it is a change of the protocol's at all,
/// blocks more, lets nothing more through, makes the table unsafe, or is a relaxation, and of what width. Both tables are
/// followed through the same requests, as in `twins_of`, and states are told apart by their modes alone. The error is memory
/// alone.
pub fn outcomes_of<P: IndexProtocol>(
    alloc: Global,
    protocol: &P,
    changes: &[Change],
) -> Result<Vec<Judged>, Memory>
    ensures changes { IfOk result (λ list. map (λ j. j.change) list.items ≡ changes.now) }
    ensures right { IfOk result (λ list. All (IsJudged (P.index protocol.now)) list.items) }
{
    let spots = spots_of(alloc, protocol)?;
    let mut list = Vec::new(alloc);
    for at in 0..changes.len() {
        let change = changes[at];
        let outcome = outcome_of(alloc, protocol, &spots, change)?;
        list.push(Judged { change, outcome })?;
    }
    Ok(list)
}
