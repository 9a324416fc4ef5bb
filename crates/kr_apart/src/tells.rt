//! Whether a script tells two tables apart.
ghost use Rattle.std.specs.Prelude.{◌↔◌, IfOk, IsTrue};
ghost use Rattle.kr_model.specs.Protocol.{Protocol};
ghost use Rattle.kr_apart.specs.Apart.{AreRepliesOfRun, TellsApart};

use crate::flags::part;
use kr_judge::is_map;
use kr_kinds::IndexProtocol;
use kr_model::{Event, Memory};
use kr_stepping::play_any;
use std::alloc::Global;

/// Whether a script tells two tables of one kind apart: from the opening map, whose keys rise strictly, all its replies but the last
/// are granted and the same under both, and the last is granted under one of them and blocked under the other. No purge comes between
/// its steps. The only error is `Memory`: an allocation failed.
#[tactic(auto, using(crate::proofs::ScriptParts::told))]
pub fn tells_apart<P: IndexProtocol, Q: IndexProtocol>(
    alloc: Global,
    one: &P,
    other: &Q,
    opening: &[(u64, u64)],
    events: &[Event],
) -> Result<bool, Memory>
    ensures { IfOk result (λ tells. IsTrue tells ↔ TellsApart (P.index one.now) (Q.index other.now) opening.now events.now) }
{
    if one.leaves_ghosts() != other.leaves_ghosts() || !is_map(opening) {
        return Ok(false);
    }
    let here = play_any(alloc, one, opening, events)?;
    let there = play_any(alloc, other, opening, events)?;
    Ok(part(here.as_slice(), there.as_slice()))
}

/// Where a deleted key goes at once, the replies by which a script tells tables apart are those of the run of its steps.
pub fn replies_are_of_the_run()
    ensures { (p : Protocol) → AreRepliesOfRun p }
{}
