//! The making of the tests for a table.
ghost use Rattle.std.specs.Prelude.{◌≡◌, IfOk, All};
ghost use Rattle.kr_suite_core.specs.Suite.{IsSuite};
ghost use Rattle.kr_suite_core.specs.Judged.{changes_in};
ghost use Rattle.kr_change.specs.GhostEvery.{index_changes_of};
ghost use Rattle.kr_suite_core.specs.Suite.{IsTested};

use crate::again::judge_again;
use crate::classes::Suite;
use crate::judged::{Judged, alike_in, judge_all, others_in};
use crate::left::left_in;
use crate::tested::{Tested, try_all};
use kr_apart::{Flat, parts};
use kr_change::index_changes_of;
use kr_kinds::IndexProtocol;
use kr_model::Memory;
use std::alloc::Global;

/// The tests for a table of either kind: an engine that follows it passes each part, and one of which the table differs in one
/// entry fails a part, unless that entry's change is alike or left. Nothing says how few are left. Where deletes leave ghosts, no
/// change is said to be alike. The only fault is that a growth was refused.
pub fn suite<P: IndexProtocol>(alloc: Global, protocol: &P) -> Result<Suite, Memory>
    ensures { IfOk result (IsSuite (P.index protocol.now)) }
{
    let changes = index_changes_of(alloc, protocol)?;
    let judged = judge_all(alloc, protocol, &changes)?;
    let parts = parts_of(alloc, protocol, &judged)?;
    let again = judge_again(alloc, protocol, &parts, &judged)?;
    let alike = alike_in(alloc, &again)?;
    let left = left_in(alloc, &parts, &again)?;
    Ok(Suite { parts, alike, left })
}

/// Parts for the changes that aren't known to be alike.
fn parts_of<P: IndexProtocol>(
    alloc: Global,
    protocol: &P,
    judged: &[Judged],
) -> Result<Vec<Tested>, Memory>
    requires { changes_in judged.now ≡ index_changes_of (P.index protocol.now) }
    ensures { IfOk result (λ parts. All (IsTested (P.index protocol.now)) parts.items) }
{
    let others = others_in(alloc, judged)?;
    let found = parts(alloc, &Flat::of(protocol), &others)?;
    try_all(alloc, protocol, &others, &found)
}
