//! A second look at the changes that no part names, where the table is safe.
ghost use Rattle.std.specs.Prelude.{◌≡◌, IsTrue, IfOk, All};
ghost use Rattle.kr_change.specs.GhostChanges.{changed_index};
ghost use Rattle.kr_kinds.specs.Kinds as kind;
ghost use Rattle.kr_suite_core.specs.Alike.{AlikeIndexes};
ghost use Rattle.kr_suite_core.specs.Judged.{IsJudged, changes_in};

use crate::judged::Judged;
use crate::left::is_told;
use crate::tested::Tested;
use kr_alike::alike_if_safe;
use kr_change::{Change, Changed};
use kr_decide::{Rejected, Safe, WhyRejected};
use kr_kinds::{Gone, IndexProtocol};
use kr_model::Memory;
use kr_protocol::SafeProtocol;
use std::alloc::{AllocError, Global};

/// The changes as they were judged, and where the table is safe those as alike too that no part names and that are so by the
/// requests that may come under it. Where deletes leave ghosts, all stays as it was judged.
pub(crate) fn judge_again<P: IndexProtocol>(
    alloc: Global,
    protocol: &P,
    parts: &[Tested],
    judged: &[Judged],
) -> Result<Vec<Judged>, Memory>
    requires { All (IsJudged (P.index protocol.now)) judged.now }
    ensures changes { IfOk result (λ js. changes_in js.items ≡ changes_in judged.now) }
    ensures alike { IfOk result (λ js. All (IsJudged (P.index protocol.now)) js.items) }
{
    if protocol.leaves_ghosts() {
        return copy_of(alloc, judged);
    }
    match Safe::new(alloc, protocol) {
        Ok(safe) => look_at_all(alloc, &safe, parts, judged),
        Err(
            Rejected {
                protocol: _,
                cause: WhyRejected::Memory,
            },
        ) => Err(AllocError),
        Err(_) => copy_of(alloc, judged),
    }
}

/// The same changes as they were judged.
fn copy_of(alloc: Global, judged: &[Judged]) -> Result<Vec<Judged>, Memory>
    ensures { IfOk result (λ js. js.items ≡ judged.now) }
{
    judged.iter().copied().collect(alloc)
}

/// The same for a safe table.
fn look_at_all<P: SafeProtocol>(
    alloc: Global,
    protocol: &P,
    parts: &[Tested],
    judged: &[Judged],
) -> Result<Vec<Judged>, Memory>
    requires { All (IsJudged (kind.Gone (P.table protocol.now))) judged.now }
    ensures changes { IfOk result (λ js. changes_in js.items ≡ changes_in judged.now) }
    ensures alike { IfOk result (λ js. All (IsJudged (kind.Gone (P.table protocol.now))) js.items) }
{
    let mut again = Vec::new(alloc);
    for one in judged {
        again.push(look_at(alloc, protocol, parts, *one)?)?;
    }
    Ok(again)
}

/// The same for one of them.
fn look_at<P: SafeProtocol>(
    alloc: Global,
    protocol: &P,
    parts: &[Tested],
    one: Judged,
) -> Result<Judged, Memory>
    requires { IsJudged (kind.Gone (P.table protocol.now)) one }
    ensures change { IfOk result (λ j. j.change ≡ one.change) }
    ensures alike { IfOk result (IsJudged (kind.Gone (P.table protocol.now))) }
{
    if one.is_alike || is_told(parts, one.change) {
        return Ok(one);
    }
    let is_alike = is_alike_if_safe(alloc, protocol, one.change)?;
    Ok(Judged {
        change: one.change,
        is_alike,
    })
}

/// Whether the table with this change is known to give the same replies in every schedule, by the requests that may come.
fn is_alike_if_safe<P: SafeProtocol>(
    alloc: Global,
    protocol: &P,
    change: Change,
) -> Result<bool, Memory>
    ensures { IfOk result (λ yes. IsTrue yes → AlikeIndexes (kind.Gone (P.table protocol.now)) (changed_index (kind.Gone (P.table protocol.now)) change)) }
{
    let gone = Gone(protocol);
    match Changed::new(&gone, change) {
        Some(changed) => alike_if_safe(alloc, protocol, &changed),
        None => Ok(false),
    }
}
