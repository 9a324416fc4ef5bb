//! Which changed tables are alike.
ghost use Rattle.std.specs.Prelude.{◌≡◌, IsTrue, IfOk, All};
ghost use Rattle.std.specs.List.{filter_map};
ghost use Rattle.kr_change.specs.GhostChanges.{changed_index};
ghost use Rattle.kr_suite_core.specs.Alike.{AlikeIndexes};
ghost use Rattle.kr_suite_core.specs.Judged.{IsJudged, alike_of, changes_in, other_of};

use kr_alike::alike;
use kr_change::{Change, Changed};
use kr_kinds::IndexProtocol;
use kr_model::Memory;
use std::alloc::Global;

/// A change, and whether the table with it is known to be alike.
#[derive(Clone, Copy)]
pub(crate) struct Judged {
    pub change: Change,
    pub is_alike: bool,
}

/// Whether the table with this change is known to give the same replies in every schedule. Where deletes leave ghosts, none is.
fn is_alike<P: IndexProtocol>(alloc: Global, protocol: &P, change: Change) -> Result<bool, Memory>
    ensures { IfOk result (λ yes. IsTrue yes → AlikeIndexes (P.index protocol.now) (changed_index (P.index protocol.now) change)) }
{
    if protocol.leaves_ghosts() {
        return Ok(false);
    }
    match Changed::new(protocol, change) {
        Some(changed) => alike(alloc, protocol, &changed),
        None => Ok(false),
    }
}

/// Each change, and whether the table with it is known to be alike.
pub(crate) fn judge_all<P: IndexProtocol>(
    alloc: Global,
    protocol: &P,
    changes: &[Change],
) -> Result<Vec<Judged>, Memory>
    ensures changes { IfOk result (λ js. changes_in js.items ≡ changes.now) }
    ensures alike { IfOk result (λ js. All (IsJudged (P.index protocol.now)) js.items) }
{
    let mut judged = Vec::new(alloc);
    for change in changes {
        let is_alike = is_alike(alloc, protocol, *change)?;
        judged.push(Judged {
            change: *change,
            is_alike,
        })?;
    }
    Ok(judged)
}

/// The changes that are alike.
pub(crate) fn alike_in(alloc: Global, judged: &[Judged]) -> Result<Vec<Change>, Memory>
    ensures { IfOk result (λ alike. alike.items ≡ filter_map alike_of judged.now) }
{
    judged.iter().filter_map(|one| one.alike()).collect(alloc)
}

/// The others.
pub(crate) fn others_in(alloc: Global, judged: &[Judged]) -> Result<Vec<Change>, Memory>
    ensures { IfOk result (λ others. others.items ≡ filter_map other_of judged.now) }
{
    judged.iter().filter_map(|one| one.other()).collect(alloc)
}

impl Judged {
    /// The change, if it is alike.
    fn alike(&self) -> Option<Change>
        ensures { result ≡ alike_of self.now }
    {
        if self.is_alike {
            Some(self.change)
        } else {
            None
        }
    }

    /// The change, if it isn't.
    pub(crate) fn other(&self) -> Option<Change>
        ensures { result ≡ other_of self.now }
    {
        if self.is_alike {
            None
        } else {
            Some(self.change)
        }
    }
}
