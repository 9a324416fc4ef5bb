//! Which changes no part names.
ghost use Rattle.std.specs.Prelude.{◌≡◌, IfOk};
ghost use Rattle.std.specs.List.{filter_map};
ghost use Rattle.kr_suite_core.specs.Judged.{is_named, is_told, left_of};

use crate::equal::is_equal;
use crate::judged::Judged;
use crate::tested::Tested;
use kr_change::Change;
use kr_model::Memory;
use std::alloc::Global;

/// Whether a part names the change.
pub(crate) fn is_told(parts: &[Tested], change: Change) -> bool
    ensures { result ≡ is_told parts.now change }
{
    parts.iter().any(|part| part.names(change))
}

impl Tested {
    /// Whether it names the change.
    fn names(&self, change: Change) -> bool
        ensures { result ≡ is_named self.now change }
    {
        self.tells.iter().any(|told| is_equal(change, *told))
    }
}

/// The change, if it isn't alike and no part names it.
fn left_of(parts: &[Tested], judged: Judged) -> Option<Change>
    ensures { result ≡ left_of parts.now judged }
{
    let other = judged.other()?;
    if is_told(parts, other) {
        None
    } else {
        Some(other)
    }
}

/// The changes that aren't alike and that no part names.
pub(crate) fn left_in(
    alloc: Global,
    parts: &[Tested],
    judged: &[Judged],
) -> Result<Vec<Change>, Memory>
    ensures { IfOk result (λ left. left.items ≡ filter_map (left_of parts.now) judged.now) }
{
    judged
        .iter()
        .filter_map(|one| left_of(parts, *one))
        .collect(alloc)
}
