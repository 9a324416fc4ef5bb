//! The verdict on a table.
ghost use Rattle.std.specs.Prelude.{◌≡◌, IfOk, string_bytes};
ghost use Rattle.kr_ghost_view_table.specs.Page.{verdict_words};

use kr_model::Memory;
use std::alloc::Global;

/// The verdict on a table that is safe or isn't, of which so many cases fail.
pub fn verdict_text(
    alloc: Global,
    is_safe: bool,
    failed: usize,
    cases: usize,
) -> Result<String, Memory>
    ensures { IfOk result (λ text. string_bytes text ≡ verdict_words is_safe failed cases) }
{
    if failed == 0 {
        format!(in alloc;
            "accepted: all {cases} cases hold. Every run under this table is serializable in commit order."
        )
    } else if is_safe {
        format!(in alloc;
            "safe: {failed} of {cases} cases fail, but no schedule reaches their locks. Every run under this table is serializable in commit order."
        )
    } else {
        format!(in alloc; "rejected: {failed} of {cases} cases fail.")
    }
}
