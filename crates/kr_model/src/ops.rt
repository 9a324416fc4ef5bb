//! What an operation does.
ghost use Rattle.std.specs.Prelude.{◌≡◌};
ghost use Rattle.kr_model.specs.Step.{is_end};

use crate::Op;

/// Whether an operation ends its transaction.
pub fn is_end(op: Op) -> bool
    ensures { result ≡ is_end op }
{
    matches!(op, Op::Commit | Op::Abort)
}
