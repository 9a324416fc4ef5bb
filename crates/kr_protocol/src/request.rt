//! Requests of the two spans.
ghost use Rattle.std.specs.Prelude.{◌≡◌};
ghost use Rattle.kr_model.specs.Matrices.{for_commit, at_once};

use kr_model::{Mode, Span};

/// A request of a lock that is held until its transaction ends.
pub(crate) fn for_commit(mode: Mode) -> Option<(Mode, Span)>
    ensures { result ≡ for_commit mode }
{
    Some((mode, Span::Commit))
}

/// A request of a lock that is granted and given up at once.
pub(crate) fn at_once(mode: Mode) -> Option<(Mode, Span)>
    ensures { result ≡ at_once mode }
{
    Some((mode, Span::Instant))
}
