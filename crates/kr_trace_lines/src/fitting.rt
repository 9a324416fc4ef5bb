//! Whether a reply is the one that was observed.
ghost use Rattle.std.specs.Prelude.{◌≡◌};
ghost use Rattle.kr_model.specs.Difference.{same_pairs};
ghost use Rattle.kr_trace_lines.specs.Fits.{is_given, fits};

use crate::observed::Observed;
use kr_model::Reply;

/// Whether the reply is the one that was observed, as far as it was given: of the same kind, with the same value where one
/// was given. A blocked step fits whomever the engine names as blockers.
pub fn fits(reply: &Reply, observed: &Observed) -> bool
    ensures { result ≡ fits reply.now observed.now }
{
    match (reply, observed) {
        (Reply::Found(value), Observed::Found(given)) => *value == *given,
        (Reply::Going(key), Observed::Going(given)) => *key == *given,
        (Reply::Rows(rows), Observed::Rows(given)) => are_same(rows.as_slice(), given.as_slice()),
        (Reply::Deleted(value), Observed::Deleted(given)) => is_given(*given, *value),
        (Reply::Updated(value), Observed::Updated(given)) => is_given(*given, *value),
        (Reply::Undone(left), Observed::Undone(given)) => is_given(*given, *left),
        (Reply::None, Observed::None)
        | (Reply::Done, Observed::Done)
        | (Reply::Duplicate, Observed::Duplicate)
        | (Reply::Absent, Observed::Absent)
        | (Reply::Committed, Observed::Committed)
        | (Reply::Aborted, Observed::Aborted)
        | (Reply::Blocked(_), Observed::Blocked(_)) => true,
        (_, _) => false,
    }
}

/// Whether the number is the one that was given, where one was.
fn is_given(given: Option<u64>, number: u64) -> bool
    ensures { result ≡ is_given given number }
{
    match given {
        Some(given) => number == given,
        None => true,
    }
}

/// Whether two lists of pairs are the same.
fn are_same(rows: &[(u64, u64)], given: &[(u64, u64)]) -> bool
    ensures { result ≡ same_pairs rows.now given.now }
{
    rows == given
}
