//! What an explanation says of the entries of a table.
ghost use Rattle.std.specs.Prelude.{◌≡◌};
ghost use Rattle.kr_view_table.specs.Told.{causes_of, is_apart, is_unasked};

use kr_explain_core::{Explained, Explanation};
use kr_model::Mode;

/// The causes of an explanation: none where all cases hold.
pub fn causes_of(explanation: &Explanation) -> &[Explained]
    ensures { result.now ≡ causes_of explanation.now }
{
    match explanation {
        Explanation::Accepted { .. } => &[],
        Explanation::Safe(failures) | Explanation::Rejected(failures) => &failures.causes,
    }
}

/// Whether no schedule in which nothing has gone wrong yet brings a request that is tested in the first mode beside another
/// transaction's lock in the second: by the states of the decision, which are known only where cases fail.
pub fn is_apart(explanation: &Explanation, tested: Mode, held: Mode) -> bool
    ensures { result ≡ is_apart explanation.now tested held }
{
    match explanation {
        Explanation::Accepted { .. } => false,
        Explanation::Safe(failures) | Explanation::Rejected(failures) => {
            !failures.survey.is_tested(tested, held)
        }
    }
}

/// Whether no transaction that holds the first mode on a name comes to request the second there; the same.
pub fn is_unasked(explanation: &Explanation, held: Mode, asked: Mode) -> bool
    ensures { result ≡ is_unasked explanation.now held asked }
{
    match explanation {
        Explanation::Accepted { .. } => false,
        Explanation::Safe(failures) | Explanation::Rejected(failures) => {
            !failures.survey.is_asked(held, asked)
        }
    }
}
