//! The last steps of scripts.

use crate::ending::Ending;
use crate::keys::{A, C, K, P};
use crate::step::Actor::{self, Holder, Intruder, Third};
use kr_model::Op::{self, Abort, Commit, Delete, Fetch, Insert, Scan, Update};

/// Steps, each with who takes it.
pub(crate) type Steps = &'static [(Actor, Op)];

/// The intruder commits, and the holder reads A again.
const A_READ_AGAIN: Steps = &[(Intruder, Commit), (Holder, Fetch(A)), (Holder, Commit)];

/// The intruder commits, and the holder reads P again.
const P_READ_AGAIN: Steps = &[(Intruder, Commit), (Holder, Fetch(P)), (Holder, Commit)];

/// The intruder puts P in, and the holder reads P again.
const P_FILLED_AND_READ_AGAIN: Steps = &[
    (Intruder, Insert(P, 0)),
    (Intruder, Commit),
    (Holder, Fetch(P)),
    (Holder, Commit),
];

/// The holder undoes what the intruder met, and the intruder commits.
const TAKEN_BACK: Steps = &[(Holder, Abort), (Intruder, Commit)];

/// The holder takes A back, on which the intruder's lock is: a third puts C in, which the intruder then reads.
const C_FILLED: Steps = &[
    (Holder, Abort),
    (Third, Insert(C, 0)),
    (Third, Commit),
    (Intruder, Fetch(C)),
    (Intruder, Commit),
];

/// The holder takes its change back, a third misses K, and the intruder brings K back.
const K_MISSED: Steps = &[
    (Holder, Abort),
    (Third, Fetch(K)),
    (Third, Commit),
    (Intruder, Abort),
];

/// The holder takes its change back, a third misses P, and the intruder brings P back.
const P_MISSED: Steps = &[
    (Holder, Abort),
    (Third, Fetch(P)),
    (Third, Commit),
    (Intruder, Abort),
];

/// The intruder commits, and the holder brings P back.
const P_BROUGHT_BACK: Steps = &[(Intruder, Commit), (Holder, Abort)];

/// The intruder commits, a third misses P, and the holder brings P back.
const P_MISSED_AND_BROUGHT_BACK: Steps = &[
    (Intruder, Commit),
    (Third, Fetch(P)),
    (Third, Commit),
    (Holder, Abort),
];

/// The last steps of a script: the intruder's that comes through, and those after it. Values are given when the script is
/// whole.
pub(crate) fn last_steps(ending: Ending) -> (Op, Steps) {
    match ending {
        Ending::ReadKeyGone => (Delete(A), A_READ_AGAIN),
        Ending::ReadKeyUpdated => (Update(A, 0), A_READ_AGAIN),
        Ending::ReadGapFilled => (Insert(P, 0), P_READ_AGAIN),
        Ending::ReadGapGrown => (Delete(A), P_FILLED_AND_READ_AGAIN),
        Ending::InsertFetched => (Fetch(A), TAKEN_BACK),
        Ending::InsertMissedBelow => (Fetch(C), C_FILLED),
        Ending::InsertScanned => (Scan(A, A), TAKEN_BACK),
        Ending::InsertStoppedBelow => (Scan(C, C), C_FILLED),
        Ending::InsertDeleted => (Delete(A), TAKEN_BACK),
        Ending::InsertDeletedBelow => (Delete(K), K_MISSED),
        Ending::InsertDeletedPoint => (Delete(P), P_MISSED),
        Ending::InsertUpdated => (Update(A, 0), TAKEN_BACK),
        Ending::DeleteMissed => (Fetch(P), TAKEN_BACK),
        Ending::DeleteScanned => (Scan(P, A), TAKEN_BACK),
        Ending::DeleteStopped => (Scan(P, P), TAKEN_BACK),
        Ending::DeleteFilled => (Insert(P, 0), P_BROUGHT_BACK),
        Ending::DeleteSplit => (Insert(C, 0), P_MISSED_AND_BROUGHT_BACK),
        Ending::DeleteGrown => (Delete(A), P_MISSED_AND_BROUGHT_BACK),
        Ending::DeleteDeletedBelow => (Delete(K), K_MISSED),
        Ending::UpdateFetched => (Fetch(A), TAKEN_BACK),
        Ending::UpdateScanned => (Scan(A, A), TAKEN_BACK),
        Ending::UpdateDeleted => (Delete(A), TAKEN_BACK),
        Ending::UpdateUpdated => (Update(A, 0), TAKEN_BACK),
    }
}
