//! The anomaly that a schedule shows, by its standard name.

use kr_explain_runs::Ending;

/// The name of the anomaly that a schedule with this ending shows.
///
/// A dirty read sees a change that is then undone, as a key that was inserted, or that a key was deleted; a dirty write
/// changes a key that has such a change. A non-repeatable read finds another value of a key that was read before, or none,
/// and a phantom is a key that is found where none was.
pub fn anomaly(ending: Ending) -> &'static str {
    match ending {
        Ending::ReadKeyGone | Ending::ReadKeyUpdated => "Non-repeatable read",
        Ending::ReadGapFilled
        | Ending::ReadGapGrown
        | Ending::InsertMissedBelow
        | Ending::InsertStoppedBelow => "Phantom",
        Ending::InsertDeleted
        | Ending::InsertUpdated
        | Ending::DeleteFilled
        | Ending::UpdateDeleted
        | Ending::UpdateUpdated => "Dirty write",
        Ending::InsertFetched
        | Ending::InsertScanned
        | Ending::InsertDeletedBelow
        | Ending::InsertDeletedPoint
        | Ending::DeleteMissed
        | Ending::DeleteScanned
        | Ending::DeleteStopped
        | Ending::DeleteSplit
        | Ending::DeleteGrown
        | Ending::DeleteDeletedBelow
        | Ending::UpdateFetched
        | Ending::UpdateScanned => "Dirty read",
    }
}
