//! Where an intruder may come through, and how the script then ends.

use crate::ending::Ending;
use kr_model::{Cover, Row, Side};

/// A row and a side of the table at which an intruder may come through, and how the script then ends.
pub(crate) type Entrance = (Row, Side, Ending);

/// The entrances that a lock with the cover has to keep shut, in the cover's order; those of updates too, where none are
/// offered.
pub(crate) fn entrances(cover: Cover) -> &'static [Entrance] {
    match cover {
        Cover::ReadKey => &[
            (Row::Delete, Side::Current, Ending::ReadKeyGone),
            (Row::Update, Side::Current, Ending::ReadKeyUpdated),
        ],
        Cover::ReadGap => &[
            (Row::Insert, Side::Next, Ending::ReadGapFilled),
            (Row::Delete, Side::Current, Ending::ReadGapGrown),
        ],
        Cover::InsertedKey => &[
            (Row::FetchHit, Side::Current, Ending::InsertFetched),
            (Row::FetchMiss, Side::Next, Ending::InsertMissedBelow),
            (Row::ScanKey, Side::Current, Ending::InsertScanned),
            (Row::ScanStop, Side::Next, Ending::InsertStoppedBelow),
            (Row::Delete, Side::Current, Ending::InsertDeleted),
            (Row::Delete, Side::Next, Ending::InsertDeletedBelow),
            (Row::Delete, Side::Next, Ending::InsertDeletedPoint),
            (Row::Update, Side::Current, Ending::InsertUpdated),
        ],
        Cover::DeletedGap => &[
            (Row::FetchMiss, Side::Next, Ending::DeleteMissed),
            (Row::ScanKey, Side::Current, Ending::DeleteScanned),
            (Row::ScanStop, Side::Next, Ending::DeleteStopped),
            (Row::Insert, Side::Next, Ending::DeleteFilled),
            (Row::Insert, Side::Next, Ending::DeleteSplit),
            (Row::Delete, Side::Current, Ending::DeleteGrown),
            (Row::Delete, Side::Next, Ending::DeleteDeletedBelow),
        ],
        Cover::UpdatedKey => &[
            (Row::FetchHit, Side::Current, Ending::UpdateFetched),
            (Row::ScanKey, Side::Current, Ending::UpdateScanned),
            (Row::Delete, Side::Current, Ending::UpdateDeleted),
            (Row::Update, Side::Current, Ending::UpdateUpdated),
        ],
    }
}
