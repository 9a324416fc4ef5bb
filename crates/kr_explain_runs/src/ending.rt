//! How scripts end.

/// How a script ends, from the intruder's step that comes through on. A is the key that the case is about, P a point below
/// it, and K the key before P.
#[derive(Clone, Copy, Debug, PartialEq, Eq)]
pub enum Ending {
    /// The holder reads A, then that it is gone.
    ReadKeyGone,
    /// The holder reads A, then another value of it.
    ReadKeyUpdated,
    /// The holder reads that P isn't there, then P.
    ReadGapFilled,
    /// The intruder deletes A, so that the gap grows past the holder's lock: the holder reads that P isn't there, then P.
    ReadGapGrown,
    /// The intruder fetched A, which the holder undoes.
    InsertFetched,
    /// The intruder fetched nothing below A: its lock is on A, which the holder undoes.
    InsertMissedBelow,
    /// The intruder scanned A, which the holder undoes.
    InsertScanned,
    /// The intruder scanned nothing below A: its lock is on A, which the holder undoes.
    InsertStoppedBelow,
    /// The intruder deleted A, which the holder undoes.
    InsertDeleted,
    /// The intruder deleted K, with its lock on A, which the holder undoes: a third misses K, which comes back.
    InsertDeletedBelow,
    /// The intruder deleted P, with its lock on A, which the holder undoes: a third misses P, which comes back.
    InsertDeletedPoint,
    /// The intruder gave A another value, and the holder takes A back.
    InsertUpdated,
    /// The intruder misses P, which the holder brings back.
    DeleteMissed,
    /// The intruder scans from P to A without P, which the holder brings back.
    DeleteScanned,
    /// The intruder scans P alone and finds nothing, and the holder brings P back.
    DeleteStopped,
    /// The intruder put in P, which stood there before the holder deleted it.
    DeleteFilled,
    /// The intruder splits the gap, and the holder has no lock on its lower part: a third misses P, which comes back.
    DeleteSplit,
    /// The intruder deletes A, so that the gap grows past the holder's lock: a third misses P, which comes back.
    DeleteGrown,
    /// The intruder deletes K, and P comes back between K and the intruder's lock: a third misses K, which comes back.
    DeleteDeletedBelow,
    /// The intruder fetched a value of A that the holder undoes.
    UpdateFetched,
    /// The intruder scanned a value of A that the holder undoes.
    UpdateScanned,
    /// The intruder deleted A with a value that the holder undoes.
    UpdateDeleted,
    /// The intruder gave A another value in place of one that the holder undoes.
    UpdateUpdated,
}
