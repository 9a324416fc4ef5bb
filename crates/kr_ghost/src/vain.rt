//! Steps that find nothing to do.

/// An insert, a delete or an update that finds nothing to do: it only reads. A table may have a row for each, and else the step
/// requests what a fetch does that finds the same.
#[derive(Clone, Copy, Debug, PartialEq, Eq)]
pub enum Vain {
    /// An insert of a present key.
    InsertHit,
    /// A delete of a key that is no name.
    DeleteMiss,
    /// An update of a key that is no name.
    UpdateMiss,
}
