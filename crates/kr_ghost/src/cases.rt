//! The cases of a table with ghosts: what a lock has to protect, who may have to wait for it, and a case that fails.
ghost use Rattle.std.specs.Prelude.{◌≡◌};
ghost use Rattle.kr_ghost.specs.Words.{access_words, cover_code, rule_code};

use kr_model::{Mode, Origin};

/// What a lock has to protect for the transaction that holds it.
#[derive(Clone, Copy, Debug, PartialEq, Eq)]
pub enum Cover {
    /// The key of a name was read, whether it is present or a ghost.
    ReadKey,
    /// The gap below a name was read.
    ReadGap,
    /// The transaction inserted, updated or deleted the key, and hasn't committed.
    ChangedKey,
}

/// The groups of cases, in the order in which they are checked.
#[derive(Clone, Copy, Debug, PartialEq, Eq)]
pub enum Rule {
    /// A conversion keeps each cover that the held mode serves.
    Conversion,
    /// A fetch of a name covers its key.
    FetchHit,
    /// A fetch of no name covers the gap.
    FetchMiss,
    /// A scan covers each name that it looks at, and the gap below it.
    ScanName,
    /// A scan covers the gap in which it stops.
    ScanStop,
    /// An insert covers the key that it brings.
    Insert,
    /// An insert into a gap that its own transaction has read carries that cover over to the new name.
    Split,
    /// A delete covers its key.
    Delete,
    /// An update covers its key. Only where updates are offered.
    Update,
    /// An insert of a ghost covers its key.
    Revive,
    /// What was read on a ghost is covered on the next name once the ghost is purged. Only where locks are inherited.
    Heir,
    /// An insert of a present key covers it. Only where the table has a row for that.
    InsertHit,
    /// A delete of a key that is no name covers the gap. Only where the table has a row for that.
    DeleteMiss,
    /// An update of a key that is no name covers the gap. Only where the table has a row for that.
    UpdateMiss,
}

/// What another transaction requests on a name.
#[derive(Clone, Copy, Debug, PartialEq, Eq)]
pub enum Access {
    /// A fetch of the name's key.
    Fetch,
    /// A scan's look at the name.
    Scan,
    /// A delete of the key.
    Delete,
    /// An update of the key.
    Update,
    /// An insert of the key where it is a ghost.
    Revive,
    /// An insert of a new key into the gap below the name.
    Insert,
    /// An insert of the key where it is present. Only where the table has a row for that.
    InsertHit,
}

/// Another transaction with the mode that it has on the name, 0 for none, and what it requests there.
#[derive(Clone, Copy, Debug, PartialEq, Eq)]
pub struct Requester {
    pub access: Access,
    pub own: Mode,
}

/// A case that doesn't hold: the mode `mode` doesn't serve the cover, since it lets a requester through that it must conflict with.
#[derive(Clone, Copy, Debug, PartialEq, Eq)]
pub struct FailedCase {
    /// The group of the case.
    pub case: Rule,
    /// What the lock has to protect.
    pub cover: Cover,
    /// The modes that the case is taken at: for `Heir` that held on the next name, and that of the lock on the ghost.
    pub from: Origin,
    /// The mode that has to serve the cover.
    pub mode: Mode,
    /// The first requester that it lets through.
    pub hole: Requester,
}

/// The code of a group of cases.
pub fn rule_code(rule: Rule) -> &'static str
    ensures { result.now ≡ rule_code rule }
{
    match rule {
        Rule::Conversion => "G1",
        Rule::FetchHit => "G2",
        Rule::FetchMiss => "G3",
        Rule::ScanName => "G4",
        Rule::ScanStop => "G5",
        Rule::Insert => "G6",
        Rule::Split => "G7",
        Rule::Delete => "G8",
        Rule::Update => "G9",
        Rule::Revive => "G10",
        Rule::Heir => "G11",
        Rule::InsertHit => "G12",
        Rule::DeleteMiss => "G13",
        Rule::UpdateMiss => "G14",
    }
}

/// The code of a cover.
pub fn cover_code(cover: Cover) -> &'static str
    ensures { result.now ≡ cover_code cover }
{
    match cover {
        Cover::ReadKey => "RK",
        Cover::ReadGap => "RG",
        Cover::ChangedKey => "CK",
    }
}

/// The row and the side of a request, as tables name them.
pub fn access_words(access: Access) -> (&'static str, &'static str)
    ensures row { result.0.now ≡ (access_words access).0 }
    ensures side { result.1.now ≡ (access_words access).1 }
{
    match access {
        Access::Fetch => ("fetch-hit", "current"),
        Access::Scan => ("scan-key", "current"),
        Access::Delete => ("delete", "current"),
        Access::Update => ("update", "current"),
        Access::Revive => ("revive", "current"),
        Access::Insert => ("insert", "next"),
        Access::InsertHit => ("insert-hit", "current"),
    }
}
