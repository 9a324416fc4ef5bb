//! The words of key-range locking that code and definitions share: lock names, rows and sides of a table,
//! operations, replies and refusals, and what the case checker tells. `specs/` defines what they mean.
#![tactic(auto)]

mod copies;
mod items;
mod ops;
mod words;

pub use items::{Answers, Items, Pairs, Programs, Txns};
pub use ops::is_end;
use std::alloc::AllocError;
pub use words::{
    cover_code, refusal_number, row_number, row_word, rule_code, rule_number, side_number,
    side_word, span_word,
};

/// A growth was refused.
pub type Memory = AllocError;

/// A lock mode: 0 is no lock, and the modes of a protocol are 1 to its count, at most 15.
pub type Mode = u8;

/// A transaction's number, any `u32`. A number that has ended is never used again.
pub type Txn = u32;

/// A lock name. A lock on a name protects the key and the open gap between the key before it and it.
#[derive(Clone, Copy, Debug, PartialEq, Eq, PartialOrd, Ord)]
pub enum Name {
    /// The key, any `u64`; keys come in their own order.
    Key(u64),
    /// The name past all keys, with the gap above the greatest key.
    End,
}

/// What an operation finds in the index, which chooses the row of the table.
#[derive(Clone, Copy, Debug, PartialEq, Eq)]
pub enum Row {
    /// A fetch of a present key, or an insert of one.
    FetchHit,
    /// A fetch of an absent key, or a delete or an update of one.
    FetchMiss,
    /// A scan's step on a key within its range.
    ScanKey,
    /// A scan's step on the first name above its range.
    ScanStop,
    /// An insert of an absent key.
    Insert,
    /// A delete of a present key.
    Delete,
    /// An update of a present key.
    Update,
}

/// Which of its two names an operation requests a lock on.
#[derive(Clone, Copy, Debug, PartialEq, Eq)]
pub enum Side {
    /// The key that the operation names.
    Current,
    /// The next name: the least present key above, or the end.
    Next,
}

/// How long a granted lock is held.
#[derive(Clone, Copy, Debug, PartialEq, Eq)]
pub enum Span {
    /// It must be grantable at the moment of the request, and isn't kept.
    Instant,
    /// It is kept until its transaction ends.
    Commit,
}

/// What a lock has to protect for the transaction that holds it.
#[derive(Clone, Copy, Debug, PartialEq, Eq)]
pub enum Cover {
    /// A present key was read.
    ReadKey,
    /// The gap below a name was read.
    ReadGap,
    /// The transaction inserted the key, which is present and not committed.
    InsertedKey,
    /// The transaction deleted a key in the gap below a name, and hasn't committed.
    DeletedGap,
    /// The transaction updated the key, which is present, and hasn't committed.
    UpdatedKey,
}

/// The groups of cases that a covered protocol meets, in the order in which they are checked.
#[derive(Clone, Copy, Debug, PartialEq, Eq)]
pub enum Rule {
    /// A conversion keeps each cover that the held mode serves.
    Conversion,
    /// A fetch that finds its key covers the key.
    FetchHit,
    /// A fetch that finds nothing covers the gap.
    FetchMiss,
    /// A scan covers each key that it reads, and the gap below it.
    ScanKey,
    /// A scan covers the gap in which it stops.
    ScanStop,
    /// An insert covers the key that it brings.
    Insert,
    /// An insert into a gap that its own transaction covers carries the cover over to the new name.
    Split,
    /// A delete covers the gap that it widens.
    Delete,
    /// An update covers its key. Only where updates are offered.
    Update,
}

/// The modes that a case is taken at.
#[derive(Clone, Copy, Debug, PartialEq, Eq)]
pub enum Origin {
    /// The own mode on the name that the row requests.
    Own(Mode),
    /// The held mode of a conversion, and the mode requested.
    Conversion { held: Mode, asked: Mode },
    /// The own modes of an insert, on the next name and on the key.
    Insert { own_next: Mode, own: Mode },
}

/// A transaction that requests a lock: the row and side of its request, and what it holds already.
#[derive(Clone, Copy, Debug, PartialEq, Eq)]
pub struct Requester {
    pub row: Row,
    pub side: Side,
    /// The requester's own mode on the name.
    pub own: Mode,
    /// The requester's own mode on the next name; at the side `Next` that is `own`.
    pub own_next: Mode,
}

/// A case that doesn't hold: its mode had to serve the cover, and lets a requester through.
#[derive(Clone, Copy, Debug, PartialEq, Eq)]
pub struct FailedCase {
    pub case: Rule,
    pub cover: Cover,
    pub from: Origin,
    /// The mode that doesn't serve the cover.
    pub mode: Mode,
    /// The first requester whose request doesn't conflict with that mode.
    pub hole: Requester,
}

/// What a transaction has done with a key so far: what its lock on the key has to protect.
#[derive(Clone, Copy, Debug, PartialEq, Eq)]
pub enum KeyUse {
    /// Nothing that is left to protect.
    Free,
    /// It has read the key.
    Read,
    /// It has updated the key.
    Updated,
    /// It has inserted the key.
    Inserted,
}

/// What a transaction has done in the gap below a name so far: what its lock on the name has to protect there.
#[derive(Clone, Copy, Debug, PartialEq, Eq)]
pub enum GapUse {
    /// Nothing that is left to protect.
    Free,
    /// It has read the gap.
    Read,
    /// It has deleted a key in the gap.
    Deleted,
}

/// What a transaction has on a name: the mode that it holds, and what its lock has to protect there.
#[derive(Clone, Copy, Debug, PartialEq, Eq)]
pub struct LockState {
    /// The mode that it holds, 0 for no lock.
    pub mode: Mode,
    pub key: KeyUse,
    pub gap: GapUse,
    /// Whether it has deleted the key, which is absent until the transaction inserts it again or rolls back.
    pub deleted: bool,
}

/// Why a step was refused. A refusal changes nothing.
#[derive(Clone, Copy, Debug, PartialEq, Eq)]
pub enum Refusal {
    /// The transaction has committed or aborted.
    Ended,
    /// A scan is in progress, and the operation neither goes on with it nor undoes changes.
    Busy,
    /// No scan is in progress to go on with.
    NoScan,
    /// The lower end of the range is above the upper end.
    BadRange,
    /// 64 transactions are active, and this isn't one of them.
    Full,
    /// A growth was refused.
    Memory,
    /// The protocol offers no updates.
    NoUpdate,
    /// The transaction rolls back, and the operation takes no changes back.
    RollingBack,
    /// The transaction has no change left to undo.
    NothingLeft,
}

/// An operation of a transaction, by its keys and values.
#[derive(Clone, Copy, Debug, PartialEq, Eq)]
pub enum Op {
    /// Looks up a key.
    Fetch(u64),
    /// Begins a scan of the keys from the first to the second, both included, and takes its first name.
    Scan(u64, u64),
    /// Takes the next name of the scan in progress.
    Go,
    /// Inserts a key with a value.
    Insert(u64, u64),
    /// Deletes a key.
    Delete(u64),
    /// Gives a key another value.
    Update(u64, u64),
    /// Ends the transaction and keeps its changes.
    Commit,
    /// Ends the transaction and undoes its changes.
    Abort,
    /// Takes the newest change back. From then on the transaction rolls back: it takes only this and an abort.
    Back,
}

/// One attempt at the index: what a transaction looks up or changes. It chooses the row and the names of a plan.
#[derive(Clone, Copy, Debug, PartialEq, Eq)]
pub enum Step {
    Fetch(u64),
    Insert(u64),
    Delete(u64),
    Update(u64),
    /// A scan's step: the name that it looks at, and the upper end of its range.
    Look(Name, u64),
}

/// The row of an attempt, and the lock that it requests at each side: its name, mode and span.
#[derive(Clone, Copy, Debug, PartialEq, Eq)]
pub struct Plan {
    pub row: Row,
    pub current: Option<(Name, Mode, Span)>,
    pub next: Option<(Name, Mode, Span)>,
}

/// An operation with the transaction that attempts it.
#[derive(Clone, Copy, Debug, PartialEq, Eq)]
pub struct Event {
    pub txn: Txn,
    pub op: Op,
}

/// The answer to a step.
#[derive(Debug, Drop)]
pub enum Reply {
    /// The value of the fetched key.
    Found(u64),
    /// The fetched key is absent.
    None,
    /// The scan read this key and goes on.
    Going(u64),
    /// The scan ended with these pairs, keys rising.
    Rows(Pairs),
    /// The key was inserted.
    Done,
    /// The key to insert is present already.
    Duplicate,
    /// The value of the deleted key.
    Deleted(u64),
    /// The key to delete or to update is absent.
    Absent,
    /// The value that the updated key had before.
    Updated(u64),
    Committed,
    Aborted,
    /// The newest change was undone, and so many changes are left.
    Undone(u64),
    /// These transactions hold locks that refuse the step, which changed nothing; rising, each once.
    Blocked(Txns),
    Refused(Refusal),
}

/// What a transaction did, read from its steps. Going on with a scan is part of the scan, whose answer is the rows that
/// it ends with.
#[derive(Debug, Drop)]
pub struct Program {
    /// The transaction.
    pub txn: Txn,
    /// Its operations in order, with their answers.
    pub operations: Answers,
}
