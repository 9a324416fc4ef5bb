//! Replies as an engine tells them.

use kr_model::{Pairs, Txns};

/// The reply to a step as an engine tells it. It leaves out what it doesn't know.
#[derive(Debug, Drop)]
pub enum Observed {
    /// The value of the fetched key.
    Found(u64),
    /// The fetched key is absent.
    None,
    /// The scan read this key and goes on.
    Going(u64),
    /// The scan ended with these pairs, in the order in which it reads them.
    Rows(Pairs),
    /// The key was inserted.
    Done,
    /// The key to insert is present already.
    Duplicate,
    /// The key was deleted. Its value, where the engine tells it.
    Deleted(Option<u64>),
    /// The key to delete or to update is absent.
    Absent,
    /// The key was updated. The value that it had before, where the engine tells it.
    Updated(Option<u64>),
    /// The newest change was undone. How many changes are left, where the engine tells it.
    Undone(Option<u64>),
    Committed,
    /// The transaction was aborted, at its own wish or by the engine.
    Aborted,
    /// The step was blocked, by these transactions among others. Where the engine names no transaction there is none.
    Blocked(Txns),
}
