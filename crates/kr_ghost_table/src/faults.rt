//! Why bytes are no table with ghosts.

use kr_table::TableFault;
use thiserror::Error;

/// Why bytes are no table with ghosts: the first of all their faults. They come in this order: those of the bytes as TOML, of
/// `format`, of unknown members (the least name in the order of bytes), of `deletes`, of `modes`, `compatible`, `convert` and
/// `rules` as an array and tables, of `purge` as a text or a table, of the number of modes, of their names, of the entries of
/// `compatible`, of those of `convert`, of the rows of `rules`, of the entries of `purge`.
#[derive(Debug, Drop, Error)]
pub enum GhostTableFault {
    /// A fault that a table without ghosts has too. Its format is a whole number other than 3.
    #[error(transparent)]
    Table(TableFault),
    /// The entry of `purge` at this path is missing, is neither the name of a mode nor `none`, or isn't at the name of a mode.
    #[error("fault 12 Purge at {0}")]
    Purge(String),
}
