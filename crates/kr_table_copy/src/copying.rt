//! A table that answers as a protocol does.
ghost use Rattle.std.specs.Prelude.{IfOk, IfSome};
ghost use Rattle.kr_kinds.specs.Kinds as kind;
ghost use Rattle.kr_table_copy.specs.Same.{IsCopy};

use crate::draft::draft_text;
use crate::draft_ghosts::ghost_draft_text;
use crate::same::is_copy;
use crate::same_ghosts::is_ghost_copy;
use kr_ghost_protocol::GhostProtocol;
use kr_ghost_table::{GhostTable, GhostTableFault};
use kr_kinds::IndexProtocol;
use kr_model::Memory;
use kr_protocol::Protocol;
use kr_table::{Table, TableFault};
use std::alloc::{AllocError, Global};

/// A table of either kind.
#[derive(Drop)]
pub enum Copy {
    /// Its deleted keys go at once.
    Gone(Table),
    /// They stay as ghosts until they are purged.
    Leaving(GhostTable),
}

/// The table that is read from a text, if it answers as the protocol does.
fn copy_in<P: Protocol>(alloc: Global, protocol: &P, text: &str) -> Result<Option<Copy>, Memory>
    ensures { IfOk result (λ copy. IfSome copy (IsCopy (kind.Gone (P.table protocol.now)) (P.names protocol.now))) }
{
    match kr_table::read(alloc, text.as_bytes()) {
        Ok(table) => {
            if is_copy(protocol, &table) {
                Ok(Some(Copy::Gone(table)))
            } else {
                Ok(None)
            }
        }
        Err(TableFault::Memory) => Err(AllocError),
        Err(_) => Ok(None),
    }
}

/// The table with ghosts that is read from a text, if it answers as the protocol does.
fn ghost_copy_in<P: GhostProtocol>(
    alloc: Global,
    protocol: &P,
    text: &str,
) -> Result<Option<Copy>, Memory>
    ensures { IfOk result (λ copy. IfSome copy (IsCopy (kind.Leaves (P.ghosts protocol.now)) (P.names protocol.now))) }
{
    match kr_ghost_table::read(alloc, text.as_bytes()) {
        Ok(table) => {
            if is_ghost_copy(protocol, &table) {
                Ok(Some(Copy::Leaving(table)))
            } else {
                Ok(None)
            }
        }
        Err(GhostTableFault::Table(TableFault::Memory)) => Err(AllocError),
        Err(_) => Ok(None),
    }
}

/// A table of formats 1 and 2 that answers as a protocol does.
fn gone_copy<P: Protocol>(alloc: Global, protocol: &P) -> Result<Option<Copy>, Memory>
    ensures { IfOk result (λ copy. IfSome copy (IsCopy (kind.Gone (P.table protocol.now)) (P.names protocol.now))) }
{
    let text = draft_text(alloc, protocol)?;
    copy_in(alloc, protocol, text.as_str())
}

/// A table of format 3 that answers as a protocol does.
fn leaving_copy<P: GhostProtocol>(alloc: Global, protocol: &P) -> Result<Option<Copy>, Memory>
    ensures { IfOk result (λ copy. IfSome copy (IsCopy (kind.Leaves (P.ghosts protocol.now)) (P.names protocol.now))) }
{
    let text = ghost_draft_text(alloc, protocol)?;
    ghost_copy_in(alloc, protocol, text.as_str())
}

/// A table of a protocol's kind that answers as the protocol does, with the same names. It is `None` where the text of such a table
/// isn't read as one, which no clause rules out. The error is memory alone.
pub fn copy_of<P: IndexProtocol>(alloc: Global, protocol: &P) -> Result<Option<Copy>, Memory>
    ensures { IfOk result (λ copy. IfSome copy (IsCopy (P.index protocol.now) (P.names protocol.now))) }
{
    if protocol.leaves_ghosts() {
        leaving_copy(alloc, protocol)
    } else {
        gone_copy(alloc, protocol)
    }
}
