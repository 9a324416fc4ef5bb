//! From a locking protocol to the text of its relaxations, or to that of the tightest table.
ghost use Rattle.std.specs.Prelude.{◌≡◌, true, IfOk, IfSome, MatchOption, string_bytes};
ghost use Rattle.kr_table_copy.specs.declared.copying.Copy.TheVariants as copy;
ghost use Rattle.kr_cli_tables.specs.Relax.{IsMade, IsUnmade, ReadsAs, TellsReasons, TellsRelaxations, TellsTightest, has_no_entry};

use crate::relaxations::tightest::tightest;
use crate::relaxations::words::Wanted;
use kr_ghost_table::GhostTable;
use kr_kinds::IndexProtocol;
use kr_model::Memory;
use kr_relax_core::{relaxations, unused_entries};
use kr_relax_text::{
    changes_of_entry, one_relaxes, reasons_for, reasons_text, relaxed_text, unused_text,
    with_scripts,
};
use kr_table::{Table, WriteFault};
use kr_table_copy::Copy;
use std::alloc::{AllocError, Global};

/// A text, and whether the table that it is of is tight.
#[derive(Drop)]
pub(crate) struct Made {
    pub text: String,
    pub is_tight: bool,
}

/// The relaxations of a protocol, or that there are none, and the entries that no schedule comes to.
fn relaxations_made<P: IndexProtocol>(alloc: Global, protocol: &P) -> Result<Made, Memory>
    ensures { IfOk result (λ made. TellsRelaxations (P.index protocol.now) (P.names protocol.now) (string_bytes made.text) made.is_tight) }
{
    let found = relaxations(alloc, protocol)?;
    let list = with_scripts(alloc, protocol, &found)?;
    let relaxed = relaxed_text(alloc, protocol, &list)?;
    let entries = unused_entries(alloc, protocol)?;
    let unused = unused_text(alloc, protocol, &entries)?;
    let text = format!(in alloc; "{relaxed}{unused}")?;
    Ok(Made {
        text,
        is_tight: found.is_empty(),
    })
}

/// What each change of the entry of a name does; `None` where no entry has the name.
fn reasons_made<P: IndexProtocol>(
    alloc: Global,
    protocol: &P,
    entry: &str,
) -> Result<Option<Made>, Memory>
    ensures { IfOk result (λ made. MatchOption made (has_no_entry (P.index protocol.now) (P.names protocol.now) entry.now ≡ true)
        (λ it. TellsReasons (P.index protocol.now) (P.names protocol.now) entry.now (string_bytes it.text) it.is_tight)) }
{
    let changes = changes_of_entry(alloc, protocol, entry)?;
    if changes.is_empty() {
        return Ok(None);
    }
    let list = reasons_for(alloc, protocol, &changes)?;
    Ok(Some(Made {
        text: reasons_text(alloc, protocol, &list)?,
        is_tight: !one_relaxes(&list),
    }))
}

/// The text of a table, if it isn't too long to be read.
fn written(alloc: Global, table: &Copy) -> Result<Option<String>, Memory>
    ensures { IfOk result (λ text. IfSome text (λ it. ReadsAs (string_bytes it) table.now)) }
{
    match table {
        Copy::Gone(table) => written_gone(alloc, table),
        Copy::Leaving(table) => written_leaving(alloc, table),
    }
}

/// The same without ghosts.
fn written_gone(alloc: Global, table: &Table) -> Result<Option<String>, Memory>
    ensures { IfOk result (λ text. IfSome text (λ it. ReadsAs (string_bytes it) (copy.Gone table.now))) }
{
    match kr_table::write(alloc, table) {
        Ok(text) => Ok(Some(text)),
        Err(WriteFault::TooLong) => Ok(None),
        Err(WriteFault::Memory) => Err(AllocError),
    }
}

/// And with them.
fn written_leaving(alloc: Global, table: &GhostTable) -> Result<Option<String>, Memory>
    ensures { IfOk result (λ text. IfSome text (λ it. ReadsAs (string_bytes it) (copy.Leaving table.now))) }
{
    match kr_ghost_table::write(alloc, table) {
        Ok(text) => Ok(Some(text)),
        Err(WriteFault::TooLong) => Ok(None),
        Err(WriteFault::Memory) => Err(AllocError),
    }
}

/// The tightest table that relaxations make of a protocol.
fn tightest_made<P: IndexProtocol>(alloc: Global, protocol: &P) -> Result<Option<Made>, Memory>
    ensures { IfOk result (λ made. IfSome made (λ it. TellsTightest (P.index protocol.now) (P.names protocol.now) (string_bytes it.text) it.is_tight)) }
{
    let Some(found) = tightest(alloc, protocol)? else {
        return Ok(None);
    };
    let Some(text) = written(alloc, &found.table)? else {
        return Ok(None);
    };
    Ok(Some(Made {
        text,
        is_tight: found.is_tight,
    }))
}

/// What is wanted of a protocol. It is `None` where the tightest table isn't read as it is written, and where no entry has the
/// name.
pub(crate) fn make<P: IndexProtocol>(
    alloc: Global,
    protocol: &P,
    wanted: Wanted<'_>,
) -> Result<Option<Made>, Memory>
    ensures { IfOk result (λ made. MatchOption made (IsUnmade (P.index protocol.now) (P.names protocol.now) wanted.entry)
        (λ it. IsMade (P.index protocol.now) (P.names protocol.now) wanted.entry (string_bytes it.text) it.is_tight)) }
{
    match wanted {
        Wanted::Relaxations => Ok(Some(relaxations_made(alloc, protocol)?)),
        Wanted::Tightest => tightest_made(alloc, protocol),
        Wanted::Why(entry) => reasons_made(alloc, protocol, entry),
    }
}
