//! Names of modes.
ghost use Rattle.std.specs.Prelude.{◌≡◌, IfOk, IfErr, string_bytes};
ghost use Rattle.kr_model.specs.ModeNames.{name_of};
ghost use Rattle.kr_embed.specs.Inputs.{ExplainsTable};
ghost use Rattle.kr_embed.specs.Reports.{IsModeName};
ghost use Rattle.kr_embed.specs.Tables.{names_of};

use crate::faults::Fault;
use crate::tables::table_in;
use kr_cli::Named;
use kr_model::Mode;
use kr_protocol::Protocol;
use std::alloc::Global;

/// The name of a mode; a number beyond the modes has none, which is the empty text.
fn mode_name<P: Protocol>(protocol: &P, mode: u32) -> &str
    ensures { result.now ≡ name_of (P.names protocol.now) mode }
{
    if mode <= u32::from(protocol.count()) {
        protocol.name(mode as Mode)
    } else {
        ""
    }
}

/// The same of a table, with ghosts or without.
fn name_in(table: &Named, mode: u32) -> &str
    ensures { result.now ≡ name_of (names_of table.now) mode }
{
    match table {
        Named::Table(table) => mode_name(table, mode),
        Named::Ghosts(table) => mode_name(table, mode),
    }
}

/// The name of a mode of the table that the bytes are; a number beyond its modes has none, which is the empty text.
pub fn mode_in(alloc: Global, table: &[u8], mode: u32) -> Result<String, Fault>
    ensures name { IfOk result (λ text. IsModeName table.now mode (string_bytes text)) }
    ensures fault { IfErr result (ExplainsTable table.now) }
{
    let table = table_in(alloc, table)?;
    Ok(String::from_str(alloc, name_in(&table, mode))?)
}
