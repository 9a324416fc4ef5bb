//! What each mode of a table protects.
ghost use Rattle.std.specs.Prelude.{◌≡◌, ◌≤◌, IfOk, flat_map, string_bytes};
ghost use Rattle.kr_model.specs.Covers.{modes};
ghost use Rattle.kr_ghost_view_table.specs.declared.covers.TheConstants.{COVERS};
ghost use Rattle.kr_ghost_view_table.specs.Covers.{cell, cover_cell, covers_words, deed_words, holding, mode_row, requester_words};

use kr_ghost::{Access, Cover, Requester};
use kr_ghost_check::first_open;
use kr_ghost_protocol::GhostProtocol;
use kr_model::{Memory, Mode};
use kr_protocol::{Protocol, name_or_empty};
use kr_view_scenes::escape;
use kr_view_table::{open_cell, whole_cell};
use std::alloc::Global;

/// What stands before the rows.
pub const COVERS: &str = "<h2>What each mode protects</h2>
<p class=\"note\">✓: a lock in this mode blocks all that it must where its transaction has to protect what the column says. ✗: it lets another transaction do this, which holds the mode that is named, if one is.</p>
<div class=\"grid\"><table class=\"covers\">
<thead><tr><th scope=\"col\">mode</th><th scope=\"col\">RK: a key that it has read, present or not</th><th scope=\"col\">RG: a gap that it has read</th><th scope=\"col\">CK: a key that it has changed</th></tr></thead>
<tbody>
";

/// What the modes protect, with a row for each mode and a column for each cover.
pub fn covers<P: GhostProtocol>(alloc: Global, protocol: &P) -> Result<String, Memory>
    ensures { IfOk result (λ text. string_bytes text ≡ covers_words (P.ghosts protocol.now) (P.names protocol.now)) }
{
    let opening = opening();
    let rows = mode_rows(alloc, protocol)?;
    format!(in alloc; "{opening}{rows}</tbody></table></div>\n")
}

/// What stands before the rows.
fn opening() -> &'static str
    ensures { result.now ≡ COVERS.now }
{
    COVERS
}

/// A row for each mode.
fn mode_rows<P: GhostProtocol>(alloc: Global, protocol: &P) -> Result<String, Memory>
    ensures { IfOk result (λ text. string_bytes text ≡ flat_map (mode_row (P.ghosts protocol.now) (P.names protocol.now)) (modes (P.ghosts protocol.now).table)) }
{
    let mut out = String::new(alloc);
    for mode in 1..mode_count(protocol) + 1 {
        let piece = mode_row(alloc, protocol, mode)?;
        out.push_str(piece.as_str())?;
    }
    Ok(out)
}

/// How many modes a protocol has.
fn mode_count<P: GhostProtocol>(protocol: &P) -> Mode
    ensures count { result ≡ (P.ghosts protocol.now).table.count }
    ensures few { result ≤ 15 }
{
    protocol.count()
}

/// The row of a mode.
fn mode_row<P: GhostProtocol>(alloc: Global, protocol: &P, mode: Mode) -> Result<String, Memory>
    requires { mode ≤ (P.ghosts protocol.now).table.count }
    ensures { IfOk result (λ text. string_bytes text ≡ mode_row (P.ghosts protocol.now) (P.names protocol.now) mode) }
{
    let name = escape(alloc, name_or_empty(protocol, mode))?;
    let read_key = cell(alloc, protocol, mode, Cover::ReadKey)?;
    let read_gap = cell(alloc, protocol, mode, Cover::ReadGap)?;
    let changed_key = cell(alloc, protocol, mode, Cover::ChangedKey)?;
    format!(in alloc;
        "<tr class=\"mode\"><th scope=\"row\">{name}</th>{read_key}{read_gap}{changed_key}</tr>\n"
    )
}

/// The cell of a mode and a cover.
fn cell<P: GhostProtocol>(
    alloc: Global,
    protocol: &P,
    mode: Mode,
    cover: Cover,
) -> Result<String, Memory>
    requires { mode ≤ (P.ghosts protocol.now).table.count }
    ensures { IfOk result (λ text. string_bytes text ≡ cell (P.ghosts protocol.now) (P.names protocol.now) mode cover) }
{
    cover_cell(alloc, protocol, first_open(protocol, cover, mode))
}

/// The cell of a mode and a cover, by the first requester that the mode lets through.
fn cover_cell<P: Protocol>(
    alloc: Global,
    protocol: &P,
    let_in: Option<Requester>,
) -> Result<String, Memory>
    ensures { IfOk result (λ text. string_bytes text ≡ cover_cell (P.names protocol.now) let_in) }
{
    match let_in {
        None => String::from_str(alloc, whole_cell()),
        Some(requester) => {
            let opening = open_cell();
            let words = requester_text(alloc, protocol, requester)?;
            format!(in alloc; "{opening}{words}</td>")
        }
    }
}

/// What a requester does, and what it holds.
pub fn requester_text<P: Protocol>(
    alloc: Global,
    protocol: &P,
    requester: Requester,
) -> Result<String, Memory>
    ensures { IfOk result (λ text. string_bytes text ≡ requester_words (P.names protocol.now) requester) }
{
    let deed = deed_words(requester.access);
    let holding = holding(alloc, protocol, requester.own)?;
    format!(in alloc; "{deed}{holding}")
}

/// What another transaction does.
fn deed_words(access: Access) -> &'static str
    ensures { result.now ≡ deed_words access }
{
    match access {
        Access::Fetch => "a fetch",
        Access::Scan => "a scan",
        Access::Delete => "a delete",
        Access::Update => "an update",
        Access::Revive => "an insert of the ghost",
        Access::Insert => "an insert into the gap",
        Access::InsertHit => "an insert that finds the key",
    }
}

/// The own mode of a requester, if it has one.
fn holding<P: Protocol>(alloc: Global, protocol: &P, own: Mode) -> Result<String, Memory>
    ensures { IfOk result (λ text. string_bytes text ≡ holding (P.names protocol.now) own) }
{
    if own == 0 {
        return Ok(String::new(alloc));
    }
    let name = escape(alloc, name_or_empty(protocol, own))?;
    format!(in alloc; ", holding {name}")
}
