//! What is requested of a ghost, and what becomes of the locks on it.
ghost use Rattle.std.specs.Prelude.{◌≡◌, ◌≤◌, IfOk, flat_map, string_bytes};
ghost use Rattle.kr_model.specs.Covers.{modes};
ghost use Rattle.kr_ghost_view_table.specs.declared.ghosts.TheConstants.{GHOSTS, HEIRS, WAITS};
ghost use Rattle.kr_ghost_view_table.specs.Ghosts.{above_words, ghosts_words, heir_row, mode_words, purge_words, row_words, vain_words};

use kr_ghost_protocol::{GhostProtocol, Span, Vain};
use kr_model::{Memory, Mode};
use kr_protocol::{Protocol, name_or_empty};
use kr_view_scenes::escape;
use kr_view_table::request;
use std::alloc::Global;

/// What stands before what an insert of a ghost requests.
pub const GHOSTS: &str = "<h2>Ghosts</h2>
<p class=\"note\">A deleted key stays as a ghost until it is purged: it has no value, but locks are taken on it, and it ends a gap. The rules above are those of a key that is present or a ghost; an insert of a ghost has one of its own.</p>
<p>revive, an insert of a ghost, on it: ";

/// What is said of purges that wait.
pub const WAITS: &str = "<p>A purge waits until there is no lock on the ghost.</p>\n";

/// What stands before the modes in which locks are inherited.
pub const HEIRS: &str =
    "<p>A purge doesn't wait for locks: each lock on the ghost becomes one on the next name, converted with what its transaction holds there.</p>
<div class=\"grid\"><table class=\"matrix\">
<thead><tr><th scope=\"col\">on the ghost</th><th scope=\"col\">on the next name</th></tr></thead>
<tbody>
";

/// What an insert of a ghost and vain steps request, and what becomes of locks at a purge.
pub fn ghosts<P: GhostProtocol>(alloc: Global, protocol: &P) -> Result<String, Memory>
    ensures { IfOk result (λ text. string_bytes text ≡ ghosts_words (P.ghosts protocol.now) (P.names protocol.now)) }
{
    let opening = opening();
    let request = request(alloc, protocol, protocol.revive())?;
    let above = above(alloc, protocol, protocol.revive_next())?;
    let vain = vain_rows(alloc, protocol)?;
    let purges = purges(alloc, protocol)?;
    format!(in alloc; "{opening}{request}{above}.</p>\n{vain}{purges}")
}

/// What is requested on the name above too, if anything is.
fn above<P: GhostProtocol>(
    alloc: Global,
    protocol: &P,
    asked: Option<(Mode, Span)>,
) -> Result<String, Memory>
    ensures { IfOk result (λ text. string_bytes text ≡ above_words (P.names protocol.now) asked) }
{
    if asked.is_none() {
        return Ok(String::new(alloc));
    }
    let request = request(alloc, protocol, asked)?;
    format!(in alloc; "; on the name above it: {request}")
}

/// What the row of a vain step requests, behind these words, if the table has the row.
fn row<P: GhostProtocol>(
    alloc: Global,
    protocol: &P,
    opening: &str,
    row: Option<Option<(Mode, Span)>>,
    next: Option<(Mode, Span)>,
) -> Result<String, Memory>
    ensures { IfOk result (λ text. string_bytes text ≡ row_words (P.names protocol.now) opening.now row next) }
{
    let Some(asked) = row else {
        return Ok(String::new(alloc));
    };
    let request = request(alloc, protocol, asked)?;
    let above = above(alloc, protocol, next)?;
    format!(in alloc; "{opening}{request}{above}.</p>\n")
}

/// The rows of vain steps that the table has.
fn vain_rows<P: GhostProtocol>(alloc: Global, protocol: &P) -> Result<String, Memory>
    ensures { IfOk result (λ text. string_bytes text ≡ vain_words (P.ghosts protocol.now) (P.names protocol.now)) }
{
    let hit = row(
        alloc,
        protocol,
        "<p>insert-hit, an insert of a present key, on it: ",
        protocol.vain(Vain::InsertHit),
        protocol.insert_hit_next(),
    )?;
    let delete = row(
        alloc,
        protocol,
        "<p>delete-miss, a delete of a key that is no name, on the next name: ",
        protocol.vain(Vain::DeleteMiss),
        None,
    )?;
    let update = row(
        alloc,
        protocol,
        "<p>update-miss, an update of such a key, on the next name: ",
        protocol.vain(Vain::UpdateMiss),
        None,
    )?;
    format!(in alloc; "{hit}{delete}{update}")
}

/// What stands before what an insert of a ghost requests.
fn opening() -> &'static str
    ensures { result.now ≡ GHOSTS.now }
{
    GHOSTS
}

/// What becomes of the locks on a ghost that is purged.
fn purges<P: GhostProtocol>(alloc: Global, protocol: &P) -> Result<String, Memory>
    ensures { IfOk result (λ text. string_bytes text ≡ purge_words (P.ghosts protocol.now) (P.names protocol.now)) }
{
    if !protocol.inherits() {
        return String::from_str(alloc, WAITS);
    }
    let opening = heirs_opening();
    let rows = heir_rows(alloc, protocol)?;
    format!(in alloc; "{opening}{rows}</tbody></table></div>\n")
}

/// What stands before the modes in which locks are inherited.
fn heirs_opening() -> &'static str
    ensures { result.now ≡ HEIRS.now }
{
    HEIRS
}

/// A row for each mode on a ghost.
fn heir_rows<P: GhostProtocol>(alloc: Global, protocol: &P) -> Result<String, Memory>
    ensures { IfOk result (λ text. string_bytes text ≡ flat_map (heir_row (P.ghosts protocol.now) (P.names protocol.now)) (modes (P.table protocol.now))) }
{
    let mut out = String::new(alloc);
    for mode in 1..protocol.count() + 1 {
        let piece = heir_row(alloc, protocol, mode)?;
        out.push_str(piece.as_str())?;
    }
    Ok(out)
}

/// The row of a mode on a ghost.
fn heir_row<P: GhostProtocol>(alloc: Global, protocol: &P, mode: Mode) -> Result<String, Memory>
    requires { mode ≤ (P.table protocol.now).count }
    ensures { IfOk result (λ text. string_bytes text ≡ heir_row (P.ghosts protocol.now) (P.names protocol.now) mode) }
{
    let name = escape(alloc, name_or_empty(protocol, mode))?;
    let heir = mode_text(alloc, protocol, protocol.heir(mode))?;
    format!(in alloc; "<tr class=\"heir\"><th scope=\"row\">{name}</th><td>{heir}</td></tr>\n")
}

/// A mode, or that there is no lock.
pub fn mode_text<P: Protocol>(alloc: Global, protocol: &P, mode: Mode) -> Result<String, Memory>
    ensures { IfOk result (λ text. string_bytes text ≡ mode_words (P.names protocol.now) mode) }
{
    if mode == 0 {
        return String::from_str(alloc, "no lock");
    }
    escape(alloc, name_or_empty(protocol, mode))
}
