//! The pages of a table with ghosts, and of a run under one.
ghost use Rattle.std.specs.Prelude.{◌≡◌, ◌⊎◌, ◌↔◌, ℕ, List, IfOk, IfErr, OnOk, IsTrue, string_bytes};
ghost use Rattle.std.specs.Io.KnownBytes.{Appends};
ghost use Rattle.kr_ghost.specs.Covers.{IsCoveredGhost};
ghost use Rattle.kr_ghost.specs.Safe.{IsSafeGhost};
ghost use Rattle.kr_sink.specs.Puts.{HasCause};
ghost use Rattle.kr_cli.specs.Endings.{is_output};
ghost use Rattle.kr_cli.specs.declared.endings.Ending.TheVariants as ending;
ghost use Rattle.kr_cli_diagnosis.specs.Finding.{AddsLines};
ghost use Rattle.kr_cli.specs.GhostScripts.{IsSerialGhosts, TellsNoGhostScript};
ghost use Rattle.kr_ghost_view_table.specs.Page.{IsGhostTablePage};
ghost use Rattle.kr_view_run.specs.Page.{IsPage};
ghost use Rattle.kr_cli_tables.specs.View.{EndsSo, NamesNoMemberTwice, ShowsGhostScript, drawn_of_ghosts};

use kr_cli::{AnyGhostTable, Ending, Files};
use kr_cli_diagnosis::ghost_script_with_help;
use kr_ghost_protocol::GhostProtocol;
use kr_ghost_view::ghost_picture;
use kr_ghost_view_table::ghost_table_page;
use kr_script::GhostScript;
use kr_sink::{Sink, put_all};
use std::alloc::Global;

/// Writes the page of a script's run under a protocol with ghosts, whose table this word names, and answers whether the run is
/// serializable in commit order; under a safe protocol it is, and so under a covered one. Where a growth was refused, nothing is
/// written; where printing fails, a prefix of the page was.
pub fn write_ghost_page<P: GhostProtocol, W: Sink>(
    alloc: Global,
    protocol: &P,
    table: &str,
    script: &GhostScript,
    out: &mut W,
) -> Result<bool, Ending>
    ensures page { IfOk result (λ serial. (page : List ℕ)
        × (IsPage table.now (drawn_of_ghosts (P.ghosts protocol.now) script.now) serial page
        × Appends (W.taken out.old) (W.taken out.new) page)) }
    ensures serial { IfOk result (λ serial. IsTrue serial ↔ IsSerialGhosts (P.ghosts protocol.now) script.now) }
    ensures safe { IsSafeGhost (P.ghosts protocol.now) → IfOk result (λ serial. IsTrue serial) }
    ensures covered { IsCoveredGhost (P.ghosts protocol.now) → IfOk result (λ serial. IsTrue serial) }
    ensures err { IfErr result (λ e. (e ≡ ending.Memory) ⊎ (e ≡ ending.Output)) }
    ensures nothing { IfErr result (λ e. IsTrue (is_output e) ⊎ (out.new ≡ out.old)) }
    ensures cause { IfErr result (λ e. IsTrue (is_output e) → HasCause (W.failures out.old) (W.failures out.new)) }
{
    let (page, is_serial) = ghost_picture(alloc, protocol, table, script)?;
    put_all(out, page.as_bytes())?;
    Ok(is_serial)
}

/// Writes the page of a protocol with ghosts, whose table this word names, and answers whether the table is safe, accepted or not.
/// Where a growth was refused, nothing is written; where printing fails, a prefix of the page was.
pub fn write_ghost_table_page<P: GhostProtocol, W: Sink>(
    alloc: Global,
    protocol: &P,
    table: &str,
    out: &mut W,
) -> Result<bool, Ending>
    ensures page { IfOk result (λ safe. (page : List ℕ)
        × (IsGhostTablePage (P.ghosts protocol.now) (P.names protocol.now) table.now page safe
        × Appends (W.taken out.old) (W.taken out.new) page)) }
    ensures safe { IfOk result (λ safe. IsTrue safe ↔ IsSafeGhost (P.ghosts protocol.now)) }
    ensures err { IfErr result (λ e. (e ≡ ending.Memory) ⊎ (e ≡ ending.Output)) }
    ensures nothing { IfErr result (λ e. IsTrue (is_output e) ⊎ (out.new ≡ out.old)) }
    ensures cause { IfErr result (λ e. IsTrue (is_output e) → HasCause (W.failures out.old) (W.failures out.new)) }
{
    let (page, is_safe) = ghost_table_page(alloc, protocol, table)?;
    put_all(out, page.as_bytes())?;
    Ok(is_safe)
}

/// Writes the page of the run of the script that the second word names under a table with ghosts, which the first names, and
/// answers whether the run is serializable. `help` gets a warning of each member that the script has twice.
pub(crate) fn view_ghosts<F: Files, W: Sink>(
    alloc: Global,
    table: &AnyGhostTable,
    words: (&str, &str),
    files: &F,
    out: &mut W,
    help: &mut String,
) -> Result<bool, Ending>
    ensures shows { IfOk result (ShowsGhostScript (F.may_give files.now) table.now words.entry.0.now words.entry.1.now (W.taken out.old) (W.taken out.new)) }
    ensures err { IfErr result (EndsSo (TellsNoGhostScript (F.may_give files.now) words.entry.1.now)) }
    ensures cause { IfErr result (λ e. IsTrue (is_output e) → HasCause (W.failures out.old) (W.failures out.new)) }
    ensures nothing { IfErr result (λ e. IsTrue (is_output e) ⊎ (out.new ≡ out.old)) }
    ensures help { AddsLines (string_bytes help.old) (string_bytes help.new) }
    ensures unwarned { NamesNoMemberTwice (F.may_give files.now) words.entry.1.now
        → OnOk result (string_bytes help.new ≡ string_bytes help.old) }
{
    let (word, script) = words;
    let script = ghost_script_with_help(alloc, script, files, help)?;
    write_ghost_page(alloc, table, word, &script, out)
}
