//! `kr view`: from words to the page of the table, or of the run, that they name.
ghost use Rattle.std.specs.Prelude.{◌≡◌, ◌⊎◌, ◌↔◌, ℕ, List, Ok, Err, IfOk, IfErr, OnOk, IsTrue, map, string_bytes};
ghost use Rattle.std.specs.Io.KnownBytes.{Appends};
ghost use Rattle.kr_model.specs.Covers.{IsCovered};
ghost use Rattle.kr_model.specs.Safe.{IsSafe};
ghost use Rattle.kr_sink.specs.Puts.{HasCause};
ghost use Rattle.kr_cli_diagnosis.specs.Finding.{AddsLines};
ghost use Rattle.kr_cli.specs.Endings.{is_output};
ghost use Rattle.kr_cli.specs.Named.{TellsNoScript};
ghost use Rattle.kr_cli.specs.NamedTables.{TellsNone};
ghost use Rattle.kr_cli.specs.declared.endings.Ending.{Ending};
ghost use Rattle.kr_cli.specs.declared.endings.Ending.TheVariants as ending;
ghost use Rattle.kr_view_run.specs.Page.{IsPage};
ghost use Rattle.kr_view_table.specs.Page.{IsTablePage};
ghost use Rattle.kr_cli_tables.specs.ViewWords.{AskNoPage};
ghost use Rattle.kr_cli_tables.specs.View.{Ends, EndsSo, IsSerialScript, NameNoMemberTwice, NamesNoMemberTwice, Shows, ShowsAsked, ShowsNamed, ShowsScript, ShowsTable, ShowsUnder, TellsNoScriptFor, TellsWord, drawn_of_script};

mod ghosts;
mod words;

use ghosts::view_ghosts;
pub use ghosts::{write_ghost_page, write_ghost_table_page};
use kr_cli::{AnyTable, Ending, Files, Named, lemma_lawful};
use kr_cli_diagnosis::{named_with_help, script_at};
use kr_protocol::Protocol;
use kr_script::Script;
use kr_sink::{Sink, put_all};
use kr_view_run::picture;
use kr_view_table::table_page;
use std::alloc::Global;
pub use words::{Asked, read_words};

/// Writes the page of a script's run under a protocol, whose table this word names, and answers whether the run is
/// serializable in commit order; under a safe protocol it is, and so under a covered one. Where a growth was refused,
/// nothing is written; where printing fails, a prefix of the page was.
pub fn write_page<P: Protocol, W: Sink>(
    alloc: Global,
    protocol: &P,
    table: &str,
    script: &Script,
    out: &mut W,
) -> Result<bool, Ending>
    ensures page { IfOk result (λ serial. (page : List ℕ)
        × (IsPage table.now (drawn_of_script (P.table protocol.now) script.now) serial page
        × Appends (W.taken out.old) (W.taken out.new) page)) }
    ensures serial { IfOk result (λ serial. IsTrue serial ↔ IsSerialScript (P.table protocol.now) script.now) }
    ensures safe { IsSafe (P.table protocol.now) → IfOk result (λ serial. IsTrue serial) }
    ensures covered { IsCovered (P.table protocol.now) → IfOk result (λ serial. IsTrue serial) }
    ensures err { IfErr result (λ e. (e ≡ ending.Memory) ⊎ (e ≡ ending.Output)) }
    ensures nothing { IfErr result (λ e. IsTrue (is_output e) ⊎ (out.new ≡ out.old)) }
    ensures cause { IfErr result (λ e. IsTrue (is_output e) → HasCause (W.failures out.old) (W.failures out.new)) }
{
    let (page, is_serial) = picture(alloc, protocol, table, script)?;
    put_all(out, page.as_bytes())?;
    Ok(is_serial)
}

/// Writes the page of a protocol, whose table this word names, and answers whether the table is safe, accepted or not. Where a
/// growth was refused, nothing is written; where printing fails, a prefix of the page was.
pub fn write_table_page<P: Protocol, W: Sink>(
    alloc: Global,
    protocol: &P,
    table: &str,
    out: &mut W,
) -> Result<bool, Ending>
    ensures page { IfOk result (λ safe. (page : List ℕ)
        × (IsTablePage (P.table protocol.now) (P.names protocol.now) table.now page
        × Appends (W.taken out.old) (W.taken out.new) page)) }
    ensures safe { IfOk result (λ safe. IsTrue safe ↔ IsSafe (P.table protocol.now)) }
    ensures err { IfErr result (λ e. (e ≡ ending.Memory) ⊎ (e ≡ ending.Output)) }
    ensures nothing { IfErr result (λ e. IsTrue (is_output e) ⊎ (out.new ≡ out.old)) }
    ensures cause { IfErr result (λ e. IsTrue (is_output e) → HasCause (W.failures out.old) (W.failures out.new)) }
{
    let (page, is_safe) = table_page(alloc, protocol, table)?;
    put_all(out, page.as_bytes())?;
    Ok(is_safe)
}

/// Writes the page of the table that a word names, and answers whether the table is safe. Where the word names none, `help`
/// gets what helps.
fn view_table<F: Files, W: Sink>(
    alloc: Global,
    word: &str,
    files: &F,
    out: &mut W,
    help: &mut String,
) -> Result<bool, Ending>
    ensures shows { IfOk result (ShowsTable (F.may_give files.now) word.now (W.taken out.old) (W.taken out.new)) }
    ensures err { IfErr result (EndsSo (TellsNone (F.may_give files.now) word.now)) }
    ensures cause { IfErr result (λ e. IsTrue (is_output e) → HasCause (W.failures out.old) (W.failures out.new)) }
    ensures nothing { IfErr result (λ e. IsTrue (is_output e) ⊎ (out.new ≡ out.old)) }
    ensures help { AddsLines (string_bytes help.old) (string_bytes help.new) }
    ensures unhelped { OnOk result (help.new ≡ help.old) }
{
    let named = named_with_help(alloc, word, files, help)?;
    view_named(alloc, &named, word, out)
}

/// Writes the page of a table, with ghosts or without, that the word names, and answers whether the table is safe.
fn view_named<W: Sink>(
    alloc: Global,
    named: &Named,
    word: &str,
    out: &mut W,
) -> Result<bool, Ending>
    ensures shows { IfOk result (ShowsNamed named.now word.now (W.taken out.old) (W.taken out.new)) }
    ensures err { IfErr result (λ e. (e ≡ ending.Memory) ⊎ (e ≡ ending.Output)) }
    ensures cause { IfErr result (λ e. IsTrue (is_output e) → HasCause (W.failures out.old) (W.failures out.new)) }
    ensures nothing { IfErr result (λ e. IsTrue (is_output e) ⊎ (out.new ≡ out.old)) }
{
    match named {
        Named::Table(table) => {
            lemma_lawful(table);
            write_table_page(alloc, table, word, out)
        }
        Named::Ghosts(table) => write_ghost_table_page(alloc, table, word, out),
    }
}

/// Writes the page of the run of the script that the second word names under a table without ghosts, which the first names, and
/// answers whether the run is serializable. `help` gets what helps where the second names no script, and a warning of each member
/// that the script has twice.
fn view_script<F: Files, W: Sink>(
    alloc: Global,
    table: &AnyTable,
    words: (&str, &str),
    files: &F,
    out: &mut W,
    help: &mut String,
) -> Result<bool, Ending>
    ensures shows { IfOk result (ShowsScript (F.may_give files.now) table.now words.entry.0.now words.entry.1.now (W.taken out.old) (W.taken out.new)) }
    ensures err { IfErr result (EndsSo (TellsNoScript (F.may_give files.now) words.entry.1.now)) }
    ensures cause { IfErr result (λ e. IsTrue (is_output e) → HasCause (W.failures out.old) (W.failures out.new)) }
    ensures nothing { IfErr result (λ e. IsTrue (is_output e) ⊎ (out.new ≡ out.old)) }
    ensures help { AddsLines (string_bytes help.old) (string_bytes help.new) }
    ensures unwarned { NamesNoMemberTwice (F.may_give files.now) words.entry.1.now
        → OnOk result (string_bytes help.new ≡ string_bytes help.old) }
{
    let (word, script) = words;
    let script = script_at(alloc, script, files, help)?;
    lemma_lawful(table);
    write_page(alloc, table, word, &script, out)
}

/// Writes the page of the run of the script that a word names under the table that another names, and answers whether the run
/// is serializable. `help` gets what helps where they name no table or no script, and a warning of each member that the script
/// has twice.
fn view_run<F: Files, W: Sink>(
    alloc: Global,
    words: (&str, &str),
    files: &F,
    out: &mut W,
    help: &mut String,
) -> Result<bool, Ending>
    ensures shows { IfOk result (Shows (F.may_give files.now) words.entry.0.now words.entry.1.now (W.taken out.old) (W.taken out.new)) }
    ensures err { IfErr result (EndsSo (TellsWord (F.may_give files.now) words.entry.0.now words.entry.1.now)) }
    ensures cause { IfErr result (λ e. IsTrue (is_output e) → HasCause (W.failures out.old) (W.failures out.new)) }
    ensures nothing { IfErr result (λ e. IsTrue (is_output e) ⊎ (out.new ≡ out.old)) }
    ensures help { AddsLines (string_bytes help.old) (string_bytes help.new) }
    ensures unwarned { NamesNoMemberTwice (F.may_give files.now) words.entry.1.now
        → OnOk result (string_bytes help.new ≡ string_bytes help.old) }
{
    let named = named_with_help(alloc, words.0, files, help)?;
    view_under(alloc, &named, words, files, out, help)
}

/// The same under a table that the first word names.
fn view_under<F: Files, W: Sink>(
    alloc: Global,
    named: &Named,
    words: (&str, &str),
    files: &F,
    out: &mut W,
    help: &mut String,
) -> Result<bool, Ending>
    ensures shows { IfOk result (ShowsUnder (F.may_give files.now) named.now words.entry.0.now words.entry.1.now (W.taken out.old) (W.taken out.new)) }
    ensures err { IfErr result (EndsSo (TellsNoScriptFor (F.may_give files.now) named.now words.entry.1.now)) }
    ensures cause { IfErr result (λ e. IsTrue (is_output e) → HasCause (W.failures out.old) (W.failures out.new)) }
    ensures nothing { IfErr result (λ e. IsTrue (is_output e) ⊎ (out.new ≡ out.old)) }
    ensures help { AddsLines (string_bytes help.old) (string_bytes help.new) }
    ensures unwarned { NamesNoMemberTwice (F.may_give files.now) words.entry.1.now
        → OnOk result (string_bytes help.new ≡ string_bytes help.old) }
{
    match named {
        Named::Table(table) => view_script(alloc, table, words, files, out, help),
        Named::Ghosts(table) => view_ghosts(alloc, table, words, files, out, help),
    }
}

/// Writes the page that the words ask for, and answers whether the table is safe that they name, or the run serializable. `help`
/// gets what helps where a word names no table or no script, and a warning of each member that the script has twice.
pub fn view<F: Files, W: Sink>(
    alloc: Global,
    words: &[String],
    files: &F,
    out: &mut W,
    help: &mut String,
) -> Result<bool, Ending>
    ensures shows { IfOk result (ShowsAsked (F.may_give files.now) (map string_bytes words.now) (W.taken out.old) (W.taken out.new)) }
    ensures err { IfErr result (Ends (F.may_give files.now) (map string_bytes words.now)) }
    ensures unknown { AskNoPage (map string_bytes words.now)
        → (result ≡ Err ending.NotUnderstood) × ((out.new ≡ out.old) × (help.new ≡ help.old)) }
    ensures cause { IfErr result (λ e. IsTrue (is_output e) → HasCause (W.failures out.old) (W.failures out.new)) }
    ensures nothing { IfErr result (λ e. IsTrue (is_output e) ⊎ (out.new ≡ out.old)) }
    ensures help { AddsLines (string_bytes help.old) (string_bytes help.new) }
    ensures unwarned { NameNoMemberTwice (F.may_give files.now) (map string_bytes words.now)
        → OnOk result (string_bytes help.new ≡ string_bytes help.old) }
{
    let asked = read_words(words)?;
    match asked {
        Asked::Table(table) => view_table(alloc, table, files, out, help),
        Asked::Run(table, script) => view_run(alloc, (table, script), files, out, help),
    }
}
