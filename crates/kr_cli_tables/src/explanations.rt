//! `kr explain`: from words to the explanation of the table that they name, or a script of it.
ghost use Rattle.std.specs.Prelude.{◌≡◌, ◌⊎◌, false, Ok, Err, IfOk, IfErr, OnOk, IsTrue, map, string_bytes};
ghost use Rattle.kr_sink.specs.Puts.{HasCause};
ghost use Rattle.kr_cli_diagnosis.specs.Finding.{AddsLines};
ghost use Rattle.kr_cli.specs.Endings.{is_output};
ghost use Rattle.kr_cli.specs.declared.endings.Ending.{Ending};
ghost use Rattle.kr_cli.specs.declared.endings.Ending.TheVariants as ending;
ghost use Rattle.kr_cli_tables.specs.Explain.{Answers, Ends, EndsReport, IsLawfulTable, Reports, ReportsGhosts, ReportsTable, TellsGhostMissing, TellsMissing, TellsOfTable};
ghost use Rattle.kr_cli_tables.specs.ExplainWords.{AskNothingOfTables};

mod explaining;
mod ghosts;
mod words;

pub use explaining::{write_explanation, write_script};
pub use ghosts::{write_ghost_explanation, write_ghost_script};
use kr_cli::{Ending, Files, Named, lemma_lawful};
use kr_cli_diagnosis::named_with_help;
use kr_ghost_protocol::GhostProtocol;
use kr_protocol::Protocol;
use kr_sink::Sink;
use std::alloc::Global;
pub use words::{Asked, Wanted, read_words};

/// Writes what is wanted of a protocol, whose table this word names, and answers whether the table is safe; one of which a
/// script is written isn't.
fn report<P: Protocol, W: Sink>(
    alloc: Global,
    protocol: &P,
    table: &str,
    wanted: Wanted,
    out: &mut W,
) -> Result<bool, Ending>
    ensures reports { IfOk result (Reports (P.table protocol.now) (P.names protocol.now) table.now wanted (W.taken out.old) (W.taken out.new)) }
    ensures err { IfErr result (EndsReport (TellsMissing (P.table protocol.now) table.now wanted)) }
    ensures nothing { IfErr result (λ e. IsTrue (is_output e) ⊎ (out.new ≡ out.old)) }
    ensures cause { IfErr result (λ e. IsTrue (is_output e) → HasCause (W.failures out.old) (W.failures out.new)) }
{
    match wanted {
        Wanted::Explanation => write_explanation(alloc, protocol, table, out),
        Wanted::Script(number) => {
            write_script(alloc, protocol, table, number, out)?;
            Ok(false)
        }
    }
}

/// The same of a protocol with ghosts.
fn report_ghosts<P: GhostProtocol, W: Sink>(
    alloc: Global,
    protocol: &P,
    table: &str,
    wanted: Wanted,
    out: &mut W,
) -> Result<bool, Ending>
    ensures reports { IfOk result (ReportsGhosts (P.ghosts protocol.now) (P.names protocol.now) table.now wanted (W.taken out.old) (W.taken out.new)) }
    ensures err { IfErr result (EndsReport (TellsGhostMissing (P.ghosts protocol.now) table.now wanted)) }
    ensures nothing { IfErr result (λ e. IsTrue (is_output e) ⊎ (out.new ≡ out.old)) }
    ensures cause { IfErr result (λ e. IsTrue (is_output e) → HasCause (W.failures out.old) (W.failures out.new)) }
{
    match wanted {
        Wanted::Explanation => write_ghost_explanation(alloc, protocol, table, out),
        Wanted::Script(number) => {
            write_ghost_script(alloc, protocol, table, number, out)?;
            Ok(false)
        }
    }
}

/// The same of a table that the word names, with ghosts or without.
fn report_table<W: Sink>(
    alloc: Global,
    named: &Named,
    table: &str,
    wanted: Wanted,
    out: &mut W,
) -> Result<bool, Ending>
    ensures reports { IfOk result (ReportsTable named.now table.now wanted (W.taken out.old) (W.taken out.new)) }
    ensures err { IfErr result (EndsReport (TellsOfTable named.now table.now wanted)) }
    ensures lawful { IsLawfulTable named.now }
    ensures nothing { IfErr result (λ e. IsTrue (is_output e) ⊎ (out.new ≡ out.old)) }
    ensures cause { IfErr result (λ e. IsTrue (is_output e) → HasCause (W.failures out.old) (W.failures out.new)) }
{
    match named {
        Named::Table(it) => {
            lemma_lawful(it);
            report(alloc, it, table, wanted, out)
        }
        Named::Ghosts(it) => report_ghosts(alloc, it, table, wanted, out),
    }
}

/// Does what the words ask of a table, and answers whether it is safe. Where they name none, `help` gets what helps.
pub fn explain<F: Files, W: Sink>(
    alloc: Global,
    words: &[String],
    files: &F,
    out: &mut W,
    help: &mut String,
) -> Result<bool, Ending>
    ensures answers { IfOk result (Answers (F.may_give files.now) (map string_bytes words.now) (W.taken out.old) (W.taken out.new)) }
    ensures err { IfErr result (Ends (F.may_give files.now) (map string_bytes words.now)) }
    ensures unknown { AskNothingOfTables (map string_bytes words.now)
        → (result ≡ Err ending.NotUnderstood) × ((out.new ≡ out.old) × (help.new ≡ help.old)) }
    ensures nothing { IfErr result (λ e. IsTrue (is_output e) ⊎ (out.new ≡ out.old)) }
    ensures cause { IfErr result (λ e. IsTrue (is_output e) → HasCause (W.failures out.old) (W.failures out.new)) }
    ensures unhelped { OnOk result (help.new ≡ help.old) }
    ensures help { AddsLines (string_bytes help.old) (string_bytes help.new) }
{
    let asked = read_words(words)?;
    let table = named_with_help(alloc, asked.table, files, help)?;
    report_table(alloc, &table, asked.table, asked.wanted, out)
}
