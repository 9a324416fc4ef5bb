//! `kr suite`: from words to the tests of an engine, made from the table that they name.
ghost use Rattle.std.specs.Prelude.{◌≡◌, ◌⊎◌, Err, IfOk, IfErr, OnOk, IsTrue, map, string_bytes};
ghost use Rattle.kr_sink.specs.Puts.{HasCause};
ghost use Rattle.kr_cli_diagnosis.specs.Finding.{AddsLines};
ghost use Rattle.kr_cli.specs.Endings.{is_output};
ghost use Rattle.kr_cli.specs.declared.endings.Ending.{Ending};
ghost use Rattle.kr_cli.specs.declared.endings.Ending.TheVariants as ending;
ghost use Rattle.kr_cli_tables.specs.Suite.{Answers, Ends, EndsWriting, Writes, index_of, mode_names};
ghost use Rattle.kr_cli_tables.specs.SuiteWords.{AskNothingOfTables};

mod words;
mod writing;

use kr_cli::{Ending, Files, Named};
use kr_cli_diagnosis::named_with_help;
use kr_kinds::{Gone, Leaves};
use kr_sink::Sink;
use std::alloc::Global;
pub use words::{Asked, Wanted, read_words};
pub use writing::write_suite;

/// Writes the suite of a table, with ghosts or without, or what it leaves, and answers whether it leaves no change.
fn write_named<W: Sink>(
    alloc: Global,
    named: &Named,
    wanted: Wanted,
    out: &mut W,
) -> Result<bool, Ending>
    ensures writes { IfOk result (Writes (index_of named.now) (mode_names named.now) wanted (W.taken out.old) (W.taken out.new)) }
    ensures err { IfErr result EndsWriting }
    ensures nothing { IfErr result (λ e. IsTrue (is_output e) ⊎ (out.new ≡ out.old)) }
    ensures cause { IfErr result (λ e. IsTrue (is_output e) → HasCause (W.failures out.old) (W.failures out.new)) }
{
    match named {
        Named::Table(table) => write_suite(alloc, &Gone(table), wanted, out),
        Named::Ghosts(table) => write_suite(alloc, &Leaves(table), wanted, out),
    }
}

/// Does what the words ask of a table, with ghosts or without, and answers whether its suite leaves no change. Where they name
/// none, `help` gets what helps.
pub fn suite<F: Files, W: Sink>(
    alloc: Global,
    words: &[String],
    files: &F,
    out: &mut W,
    help: &mut String,
) -> Result<bool, Ending>
    ensures answers { IfOk result (Answers (F.may_give files.now) (map string_bytes words.now) (W.taken out.old) (W.taken out.new)) }
    ensures err { IfErr result (Ends (F.may_give files.now) (map string_bytes words.now)) }
    ensures unknown { AskNothingOfTables (map string_bytes words.now)
        → (result ≡ Err ending.NotUnderstood) × ((out.new ≡ out.old) × (help.new ≡ help.old)) }
    ensures nothing { IfErr result (λ e. IsTrue (is_output e) ⊎ (out.new ≡ out.old)) }
    ensures cause { IfErr result (λ e. IsTrue (is_output e) → HasCause (W.failures out.old) (W.failures out.new)) }
    ensures unhelped { OnOk result (help.new ≡ help.old) }
    ensures help { AddsLines (string_bytes help.old) (string_bytes help.new) }
{
    let asked = read_words(words)?;
    let named = named_with_help(alloc, asked.table, files, help)?;
    write_named(alloc, &named, asked.wanted, out)
}
