//! From a locking protocol to its suite, or to what it leaves, on a sink.
ghost use Rattle.std.specs.Prelude.{◌≡◌, ◌⊎◌, IfOk, IfErr, IsTrue, string_bytes};
ghost use Rattle.kr_cli.specs.Endings.{is_output};
ghost use Rattle.kr_sink.specs.Puts.{HasCause};
ghost use Rattle.kr_cli_tables.specs.Suite.{EndsWriting, IsMade, IsSurveyOf, IsWanted, TellsLeft, Writes, is_complete};

use crate::suites::words::Wanted;
use kr_cli::Ending;
use kr_decide::Survey;
use kr_kinds::IndexProtocol;
use kr_model::Memory;
use kr_sink::{Sink, put_all};
use kr_suite_core::{Suite, suite};
use kr_suite_text::{left_text, suite_text};
use std::alloc::Global;

/// A survey of the table; where deletes leave ghosts there is none.
fn survey_of<P: IndexProtocol>(alloc: Global, protocol: &P) -> Result<Option<Survey>, Memory>
    ensures { IfOk result (IsSurveyOf (P.index protocol.now)) }
{
    if protocol.leaves_ghosts() {
        return Ok(None);
    }
    let survey = Survey::of(alloc, protocol)?;
    Ok(Some(survey))
}

/// What a suite leaves, with why changes are alike, by a survey of the table.
fn surveyed_text<P: IndexProtocol>(
    alloc: Global,
    protocol: &P,
    suite: &Suite,
) -> Result<String, Memory>
    ensures { IfOk result (λ text. TellsLeft (P.index protocol.now) (P.names protocol.now) suite.now (string_bytes text)) }
{
    let survey = survey_of(alloc, protocol)?;
    left_text(alloc, protocol, suite, &survey)
}

/// What is wanted of the suite of a table.
fn wanted_text<P: IndexProtocol>(
    alloc: Global,
    protocol: &P,
    suite: &Suite,
    wanted: Wanted,
) -> Result<String, Memory>
    ensures { IfOk result (λ text. IsWanted (P.index protocol.now) (P.names protocol.now) suite.now wanted (string_bytes text)) }
{
    match wanted {
        Wanted::Suite => suite_text(alloc, protocol, suite),
        Wanted::Left => surveyed_text(alloc, protocol, suite),
    }
}

/// A text of a suite, and whether the suite leaves no change.
#[derive(Drop)]
struct Made {
    text: String,
    is_complete: bool,
}

/// The same of a suite.
fn made_of<P: IndexProtocol>(
    alloc: Global,
    protocol: &P,
    suite: &Suite,
    wanted: Wanted,
) -> Result<Made, Memory>
    ensures text { IfOk result (λ made. IsWanted (P.index protocol.now) (P.names protocol.now) suite.now wanted (string_bytes made.text)) }
    ensures complete { IfOk result (λ made. made.is_complete ≡ is_complete suite.now) }
{
    let is_complete = suite.left.is_empty();
    let text = wanted_text(alloc, protocol, suite, wanted)?;
    Ok(Made { text, is_complete })
}

/// What is wanted of the suite of a table.
fn make<P: IndexProtocol>(alloc: Global, protocol: &P, wanted: Wanted) -> Result<Made, Memory>
    ensures { IfOk result (λ made. IsMade (P.index protocol.now) (P.names protocol.now) wanted (string_bytes made.text) made.is_complete) }
{
    let suite = suite(alloc, protocol)?;
    made_of(alloc, protocol, &suite, wanted)
}

/// Writes the suite of a protocol of either kind, or what it leaves, and answers whether it leaves no change. Where a growth was refused,
/// nothing is written; where printing fails, a prefix of the text was.
pub fn write_suite<P: IndexProtocol, W: Sink>(
    alloc: Global,
    protocol: &P,
    wanted: Wanted,
    out: &mut W,
) -> Result<bool, Ending>
    ensures writes { IfOk result (Writes (P.index protocol.now) (P.names protocol.now) wanted (W.taken out.old) (W.taken out.new)) }
    ensures err { IfErr result EndsWriting }
    ensures nothing { IfErr result (λ e. IsTrue (is_output e) ⊎ (out.new ≡ out.old)) }
    ensures cause { IfErr result (λ e. IsTrue (is_output e) → HasCause (W.failures out.old) (W.failures out.new)) }
{
    let made = make(alloc, protocol, wanted)?;
    put_all(out, made.text.as_bytes())?;
    Ok(made.is_complete)
}
