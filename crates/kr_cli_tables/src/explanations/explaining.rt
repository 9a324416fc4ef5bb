//! From a locking protocol to its explanation, or a script of it, on a sink.
ghost use Rattle.std.specs.Prelude.{◌≡◌, ◌⊎◌, IfOk, IfErr, IsTrue};
ghost use Rattle.kr_model.specs.Protocol.{Protocol};
ghost use Rattle.kr_explain_core.specs.Explained.{IsExplained};
ghost use Rattle.kr_sink.specs.Puts.{HasCause};
ghost use Rattle.kr_cli.specs.Endings.{is_output};
ghost use Rattle.kr_cli_tables.specs.Explain.{EndsReport, Explains, TellsMissing, WritesScript};
ghost use Rattle.kr_cli_tables.specs.declared.explanations.words.Wanted.TheVariants as wanted;

use kr_cli::Ending;
use kr_explain_core::{Explanation, explain};
use kr_protocol::Protocol;
use kr_sink::{Sink, print, put_all};
use std::alloc::Global;

/// Writes the explanation of a protocol, whose table this word names, and answers whether the table is safe, accepted or not.
/// Where a growth was refused, nothing is written; where printing fails, a prefix of the text was.
pub fn write_explanation<P: Protocol, W: Sink>(
    alloc: Global,
    protocol: &P,
    table: &str,
    out: &mut W,
) -> Result<bool, Ending>
    ensures explains { IfOk result (Explains (P.table protocol.now) (P.names protocol.now) table.now (W.taken out.old) (W.taken out.new)) }
    ensures err { IfErr result (EndsReport (TellsMissing (P.table protocol.now) table.now wanted.Explanation)) }
    ensures nothing { IfErr result (λ e. IsTrue (is_output e) ⊎ (out.new ≡ out.old)) }
    ensures cause { IfErr result (λ e. IsTrue (is_output e) → HasCause (W.failures out.old) (W.failures out.new)) }
{
    let explanation = explain(alloc, protocol)?;
    let text = explanation.text(alloc, protocol, table)?;
    put_all(out, text.as_bytes())?;
    Ok(explanation.is_safe())
}

/// Writes the script of the cause of this number, from 1, of a protocol, whose table this word names, and a line feed. Where
/// there is no such cause, or no run of it is known, the ending tells that, and nothing is written; nor is it where a growth
/// was refused.
pub fn write_script<P: Protocol, W: Sink>(
    alloc: Global,
    protocol: &P,
    table: &str,
    number: usize,
    out: &mut W,
) -> Result<(), Ending>
    ensures script { IfOk result (λ _. WritesScript (P.table protocol.now) number (W.taken out.old) (W.taken out.new)) }
    ensures err { IfErr result (EndsReport (TellsMissing (P.table protocol.now) table.now (wanted.Script number))) }
    ensures nothing { IfErr result (λ e. IsTrue (is_output e) ⊎ (out.new ≡ out.old)) }
    ensures cause { IfErr result (λ e. IsTrue (is_output e) → HasCause (W.failures out.old) (W.failures out.new)) }
{
    let explanation = explain(alloc, protocol)?;
    print_script(alloc, table, &explanation, number, out)
}

/// The same, by the explanation of a protocol.
#[tactic(auto, using(crate::proofs::ExplainWritten::script_written))]
fn print_script<W: Sink>(
    alloc: Global,
    table: &str,
    explanation: &Explanation,
    number: usize,
    out: &mut W,
) -> Result<(), Ending>
    ensures script { (p : Protocol) → IsExplained p explanation.now → IfOk result (λ _. WritesScript p number (W.taken out.old) (W.taken out.new)) }
    ensures err { (p : Protocol) → IsExplained p explanation.now → IfErr result (EndsReport (TellsMissing p table.now (wanted.Script number))) }
    ensures nothing { IfErr result (λ e. IsTrue (is_output e) ⊎ (out.new ≡ out.old)) }
    ensures cause { IfErr result (λ e. IsTrue (is_output e) → HasCause (W.failures out.old) (W.failures out.new)) }
{
    match explanation.script(alloc, number)? {
        Some(line) => {
            print(out, line.as_str())?;
            Ok(())
        }
        None => {
            let what = format!(in alloc; "no script {number}")?;
            Err(Ending::told(alloc, table, what.as_str()))
        }
    }
}
