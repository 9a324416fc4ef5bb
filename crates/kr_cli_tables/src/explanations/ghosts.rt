//! From a locking protocol with ghosts to its explanation, or the script of its schedule, on a sink.
ghost use Rattle.std.specs.Prelude.{◌≡◌, ◌⊎◌, IfOk, IfErr, IsTrue};
ghost use Rattle.kr_ghost.specs.Protocol.{GhostProtocol};
ghost use Rattle.kr_ghost_explain.specs.Explained.{IsGhostExplained};
ghost use Rattle.kr_sink.specs.Puts.{HasCause};
ghost use Rattle.kr_cli.specs.Endings.{is_output};
ghost use Rattle.kr_cli_tables.specs.Explain.{EndsReport, ExplainsGhosts, TellsGhostMissing, WritesGhostScript};
ghost use Rattle.kr_cli_tables.specs.declared.explanations.words.Wanted.TheVariants as wanted;

use kr_cli::Ending;
use kr_ghost_explain::{GhostExplanation, explain_ghosts};
use kr_ghost_explain_text::ghost_text;
use kr_ghost_protocol::GhostProtocol;
use kr_sink::{Sink, print, put_all};
use std::alloc::Global;

/// Writes the explanation of a protocol with ghosts, whose table this word names, and answers whether the table is safe, accepted
/// or not. Where a growth was refused, nothing is written; where printing fails, a prefix of the text was.
pub fn write_ghost_explanation<P: GhostProtocol, W: Sink>(
    alloc: Global,
    protocol: &P,
    table: &str,
    out: &mut W,
) -> Result<bool, Ending>
    ensures explains { IfOk result (ExplainsGhosts (P.ghosts protocol.now) (P.names protocol.now) table.now (W.taken out.old) (W.taken out.new)) }
    ensures err { IfErr result (EndsReport (TellsGhostMissing (P.ghosts protocol.now) table.now wanted.Explanation)) }
    ensures nothing { IfErr result (λ e. IsTrue (is_output e) ⊎ (out.new ≡ out.old)) }
    ensures cause { IfErr result (λ e. IsTrue (is_output e) → HasCause (W.failures out.old) (W.failures out.new)) }
{
    let explanation = explain_ghosts(alloc, protocol)?;
    let text = ghost_text(alloc, protocol, &explanation, table)?;
    put_all(out, text.as_bytes())?;
    Ok(explanation.is_safe())
}

/// Writes the script of the schedule of this number, from 1, of a protocol with ghosts, whose table this word names, and a line
/// feed. Where there is none, the ending tells that, and nothing is written; nor is it where a growth was refused.
pub fn write_ghost_script<P: GhostProtocol, W: Sink>(
    alloc: Global,
    protocol: &P,
    table: &str,
    number: usize,
    out: &mut W,
) -> Result<(), Ending>
    ensures script { IfOk result (λ _. WritesGhostScript (P.ghosts protocol.now) number (W.taken out.old) (W.taken out.new)) }
    ensures err { IfErr result (EndsReport (TellsGhostMissing (P.ghosts protocol.now) table.now (wanted.Script number))) }
    ensures nothing { IfErr result (λ e. IsTrue (is_output e) ⊎ (out.new ≡ out.old)) }
    ensures cause { IfErr result (λ e. IsTrue (is_output e) → HasCause (W.failures out.old) (W.failures out.new)) }
{
    let explanation = explain_ghosts(alloc, protocol)?;
    print_ghost_script(alloc, table, &explanation, number, out)
}

/// The same, by the explanation of a protocol with ghosts.
#[tactic(auto, using(crate::proofs::GhostWritten::ghost_script_written))]
fn print_ghost_script<W: Sink>(
    alloc: Global,
    table: &str,
    explanation: &GhostExplanation,
    number: usize,
    out: &mut W,
) -> Result<(), Ending>
    ensures script { (p : GhostProtocol) → IsGhostExplained p explanation.now → IfOk result (λ _. WritesGhostScript p number (W.taken out.old) (W.taken out.new)) }
    ensures err { (p : GhostProtocol) → IsGhostExplained p explanation.now → IfErr result (EndsReport (TellsGhostMissing p table.now (wanted.Script number))) }
    ensures nothing { IfErr result (λ e. IsTrue (is_output e) ⊎ (out.new ≡ out.old)) }
    ensures cause { IfErr result (λ e. IsTrue (is_output e) → HasCause (W.failures out.old) (W.failures out.new)) }
{
    match explanation.script(alloc, number)? {
        Some(line) => {
            print(out, line.as_str())?;
            Ok(())
        }
        None => {
            let what = format!(in alloc; "no script {number}")?;
            Err(Ending::told(alloc, table, what.as_str()))
        }
    }
}
