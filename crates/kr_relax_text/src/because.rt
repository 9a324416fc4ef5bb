//! What each change of an entry does, as a text.
ghost use Rattle.std.specs.Prelude.{◌≡◌, IfOk, string_bytes};
ghost use Rattle.kr_relax_text.specs.Reasons.{outcome_words, reason_words, reasons_words, wrong_words};

use crate::reasons::Reason;
use kr_change::change_text;
use kr_model::Memory;
use kr_protocol::Protocol;
use kr_relax_core::Outcome;
use std::alloc::Global;

/// What a change does.
fn outcome_text(alloc: Global, outcome: Outcome) -> Result<String, Memory>
    ensures { IfOk result (λ text. string_bytes text ≡ outcome_words outcome) }
{
    match outcome {
        Outcome::NoChange => String::from_str(alloc, "no change of the table"),
        Outcome::BlocksMore => String::from_str(alloc, "blocks more somewhere"),
        Outcome::LetsNothingMore => String::from_str(alloc, "lets nothing more through"),
        Outcome::Unsafe => String::from_str(alloc, "not safe"),
        Outcome::Relaxes(width) => format!(in alloc; "a relaxation, more granted: {width}"),
    }
}

/// A script that goes wrong, if there is one.
fn wrong_text(alloc: Global, script: &Option<String>) -> Result<String, Memory>
    ensures { IfOk result (λ text. string_bytes text ≡ wrong_words script.now) }
{
    match script {
        Some(line) => {
            let line = line.as_str();
            format!(in alloc; ", as this goes wrong\n   {line}\n")
        }
        None => String::from_str(alloc, "\n"),
    }
}

/// A change, and what it does.
#[tactic(auto, unfolding(crate::specs::Reasons::reason_words))]
fn reason_text<P: Protocol>(alloc: Global, protocol: &P, reason: &Reason) -> Result<String, Memory>
    ensures { IfOk result (λ text. string_bytes text ≡ reason_words (P.table protocol.now) (P.names protocol.now) reason.now) }
{
    let name = change_text(alloc, protocol, reason.judged.change)?;
    let outcome = outcome_text(alloc, reason.judged.outcome)?;
    let wrong = wrong_text(alloc, &reason.wrong)?;
    format!(in alloc; "{name}\n   {outcome}{wrong}")
}

/// What each of some changes does: its name, and on a line of its own what it does, and the script that goes wrong with it, if it
/// has one. Each line is ended by a line feed. The error is memory alone.
pub fn reasons_text<P: Protocol>(
    alloc: Global,
    protocol: &P,
    list: &[Reason],
) -> Result<String, Memory>
    ensures { IfOk result (λ text. string_bytes text ≡ reasons_words (P.table protocol.now) (P.names protocol.now) list.now) }
{
    let mut out = String::new(alloc);
    for reason in list {
        let text = reason_text(alloc, protocol, reason)?;
        out.push_str(text.as_str())?;
    }
    Ok(out)
}
