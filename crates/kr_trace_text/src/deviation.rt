//! How a line differs from what a table answers, in a sentence.
ghost use Rattle.std.specs.Prelude.{◌≡◌, IfOk, string_bytes};
ghost use Rattle.kr_trace_text.specs.Deviations.{against_words, blockers_words, conflict_words, conflicts_words, converted_words, deviation_words, held_words, kind_words, misnamed_words, reason_words, requested_words, since_words};

use crate::answered::answered_text;
use crate::steps::LoggedStep;
use kr_explain_text::{answer_text, lock_name, txns_text};
use kr_model::{Memory, Refusal, Txn};
use kr_protocol::{Protocol, name_or_empty};
use kr_trace_lines::{Conflict, DeviationKind};
use std::alloc::Global;

/// The converted mode in which a request is tested, if it isn't the mode that is requested.
fn converted_text<P: Protocol>(
    alloc: Global,
    protocol: &P,
    conflict: Conflict,
) -> Result<String, Memory>
    ensures { IfOk result (λ text. string_bytes text ≡ converted_words (P.names protocol.now) conflict) }
{
    if conflict.tested == conflict.asked {
        Ok(String::new(alloc))
    } else {
        let tested = name_or_empty(protocol, conflict.tested);
        format!(in alloc; ", tested in the converted mode {tested}")
    }
}

/// What the step requests on a name where a lock is in the way.
fn requested_text<P: Protocol>(
    alloc: Global,
    protocol: &P,
    conflict: Conflict,
) -> Result<String, Memory>
    ensures { IfOk result (λ text. string_bytes text ≡ requested_words (P.names protocol.now) conflict) }
{
    let asked = name_or_empty(protocol, conflict.asked);
    let name = lock_name(alloc, conflict.name)?;
    let converted = converted_text(alloc, protocol, conflict)?;
    format!(in alloc; "\n   It requests {asked} on {name}{converted}")
}

/// The line since which the lock in the way is held in its mode.
fn since_text(alloc: Global, conflict: Conflict) -> Result<String, Memory>
    ensures { IfOk result (λ text. string_bytes text ≡ since_words conflict) }
{
    let since = conflict.since;
    format!(in alloc; " since line {since}")
}

/// Who holds the lock in the way, in which mode, and since which line.
fn held_text<P: Protocol>(alloc: Global, protocol: &P, conflict: Conflict) -> Result<String, Memory>
    ensures { IfOk result (λ text. string_bytes text ≡ held_words (P.names protocol.now) conflict) }
{
    let holder = conflict.holder;
    let held = name_or_empty(protocol, conflict.held);
    let since = since_text(alloc, conflict)?;
    format!(in alloc; ", where T{holder} has held {held}{since}")
}

/// Which modes aren't compatible.
fn against_text<P: Protocol>(
    alloc: Global,
    protocol: &P,
    conflict: Conflict,
) -> Result<String, Memory>
    ensures { IfOk result (λ text. string_bytes text ≡ against_words (P.names protocol.now) conflict) }
{
    let tested = name_or_empty(protocol, conflict.tested);
    let held = name_or_empty(protocol, conflict.held);
    format!(in alloc; "{tested} is not compatible with {held}.")
}

/// A lock in the way, on a line of its own: the request with which it conflicts, its holder and its mode.
#[tactic(auto, unfolding(crate::specs::Deviations::conflict_words))]
fn conflict_text<P: Protocol>(
    alloc: Global,
    protocol: &P,
    conflict: Conflict,
) -> Result<String, Memory>
    ensures { IfOk result (λ text. string_bytes text ≡ conflict_words (P.names protocol.now) conflict) }
{
    let requested = requested_text(alloc, protocol, conflict)?;
    let held = held_text(alloc, protocol, conflict)?;
    let against = against_text(alloc, protocol, conflict)?;
    format!(in alloc; "{requested}{held}: {against}")
}

/// The locks in the way, each on a line of its own.
#[tactic(auto, unfolding(crate::specs::Deviations::conflicts_words))]
fn conflicts_text<P: Protocol>(
    alloc: Global,
    protocol: &P,
    conflicts: &[Conflict],
) -> Result<String, Memory>
    ensures { IfOk result (λ text. string_bytes text ≡ conflicts_words (P.names protocol.now) conflicts.now) }
{
    let mut out = String::new(alloc);
    for conflict in conflicts {
        let text = conflict_text(alloc, protocol, *conflict)?;
        out.push_str(text.as_str())?;
    }
    Ok(out)
}

/// Whom the table names as blockers.
fn blockers_text(alloc: Global, blockers: &[Txn]) -> Result<String, Memory>
    ensures { IfOk result (λ text. string_bytes text ≡ blockers_words blockers.now) }
{
    if blockers.is_empty() {
        return String::from_str(alloc, "The table has no blockers.");
    }
    let blockers = txns_text(alloc, blockers)?;
    format!(in alloc; "The table's blockers: {blockers}.")
}

/// Which of the named blockers aren't in the way, and whom the table names.
fn misnamed_text(alloc: Global, misnamed: &[Txn], blockers: &[Txn]) -> Result<String, Memory>
    ensures { IfOk result (λ text. string_bytes text ≡ misnamed_words misnamed.now blockers.now) }
{
    let misnamed = txns_text(alloc, misnamed)?;
    let blockers = blockers_text(alloc, blockers)?;
    format!(in alloc; ", and no conflicting lock or wait of {misnamed} explains that. {blockers}")
}

/// Why a transaction may not take a step.
fn reason(refusal: Refusal) -> &'static str
    ensures { result.now ≡ reason_words refusal }
{
    match refusal {
        Refusal::Ended => "it has ended",
        Refusal::Busy => "its scan is in progress",
        Refusal::NoScan => "it has no scan in progress",
        Refusal::BadRange => "the lower end of the range is above the upper end",
        Refusal::Full => "64 transactions are active",
        Refusal::Memory => "memory ran out",
        Refusal::NoUpdate => "the table offers no updates",
        Refusal::RollingBack => "it rolls back",
        Refusal::NothingLeft => "it has no change left",
    }
}

/// How a step of this transaction differs from what the table answers.
fn kind_text<P: Protocol>(
    alloc: Global,
    protocol: &P,
    txn: Txn,
    kind: &DeviationKind,
) -> Result<String, Memory>
    ensures { IfOk result (λ text. string_bytes text ≡ kind_words (P.names protocol.now) txn kind.now) }
{
    match kind {
        DeviationKind::Granted {
            blockers: _,
            conflicts,
        } => {
            let locks = conflicts_text(alloc, protocol, conflicts.as_slice())?;
            format!(in alloc; ", and the table blocks it.{locks}")
        }
        DeviationKind::Blocked(reply) => {
            let reply = answer_text(alloc, reply)?;
            format!(in alloc; ", and the table grants it with the answer {reply}.")
        }
        DeviationKind::Blockers { misnamed, blockers } => {
            misnamed_text(alloc, misnamed.as_slice(), blockers.as_slice())
        }
        DeviationKind::Answer(reply) => {
            let reply = answer_text(alloc, reply)?;
            format!(in alloc; ", and the table's answer is {reply}.")
        }
        DeviationKind::Refused(refusal) => {
            let reason = reason(*refusal);
            format!(in alloc; ", and T{txn} may not take this step: {reason}.")
        }
    }
}

/// What the engine answered to a step, and how it differs from what the table answers. The error is memory alone.
#[tactic(auto, unfolding(crate::specs::Deviations::deviation_words))]
pub(crate) fn deviation_text<P: Protocol>(
    alloc: Global,
    protocol: &P,
    step: &LoggedStep,
    kind: &DeviationKind,
) -> Result<String, Memory>
    ensures { IfOk result (λ text. string_bytes text ≡ deviation_words (P.names protocol.now) step.now kind.now) }
{
    let answered = answered_text(alloc, step)?;
    let differs = kind_text(alloc, protocol, step.event.txn, kind)?;
    format!(in alloc; "{answered}{differs}")
}
