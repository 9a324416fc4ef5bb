//! Whether the answers of a part are serializable, in a sentence.
ghost use Rattle.std.specs.Prelude.{◌≡◌, IfOk, string_bytes};
ghost use Rattle.kr_trace_text.specs.Verdicts.{answers_words, verdict_words, wrong_words};

use crate::answered::observed_text;
use kr_explain_text::{answer_text, txns_text};
use kr_model::{Memory, Reply, Txn};
use kr_trace_lines::{Observed, TraceVerdict};
use std::alloc::Global;

/// An answer, and the serial one.
fn answers_text(alloc: Global, given: &Observed, serial: &Reply) -> Result<String, Memory>
    ensures { IfOk result (λ text. string_bytes text ≡ answers_words given.now serial.now) }
{
    let given = observed_text(alloc, given)?;
    let serial = answer_text(alloc, serial)?;
    format!(in alloc; " was answered {given}; run serially it is answered {serial}.")
}

/// The first answer that isn't the serial one.
fn wrong_text(
    alloc: Global,
    txn: Txn,
    operation: u64,
    given: &Observed,
    serial: &Reply,
) -> Result<String, Memory>
    ensures { IfOk result (λ text. string_bytes text ≡ wrong_words txn operation given.now serial.now) }
{
    let answers = answers_text(alloc, given, serial)?;
    format!(in alloc; "Not serializable in commit order: operation {operation} of T{txn}{answers}")
}

/// Whether the answers of a part are serializable, as a sentence: in commit order, or in which order; or the first answer that
/// isn't the serial one, in commit order; or that it isn't known. The error is memory alone.
pub fn verdict_text(alloc: Global, verdict: &TraceVerdict) -> Result<String, Memory>
    ensures { IfOk result (λ text. string_bytes text ≡ verdict_words verdict.now) }
{
    match verdict {
        TraceVerdict::Serial => String::from_str(alloc, "Serializable in commit order."),
        TraceVerdict::SerialInOrder(txns) => {
            let txns = txns_text(alloc, txns.as_slice())?;
            format!(in alloc; "Serializable in the order {txns}.")
        }
        TraceVerdict::NotSerial {
            txn,
            operation,
            given,
            serial,
        } => wrong_text(alloc, *txn, *operation, given, serial),
        TraceVerdict::Unknown => String::from_str(
            alloc,
            "Not serializable in commit order, and not tried in all others: they are too many.",
        ),
    }
}
