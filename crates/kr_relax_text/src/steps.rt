//! The last step of a script, beside the steps of the other transactions.
ghost use Rattle.std.specs.Prelude.{◌≡◌, IfOk, string_bytes};
ghost use Rattle.kr_relax_text.specs.Steps.{beside_word, last_words, others_words, step_words};

use kr_explain_text::op_text;
use kr_model::{Event, Memory, Txn};
use std::alloc::Global;

/// A step: its transaction, and what it does.
#[tactic(auto, unfolding(crate::specs::Steps::step_words))]
fn step_text(alloc: Global, event: Event) -> Result<String, Memory>
    ensures { IfOk result (λ text. string_bytes text ≡ step_words event) }
{
    let txn = event.txn;
    let op = op_text(alloc, event.op)?;
    format!(in alloc; "T{txn}'s {op}")
}

/// A step of another transaction.
#[tactic(auto, unfolding(crate::specs::Steps::beside_word))]
fn beside_text(alloc: Global, txn: Txn, event: Event) -> Result<String, Memory>
    ensures { IfOk result (λ text. string_bytes text ≡ beside_word txn event) }
{
    if event.txn == txn {
        return Ok(String::new(alloc));
    }
    let step = step_text(alloc, event)?;
    format!(in alloc; " beside {step}")
}

/// The steps of other transactions, in their order.
fn others_text(alloc: Global, txn: Txn, events: &[Event]) -> Result<String, Memory>
    ensures { IfOk result (λ text. string_bytes text ≡ others_words txn events.now) }
{
    let mut out = String::new(alloc);
    for event in events {
        let text = beside_text(alloc, txn, *event)?;
        out.push_str(text.as_str())?;
    }
    Ok(out)
}

/// The last step of a script, beside those of the other transactions, in their order. It is empty where there is no step.
pub(crate) fn last_text(alloc: Global, events: &[Event]) -> Result<String, Memory>
    ensures { IfOk result (λ text. string_bytes text ≡ last_words events.now) }
{
    let Some(last) = events.last() else {
        return Ok(String::new(alloc));
    };
    let step = step_text(alloc, *last)?;
    let others = others_text(alloc, last.txn, events)?;
    format!(in alloc; "{step}{others}")
}
