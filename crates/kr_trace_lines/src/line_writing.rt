//! The line of a step with its reply.
ghost use Rattle.std.specs.Prelude.{◌≡◌, ◌<◌, ◌^◌, ◌++◌, All, IfOk, Ok, OnOk, string_bytes, true};
ghost use Rattle.serde_json.specs.Written.{compact_text};
ghost use Rattle.kr_trace_lines.specs.Lines.{step};
ghost use Rattle.kr_trace_lines.specs.Reading.{reading_line};
ghost use Rattle.kr_trace_lines.specs.Steps.{ObservedFits, ToldFits, TxnFits, can_have, step_data, step_text};

use crate::Observed;
use crate::observed_writing::write_observed;
use kr_model::{Event, Txn};
use kr_script::{lemma_event_fits, lemma_pairs_fit, write_step};
use std::alloc::{AllocError, Global};

fn lemma_txn_fits(txn: Txn)
    ensures { TxnFits txn }
{
    let _number = txn;
}

fn lemma_number_fits(number: u64)
    ensures { number < 2 ^ 64 }
{
    let _number = number;
}

fn lemma_told_fits(told: Option<u64>)
    ensures { ToldFits told }
{
    match told {
        Some(_number) => {}
        None => {}
    }
}

/// Says of each transaction that its number fits its type.
fn lemma_txns_fit(txns: &[Txn])
    ensures { All TxnFits txns.now }
{
    for txn in txns {
        lemma_txn_fits(*txn);
    }
}

/// Says of a reply that its numbers fit their types.
fn lemma_observed_fits(observed: &Observed)
    ensures { ObservedFits observed.now }
{
    match observed {
        Observed::Found(number) | Observed::Going(number) => lemma_number_fits(*number),
        Observed::Rows(rows) => lemma_pairs_fit(rows.as_slice()),
        Observed::Deleted(told) | Observed::Updated(told) | Observed::Undone(told) => {
            lemma_told_fits(*told);
        }
        Observed::Blocked(txns) => lemma_txns_fit(txns.as_slice()),
        Observed::None | Observed::Done | Observed::Duplicate | Observed::Absent => {}
        Observed::Committed | Observed::Aborted => {}
    }
}

/// Writes a step with its reply.
#[tactic(auto, unfolding(serde_json::proofs::OnLiterals::serde_json_on_literals))]
fn write_both(out: &mut String, event: Event, observed: &Observed) -> Result<(), AllocError>
    ensures { OnOk result (string_bytes out.new ≡ string_bytes out.old ++ compact_text (step_data event observed.now)) }
{
    out.push_str("[")?;
    write_step(out, event)?;
    out.push_str(",")?;
    write_observed(out, observed)?;
    out.push_str("]")
}

/// The line of a step with its reply: compact JSON with no line feed. Where a step of this operation can have this reply, the
/// line reads as the step with the reply. The error is memory alone.
pub fn write_line(alloc: Global, event: Event, observed: &Observed) -> Result<String, AllocError>
    ensures text { IfOk result (λ line. string_bytes line ≡ step_text event observed.now) }
    ensures reads { IfOk result (λ line. can_have event.op observed.now ≡ true
        → reading_line (string_bytes line) ≡ Ok (step event observed.now)) }
{
    lemma_event_fits(event);
    lemma_observed_fits(observed);
    let mut out = String::new(alloc);
    write_both(&mut out, event, observed)?;
    Ok(out)
}
