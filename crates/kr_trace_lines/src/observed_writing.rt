//! Replies as an engine writes them, each written behind what a text has.
ghost use Rattle.std.specs.Prelude.{◌≡◌, ◌++◌, OnOk, string_bytes};
ghost use Rattle.serde_json.specs.Written.{compact_text};
ghost use Rattle.kr_trace_lines.specs.Replies.{blocked_data, observed_data, told_text};

use crate::Observed;
use kr_model::Txn;
use kr_script::{write_pairs, write_with_number, write_with_numbers};
use std::alloc::AllocError;

/// Writes the beginning of an array, and behind it the number that is told, if one is.
fn write_if_told(out: &mut String, beginning: &str, number: Option<u64>) -> Result<(), AllocError>
    ensures { OnOk result (string_bytes out.new ≡ string_bytes out.old ++ (beginning.now ++ told_text number)) }
{
    out.push_str(beginning)?;
    match number {
        Some(number) => write_with_number(out, ",", number),
        None => out.push_str("]"),
    }
}

/// Writes the word of a blocked step, and behind it those that the engine names.
#[tactic(auto, unfolding(serde_json::proofs::OnLiterals::serde_json_on_literals))]
fn write_blocked(out: &mut String, txns: &[Txn]) -> Result<(), AllocError>
    ensures { OnOk result (string_bytes out.new ≡ string_bytes out.old ++ compact_text (blocked_data txns.now)) }
{
    if txns.is_empty() {
        out.push_str(r#"["blocked"]"#)
    } else {
        write_with_numbers(out, r#"["blocked","#, txns)
    }
}

/// Writes a reply as an engine writes it behind what the text has. At `Err` memory ran out, and the text may have a part of
/// it.
#[tactic(auto, unfolding(serde_json::proofs::OnLiterals::serde_json_on_literals))]
pub fn write_observed(out: &mut String, observed: &Observed) -> Result<(), AllocError>
    ensures { OnOk result (string_bytes out.new ≡ string_bytes out.old ++ compact_text (observed_data observed.now)) }
{
    match observed {
        Observed::Found(value) => write_with_number(out, r#"["found","#, *value),
        Observed::None => out.push_str(r#"["none"]"#),
        Observed::Going(key) => write_with_number(out, r#"["going","#, *key),
        Observed::Rows(rows) => {
            out.push_str(r#"["rows","#)?;
            write_pairs(out, rows.as_slice())?;
            out.push_str("]")
        }
        Observed::Done => out.push_str(r#"["done"]"#),
        Observed::Duplicate => out.push_str(r#"["duplicate"]"#),
        Observed::Deleted(value) => write_if_told(out, r#"["deleted""#, *value),
        Observed::Absent => out.push_str(r#"["absent"]"#),
        Observed::Updated(value) => write_if_told(out, r#"["updated""#, *value),
        Observed::Undone(left) => write_if_told(out, r#"["undone""#, *left),
        Observed::Committed => out.push_str(r#"["committed"]"#),
        Observed::Aborted => out.push_str(r#"["aborted"]"#),
        Observed::Blocked(txns) => write_blocked(out, txns.as_slice()),
    }
}
