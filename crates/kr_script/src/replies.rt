//! Replies and their parts, each written behind what a text has.
ghost use Rattle.std.specs.Prelude.{◌≡◌, ◌++◌, codes, IfOk, OnOk, string_bytes};
ghost use Rattle.serde_json.specs.Data.{string};
ghost use Rattle.serde_json.specs.Written.{compact_text};
ghost use Rattle.kr_model.specs.declared.Reply.TheVariants as reply;
ghost use Rattle.kr_script.specs.Replies.{name_data, numbers_data, refusal_name, reply_data};

use crate::writing::{separator, write_number, write_pairs, write_with_number};
use kr_model::{Name, Refusal, Reply, Txn, refusal_number};
use serde_json::Value;
use std::alloc::{AllocError, Global};

/// Writes an array of transactions' numbers behind what the text has. At `Err` memory ran out, and the text may have a part
/// of it.
pub fn write_numbers(out: &mut String, numbers: &[Txn]) -> Result<(), AllocError>
    ensures { OnOk result (string_bytes out.new ≡ string_bytes out.old ++ compact_text (numbers_data numbers.now)) }
{
    out.push_str("[")?;
    let mut later = false;
    for number in numbers {
        out.push_str(separator(later))?;
        write_number(out, u64::from(*number))?;
        later = true;
    }
    out.push_str("]")
}

/// Writes the beginning of an array, an array of transactions' numbers and the closing bracket behind what the text has. At
/// `Err` memory ran out, and the text may have a part of it.
pub fn write_with_numbers(
    out: &mut String,
    beginning: &str,
    numbers: &[Txn],
) -> Result<(), AllocError>
    ensures { OnOk result (string_bytes out.new
        ≡ string_bytes out.old ++ (beginning.now ++ (compact_text (numbers_data numbers.now) ++ codes "]"))) }
{
    out.push_str(beginning)?;
    write_numbers(out, numbers)?;
    out.push_str("]")
}

/// Writes the name of a lock behind what the text has. At `Err` memory ran out, and the text may have a part of it.
#[tactic(auto, unfolding(serde_json::proofs::OnLiterals::serde_json_on_literals))]
pub fn write_name(out: &mut String, name: Name) -> Result<(), AllocError>
    ensures { OnOk result (string_bytes out.new ≡ string_bytes out.old ++ compact_text (name_data name)) }
{
    match name {
        Name::Key(key) => write_number(out, key),
        Name::End => out.push_str(r#""End""#),
    }
}

/// A text in quotes, with escapes where JSON wants them. The error is memory alone.
pub fn quoted(alloc: Global, text: &str) -> Result<String, AllocError>
    ensures { IfOk result (λ written. string_bytes written ≡ compact_text (string text.now)) }
{
    Value::try_from_str(alloc, text)?.to_string(alloc)
}

/// The name of a refusal in its quotes.
#[tactic(auto, unfolding(serde_json::proofs::OnLiterals::serde_json_on_literals))]
fn quoted_refusal(refusal: Refusal) -> &'static str
    ensures { result.now ≡ compact_text (string (refusal_name refusal)) }
{
    match refusal {
        Refusal::Ended => r#""Ended""#,
        Refusal::Busy => r#""Busy""#,
        Refusal::NoScan => r#""NoScan""#,
        Refusal::BadRange => r#""BadRange""#,
        Refusal::Full => r#""Full""#,
        Refusal::Memory => r#""Memory""#,
        Refusal::NoUpdate => r#""NoUpdate""#,
        Refusal::RollingBack => r#""RollingBack""#,
        Refusal::NothingLeft => r#""NothingLeft""#,
    }
}

#[tactic(auto, unfolding(serde_json::proofs::OnLiterals::serde_json_on_literals))]
fn write_refusal(out: &mut String, refusal: Refusal) -> Result<(), AllocError>
    ensures { OnOk result (string_bytes out.new ≡ string_bytes out.old ++ compact_text (reply_data (reply.Refused refusal))) }
{
    out.push_str(r#"["refused","#)?;
    write_number(out, u64::from(refusal_number(refusal)))?;
    out.push_str(",")?;
    out.push_str(quoted_refusal(refusal))?;
    out.push_str("]")
}

/// Writes a reply as reports have it behind what the text has. At `Err` memory ran out, and the text may have a part of it.
#[tactic(auto, unfolding(serde_json::proofs::OnLiterals::serde_json_on_literals))]
pub fn write_reply(out: &mut String, reply: &Reply) -> Result<(), AllocError>
    ensures { OnOk result (string_bytes out.new ≡ string_bytes out.old ++ compact_text (reply_data reply.now)) }
{
    match reply {
        Reply::Found(value) => write_with_number(out, r#"["found","#, *value),
        Reply::None => out.push_str(r#"["none"]"#),
        Reply::Going(key) => write_with_number(out, r#"["going","#, *key),
        Reply::Rows(rows) => {
            out.push_str(r#"["rows","#)?;
            write_pairs(out, rows.as_slice())?;
            out.push_str("]")
        }
        Reply::Done => out.push_str(r#"["done"]"#),
        Reply::Duplicate => out.push_str(r#"["duplicate"]"#),
        Reply::Deleted(value) => write_with_number(out, r#"["deleted","#, *value),
        Reply::Absent => out.push_str(r#"["absent"]"#),
        Reply::Updated(value) => write_with_number(out, r#"["updated","#, *value),
        Reply::Committed => out.push_str(r#"["committed"]"#),
        Reply::Aborted => out.push_str(r#"["aborted"]"#),
        Reply::Undone(left) => write_with_number(out, r#"["undone","#, *left),
        Reply::Blocked(txns) => write_with_numbers(out, r#"["blocked","#, txns.as_slice()),
        Reply::Refused(refusal) => write_refusal(out, *refusal),
    }
}
