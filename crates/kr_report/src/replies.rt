//! Replies and verdicts, each written behind what a text has.
ghost use Rattle.std.specs.Prelude.{◌≡◌, ◌++◌, ◌∷◌, [], OnOk, string_bytes};
ghost use Rattle.serde_json.specs.Written.{compact_text};
ghost use Rattle.kr_report.specs.Report.{reply_data, replies_data, verdict_data};

use crate::writing::write_place;
use kr_judge::Verdict;
use kr_model::Reply;
use kr_script::{separator, write_reply};
use std::alloc::AllocError;

/// Writes an array of replies.
pub fn write_replies(out: &mut String, replies: &[Reply]) -> Result<(), AllocError>
    ensures { OnOk result (string_bytes out.new ≡ string_bytes out.old ++ compact_text (replies_data replies.now)) }
{
    out.push_str("[")?;
    let mut later = false;
    for reply in replies {
        out.push_str(separator(later))?;
        write_reply(out, reply)?;
        later = true;
    }
    out.push_str("]")
}

/// Writes two replies with a comma between, and the closing bracket.
fn write_both(out: &mut String, given: &Reply, serial: &Reply) -> Result<(), AllocError>
    ensures { OnOk result (string_bytes out.new ≡ string_bytes out.old
        ++ (compact_text (reply_data given.now) ++ 44 ∷ (compact_text (reply_data serial.now) ++ 93 ∷ []))) }
{
    write_reply(out, given)?;
    out.push_str(",")?;
    write_reply(out, serial)?;
    out.push_str("]")
}

/// Writes a verdict.
#[tactic(auto, unfolding(serde_json::proofs::OnLiterals::serde_json_on_literals))]
pub fn write_verdict(out: &mut String, verdict: &Verdict) -> Result<(), AllocError>
    ensures { OnOk result (string_bytes out.new ≡ string_bytes out.old ++ compact_text (verdict_data verdict.now)) }
{
    match verdict {
        Verdict::Serial => out.push_str(r#"["serial"]"#),
        Verdict::NotSerial {
            txn,
            operation,
            given,
            serial,
        } => {
            write_place(out, r#"["not-serial","#, *txn, *operation)?;
            write_both(out, given, serial)
        }
    }
}
