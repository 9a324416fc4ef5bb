//! The reports of runs and of verdicts, as JSON on one line.
ghost use Rattle.std.specs.Prelude.{◌≡◌, IfOk, string_bytes};
ghost use Rattle.kr_report.specs.Report.{run_text, verdict_text};

use crate::replies::{write_replies, write_verdict};
use crate::writing::write_locks;
use kr_judge::{Played, Ran, Verdict};
use kr_model::{Mode, Name, Reply, Txn};
use kr_protocol::Protocol;
use kr_script::{quoted, write_numbers, write_pairs};
use std::alloc::{AllocError, Global};

/// The report of a run with the verdict on it: compact JSON on one line, with no line feed. Its members are the index and
/// the locks at the end of the run, the replies, the transactions that are unfinished, and the verdict as it is given. The
/// error is memory alone.
pub fn report_run<P: Protocol>(
    alloc: Global,
    protocol: &P,
    ran: &Ran,
    verdict: &Verdict,
) -> Result<String, AllocError>
    ensures text { IfOk result (λ text. string_bytes text
        ≡ run_text (P.names protocol.now) ran.now.index ran.now.locks ran.now.replies ran.now.unfinished verdict.now) }
{
    report_parts(
        alloc,
        protocol,
        ran.index.as_slice(),
        ran.locks.as_slice(),
        ran.replies.as_slice(),
        ran.unfinished.as_slice(),
        verdict,
    )
}

/// The same report of a run whose programs weren't kept, with a verdict that is known without them.
pub fn report_played<P: Protocol>(
    alloc: Global,
    protocol: &P,
    played: &Played,
    verdict: &Verdict,
) -> Result<String, AllocError>
    ensures text { IfOk result (λ text. string_bytes text
        ≡ run_text (P.names protocol.now) played.now.index played.now.locks played.now.replies played.now.unfinished verdict.now) }
{
    report_parts(
        alloc,
        protocol,
        played.index.as_slice(),
        played.locks.as_slice(),
        played.replies.as_slice(),
        played.unfinished.as_slice(),
        verdict,
    )
}

/// The report with these members.
fn report_parts<P: Protocol>(
    alloc: Global,
    protocol: &P,
    index: &[(u64, u64)],
    locks: &[((Name, Txn), Mode)],
    replies: &[Reply],
    unfinished: &[Txn],
    verdict: &Verdict,
) -> Result<String, AllocError>
    ensures text { IfOk result (λ text. string_bytes text
        ≡ run_text (P.names protocol.now) index.now locks.now replies.now unfinished.now verdict.now) }
{
    let mut out = String::new(alloc);
    out.push_str(r#"{"index":"#)?;
    write_pairs(&mut out, index)?;
    out.push_str(r#","locks":"#)?;
    write_locks(alloc, protocol, &mut out, locks)?;
    out.push_str(r#","replies":"#)?;
    write_replies(&mut out, replies)?;
    out.push_str(r#","unfinished":"#)?;
    write_numbers(&mut out, unfinished)?;
    out.push_str(r#","verdict":"#)?;
    write_verdict(&mut out, verdict)?;
    out.push_str("}")?;
    Ok(out)
}

/// The report of a verdict on the script of this name: compact JSON on one line, with no line feed. Its members are the
/// name as it is given, and the verdict. The error is memory alone.
pub fn report_verdict(alloc: Global, script: &str, verdict: &Verdict) -> Result<String, AllocError>
    ensures text { IfOk result (λ text. string_bytes text ≡ verdict_text script.now verdict.now) }
{
    let mut out = String::new(alloc);
    let name = quoted(alloc, script)?;
    out.push_str(r#"{"script":"#)?;
    out.push_str(name.as_str())?;
    out.push_str(r#","verdict":"#)?;
    write_verdict(&mut out, verdict)?;
    out.push_str("}")?;
    Ok(out)
}
