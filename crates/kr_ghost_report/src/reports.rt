//! The report of a run.
ghost use Rattle.std.specs.Prelude.{◌≡◌, IfOk, string_bytes};
ghost use Rattle.kr_ghost_report.specs.RunReport.{ghost_run_text};

use crate::answers::{write_answers, write_ghosts};
use kr_ghost_run::{Answer, GhostPlayed, GhostRan};
use kr_judge::Verdict;
use kr_model::{Mode, Name, Txn};
use kr_protocol::Protocol;
use kr_report::{write_locks, write_verdict};
use kr_script::{write_numbers, write_pairs};
use std::alloc::{AllocError, Global};

/// The report of a run with the verdict on it: compact JSON on one line, with no line feed. Its members are the ghosts, the index
/// and the locks at the end of the run, the answers to its moves, the transactions that are unfinished, and the verdict as it is
/// given. The error is memory alone.
pub fn report_ghost_run<P: Protocol>(
    alloc: Global,
    protocol: &P,
    ran: &GhostRan,
    verdict: &Verdict,
) -> Result<String, AllocError>
    ensures text { IfOk result (λ text. string_bytes text
        ≡ ghost_run_text (P.names protocol.now) ran.now.ghosts ran.now.index ran.now.locks ran.now.answers ran.now.unfinished verdict.now) }
{
    report_parts(
        alloc,
        protocol,
        ran.ghosts.as_slice(),
        ran.index.as_slice(),
        ran.locks.as_slice(),
        ran.answers.as_slice(),
        ran.unfinished.as_slice(),
        verdict,
    )
}

/// The same report of a run whose programs weren't kept, with a verdict that is known without them.
pub fn report_ghost_played<P: Protocol>(
    alloc: Global,
    protocol: &P,
    played: &GhostPlayed,
    verdict: &Verdict,
) -> Result<String, AllocError>
    ensures text { IfOk result (λ text. string_bytes text
        ≡ ghost_run_text (P.names protocol.now) played.now.ghosts played.now.index played.now.locks played.now.answers played.now.unfinished verdict.now) }
{
    report_parts(
        alloc,
        protocol,
        played.ghosts.as_slice(),
        played.index.as_slice(),
        played.locks.as_slice(),
        played.answers.as_slice(),
        played.unfinished.as_slice(),
        verdict,
    )
}

/// The report with these members.
fn report_parts<P: Protocol>(
    alloc: Global,
    protocol: &P,
    ghosts: &[u64],
    index: &[(u64, u64)],
    locks: &[((Name, Txn), Mode)],
    answers: &[Answer],
    unfinished: &[Txn],
    verdict: &Verdict,
) -> Result<String, AllocError>
    ensures text { IfOk result (λ text. string_bytes text
        ≡ ghost_run_text (P.names protocol.now) ghosts.now index.now locks.now answers.now unfinished.now verdict.now) }
{
    let mut out = String::new(alloc);
    out.push_str(r#"{"ghosts":"#)?;
    write_ghosts(&mut out, ghosts)?;
    out.push_str(r#","index":"#)?;
    write_pairs(&mut out, index)?;
    out.push_str(r#","locks":"#)?;
    write_locks(alloc, protocol, &mut out, locks)?;
    out.push_str(r#","replies":"#)?;
    write_answers(&mut out, answers)?;
    out.push_str(r#","unfinished":"#)?;
    write_numbers(&mut out, unfinished)?;
    out.push_str(r#","verdict":"#)?;
    write_verdict(&mut out, verdict)?;
    out.push_str("}")?;
    Ok(out)
}
