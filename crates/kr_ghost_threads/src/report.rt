//! The report of a run with ghosts in several threads, as JSON on one line.
ghost use Rattle.std.specs.Prelude.{◌≡◌, ◌++◌, [], IfOk, OnOk, string_bytes};
ghost use Rattle.serde_json.specs.Written.{compact_text};
ghost use Rattle.kr_ghost_threads.specs.Report.{move_data, made_data, history_data, ghost_threads_text};

use crate::{GhostThreaded, Made};
use kr_ghost::Move;
use kr_ghost_report::{write_answer, write_ghosts};
use kr_judge::Verdict;
use kr_report::{write_faults, write_verdict};
use kr_script::{separator, write_number, write_pairs, write_step};
use std::alloc::{AllocError, Global};

/// Writes a move.
#[tactic(auto, unfolding(serde_json::proofs::OnLiterals::serde_json_on_literals))]
fn write_move(out: &mut String, next: Move) -> Result<(), AllocError>
    ensures { OnOk result (string_bytes out.new ≡ string_bytes out.old ++ compact_text (move_data next)) }
{
    match next {
        Move::Attempt(event) => write_step(out, event),
        Move::Purge(key) => {
            out.push_str(r#"["purge","#)?;
            write_number(out, key)?;
            out.push_str("]")
        }
    }
}

/// Writes a move that was made, with the answer to it.
#[tactic(auto, unfolding(serde_json::proofs::OnLiterals::serde_json_on_literals))]
fn write_made(out: &mut String, made: &Made) -> Result<(), AllocError>
    ensures { OnOk result (string_bytes out.new ≡ string_bytes out.old ++ compact_text (made_data made.now)) }
{
    out.push_str("[")?;
    write_move(out, made.next)?;
    out.push_str(",")?;
    write_answer(out, &made.answer)?;
    out.push_str("]")
}

/// Writes the moves that were made, with the answers to them.
fn write_history(out: &mut String, history: &[Made]) -> Result<(), AllocError>
    ensures { OnOk result (string_bytes out.new ≡ string_bytes out.old ++ compact_text (history_data history.now)) }
{
    out.push_str("[")?;
    let mut later = false;
    for made in history {
        out.push_str(separator(later))?;
        write_made(out, made)?;
        later = true;
    }
    out.push_str("]")
}

/// Writes the report of a run with ghosts in several threads, with the verdict on it.
fn write_ghost_threads(
    out: &mut String,
    threaded: &GhostThreaded,
    verdict: &Verdict,
) -> Result<(), AllocError>
    ensures { OnOk result (string_bytes out.new ≡ string_bytes out.old ++ ghost_threads_text threaded.now.faults.items threaded.now.ghosts
        threaded.now.history.items threaded.now.index [] verdict.now) }
{
    out.push_str(r#"{"faults":"#)?;
    write_faults(out, &threaded.faults)?;
    out.push_str(r#","ghosts":"#)?;
    write_ghosts(out, threaded.ghosts.as_slice())?;
    out.push_str(r#","history":"#)?;
    write_history(out, &threaded.history)?;
    out.push_str(r#","index":"#)?;
    write_pairs(out, threaded.index.as_slice())?;
    out.push_str(r#","unfinished":[],"verdict":"#)?;
    write_verdict(out, verdict)?;
    out.push_str("}")?;
    Ok(())
}

/// The report of a run with ghosts in several threads, with the verdict on it: compact JSON on one line, with no line feed. Its
/// members are the steps that weren't done, the ghosts at the end of the run, the moves that were made with the answers to them,
/// the index at the end, the transactions that are unfinished there, which are none, and the verdict as it is given. The error is
/// memory alone.
pub fn report_ghost_threads(
    alloc: Global,
    threaded: &GhostThreaded,
    verdict: &Verdict,
) -> Result<String, AllocError>
    ensures text { IfOk result (λ text. string_bytes text ≡ ghost_threads_text threaded.now.faults.items threaded.now.ghosts
        threaded.now.history.items threaded.now.index [] verdict.now) }
{
    let mut out = String::new(alloc);
    write_ghost_threads(&mut out, threaded, verdict)?;
    Ok(out)
}
