//! Verdicts on scripts whose texts are found by their names, one by one.
ghost use Rattle.std.specs.Prelude.{◌≡◌, ◌++◌, ◌∷◌, ◌⊎◌, ℕ, List, Option, Some, None, Ok, Err, IfOk, IfErr, IsTrue, Result, length, map};
ghost use Rattle.kr_model.specs.Covers.{IsCovered};
ghost use Rattle.kr_judge.specs.declared.verdict.Verdict.{Verdict};
ghost use Rattle.kr_judge.specs.Verdicts.{verdict_of_run};
ghost use Rattle.kr_script.specs.Script.{Script};
ghost use Rattle.kr_script.specs.declared.faults.ScriptFault.TheVariants as script_fault;
ghost use Rattle.kr_batch.specs.Names.{AreNamed, ExplainsNames, Judges, judge_fault_at, unjudged_for};
ghost use Rattle.kr_batch.specs.declared.named.TextFault.TheVariants as text_fault;
ghost use Rattle.kr_batch.specs.declared.named.Unjudged.{Unjudged};
ghost use Rattle.kr_batch.specs.declared.named.Unjudged.TheVariants as unjudged;
ghost use Rattle.kr_batch.specs.declared.named.JudgeFault.TheVariants as fault;

use crate::judging::verdict_on;
use kr_cases::check;
use kr_protocol::Protocol;
use kr_script::{ScriptFault, read_script};
use kr_serial::Verdict;
use rayon::prelude::*;
use std::alloc::{AllocError, Global};
use std::thread::Threads;
use thiserror::Error;

/// Why a name's text isn't had.
#[derive(Clone, Copy, Debug, PartialEq, Eq)]
pub enum TextFault {
    /// The name stands for no text, or not all of it can be had.
    Unreadable,
    /// A growth was refused.
    Memory,
}

/// Texts that names stand for.
pub trait Texts {
    /// Whether this text may be found at a name, or none.
    ghost may_be: { Self → List ℕ → Option (List ℕ) → Type 0 };

    /// The text that a name stands for, whole. It may be another at each call.
    fn text(&self, alloc: Global, name: &str) -> Result<Vec<u8>, TextFault>
        ensures found { IfOk result (λ text. may_be self.now name.now (Some text.items)) }
        ensures none { IfErr result (λ e. (e ≡ text_fault.Unreadable) → may_be self.now name.now None) };
}

/// Why there is no verdict on a name's text.
#[derive(Drop)]
enum Unjudged {
    /// There is no text.
    Unreadable,
    /// It is no script, or a growth was refused.
    Script(ScriptFault),
}

impl From<TextFault> for Unjudged {
    ghost from_gives = { λ f e. e ≡ unjudged_for f };

    fn from(fault: TextFault) -> Unjudged {
        match fault {
            TextFault::Unreadable => Unjudged::Unreadable,
            TextFault::Memory => Unjudged::Script(ScriptFault::Memory),
        }
    }
}

impl From<ScriptFault> for Unjudged {
    ghost from_gives = { λ f e. e ≡ unjudged.Script f };

    fn from(fault: ScriptFault) -> Unjudged {
        Unjudged::Script(fault)
    }
}

impl From<AllocError> for Unjudged {
    ghost from_gives = { λ _ e. e ≡ unjudged.Script script_fault.Memory };

    fn from(_e: AllocError) -> Unjudged {
        Unjudged::Script(ScriptFault::Memory)
    }
}

/// Why there are no verdicts on the texts of names.
#[derive(Debug, Drop, Error)]
pub enum JudgeFault {
    /// The name at this place, from 0, is the first that stands for no script, and its text isn't had.
    #[error("text {0} can't be read")]
    Unreadable(usize),
    /// The name at this place is the first that stands for no script, and its text has this fault.
    #[error("text {0}: {1}")]
    Script(usize, ScriptFault),
    /// A growth was refused.
    #[error("out of memory")]
    Memory,
}

impl From<AllocError> for JudgeFault {
    ghost from_gives = { λ _ e. e ≡ fault.Memory };

    fn from(_e: AllocError) -> JudgeFault {
        JudgeFault::Memory
    }
}

fn judge_fault_at(at: usize, unjudged: Unjudged) -> JudgeFault
    ensures { result ≡ judge_fault_at at unjudged }
{
    match unjudged {
        Unjudged::Unreadable => JudgeFault::Unreadable(at),
        Unjudged::Script(ScriptFault::Memory) => JudgeFault::Memory,
        Unjudged::Script(fault) => JudgeFault::Script(at, fault),
    }
}

/// The verdicts, or the first fault.
fn verdicts_or_first(
    alloc: Global,
    judged: Vec<Result<Verdict, Unjudged>>,
) -> Result<Vec<Verdict>, JudgeFault>
    ensures ok { IfOk result (λ verdicts. judged.items ≡ map Ok verdicts.items) }
    ensures err { IfErr result (λ e. (e ≡ fault.Memory)
        ⊎ ((u : Unjudged) × (before : List Verdict) × (rest : List (Result Verdict Unjudged))
        × (e ≡ judge_fault_at (length before) u) × (judged.items ≡ map Ok before ++ Err u ∷ rest))) }
{
    let mut verdicts = Vec::with_capacity(alloc, judged.len())?;
    for result in judged {
        match result {
            Ok(verdict) => {
                if verdicts.push(verdict).is_err() {
                    return Err(JudgeFault::Memory);
                }
            }
            Err(unjudged) => return Err(judge_fault_at(verdicts.len(), unjudged)),
        }
    }
    Ok(verdicts)
}

/// The verdict on the run of the script that a name stands for, of which nothing is kept. Under a covered protocol the run is
/// serializable by the main theorem, and isn't made.
fn verdict_on_text<P: Protocol, T: Texts>(
    alloc: Global,
    protocol: &P,
    is_covered: bool,
    texts: &T,
    name: &str,
) -> Result<Verdict, Unjudged>
    ensures { (IsTrue is_covered → IsCovered (P.table protocol.now)) → Judges (P.table protocol.now) (T.may_be texts.now) name.now result }
{
    let text = texts.text(alloc, name)?;
    let script = read_script(alloc, text.as_slice())?;
    if is_covered {
        return Ok(Verdict::Serial);
    }
    drop(text);
    let verdict = verdict_on(alloc, protocol, &script)?;
    Ok(verdict)
}

/// The verdicts on the runs of the scripts that names stand for, under a protocol and in the order of the names: the list
/// that one thread gives which judges one after another; or the first fault in that order. The names are shared out by
/// their number, in pieces of neighbours, two pieces for each processor, and each piece has a thread of its own, which for
/// each of its names has the text, reads it, judges the script, and lets both go. Under a covered protocol each run is
/// serializable by the main theorem, so scripts are read there and not run. After a fault the other names are gone over all the
/// same. Want of memory is told where it comes before all other faults, or where the list of verdicts itself can't grow.
pub fn judge_texts<P: Protocol + Sync, T: Texts + Sync>(
    rt: &(impl Threads + Sync),
    alloc: Global,
    protocol: &P,
    texts: &T,
    names: &[&str],
) -> Result<Vec<Verdict>, JudgeFault>
    ensures ok { IfOk result (λ verdicts. (ss : List Script) × (AreNamed (T.may_be texts.now) (map (λ n. n.now) names.now) ss
        × (verdicts.items ≡ map (λ s. verdict_of_run (P.table protocol.now) s.opening s.steps) ss))) }
    ensures err { IfErr result (ExplainsNames (T.may_be texts.now) (map (λ n. n.now) names.now)) }
{
    let is_covered = check(alloc, protocol).is_ok();
    // A script may have as many as 100,000 steps, so that one is worth a thread.
    let judged: Vec<Result<Verdict, Unjudged>> = names
        .par_iter()
        .with_min_len(1)
        .map(
            |name: &&str| -> Result<Verdict, Unjudged>
                ensures { (IsTrue is_covered → IsCovered (P.table protocol.entry.now))
                    → Judges (P.table protocol.entry.now) (T.may_be texts.entry.now) name.now.now result }
            { verdict_on_text(alloc, protocol, is_covered, texts, name) },
        )
        .collect(rt, alloc)?;
    verdicts_or_first(alloc, judged)
}
