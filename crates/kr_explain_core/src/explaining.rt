//! Explaining a table.
ghost use Rattle.std.specs.Prelude.{IfOk, IfSome, ◌≡◌, All, IsTrue};
ghost use Rattle.std.specs.List.Sorted.{IsPermutation};
ghost use Rattle.kr_explain_causes.specs.Mends.{AreMends, AreOfOneEntry};
ghost use Rattle.kr_explain_runs.specs.Comes.{IsClosureOf};
ghost use Rattle.kr_decide.specs.Survey.{IsSurvey};
ghost use Rattle.kr_explain_core.specs.Explained.{AreFailures, IsExplained, IsTold, causes_of};
ghost use Rattle.kr_explain_core.specs.Telling.{AreToldInOrder, AreWithin, IsUntold};

use crate::effort::Effort;
use crate::explanation::{Explained, Explanation, Failures};
use crate::harmless::{is_harmless, why_harmless};
use crate::told_run::{ToldRun, told_run};
use kr_cases::{Memory, WhyRejected, cases, check};
use kr_decide::{Survey, is_ordered};
use kr_explain_causes::{Blame, Cause, MOST_MENDED, Mend, causes, mends};
use kr_explain_runs::{Closure, Scenes};
use kr_model::FailedCase;
use kr_protocol::Protocol;
use std::alloc::{AllocError, Global};

/// What is known of a table before its causes are told.
#[derive(Clone, Copy)]
struct Known<'a> {
    survey: &'a Survey,
    closure: &'a Closure,
    scenes: &'a Scenes,
    /// All its failed cases.
    failed: &'a [FailedCase],
    /// What may be tried for each cause.
    effort: Effort,
}

/// Has a table checked, and where it is rejected, says whether it is safe, and why cases of it fail: the failed cases put
/// together by what is to blame; for each cause why it is harmless, or else a run that goes wrong where one is known; and the
/// changes that mend it of those that are tried. How much is tried is bounded, and the explanation says what was left out.
/// The only fault is that a growth was refused.
pub fn explain<P: Protocol>(alloc: Global, protocol: &P) -> Result<Explanation, Memory>
    ensures { IfOk result (IsExplained (P.table protocol.now)) }
{
    match check(alloc, protocol) {
        Ok(_) => Ok(Explanation::Accepted {
            cases: cases(protocol.count(), protocol.updates()),
        }),
        Err(rejected) => match rejected.cause {
            WhyRejected::Failed(failed) => {
                let failures = failures(alloc, protocol, &failed)?;
                if failures.survey.is_safe() {
                    Ok(Explanation::Safe(failures))
                } else {
                    Ok(Explanation::Rejected(failures))
                }
            }
            WhyRejected::Memory => Err(AllocError),
        },
    }
}

/// Why cases of a table fail, of which these do.
#[tactic(auto, using(crate::proofs::ToldCauses::same_shared, crate::proofs::ToldCauses::same_blamed))]
fn failures<P: Protocol>(
    alloc: Global,
    protocol: &P,
    failed: &[FailedCase],
) -> Result<Failures, Memory>
    ensures { IfOk result (AreFailures (P.table protocol.now) failed.now) }
{
    let survey = Survey::of(alloc, protocol)?;
    let causes = causes(alloc, protocol, failed)?;
    let causes = explained(alloc, protocol, &survey, failed, causes)?;
    Ok(Failures {
        cases: cases(protocol.count(), protocol.updates()),
        failed: failed.len(),
        is_ordered: is_ordered(protocol),
        survey,
        causes,
    })
}

/// What is known of each of the causes to which these failed cases of a table are shared out, in their order.
fn explained<P: Protocol>(
    alloc: Global,
    protocol: &P,
    survey: &Survey,
    failed: &[FailedCase],
    causes: Vec<Cause>,
) -> Result<Vec<Explained>, Memory>
    requires { IsSurvey (P.table protocol.now) survey.now }
    ensures causes { IfOk result (λ list. causes.items ≡ causes_of list.items) }
    ensures told { IfOk result (λ list. All (IsTold (P.table protocol.now) failed.now) list.items) }
{
    let closure = Closure::of(alloc, protocol)?;
    let scenes = Scenes::of(alloc, protocol)?;
    let known = Known {
        survey,
        closure: &closure,
        scenes: &scenes,
        failed,
        effort: Effort::of_each(harmful(survey, failed, &causes)),
    };
    let mut list = Vec::new(alloc);
    for cause in causes {
        let is_mended = list.len() < MOST_MENDED;
        let told = told(alloc, protocol, known, cause, is_mended)?;
        list.push(told)?;
    }
    Ok(list)
}

/// How many of the causes aren't harmless, where these are all failed cases.
fn harmful(survey: &Survey, failed: &[FailedCase], causes: &[Cause]) -> usize {
    let mut harmful: usize = 0;
    for cause in causes {
        if !is_harmless(survey, failed, &cause.cases) {
            harmful = harmful.saturating_add(1);
        }
    }
    harmful
}

/// What is told of a cause; the changes that mend it only where asked.
fn told<P: Protocol>(
    alloc: Global,
    protocol: &P,
    known: Known<'_>,
    cause: Cause,
    is_mended: bool,
) -> Result<Explained, Memory>
    requires survey { IsSurvey (P.table protocol.now) known.survey.now }
    requires closure { IsClosureOf (P.table protocol.now) known.closure.now }
    ensures told { IfOk result (IsTold (P.table protocol.now) known.entry.failed.now) }
    ensures cause { IfOk result (λ e. e.cause ≡ cause) }
    ensures within { IfOk result (λ e. AreWithin known.entry.effort known.entry.closure.now e.tried) }
{
    let harmless = why_harmless(protocol, known.survey, known.failed, &cause.cases);
    let told = sought(alloc, protocol, known, &cause, harmless.is_some())?;
    let mend = mend_of(alloc, protocol, known, &cause, is_mended)?;
    Ok(Explained {
        cause,
        harmless,
        run: told.run,
        runs: told.runs,
        tried: told.tried,
        is_reached: told.is_reached,
        mend,
    })
}

/// The changes that mend a cause, where they are wanted.
fn mend_of<P: Protocol>(
    alloc: Global,
    protocol: &P,
    known: Known<'_>,
    cause: &Cause,
    is_asked: bool,
) -> Result<Option<Mend>, Memory>
    ensures mends { IfOk result (λ mend. IfSome mend (AreMends (P.table protocol.now) cause.now.cases.items known.entry.failed.now)) }
    ensures of_one_entry { IfOk result (λ mend. IfSome mend (AreOfOneEntry cause.now.blame)) }
{
    if is_asked {
        let is_safe = known.survey.is_safe();
        let mend = mends(alloc, protocol, known.failed, cause, is_safe)?;
        Ok(Some(mend))
    } else {
        Ok(None)
    }
}

/// The run that is told of a cause: none where it is harmless. Else the cases are tried first that give the best hope.
fn sought<P: Protocol>(
    alloc: Global,
    protocol: &P,
    known: Known<'_>,
    cause: &Cause,
    is_harmless: bool,
) -> Result<ToldRun, Memory>
    requires { IsClosureOf (P.table protocol.now) known.closure.now }
    ensures told { IfOk result (AreToldInOrder (P.table protocol.now) cause.now.cases.items) }
    ensures within { IfOk result (λ told. AreWithin known.entry.effort known.entry.closure.now told.tried) }
    ensures untold { IsTrue is_harmless → IfOk result IsUntold }
{
    if is_harmless {
        return Ok(ToldRun::none());
    }
    let prefer = match cause.blame {
        Blame::Place { row, side } => Some((row, side)),
        _ => None,
    };
    let cases = holes_first(alloc, known.survey, &cause.cases)?;
    told_run(
        alloc,
        protocol,
        known.closure,
        known.scenes,
        &cases,
        prefer,
        known.effort,
    )
}

/// The cases, those first to whose cover and mode a hole belongs; and before the others the first of each rule, cover and
/// mode.
fn holes_first(
    alloc: Global,
    survey: &Survey,
    cases: &[FailedCase],
) -> Result<Vec<FailedCase>, Memory>
    ensures { IfOk result (λ list. IsPermutation cases.now list.items) }
{
    let mut all = Vec::from_slice(alloc, cases)?;
    all.sort_by_key(|case| !survey.has_hole(case.cover, case.mode))?;
    firsts_first(alloc, &all)
}

/// The cases, the first of each rule, cover and mode before the others.
fn firsts_first(alloc: Global, cases: &[FailedCase]) -> Result<Vec<FailedCase>, Memory>
    ensures { IfOk result (λ list. IsPermutation cases.now list.items) }
{
    let mut firsts: Vec<FailedCase> = Vec::new(alloc);
    let mut others = Vec::new(alloc);
    for case in cases {
        if firsts.iter().any(|first| is_alike(first, case)) {
            others.push(*case)?;
        } else {
            firsts.push(*case)?;
        }
    }
    firsts.extend_from_slice(&others)?;
    Ok(firsts)
}

/// Whether two cases are of one rule, cover and mode.
fn is_alike(case: &FailedCase, other: &FailedCase) -> bool {
    case.case == other.case && case.cover == other.cover && case.mode == other.mode
}
