//! The run that is told of a cause.
ghost use Rattle.std.specs.Prelude.{◌≡◌, ◌≤◌, ◌<◌, false, IfOk, IfSome, IsTrue, take, if◌then◌else◌};
ghost use Rattle.std.specs.List.{Any};
ghost use Rattle.kr_explain_runs.specs.declared.fit.Fit.TheVariants.{Case, Mode};
ghost use Rattle.kr_explain_runs.specs.Comes.{CanComeTo, IsClosureOf};
ghost use Rattle.kr_explain_core.specs.Tried.{IsRunOf};
ghost use Rattle.kr_explain_core.specs.Telling.{AreToldOf, AreWithin, IsToldAfter, IsUntold};

use crate::effort::{Effort, MOST_STAGED, MOST_STAGED_RUNS};
use crate::run::Run;
use crate::scripts::run_of;
use kr_cases::Memory;
use kr_explain_runs::{Closure, Counterexample, Fit, Scenes};
use kr_model::{FailedCase, Row, Side};
use kr_protocol::Protocol;
use std::alloc::Global;

/// The run that is told of some cases, and how many of them gave one.
#[derive(Drop)]
pub struct ToldRun {
    pub run: Option<Run>,
    /// How many of the cases gave a run.
    pub runs: usize,
    /// How many of the cases were tried, from the first on.
    pub tried: usize,
    /// Where no run is known, whether one transaction comes to the modes of a case that was tried.
    pub is_reached: bool,
}

impl ToldRun {
    /// None is told, and none was sought.
    pub fn none() -> ToldRun
        ensures { IsUntold result }
    {
        ToldRun {
            run: None,
            runs: 0,
            tried: 0,
            is_reached: false,
        }
    }
}

/// The shortest of the first runs of the cases, those through the preferred place before others. The cases are tried in
/// their order for as long as the effort lasts.
pub fn told_run<P: Protocol>(
    alloc: Global,
    protocol: &P,
    closure: &Closure,
    scenes: &Scenes,
    cases: &[FailedCase],
    prefer: Option<(Row, Side)>,
    effort: Effort,
) -> Result<ToldRun, Memory>
    requires { IsClosureOf (P.table protocol.now) closure.now }
    ensures told { IfOk result (AreToldOf (P.table protocol.now) cases.now) }
    ensures within { IfOk result (λ told. AreWithin effort closure.now told.tried) }
{
    let told = tried(alloc, protocol, closure, cases, prefer, effort)?;
    let told = or_staged(alloc, protocol, scenes, cases, told)?;
    let is_reached = told.run.is_none() && is_reached(protocol, closure, cases, told.tried);
    Ok(ToldRun { is_reached, ..told })
}

/// The same, without whether a transaction comes to a case.
fn tried<P: Protocol>(
    alloc: Global,
    protocol: &P,
    closure: &Closure,
    cases: &[FailedCase],
    prefer: Option<(Row, Side)>,
    effort: Effort,
) -> Result<ToldRun, Memory>
    ensures told { IfOk result (AreToldOf (P.table protocol.now) cases.now) }
    ensures within { IfOk result (λ told. AreWithin effort closure.now told.tried) }
    ensures unreached { IfOk result (λ told. told.is_reached ≡ false) }
{
    let states = closure.states();
    let mut left = effort;
    let mut told = ToldRun::none();
    for case in cases {
        let Some(most_runs) = left.for_case(states) else {
            return Ok(told);
        };
        let sought = closure.find_within(alloc, protocol, case, prefer, most_runs)?;
        left = left.after(states, sought.runs);
        told = with_case(alloc, *case, sought.script, prefer, told)?;
    }
    Ok(told)
}

/// What is told when one case more was tried, and gave this script or none.
fn with_case(
    alloc: Global,
    case: FailedCase,
    script: Option<Counterexample>,
    prefer: Option<(Row, Side)>,
    told: ToldRun,
) -> Result<ToldRun, Memory>
    requires few { told.runs ≤ told.tried }
    requires fits { told.tried < usize.MAX }
    ensures { IfOk result (IsToldAfter case script told) }
{
    let tried = told.tried + 1;
    let Some(script) = script else {
        return Ok(ToldRun { tried, ..told });
    };
    let runs = told.runs + 1;
    let run = if is_told_before(&script, &told.run, prefer) {
        run_of(alloc, case, true, script)?
    } else {
        None
    };
    Ok(ToldRun {
        run: run.or(told.run),
        runs,
        tried,
        is_reached: told.is_reached,
    })
}

/// What was told; or where that is no run, the run that scenes give for one of the cases that were tried.
fn or_staged<P: Protocol>(
    alloc: Global,
    protocol: &P,
    scenes: &Scenes,
    cases: &[FailedCase],
    told: ToldRun,
) -> Result<ToldRun, Memory>
    requires told { AreToldOf (P.table protocol.now) cases.now told }
    ensures told { IfOk result (AreToldOf (P.table protocol.now) cases.now) }
    ensures tried { IfOk result (λ new. new.tried ≡ told.tried) }
{
    if told.run.is_some() || told.tried == 0 {
        return Ok(told);
    }
    let tried = told.tried;
    match staged(alloc, protocol, scenes, cases, tried)? {
        Some(run) => Ok(ToldRun {
            run: Some(run),
            runs: 1,
            tried,
            is_reached: false,
        }),
        None => Ok(told),
    }
}

/// The run that scenes give for one of the first cases, of which so many were tried: one that comes to the case's mode as the
/// case says, if there is one.
fn staged<P: Protocol>(
    alloc: Global,
    protocol: &P,
    scenes: &Scenes,
    cases: &[FailedCase],
    tried: usize,
) -> Result<Option<Run>, Memory>
    ensures { IfOk result (λ run. IfSome run (IsRunOf (P.table protocol.now) (take tried cases.now))) }
{
    let run = staged_by(alloc, protocol, scenes, cases, tried, Fit::Case)?;
    if run.is_some() {
        return Ok(run);
    }
    staged_by(alloc, protocol, scenes, cases, tried, Fit::Mode)
}

/// The same of the scripts that are as near to the case as this.
fn staged_by<P: Protocol>(
    alloc: Global,
    protocol: &P,
    scenes: &Scenes,
    cases: &[FailedCase],
    tried: usize,
    fit: Fit,
) -> Result<Option<Run>, Memory>
    ensures { IfOk result (λ run. IfSome run (IsRunOf (P.table protocol.now) (take tried cases.now))) }
{
    for at in 0..tried.min(MOST_STAGED) {
        let Some(case) = cases.get(at) else {
            return Ok(None);
        };
        let sought = scenes.find(alloc, protocol, case, fit, MOST_STAGED_RUNS)?;
        if let Some(script) = sought.script {
            return run_of(alloc, *case, is_of_case(fit), script);
        }
    }
    Ok(None)
}

/// Whether a script as near to its case as this comes to the case's mode as the case says.
fn is_of_case(fit: Fit) -> bool
    ensures { (if result then Case else Mode) ≡ fit }
{
    match fit {
        Fit::Case => true,
        Fit::Mode => false,
    }
}

/// Whether some state of the closure has a step that one of the first cases is about, of which so many were tried.
fn is_reached<P: Protocol>(
    protocol: &P,
    closure: &Closure,
    cases: &[FailedCase],
    tried: usize,
) -> bool
    requires { IsClosureOf (P.table protocol.now) closure.now }
    ensures { IsTrue result → Any (CanComeTo (P.table protocol.now)) (take tried cases.now) }
{
    for at in 0..tried {
        let Some(case) = cases.get(at) else {
            return false;
        };
        if closure.is_reached(protocol, case) {
            return true;
        }
    }
    false
}

/// Whether a script is told rather than the run so far.
fn is_told_before(script: &Counterexample, run: &Option<Run>, prefer: Option<(Row, Side)>) -> bool {
    let Some(run) = run else {
        return true;
    };
    let is_there = is_through(script, prefer);
    if is_there == is_through(&run.script, prefer) {
        script.events.len() < run.script.events.len()
    } else {
        is_there
    }
}

/// Whether the intruder comes through at the preferred place, if there is one.
fn is_through(script: &Counterexample, prefer: Option<(Row, Side)>) -> bool {
    prefer == Some((script.row, script.side))
}
