//! Explaining a table with ghosts.
ghost use Rattle.std.specs.Prelude.{◌≡◌, All, IfOk, IfSome};
ghost use Rattle.kr_ghost.specs.Covers.{failed_cases};
ghost use Rattle.kr_ghost_explain.specs.Explained.{AreGhostFailures, IsGhostExplained, IsWrong};
ghost use Rattle.kr_ghost_explain.specs.Mends.{AreGhostMends, AreOfBlamed, IsMended, causes_of};

use crate::causes::{GhostCause, ghost_causes};
use crate::explanation::{GhostExplanation, GhostFailures, MendedCause};
use crate::mends::ghost_mends;
use crate::schedule::{GhostSchedule, found_schedule};
use kr_explain_causes::{MOST_MENDED, Mend};
use kr_ghost::{FailedCase, covered_is_safe};
use kr_ghost_check::{cases, failed_cases};
use kr_ghost_decide::is_safe_ghost;
use kr_ghost_protocol::GhostProtocol;
use kr_model::Memory;
use std::alloc::Global;

/// Checks a table with ghosts, and where cases fail, says whether it is safe, and why they fail: the failed cases put together by
/// what is to blame, with the changes that mend it, which are tried for the first causes; and where it isn't safe a schedule that
/// goes wrong, if one is found: the search is bounded. The only fault is that a growth was refused.
pub fn explain_ghosts<P: GhostProtocol>(
    alloc: Global,
    protocol: &P,
) -> Result<GhostExplanation, Memory>
    ensures { IfOk result (IsGhostExplained (P.ghosts protocol.now)) }
{
    covered_is_safe();
    let failed = failed_cases(alloc, protocol)?;
    if failed.is_empty() {
        return Ok(GhostExplanation::Accepted {
            cases: cases(protocol),
        });
    }
    if is_safe_ghost(alloc, protocol)? {
        let failures = failures_of(alloc, protocol, &failed, None, true)?;
        return Ok(GhostExplanation::Safe(failures));
    }
    let schedule = found_schedule(alloc, protocol)?;
    let failures = failures_of(alloc, protocol, &failed, schedule, false)?;
    Ok(GhostExplanation::Rejected(failures))
}

/// Why cases of a table fail, of which these do, and which is safe all the same or isn't; with a schedule that goes wrong under it,
/// or with none.
fn failures_of<P: GhostProtocol>(
    alloc: Global,
    protocol: &P,
    failed: &[FailedCase],
    schedule: Option<GhostSchedule>,
    is_safe: bool,
) -> Result<GhostFailures, Memory>
    requires failed { failed.now ≡ failed_cases (P.ghosts protocol.now) }
    requires wrong { IfSome schedule (IsWrong (P.ghosts protocol.now)) }
    ensures failures { IfOk result (AreGhostFailures (P.ghosts protocol.now)) }
    ensures schedule { IfOk result (λ f. f.schedule ≡ schedule) }
{
    let causes = ghost_causes(alloc, protocol, failed)?;
    let told = mended(alloc, protocol, failed, causes, is_safe)?;
    Ok(GhostFailures {
        cases: cases(protocol),
        failed: failed.len(),
        causes: told,
        schedule,
    })
}

/// These causes, each with the changes that mend it, where they are tried.
fn mended<P: GhostProtocol>(
    alloc: Global,
    protocol: &P,
    failed: &[FailedCase],
    causes: Vec<GhostCause>,
    is_safe: bool,
) -> Result<Vec<MendedCause>, Memory>
    ensures causes { IfOk result (λ list. causes.items ≡ causes_of list.items) }
    ensures mended { IfOk result (λ list. All (IsMended (P.ghosts protocol.now) failed.now) list.items) }
{
    let mut list = Vec::new(alloc);
    for cause in causes {
        let is_tried = list.len() < MOST_MENDED;
        let told = mended_by(alloc, protocol, failed, cause, is_tried, is_safe)?;
        list.push(told)?;
    }
    Ok(list)
}

/// A cause with the changes that mend it; with none where they aren't tried.
fn mended_by<P: GhostProtocol>(
    alloc: Global,
    protocol: &P,
    failed: &[FailedCase],
    cause: GhostCause,
    is_tried: bool,
    is_safe: bool,
) -> Result<MendedCause, Memory>
    ensures cause { IfOk result (λ m. m.cause ≡ cause) }
    ensures mended { IfOk result (IsMended (P.ghosts protocol.now) failed.now) }
{
    let mend = mend_of(alloc, protocol, failed, &cause, is_tried, is_safe)?;
    Ok(MendedCause { cause, mend })
}

/// The changes that mend a cause, where they are tried.
fn mend_of<P: GhostProtocol>(
    alloc: Global,
    protocol: &P,
    failed: &[FailedCase],
    cause: &GhostCause,
    is_tried: bool,
    is_safe: bool,
) -> Result<Option<Mend>, Memory>
    ensures mends { IfOk result (λ mend. IfSome mend (AreGhostMends (P.ghosts protocol.now) cause.now.cases.items failed.now)) }
    ensures entry { IfOk result (λ mend. IfSome mend (AreOfBlamed cause.now.blame)) }
{
    if is_tried {
        let mend = ghost_mends(alloc, protocol, failed, cause, is_safe)?;
        Ok(Some(mend))
    } else {
        Ok(None)
    }
}
