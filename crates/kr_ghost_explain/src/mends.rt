//! Changes that mend the cases of a cause.
ghost use Rattle.std.specs.Prelude.{◌≡◌, ◌↔◌, IsTrue, IfOk, All, true};
ghost use Rattle.std.specs.List.{Any};
ghost use Rattle.kr_ghost_explain.specs.Mends.{AreGhostMends, AreMended, AreOfBlamed, IsAmong, IsGhostVerdict, IsOfBlame, IsSameCase, TellsChange};

use crate::causes::GhostCause;
use crate::trials::{change_of, mode_at, trials};
use kr_change::{Change, Changed};
use kr_explain_causes::{Mend, Verdict};
use kr_ghost::{FailedCase, Rule};
use kr_ghost_check::failed_cases;
use kr_ghost_decide::is_safe_ghost;
use kr_ghost_protocol::GhostProtocol;
use kr_kinds::Leaves;
use kr_model::Memory;
use std::alloc::Global;

/// Whether two rules are the same.
fn is_same_rule(rule: Rule, other: Rule) -> bool
    ensures { IsTrue result ↔ (rule ≡ other) }
{
    rule == other
}

/// Whether two failures are of one case.
fn is_same_case(case: &FailedCase, other: &FailedCase) -> bool
    ensures { IsTrue result ↔ IsSameCase case.now other.now }
{
    is_same_rule(case.case, other.case) && case.cover == other.cover && case.from == other.from
}

/// Whether some of the cases is that of a failure.
fn has_same(cases: &[FailedCase], case: &FailedCase) -> bool
    ensures { IsTrue result ↔ Any (IsSameCase case.now) cases.now }
{
    cases.iter().any(|other| is_same_case(case, other))
}

/// Whether a failure is of one of the cases.
fn is_among(case: &FailedCase, cases: &[FailedCase]) -> bool
    ensures { IsTrue result ↔ IsAmong case.now cases.now }
{
    has_same(cases, case)
}

/// Whether none of the failures is of one of the cases.
fn none_is_among(failed: &[FailedCase], cases: &[FailedCase]) -> bool
    ensures { result ≡ true → All (λ f. IsAmong f cases.now → ⊥) failed.now }
{
    failed.iter().all(|case| !is_among(case, cases))
}

/// Whether each of the failures is of one of the cases.
fn each_is_among(failed: &[FailedCase], cases: &[FailedCase]) -> bool
    ensures { result ≡ true → All (λ f. IsAmong f cases.now) failed.now }
{
    for case in failed {
        if !is_among(case, cases) {
            return false;
        }
    }
    true
}

/// Whether none of the cases is among those that fail after a change, and each of these had failed before.
fn are_mended(cases: &[FailedCase], failed: &[FailedCase], after: &[FailedCase]) -> bool
    ensures { result ≡ true → AreMended cases.now failed.now after.now }
{
    none_is_among(after, cases) && each_is_among(after, failed)
}

/// What a change made that gave this table. The check says it, and where the table isn't accepted, the decision; of a table that
/// was safe before the check alone.
fn verdict_on<P: GhostProtocol>(
    alloc: Global,
    table: &P,
    failed: &[FailedCase],
    cases: &[FailedCase],
    is_safe: bool,
) -> Result<Verdict, Memory>
    ensures { IfOk result (IsGhostVerdict (P.ghosts table.now) cases.now failed.now) }
{
    let after = failed_cases(alloc, table)?;
    if after.is_empty() {
        return Ok(Verdict::Accepted);
    }
    if is_safe {
        return Ok(Verdict::Neither);
    }
    if is_safe_ghost(alloc, table)? {
        return Ok(Verdict::Safe);
    }
    if are_mended(cases, failed, &after) {
        Ok(Verdict::Mended)
    } else {
        Ok(Verdict::Neither)
    }
}

/// What a change makes of the table.
fn judged<P: GhostProtocol>(
    alloc: Global,
    protocol: &P,
    failed: &[FailedCase],
    cases: &[FailedCase],
    change: Change,
    is_safe: bool,
) -> Result<Verdict, Memory>
    ensures { IfOk result (TellsChange (P.ghosts protocol.now) cases.now failed.now change) }
{
    let leaves = Leaves(protocol);
    match Changed::new(&leaves, change) {
        Some(changed) => verdict_on(alloc, &changed, failed, cases, is_safe),
        None => Ok(Verdict::Neither),
    }
}

/// The changes of what is to blame that mend the cause's cases: those with which all cases hold, and those with which the table is
/// safe; or, if there are none of these, those with which the cause's cases hold and no case fails that isn't in `failed`. Of a
/// table that is safe already only those with which all cases hold. The only fault is that a growth was refused.
pub fn ghost_mends<P: GhostProtocol>(
    alloc: Global,
    protocol: &P,
    failed: &[FailedCase],
    cause: &GhostCause,
    is_safe: bool,
) -> Result<Mend, Memory>
    ensures mends { IfOk result (AreGhostMends (P.ghosts protocol.now) cause.now.cases.items failed.now) }
    ensures of_one_entry { IfOk result (AreOfBlamed cause.now.blame) }
{
    match change_of(protocol, cause) {
        Some(to_any) => mends_by(alloc, protocol, failed, cause, to_any, is_safe),
        None => Ok(Mend::none(alloc)),
    }
}

/// The same, of the modes that this change can be to.
fn mends_by<P: GhostProtocol>(
    alloc: Global,
    protocol: &P,
    failed: &[FailedCase],
    cause: &GhostCause,
    to_any: Change,
    is_safe: bool,
) -> Result<Mend, Memory>
    requires { IsOfBlame cause.now.blame to_any }
    ensures mends { IfOk result (AreGhostMends (P.ghosts protocol.now) cause.now.cases.items failed.now) }
    ensures of_one_entry { IfOk result (AreOfBlamed cause.now.blame) }
{
    let mut mend = Mend::none(alloc);
    for place in 0..trials(protocol, cause.blame) {
        let change = to_any.with_mode(mode_at(cause.blame, place));
        let verdict = judged(alloc, protocol, failed, &cause.cases, change, is_safe)?;
        mend.put(change, verdict)?;
    }
    Ok(mend.best(alloc))
}
