//! Changes that mend the cases of a cause.
ghost use Rattle.std.specs.Prelude.{◌≡◌, ◌≤◌, ◌⊎◌, ◌↔◌, [], IsTrue, IfOk, IfSome, OnOk, All, false, true, map};
ghost use Rattle.std.specs.List.{Any};
ghost use Rattle.kr_model.specs.Covers.{failed_cases, IsCovered};
ghost use Rattle.kr_model.specs.Safe.{IsSafe};
ghost use Rattle.kr_explain_causes.specs.Mends.{IsSameCase, IsAmong, AreMended, AreMends, AreOfOneEntry, IsPut, IsVerdict, Tells};

use crate::cause::Cause;
use crate::trials::{change_of, trials};
use kr_cases::{Memory, Rejected, WhyRejected, check};
use kr_change::{Change, Changed};
use kr_decide::{Decision, decide};
use kr_kinds::Gone;
use kr_model::FailedCase;
use kr_protocol::Protocol;
use std::alloc::{AllocError, Global};

/// Changes are tried for so many causes of a table at most.
pub const MOST_MENDED: usize = 16;

/// Changes that mend the cases of a cause, each by itself: at most 15, which differ in their mode alone.
#[derive(Drop)]
pub struct Mend {
    /// With each of these the table is accepted.
    pub accepted: Vec<Change>,
    /// With each of these the table isn't accepted, but safe.
    pub safe: Vec<Change>,
    /// With each of these the cause's cases hold, and no case fails that held. Only where there are none of the others.
    pub mended: Vec<Change>,
}

/// What a change makes of the table.
#[derive(Clone, Copy)]
pub enum Verdict {
    /// With the change the table is accepted.
    Accepted,
    /// With the change the table isn't accepted, but safe.
    Safe,
    /// With the change the cases hold, and no case fails that held.
    Mended,
    /// None of these.
    Neither,
}

impl Mend {
    /// No changes.
    pub fn none(alloc: Global) -> Mend
        ensures accepted { result.accepted.items ≡ [] }
        ensures safe { result.safe.items ≡ [] }
        ensures mended { result.mended.items ≡ [] }
    {
        Mend {
            accepted: Vec::new(alloc),
            safe: Vec::new(alloc),
            mended: Vec::new(alloc),
        }
    }

    /// Puts a change behind the others of its verdict. The only fault is that a growth was refused.
    pub fn put(&mut self, change: Change, verdict: Verdict) -> Result<(), Memory>
        ensures { OnOk result (IsPut change verdict self.old self.new) }
    {
        match verdict {
            Verdict::Accepted => self.accepted.push(change)?,
            Verdict::Safe => self.safe.push(change)?,
            Verdict::Mended => self.mended.push(change)?,
            Verdict::Neither => {}
        }
        Ok(())
    }

    /// The changes that are named: those that only mend where there are no others.
    pub fn best(self, alloc: Global) -> Mend
        ensures accepted { result.accepted.items ≡ self.accepted.items }
        ensures safe { result.safe.items ≡ self.safe.items }
        ensures mended { (result.mended.items ≡ []) ⊎ ((result.mended.items ≡ self.mended.items) × ((self.accepted.items ≡ []) × (self.safe.items ≡ []))) }
    {
        let Mend {
            accepted,
            safe,
            mended,
        } = self;
        if accepted.is_empty() && safe.is_empty() {
            Mend {
                accepted,
                safe,
                mended,
            }
        } else {
            Mend {
                accepted,
                safe,
                mended: Vec::new(alloc),
            }
        }
    }
}

/// Whether two failures are of one case.
fn is_same_case(case: &FailedCase, other: &FailedCase) -> bool
    ensures { IsTrue result ↔ IsSameCase case.now other.now }
{
    case.case == other.case && case.cover == other.cover && case.from == other.from
}

/// Whether some of the cases is that of a failure.
fn has_same(cases: &[FailedCase], case: &FailedCase) -> bool
    ensures { IsTrue result ↔ Any (IsSameCase case.now) cases.now }
{
    cases.iter().any(|other| is_same_case(case, other))
}

/// Whether a failure is of one of the cases.
fn is_among(case: &FailedCase, cases: &[FailedCase]) -> bool
    ensures { IsTrue result ↔ IsAmong case.now cases.now }
{
    has_same(cases, case)
}

/// Whether none of the failures is of one of the cases.
fn none_is_among(failed: &[FailedCase], cases: &[FailedCase]) -> bool
    ensures { result ≡ true → All (λ f. IsAmong f cases.now → ⊥) failed.now }
{
    failed.iter().all(|case| !is_among(case, cases))
}

/// Whether each of the failures is of one of the cases.
fn each_is_among(failed: &[FailedCase], cases: &[FailedCase]) -> bool
    ensures { result ≡ true → All (λ f. IsAmong f cases.now) failed.now }
{
    for case in failed {
        if !is_among(case, cases) {
            return false;
        }
    }
    true
}

/// Whether none of the cases is among those that fail after a change, and each of these had failed before.
fn are_mended(cases: &[FailedCase], failed: &[FailedCase], after: &[FailedCase]) -> bool
    ensures { result ≡ true → AreMended cases.now failed.now after.now }
{
    none_is_among(after, cases) && each_is_among(after, failed)
}

/// Whether a table is safe.
fn is_made_safe<P: Protocol>(alloc: Global, table: &P) -> Result<bool, Memory>
    ensures { IfOk result (λ is. IsTrue is → IsSafe (P.table table.now)) }
{
    match decide(alloc, table)? {
        Decision::Safe => Ok(true),
        Decision::Unsafe(_) => Ok(false),
    }
}

/// What a change made that gave this table. The checker says it, and where the table isn't accepted, the decision; of a table that
/// was safe before the checker alone.
fn verdict_on<P: Protocol>(
    alloc: Global,
    table: &P,
    failed: &[FailedCase],
    cases: &[FailedCase],
    is_safe: bool,
) -> Result<Verdict, Memory>
    ensures { IfOk result (IsVerdict (P.table table.now) cases.now failed.now) }
{
    match check(alloc, table) {
        Ok(_) => Ok(Verdict::Accepted),
        Err(Rejected { protocol: _, cause }) => match cause {
            WhyRejected::Failed(after) => {
                if is_safe {
                    Ok(Verdict::Neither)
                } else if is_made_safe(alloc, table)? {
                    Ok(Verdict::Safe)
                } else if are_mended(cases, failed, &after) {
                    Ok(Verdict::Mended)
                } else {
                    Ok(Verdict::Neither)
                }
            }
            WhyRejected::Memory => Err(AllocError),
        },
    }
}

/// What a change makes of the table.
fn judged<P: Protocol>(
    alloc: Global,
    protocol: &P,
    failed: &[FailedCase],
    cases: &[FailedCase],
    change: Change,
    is_safe: bool,
) -> Result<Verdict, Memory>
    ensures { IfOk result (Tells (P.table protocol.now) cases.now failed.now change) }
{
    let gone = Gone(protocol);
    match Changed::new(&gone, change) {
        Some(changed) => verdict_on(alloc, &changed, failed, cases, is_safe),
        None => Ok(Verdict::Neither),
    }
}

/// The changes of what is to blame that mend the cause's cases: those with which the checker accepts the table, and those
/// with which it is safe; or, if there are none of these, those with which the cause's cases hold and no case fails that
/// isn't in `failed`. Of a table that is safe already only those with which it is accepted. The only fault is that a growth
/// was refused.
pub fn mends<P: Protocol>(
    alloc: Global,
    protocol: &P,
    failed: &[FailedCase],
    cause: &Cause,
    is_safe: bool,
) -> Result<Mend, Memory>
    ensures mends { IfOk result (AreMends (P.table protocol.now) cause.now.cases.items failed.now) }
    ensures of_one_entry { IfOk result (AreOfOneEntry cause.now.blame) }
{
    let mut mend = Mend::none(alloc);
    let to_any = change_of(protocol, cause);
    for mode in &trials(alloc, protocol, cause.blame)? {
        let change = to_any.with_mode(*mode);
        let verdict = judged(alloc, protocol, failed, &cause.cases, change, is_safe)?;
        mend.put(change, verdict)?;
    }
    Ok(mend.best(alloc))
}
