//! Causes that no schedule goes wrong by.
ghost use Rattle.std.specs.Prelude.{◌≡◌, ◌↔◌, IsTrue, IfSome, is_some, true};
ghost use Rattle.std.specs.List.{Any};
ghost use Rattle.kr_decide.specs.Survey.{IsSurvey};
ghost use Rattle.kr_explain_core.specs.Harmless.{BelongsTo, IsClear, IsClearBelow, HoleBelongs, IsOf, IsOfCover, IsHarmless, IsReason, IsReasonBy};

use kr_decide::Survey;
use kr_model::{Cover, FailedCase, Mode};
use kr_protocol::Protocol;

/// Why no schedule goes wrong by a cause, though cases fail by it.
#[derive(Clone, Copy, PartialEq, Eq)]
pub enum Harmless {
    /// No transaction can hold the mode of one of its cases on a name where it has the case's cover to protect.
    NeverHeld,
    /// A transaction can, as in this case, but no other can come to be granted there what the lock has to keep out.
    NeverLetIn(FailedCase),
}

/// Why a cause of these cases is harmless, where these are all failed cases of a protocol with this survey; or `None` where
/// it isn't.
#[tactic(auto, using(crate::proofs::Clear::reason_by))]
pub fn why_harmless<P: Protocol>(
    protocol: &P,
    survey: &Survey,
    failed: &[FailedCase],
    cases: &[FailedCase],
) -> Option<Harmless>
    requires { IsSurvey (P.table protocol.now) survey.now }
    ensures exactly { is_some result ≡ true ↔ IsHarmless (P.table protocol.now) failed.now cases.now }
    ensures reason { IfSome result (IsReason (P.table protocol.now) cases.now) }
{
    let _ = protocol;
    if is_harmless(survey, failed, cases) {
        Some(reason(survey, cases))
    } else {
        None
    }
}

/// Whether no hole of the survey belongs to a cause of these cases, where these are all failed cases.
pub fn is_harmless(survey: &Survey, failed: &[FailedCase], cases: &[FailedCase]) -> bool
    ensures { IsTrue result ↔ IsClear survey.now failed.now cases.now }
{
    if !has_none(survey, failed, cases, Cover::ReadKey) {
        return false;
    }
    if !has_none(survey, failed, cases, Cover::ReadGap) {
        return false;
    }
    if !has_none(survey, failed, cases, Cover::InsertedKey) {
        return false;
    }
    if !has_none(survey, failed, cases, Cover::DeletedGap) {
        return false;
    }
    has_none(survey, failed, cases, Cover::UpdatedKey)
}

/// Whether no hole of this cover belongs to the cause.
#[tactic(auto, using(crate::proofs::Clear::one_mode_more))]
fn has_none(survey: &Survey, failed: &[FailedCase], cases: &[FailedCase], cover: Cover) -> bool
    ensures { IsTrue result ↔ IsClearBelow survey.now failed.now cases.now cover 16 }
{
    for mode in 0..16 {
        if hole_belongs(survey, failed, cases, cover, mode) {
            return false;
        }
    }
    true
}

/// Whether there is a hole of this cover and mode, and it belongs to the cause.
fn hole_belongs(
    survey: &Survey,
    failed: &[FailedCase],
    cases: &[FailedCase],
    cover: Cover,
    mode: Mode,
) -> bool
    ensures { IsTrue result ↔ HoleBelongs survey.now failed.now cases.now cover mode }
{
    survey.has_hole(cover, mode) && belongs(failed, cases, cover, mode)
}

/// Whether a hole of this cover and mode belongs to a cause of these cases: one of them is of both; or no failed case is,
/// and one of them is of the cover.
fn belongs(failed: &[FailedCase], cases: &[FailedCase], cover: Cover, mode: Mode) -> bool
    ensures { IsTrue result ↔ BelongsTo failed.now cases.now cover mode }
{
    has_case(cases, cover, mode) || !has_case(failed, cover, mode) && has_cover(cases, cover)
}

/// Whether one of the cases is of this cover and mode.
fn has_case(cases: &[FailedCase], cover: Cover, mode: Mode) -> bool
    ensures { IsTrue result ↔ Any (IsOf cover mode) cases.now }
{
    cases.iter().any(|case| is_of(case, cover, mode))
}

/// Whether a case is of this cover and mode.
fn is_of(case: &FailedCase, cover: Cover, mode: Mode) -> bool
    ensures { IsTrue result ↔ IsOf cover mode case.now }
{
    case.cover == cover && case.mode == mode
}

/// Whether one of the cases is of this cover.
fn has_cover(cases: &[FailedCase], cover: Cover) -> bool
    ensures { IsTrue result ↔ Any (IsOfCover cover) cases.now }
{
    cases.iter().any(|case| is_of_cover(case, cover))
}

/// Whether a case is of this cover.
fn is_of_cover(case: &FailedCase, cover: Cover) -> bool
    ensures { IsTrue result ↔ IsOfCover cover case.now }
{
    case.cover == cover
}

/// The first of the cases whose mode a transaction can hold with its cover to protect, if there is one.
fn reason(survey: &Survey, cases: &[FailedCase]) -> Harmless
    ensures { IsReasonBy survey.now cases.now result }
{
    for case in cases {
        if survey.is_held(case.cover, case.mode) {
            return Harmless::NeverLetIn(*case);
        }
    }
    Harmless::NeverHeld
}
