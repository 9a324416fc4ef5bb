//! Whether the marks of a script are those of its run.
ghost use Rattle.std.specs.Prelude.{◌≡◌, ◌+◌, ◌↔◌, ◌⊎◌, ◌<◌, false, IfOk, IfSome, IsTrue, Contains};
ghost use Rattle.kr_model.specs.Covers.{must_conflict};
ghost use Rattle.kr_model.specs.Locks.{own};
ghost use Rattle.kr_model.specs.Plan.{access};
ghost use Rattle.kr_explain_runs.specs.Marks.{AreMarked, IsAside, IsCasesLock, IsChanged, IsTaken, Takes};
ghost use Rattle.kr_explain_runs.specs.Moments.{AreAside, AreMarksOf, IsLetIn, IsMoment};

use crate::access::{Access, is_at, is_on, is_request_of, name_at};
use crate::counterexample::Counterexample;
use crate::fit::Fit;
use crate::moment::{Moment, moment_at};
use kr_cases::{Memory, must_conflict};
use kr_model::{Cover, FailedCase, Name, Row, Side};
use kr_protocol::Protocol;
use std::alloc::Global;

/// The marked steps of a script, and the name on which the holder's lock is too weak.
#[derive(Drop)]
pub(crate) struct Marks {
    /// The step whose lock is too weak.
    pub own: Moment,
    /// The step that comes through.
    pub through: Moment,
    pub name: Name,
}

/// Whether the marks of a script that was made from a case are those of its run. The only fault is that a growth was refused.
pub(crate) fn are_marked<P: Protocol>(
    alloc: Global,
    protocol: &P,
    case: &FailedCase,
    fit: Fit,
    script: &Counterexample,
) -> Result<bool, Memory>
    ensures { IfOk result (λ are. IsTrue are → AreMarked (P.table protocol.now) case.now fit script.now) }
{
    let Some(marks) = marks_of(alloc, protocol, case.cover, script)? else {
        return Ok(false);
    };
    if !is_last(alloc, protocol, script, marks.name)? {
        return Ok(false);
    }
    is_lock_of(alloc, protocol, case, fit, script, &marks)
}

/// The marked steps, if both are on one name, and the second comes through there. The only fault is that a growth was refused.
#[tactic(auto, using(crate::proofs::Marking::marks_found))]
fn marks_of<P: Protocol>(
    alloc: Global,
    protocol: &P,
    cover: Cover,
    script: &Counterexample,
) -> Result<Option<Marks>, Memory>
    ensures { IfOk result (λ found. IfSome found (AreMarksOf (P.table protocol.now) cover script.now)) }
{
    let Some(through) = moment_at(alloc, protocol, script, script.let_in)? else {
        return Ok(None);
    };
    let Some(own) = moment_at(alloc, protocol, script, script.weak)? else {
        return Ok(None);
    };
    let Some(name) = name_let_in(protocol, cover, script, through.access) else {
        return Ok(None);
    };
    if script.weak < script.let_in && is_on(own.access, name) {
        Ok(Some(Marks { own, through, name }))
    } else {
        Ok(None)
    }
}

/// Whether the holder's lock on the name is the case's, as near as this. The only fault is that a growth was refused.
#[tactic(auto, using(crate::proofs::Marking::of_case, crate::proofs::Marking::of_mode))]
fn is_lock_of<P: Protocol>(
    alloc: Global,
    protocol: &P,
    case: &FailedCase,
    fit: Fit,
    script: &Counterexample,
    marks: &Marks,
) -> Result<bool, Memory>
    requires { AreMarksOf (P.table protocol.now) case.now.cover script.now marks.now }
    ensures { IfOk result (λ is. IsTrue is → IsCasesLock (P.table protocol.now) case.now fit script.now marks.now.name) }
{
    match fit {
        Fit::Case => is_cases_lock(alloc, protocol, case, script, marks),
        Fit::Mode => Ok(has_mode(case, script, marks.name, &marks.through)),
    }
}

/// The name of the lock at the script's side, if the step goes by the script's row, and a lock with the cover must conflict
/// with it.
fn name_let_in<P: Protocol>(
    protocol: &P,
    cover: Cover,
    script: &Counterexample,
    through: Access,
) -> Option<Name>
    ensures { IfSome result (IsLetIn (P.table protocol.now) cover script.now (access through.0 through.1 through.2)) }
{
    if through.0 == script.row && is_kept_out(protocol, cover, script.row, script.side) {
        name_at(through, script.side)
    } else {
        None
    }
}

/// Whether a lock with the cover must conflict with what a row requests at a side.
fn is_kept_out<P: Protocol>(protocol: &P, cover: Cover, row: Row, side: Side) -> bool
    ensures { IsTrue result → Contains (must_conflict (P.table protocol.now) cover) (row, side) }
{
    must_conflict(protocol, cover)
        .iter()
        .any(|place| is_place(*place, row, side))
}

/// Whether a place of the table is this one.
fn is_place(place: (Row, Side), row: Row, side: Side) -> bool
    ensures { IsTrue result ↔ (place ≡ (row, side)) }
{
    place.0 == row && place.1 == side
}

/// Whether the holder requests no lock on the name between the marked steps. The only fault is that a growth was refused.
fn is_last<P: Protocol>(
    alloc: Global,
    protocol: &P,
    script: &Counterexample,
    name: Name,
) -> Result<bool, Memory>
    requires { script.now.weak < script.now.let_in }
    ensures { IfOk result (λ is. IsTrue is → AreAside (P.table protocol.now) script.now name script.now.let_in) }
{
    for place in script.weak + 1..script.let_in {
        if is_again(alloc, protocol, script, name, place)? {
            return Ok(false);
        }
    }
    Ok(true)
}

/// Whether a step is the holder's, and may request a lock on the name. The only fault is that a growth was refused.
#[tactic(auto, using(crate::proofs::Marking::other_aside))]
fn is_again<P: Protocol>(
    alloc: Global,
    protocol: &P,
    script: &Counterexample,
    name: Name,
    place: usize,
) -> Result<bool, Memory>
    ensures { IfOk result (λ is. is ≡ false → IsAside (P.table protocol.now) script.now name place) }
{
    let Some(event) = script.events.get(place) else {
        return Ok(true);
    };
    if event.txn != script.holder {
        return Ok(false);
    }
    match moment_at(alloc, protocol, script, place)? {
        Some(step) => Ok(is_on(step.access, name)),
        None => Ok(true),
    }
}

/// Whether the holder's lock on the name is taken as the case says, by its marked step or the one before. The only fault is that
/// a growth was refused.
#[tactic(auto, using(crate::proofs::Marking::cases_taken, crate::proofs::Marking::cases_changed))]
fn is_cases_lock<P: Protocol>(
    alloc: Global,
    protocol: &P,
    case: &FailedCase,
    script: &Counterexample,
    marks: &Marks,
) -> Result<bool, Memory>
    requires { AreMarksOf (P.table protocol.now) case.now.cover script.now marks.now }
    ensures { IfOk result (λ is. IsTrue is → IsTaken (P.table protocol.now) case.now script.now marks.now.name ⊎ IsChanged (P.table protocol.now) case.now script.now marks.now.name) }
{
    let name = marks.name;
    if has_mode(case, script, name, &marks.through) {
        return Ok(takes(protocol, case, script, name, &marks.own));
    }
    if script.weak == 0 || !has_mode(case, script, name, &marks.own) {
        return Ok(false);
    }
    takes_at(alloc, protocol, case, script, name, script.weak - 1)
}

/// Whether the step at a place takes the case's lock. The only fault is that a growth was refused.
fn takes_at<P: Protocol>(
    alloc: Global,
    protocol: &P,
    case: &FailedCase,
    script: &Counterexample,
    name: Name,
    place: usize,
) -> Result<bool, Memory>
    ensures { IfOk result (λ does. IsTrue does → Takes (P.table protocol.now) case.now script.now name place) }
{
    match moment_at(alloc, protocol, script, place)? {
        Some(step) => Ok(takes(protocol, case, script, name, &step)),
        None => Ok(false),
    }
}

/// Whether the holder has the case's mode on the name before a step.
fn has_mode(case: &FailedCase, script: &Counterexample, name: Name, step: &Moment) -> bool
    ensures { IsTrue result ↔ (own step.now.locks script.now.holder name ≡ case.now.mode) }
{
    step.mode(script.holder, name) == case.mode
}

/// Whether a step takes the case's lock: it is the holder's, and its request on the name is the one that the case is about.
fn takes<P: Protocol>(
    protocol: &P,
    case: &FailedCase,
    script: &Counterexample,
    name: Name,
    step: &Moment,
) -> bool
    requires { IsMoment (P.table protocol.now) script.now step.now }
    ensures { IsTrue result → Takes (P.table protocol.now) case.now script.now name step.now.place }
{
    if takes_by(protocol, case, script, name, Side::Current, step) {
        return true;
    }
    takes_by(protocol, case, script, name, Side::Next, step)
}

/// The same by its request at one side.
#[tactic(auto, using(crate::proofs::Marking::takes_by))]
fn takes_by<P: Protocol>(
    protocol: &P,
    case: &FailedCase,
    script: &Counterexample,
    name: Name,
    side: Side,
    step: &Moment,
) -> bool
    requires { IsMoment (P.table protocol.now) script.now step.now }
    ensures { IsTrue result → Takes (P.table protocol.now) case.now script.now name step.now.place }
{
    let (locks, holder) = (step.locks.as_slice(), script.holder);
    if step.txn != holder || !is_at(step.access, side, name) {
        return false;
    }
    is_request_of(protocol, case, locks, holder, name, side, step.access)
}
