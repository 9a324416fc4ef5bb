//! The locks that a step requests.
ghost use Rattle.std.specs.Prelude.{◌≡◌, ◌↔◌, Some, IsTrue, is_some, option_map};
ghost use Rattle.kr_model.specs.Locks.{own};
ghost use Rattle.kr_model.specs.Map.{at, after, get};
ghost use Rattle.kr_model.specs.Plan.{access, access_of, look_access, own_next};
ghost use Rattle.kr_model.specs.declared.Span.TheVariants.{Commit};
ghost use Rattle.kr_explain_runs.specs.Requests.{IsOn, IsRequestOf, access_in, asked_at, name_at, taken_at};

use crate::leading::own;
use kr_model::{FailedCase, Mode, Name, Op, Origin, Row, Rule, Side, Span, Txn};
use kr_protocol::Protocol;

/// The row by which a step goes, and the names at its sides `Current` and `Next`.
pub(crate) type Access = (Row, Option<Name>, Option<Name>);

/// The locks that are held, each with its holder.
pub(crate) type Locks<'a> = &'a [((Name, Txn), Mode)];

/// The name at a side.
pub(crate) fn name_at(step: Access, side: Side) -> Option<Name>
    ensures { result ≡ name_at side (access step.0 step.1 step.2) }
{
    match side {
        Side::Current => step.1,
        Side::Next => step.2,
    }
}

/// Whether a step is about a name.
pub(crate) fn is_on(step: Access, name: Name) -> bool
    ensures { IsTrue result ↔ IsOn name (access step.0 step.1 step.2) }
{
    step.1 == Some(name) || step.2 == Some(name)
}

/// Whether the name at a side is this one.
pub(crate) fn is_at(step: Access, side: Side, name: Name) -> bool
    ensures { IsTrue result → name_at side (access step.0 step.1 step.2) ≡ Some name }
{
    name_at(step, side) == Some(name)
}

/// The row and the side at which a case of this rule takes its lock; what a conversion requests may be of any row.
fn taken_at(rule: Rule) -> Option<(Row, Side)>
    ensures { result ≡ taken_at rule }
{
    match rule {
        Rule::Conversion => None,
        Rule::FetchHit => Some((Row::FetchHit, Side::Current)),
        Rule::FetchMiss => Some((Row::FetchMiss, Side::Next)),
        Rule::ScanKey => Some((Row::ScanKey, Side::Current)),
        Rule::ScanStop => Some((Row::ScanStop, Side::Next)),
        Rule::Insert | Rule::Split => Some((Row::Insert, Side::Current)),
        Rule::Delete => Some((Row::Delete, Side::Next)),
        Rule::Update => Some((Row::Update, Side::Current)),
    }
}

/// Whether a case of this rule takes its lock at this row and side.
fn is_made_at(rule: Rule, row: Row, side: Side) -> bool
    ensures { IsTrue result → taken_at rule ≡ Some (row, side) }
{
    taken_at(rule) == Some((row, side))
}

/// The own mode that the row of a step goes by.
fn own_next(locks: Locks<'_>, txn: Txn, step: Access) -> Mode
    ensures { result ≡ own_next locks.now txn step.0 step.2 }
{
    match (step.0, step.2) {
        (Row::Insert | Row::Delete, Some(name)) => own(locks, txn, name),
        _ => 0,
    }
}

/// Whether a step asks for a mode at a side until commit.
fn asks_for<P: Protocol>(
    protocol: &P,
    locks: Locks<'_>,
    txn: Txn,
    side: Side,
    step: Access,
    asked: Mode,
) -> bool
    ensures { IsTrue result → asked_at (P.table protocol.now) locks.now txn side (access step.0 step.1 step.2) ≡ Some (asked, Commit) }
{
    let own = own_next(locks, txn, step);
    if own > protocol.count() {
        return false;
    }
    match protocol.ask(step.0, side, own) {
        Some((mode, Span::Commit)) => mode == asked,
        _ => false,
    }
}

/// Whether a request at a side, on a name, is the one that a case is about, where these locks are held.
pub(crate) fn is_request_of<P: Protocol>(
    protocol: &P,
    case: &FailedCase,
    locks: Locks<'_>,
    txn: Txn,
    name: Name,
    side: Side,
    step: Access,
) -> bool
    ensures { IsTrue result → IsRequestOf (P.table protocol.now) case.now.case case.now.from locks.now txn name side (access step.0 step.1 step.2) }
{
    let mode = own(locks, txn, name);
    match case.from {
        Origin::Own(own) => mode == own && is_made_at(case.case, step.0, side),
        Origin::Conversion { held, asked } => {
            mode == held && asks_for(protocol, locks, txn, side, step, asked)
        }
        Origin::Insert {
            own_next: next,
            own,
        } => {
            mode == own && own_next(locks, txn, step) == next && is_made_at(case.case, step.0, side)
        }
    }
}

/// The row and the names of an operation in an index, if it requests locks.
pub(crate) fn access_in(pairs: &[(u64, u64)], op: Op) -> Option<Access>
    ensures { option_map (λ a. access a.0 a.1 a.2) result ≡ access_in pairs.now op }
{
    match op {
        Op::Fetch(key) => Some(if has(pairs, key) {
            (Row::FetchHit, Some(Name::Key(key)), None)
        } else {
            (Row::FetchMiss, None, Some(at(pairs, key)))
        }),
        Op::Scan(lo, hi) => Some(looked(at(pairs, lo), hi)),
        Op::Insert(key, _) => Some(if has(pairs, key) {
            (Row::FetchHit, Some(Name::Key(key)), None)
        } else {
            (Row::Insert, Some(Name::Key(key)), Some(at(pairs, key)))
        }),
        Op::Delete(key) => Some(if has(pairs, key) {
            (Row::Delete, Some(Name::Key(key)), Some(after(pairs, key)))
        } else {
            (Row::FetchMiss, None, Some(at(pairs, key)))
        }),
        Op::Update(key, _) => Some(if has(pairs, key) {
            (Row::Update, Some(Name::Key(key)), None)
        } else {
            (Row::FetchMiss, None, Some(at(pairs, key)))
        }),
        Op::Go | Op::Commit | Op::Abort | Op::Back => None,
    }
}

/// The row and the names of a scan's look at a name.
fn looked(name: Name, hi: u64) -> Access
    ensures { access result.0 result.1 result.2 ≡ look_access name hi }
{
    match name {
        Name::Key(key) => {
            if key <= hi {
                (Row::ScanKey, Some(name), None)
            } else {
                (Row::ScanStop, None, Some(name))
            }
        }
        Name::End => (Row::ScanStop, None, Some(name)),
    }
}

/// Whether a key is present.
pub(crate) fn has(pairs: &[(u64, u64)], key: u64) -> bool
    ensures { result ≡ is_some (get pairs.now key) }
{
    for pair in pairs {
        if key.cmp(&pair.0).is_eq() {
            return true;
        }
    }
    false
}

/// The least present key not below a number, or the end.
pub(crate) fn at(pairs: &[(u64, u64)], from: u64) -> Name
    ensures { result ≡ at pairs.now from }
{
    for pair in pairs {
        if from <= pair.0 {
            return Name::Key(pair.0);
        }
    }
    Name::End
}

/// The least present key above a key, or the end.
fn after(pairs: &[(u64, u64)], key: u64) -> Name
    ensures { result ≡ after pairs.now key }
{
    for pair in pairs {
        if key < pair.0 {
            return Name::Key(pair.0);
        }
    }
    Name::End
}
