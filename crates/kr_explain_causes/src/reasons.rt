//! What may be to blame for one failed case.
ghost use Rattle.std.specs.Prelude.{◌≡◌, ◌≤◌, ◌↔◌, ℕ, None, Some, IfSome, IsTrue, All};
ghost use Rattle.std.specs.List.{Any};
ghost use Rattle.kr_model.specs.declared.FailedCase.{FailedCase};
ghost use Rattle.kr_explain_causes.specs.Blames.{IsBlamed, IsVoid, conversion_by, converted, hole_request, taken_at};
ghost use Rattle.kr_explain_causes.specs.Causes.{own_next};
ghost use Rattle.kr_explain_causes.specs.Shares.{AreReasons, Names};
ghost use Rattle.kr_explain_causes.specs.declared.blame.Blame.TheVariants.{Conversion, Pair};

use crate::blame::Blame;
use kr_cases::must_conflict;
use kr_model::{Cover, FailedCase, Mode, Origin, Requester, Row, Rule, Side, Span};
use kr_protocol::{Protocol, asked};

/// What may be to blame for a failed case.
#[derive(Clone, Copy, PartialEq, Eq)]
pub(crate) struct Reasons {
    pub(crate) first: Blame,
    pub(crate) others: [Option<Blame>; 3],
}

impl Reasons {
    /// Whether something is one of the reasons.
    pub(crate) fn name(&self, blame: Blame) -> bool
        ensures { IsTrue result ↔ Names self.now blame }
    {
        self.first == blame || has(&self.others, blame)
    }

    /// A reason with no other.
    fn only(first: Blame) -> Reasons
        ensures first { result.first ≡ first }
        ensures others { All (λ o. o ≡ None) result.others }
    {
        Reasons {
            first,
            others: [None; 3],
        }
    }
}

/// Whether something is one of the reasons, of which some may be absent.
fn has(reasons: &[Option<Blame>], blame: Blame) -> bool
    ensures { IsTrue result ↔ Any (λ reason. reason ≡ Some blame) reasons.now }
{
    reasons.iter().any(|reason| is_blame(reason, blame))
}

/// Whether a reason is there, and is this one.
fn is_blame(reason: &Option<Blame>, blame: Blame) -> bool
    ensures { IsTrue result ↔ (reason.now ≡ Some blame) }
{
    match reason {
        Some(reason) => *reason == blame,
        None => false,
    }
}

/// Whether a request is compatible with a lock, both of them modes or 0.
fn stands_beside<P: Protocol>(protocol: &P, requested: Mode, held: Mode) -> bool {
    if requested > protocol.count() || held > protocol.count() {
        return true;
    }
    protocol.ok(requested, held)
}

/// The mode of one who holds a mode and requests another, both of them modes or 0.
fn converted<P: Protocol>(protocol: &P, held: Mode, requested: Mode) -> Mode
    ensures { requested ≤ (P.table protocol.now).count → result ≡ converted (P.table protocol.now) held requested }
{
    if held > protocol.count() || requested > protocol.count() {
        return requested;
    }
    protocol.convert(held, requested)
}

/// Whether no lock conflicts with what the row requests at the side, where the requester holds nothing.
fn is_void<P: Protocol>(protocol: &P, row: Row, side: Side) -> bool
    ensures { IsTrue result → IsVoid (P.table protocol.now) row side }
{
    match protocol.ask(row, side, 0) {
        None => true,
        Some((requested, _)) => {
            for held in 1..protocol.count() + 1 {
                if !protocol.ok(requested, held) {
                    return false;
                }
            }
            true
        }
    }
}

/// The first requester that no lock conflicts with, of those that the cover has to conflict with.
fn void_place<P: Protocol>(protocol: &P, cover: Cover) -> Option<Blame>
    ensures { IfSome result (λ b. (f : FailedCase) → f.cover ≡ cover → IsBlamed (P.table protocol.now) b f) }
{
    for (row, side) in must_conflict(protocol, cover) {
        if is_void(protocol, *row, *side) {
            return Some(Blame::Place {
                row: *row,
                side: *side,
            });
        }
    }
    None
}

/// Whether a lock in a mode conflicts with what a row requests at a side, whatever the requester holds.
fn conflicts<P: Protocol>(protocol: &P, held: Mode, row: Row, side: Side) -> bool {
    for own_next in 0..protocol.count() + 1 {
        let Some((requested, _)) = protocol.ask(row, side, own_next) else {
            return false;
        };
        for own in 0..protocol.count() + 1 {
            let can_hold = side == Side::Current || own == own_next;
            if can_hold && stands_beside(protocol, converted(protocol, own, requested), held) {
                return false;
            }
        }
    }
    true
}

/// Whether a lock in a mode lets none through of those that the cover has to conflict with.
fn serves<P: Protocol>(protocol: &P, cover: Cover, held: Mode) -> bool {
    for (row, side) in must_conflict(protocol, cover) {
        if !conflicts(protocol, held, *row, *side) {
            return false;
        }
    }
    true
}

/// Where the lock was taken on which a case relies. One that is converted may have been taken by any row: it is told as
/// a fetch's.
fn taken_at(rule: Rule) -> (Row, Side)
    ensures { result ≡ taken_at rule }
{
    match rule {
        Rule::Conversion | Rule::FetchHit => (Row::FetchHit, Side::Current),
        Rule::FetchMiss => (Row::FetchMiss, Side::Next),
        Rule::ScanKey => (Row::ScanKey, Side::Current),
        Rule::ScanStop => (Row::ScanStop, Side::Next),
        Rule::Insert | Rule::Split => (Row::Insert, Side::Current),
        Rule::Delete => (Row::Delete, Side::Next),
        Rule::Update => (Row::Update, Side::Current),
    }
}

/// The own mode on the next name with which the lock of a case was taken, and 0 where the row doesn't go by it.
pub fn own_next(case: &FailedCase) -> Mode
    ensures { result ≡ own_next case.now }
{
    match (case.from, case.case) {
        (Origin::Insert { own_next, .. }, _) => own_next,
        (Origin::Own(own), Rule::Delete) => own,
        _ => 0,
    }
}

/// The conversion by which a lock was taken, where the mode that was requested serves the cover by itself.
fn weakened<P: Protocol>(
    protocol: &P,
    cover: Cover,
    held: Mode,
    asked: Option<(Mode, Span)>,
) -> Option<Blame>
    ensures { IfSome result (λ b. (q : ℕ) × (b ≡ Conversion held q × conversion_by held asked ≡ Some (held, q))) }
{
    match asked {
        Some((requested, Span::Commit)) if held != 0 && serves(protocol, cover, requested) => {
            Some(Blame::Conversion { held, requested })
        }
        _ => None,
    }
}

/// The conversion by which the requester gets through, and the pair of modes that is then compatible.
fn let_in<P: Protocol>(protocol: &P, mode: Mode, hole: Requester) -> (Option<Blame>, Option<Blame>)
    ensures conversion { IfSome result.0 (λ b. (f : FailedCase) → f.hole ≡ hole → IsBlamed (P.table protocol.now) b f) }
    ensures pair { IfSome result.1 (λ b. (f : FailedCase) → f.hole ≡ hole → f.mode ≡ mode → IsBlamed (P.table protocol.now) b f) }
{
    let Some((requested, _)) = asked(protocol, hole.row, hole.side, hole.own_next) else {
        return (None, None);
    };
    if mode == 0 {
        return (None, None);
    }
    let conversion = if hole.own != 0 && !stands_beside(protocol, requested, mode) {
        Some(Blame::Conversion {
            held: hole.own,
            requested,
        })
    } else {
        None
    };
    let pair = Blame::Pair {
        requested: converted(protocol, hole.own, requested),
        held: mode,
    };
    (conversion, Some(pair))
}

/// What may be to blame for a failed case, in the order in which it is blamed.
pub(crate) fn reasons_for<P: Protocol>(protocol: &P, case: &FailedCase) -> Reasons
    ensures { AreReasons (P.table protocol.now) case.now result }
{
    if let Some(place) = void_place(protocol, case.cover) {
        return Reasons::only(place);
    }
    let (conversion, pair) = let_in(protocol, case.mode, case.hole);
    match case.from {
        Origin::Conversion { held, asked } => Reasons {
            first: Blame::Conversion {
                held,
                requested: asked,
            },
            others: [None, conversion, pair],
        },
        Origin::Own(own) | Origin::Insert { own, .. } => {
            let (row, side) = taken_at(case.case);
            let asked = asked(protocol, row, side, own_next(case));
            let first = if is_void(protocol, row, side) {
                Blame::Place { row, side }
            } else {
                Blame::Request { row, side, asked }
            };
            Reasons {
                first,
                others: [weakened(protocol, case.cover, own, asked), conversion, pair],
            }
        }
    }
}
