//! Which protocols are ordered, compared with what was worked out by hand.
//!
//! Modes of key-value locking: IS is 1, IX 2, S 3, SIX 4, X 5.
use kr_change::{Change, Changed};
use kr_decide::{is_at_least, is_ordered};
use kr_kinds::Gone;
use kr_model::{Row, Side, Span};
use kr_protocol::{Im, Kvl, KvlUpdate, RangeKey};
use std::process::Abort;
use std::test::Fail;

/// SIX held and IX requested make IS, which conflicts with less than either.
#[rattlefmt::skip]
const SIX_TO_IS: Change = Change::Convert { held: 4, requested: 2, mode: 1 };

/// A delete requests S on the next name for one who holds X there, and X for all others.
#[rattlefmt::skip]
const LESS_AT_X: Change = Change::Request { row: Row::Delete, side: Side::Next, own_next: Some(32), request: Some((3, Span::Commit)) };

/// A delete keeps its lock on the next name only for one who holds no X there.
#[rattlefmt::skip]
const NOT_KEPT_AT_X: Change = Change::Request { row: Row::Delete, side: Side::Next, own_next: Some(32), request: Some((5, Span::Instant)) };

/// An insert keeps its lock on the next name.
#[rattlefmt::skip]
const NEXT_KEPT: Change = Change::Request { row: Row::Insert, side: Side::Next, own_next: None, request: Some((2, Span::Commit)) };

/// A delete doesn't keep its lock on the next name: the table isn't safe, and yet it is ordered.
#[rattlefmt::skip]
const NEXT_INSTANT: Change = Change::Request { row: Row::Delete, side: Side::Next, own_next: None, request: Some((5, Span::Instant)) };

/// Whether key-value locking with one entry changed is ordered.
fn is_changed_ordered(rt: &impl Abort, change: Change) -> bool {
    let kvl = Gone(Kvl);
    let Some(changed) = Changed::new(&kvl, change) else {
        panic!(rt; "no change of the table");
    };
    is_ordered(&changed)
}

#[test]
fn bundled_protocols_are_ordered(rt: HostRuntime) -> Result<(), Fail> {
    same!(rt; is_ordered(&Kvl), true);
    same!(rt; is_ordered(&KvlUpdate), true);
    same!(rt; is_ordered(&Im), true);
    same!(rt; is_ordered(&RangeKey), true);
    Ok(())
}

#[test]
fn changed_protocols_are_ordered_or_not(rt: HostRuntime) -> Result<(), Fail> {
    same!(rt; is_changed_ordered(&rt, SIX_TO_IS), false);
    same!(rt; is_changed_ordered(&rt, LESS_AT_X), false);
    same!(rt; is_changed_ordered(&rt, NOT_KEPT_AT_X), false);
    same!(rt; is_changed_ordered(&rt, NEXT_KEPT), false);
    same!(rt; is_changed_ordered(&rt, NEXT_INSTANT), true);
    Ok(())
}

#[test]
fn modes_are_at_least_others(rt: HostRuntime) -> Result<(), Fail> {
    same!(rt; is_at_least(&Kvl, 4, 3), true);
    same!(rt; is_at_least(&Kvl, 4, 2), true);
    same!(rt; is_at_least(&Kvl, 3, 2), false);
    same!(rt; is_at_least(&Kvl, 2, 3), false);
    same!(rt; is_at_least(&Kvl, 1, 0), true);
    same!(rt; is_at_least(&Kvl, 0, 1), false);
    Ok(())
}
