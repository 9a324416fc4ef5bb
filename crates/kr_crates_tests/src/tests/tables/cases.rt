//! Checks of whole protocols, compared with lists that were worked out by hand.
//!
//! Modes of key-value locking: IS is 1, IX 2, S 3, SIX 4, X 5.
mod ample;

use kr_cases::{FailedCase, Rejected, WhyRejected, cases, check, first_open, must_conflict};
use kr_change::{Change, Changed};
use kr_kinds::{Gone, IndexProtocol};
use kr_model::{Cover, Mode, Origin, Requester, Row, Rule, Side, Span};
use kr_protocol::{Covered, Im, Kvl, KvlUpdate, Protocol, RangeKey};
use std::alloc::Global;
use std::process::Abort;
use std::test::Fail;

/// An insert takes IX on its key, whatever it holds on the next name.
#[rattlefmt::skip]
const ALWAYS_IX: Change = Change::Request { row: Row::Insert, side: Side::Current, own_next: None, request: Some((2, Span::Commit)) };

/// A delete doesn't keep its lock on the next name.
#[rattlefmt::skip]
const NEXT_INSTANT: Change = Change::Request { row: Row::Delete, side: Side::Next, own_next: None, request: Some((5, Span::Instant)) };

/// An update takes IX on its key.
#[rattlefmt::skip]
const UNDER_IX: Change = Change::Request { row: Row::Update, side: Side::Current, own_next: None, request: Some((2, Span::Commit)) };

/// A protocol with one entry changed.
fn with_change<'a, P: IndexProtocol>(
    rt: &impl Abort,
    protocol: &'a P,
    change: Change,
) -> Changed<'a, P> {
    let Some(changed) = Changed::new(protocol, change) else {
        panic!(rt; "no change of the table");
    };
    changed
}

/// How many modes a covered protocol has: one that isn't covered can't be asked.
fn covered_count<P: Covered>(protocol: &P) -> Mode {
    protocol.count()
}

/// Checks a protocol that is covered, and gives it back.
fn accepted<P: Protocol>(
    rt: &impl Abort,
    alloc: Global,
    protocol: P,
    count: Mode,
) -> Result<P, Fail> {
    let Ok(checked) = check(alloc, protocol) else {
        panic!(rt; "refused");
    };
    assert_eq!(rt; covered_count(&checked), count);
    assert_eq!(rt; checked.protocol().count(), count);
    for own in 0..checked.count() + 1 {
        let asked = checked.ask(Row::Insert, Side::Current, own);
        same!(rt;
            asked,
            checked.protocol().ask(Row::Insert, Side::Current, own)
        );
        same!(rt; checked.ok(own, own), checked.protocol().ok(own, own));
        same!(rt; checked.convert(own, own), own);
        same!(rt; checked.name(own), checked.protocol().name(own));
        same!(rt; checked.updates(), checked.protocol().updates());
    }
    Ok(checked.into_inner())
}

/// Checks a protocol that isn't covered, and gives what fails.
fn rejected<P: Protocol>(
    rt: &impl Abort,
    alloc: Global,
    protocol: P,
) -> Result<Vec<FailedCase>, Fail> {
    match check(alloc, protocol) {
        Ok(_) => panic!(rt; "accepted"),
        Err(Rejected { protocol, cause }) => {
            same!(rt; protocol.count(), 5);
            match cause {
                WhyRejected::Failed(failed) => Ok(failed),
                WhyRejected::Memory => panic!(rt; "out of memory"),
            }
        }
    }
}

#[test]
fn bundled_protocols(rt: HostRuntime) -> Result<(), Fail> {
    let alloc = rt.alloc();
    same!(rt; accepted(&rt, alloc, Kvl, 5)?, Kvl);
    same!(rt; accepted(&rt, alloc, KvlUpdate, 5)?, KvlUpdate);
    same!(rt; accepted(&rt, alloc, Im, 2)?, Im);
    same!(rt; accepted(&rt, alloc, RangeKey, 11)?, RangeKey);
    Ok(())
}

#[test]
fn numbers_of_cases(rt: HostRuntime) {
    same!(rt; cases(0, false), 9);
    same!(rt; cases(1, false), 28);
    same!(rt; cases(2, false), 61);
    same!(rt; cases(5, false), 244);
    same!(rt; cases(11, false), 988);
    same!(rt; cases(15, false), 1764);
    same!(rt; cases(2, true), 68);
    same!(rt; cases(5, true), 275);
    same!(rt; cases(11, true), 1121);
    same!(rt; cases(15, true), 2005);
}

/// A case that first fails at a requester that holds nothing.
fn open_at(case: Rule, cover: Cover, from: Origin, mode: Mode, row: Row, side: Side) -> FailedCase {
    let hole = Requester {
        row,
        side,
        own: 0,
        own_next: 0,
    };
    FailedCase {
        case,
        cover,
        from,
        mode,
        hole,
    }
}

/// A split under IX of a gap that was read: one part of it is open to another insert.
fn open_split() -> FailedCase {
    let from = Origin::Insert {
        own_next: 3,
        own: 0,
    };
    open_at(
        Rule::Split,
        Cover::ReadGap,
        from,
        2,
        Row::Insert,
        Side::Next,
    )
}

#[test]
fn insert_always_ix(rt: HostRuntime) -> Result<(), Fail> {
    let failed = rejected(&rt, rt.alloc(), with_change(&rt, &Gone(Kvl), ALWAYS_IX))?;
    same!(rt; failed.len(), 15);
    let first = open_split();
    same!(rt; failed.first(), Some(&first));
    let mut gaps: u8 = 0;
    for f in &failed {
        same!(rt; f.case, Rule::Split);
        if f.cover == Cover::ReadGap {
            gaps = gaps.saturating_add(1);
        }
    }
    same!(rt; gaps, 9);
    Ok(())
}

/// A delete that leaves its gap open from an own mode on the next name, first to a row there.
fn open_gap(own: Mode, row: Row) -> FailedCase {
    let from = Origin::Own(own);
    open_at(Rule::Delete, Cover::DeletedGap, from, own, row, Side::Next)
}

#[test]
fn deletes_next_instant(rt: HostRuntime) -> Result<(), Fail> {
    let failed = rejected(&rt, rt.alloc(), with_change(&rt, &Gone(Kvl), NEXT_INSTANT))?;
    same!(rt;
        failed.as_slice(),
        [
            open_gap(0, Row::FetchMiss),
            open_gap(1, Row::FetchMiss),
            open_gap(2, Row::Insert),
            open_gap(3, Row::FetchMiss),
        ]
        .as_slice()
    );
    Ok(())
}

/// An insert by a transaction that holds nothing.
const HOLDS_NOTHING: Origin = Origin::Insert {
    own_next: 0,
    own: 0,
};

/// A case in which an update under IX leaves a key open to another update.
fn open_key(case: Rule, cover: Cover, from: Origin) -> FailedCase {
    open_at(case, cover, from, 2, Row::Update, Side::Current)
}

#[test]
fn update_under_ix(rt: HostRuntime) -> Result<(), Fail> {
    let failed = rejected(
        &rt,
        rt.alloc(),
        with_change(&rt, &Gone(KvlUpdate), UNDER_IX),
    )?;
    assert_eq!(rt; failed.len(), 12);
    let first = open_key(Rule::Insert, Cover::InsertedKey, HOLDS_NOTHING);
    same!(rt; failed.first(), Some(&first));
    let (inserts, updates) = failed.split_at(9);
    for f in inserts {
        same!(rt; f.case, Rule::Insert);
    }
    same!(rt;
        updates,
        [
            open_key(Rule::Update, Cover::UpdatedKey, Origin::Own(0)),
            open_key(Rule::Update, Cover::UpdatedKey, Origin::Own(1)),
            open_key(Rule::Update, Cover::UpdatedKey, Origin::Own(2)),
        ]
        .as_slice()
    );
    Ok(())
}

// What a row requests on a side.
const FETCH_HIT: (Row, Side) = (Row::FetchHit, Side::Current);

const FETCH_MISS: (Row, Side) = (Row::FetchMiss, Side::Next);

const SCAN_KEY: (Row, Side) = (Row::ScanKey, Side::Current);

const SCAN_STOP: (Row, Side) = (Row::ScanStop, Side::Next);

const INSERT_NEXT: (Row, Side) = (Row::Insert, Side::Next);

const DELETE_KEY: (Row, Side) = (Row::Delete, Side::Current);

const DELETE_NEXT: (Row, Side) = (Row::Delete, Side::Next);

const UPDATE_KEY: (Row, Side) = (Row::Update, Side::Current);

/// A cover, what a lock that has it must conflict with where no updates are offered, and where they are.
#[rattlefmt::skip]
const MUST_CONFLICT: &[(Cover, &[(Row, Side)], &[(Row, Side)])] = &[
    (Cover::ReadKey, &[DELETE_KEY], &[DELETE_KEY, UPDATE_KEY]),
    (Cover::ReadGap, &[INSERT_NEXT, DELETE_KEY], &[INSERT_NEXT, DELETE_KEY]),
    (
        Cover::InsertedKey,
        &[FETCH_HIT, FETCH_MISS, SCAN_KEY, SCAN_STOP, DELETE_KEY, DELETE_NEXT],
        &[FETCH_HIT, FETCH_MISS, SCAN_KEY, SCAN_STOP, DELETE_KEY, DELETE_NEXT, UPDATE_KEY],
    ),
    (
        Cover::DeletedGap,
        &[FETCH_MISS, SCAN_KEY, SCAN_STOP, INSERT_NEXT, DELETE_KEY, DELETE_NEXT],
        &[FETCH_MISS, SCAN_KEY, SCAN_STOP, INSERT_NEXT, DELETE_KEY, DELETE_NEXT],
    ),
    (Cover::UpdatedKey, &[], &[FETCH_HIT, SCAN_KEY, DELETE_KEY, UPDATE_KEY]),
];

#[test]
fn covers_must_conflict(rt: HostRuntime) {
    for (cover, without, with) in MUST_CONFLICT {
        assert_eq!(rt; must_conflict(&Kvl, *cover), *without, "{cover:?}");
        assert_eq!(rt; must_conflict(&KvlUpdate, *cover), *with, "{cover:?}");
    }
}

/// An IX lock lets another insert the same key. Of the S locks on a key that was read none lets in a delete of it.
#[test]
fn first_that_is_let_in(rt: HostRuntime) {
    let asks = |row: Row, side: Side| -> Option<Requester> {
        let (own, own_next) = (0, 0);
        Some(Requester {
            row,
            side,
            own,
            own_next,
        })
    };
    assert_eq!(rt;
        first_open(&Kvl, Cover::ReadGap, 2),
        asks(Row::Insert, Side::Next)
    );
    assert_eq!(rt;
        first_open(&Kvl, Cover::ReadKey, 0),
        asks(Row::Delete, Side::Current)
    );
    assert_eq!(rt; first_open(&Kvl, Cover::ReadKey, 3), None);
}
