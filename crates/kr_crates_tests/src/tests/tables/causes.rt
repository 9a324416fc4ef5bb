//! What is to blame, and what mends it, for tables with one entry changed and for a table that requests nothing.
use kr_cases::{Rejected, check};
use kr_change::{Change, Changed, is_same_place, is_same_request};
use kr_explain_causes::{Blame, causes, mends, own_next};
use kr_kinds::Gone;
use kr_model::{Cover, FailedCase, Mode, Origin, Requester, Row, Rule, Side, Span};
use kr_protocol::{Kvl, KvlUpdate, Protocol, RangeKey};
use kr_table::read;
use std::alloc::Global;
use std::process::Abort;
use std::test::Fail;

/// The cases that fail of a protocol.
fn failed<P: Protocol>(rt: &impl Abort, alloc: Global, protocol: &P) -> Vec<FailedCase> {
    match check(alloc, protocol) {
        Err(
            Rejected {
                protocol: _,
                cause: kr_cases::WhyRejected::Failed(failed),
            },
        ) => failed,
        _ => panic!(rt; "not rejected"),
    }
}

/// What is told of a table that is rejected for one cause.
#[derive(Clone, Copy)]
struct Told {
    cases: usize,
    blame: Blame,
    /// The changes with which the table is accepted.
    changes: usize,
    /// Their modes, where they have one.
    modes: [Mode; 2],
}

/// A change by which a protocol is rejected for one cause, and what is told of it.
#[derive(Clone, Copy)]
struct Refused {
    name: &'static str,
    change: Change,
    told: Told,
}

/// Tests what is told of a protocol with the change of each row.
fn each_is_told<P: Protocol>(
    rt: &impl Abort,
    alloc: Global,
    base: &P,
    rows: &[Refused],
) -> Result<(), Fail> {
    let gone = Gone(base);
    for row in rows {
        let (name, told) = (row.name, row.told);
        let Some(table) = Changed::new(&gone, row.change) else {
            panic!(rt; "no change of the table: {name}");
        };
        let failed = failed(rt, alloc, &table);
        same!(rt; failed.len(), told.cases, name);
        let causes = causes(alloc, &table, &failed)?;
        assert_eq!(rt; causes.len(), 1, "{name}");
        let cause = &causes[0];
        same!(rt; cause.blame, told.blame, name);
        same!(rt; cause.cases.as_slice(), failed.as_slice(), name);
        let mend = mends(alloc, &table, &failed, cause, false)?;
        holds!(rt; !mend.accepted.is_empty() && mend.mended.is_empty(), name);
        same!(rt; mend.accepted.len(), told.changes, name);
        let mut modes = [0; 2];
        for (place, change) in modes.iter_mut().zip(&mend.accepted) {
            *place = change.mode().unwrap_or(0);
        }
        same!(rt; modes, told.modes, name);
    }
    Ok(())
}

/// Changes of the table with intents.
#[rattlefmt::skip]
const KVL_ROWS: &[Refused] = &[
    Refused {
        name: "an insert asks for too weak a lock on its key",
        change: Change::Request { row: Row::Insert, side: Side::Current, own_next: None, request: Some((2, Span::Commit)) },
        told: Told { cases: 15, blame: Blame::Request { row: Row::Insert, side: Side::Current, asked: Some((2, Span::Commit)) }, changes: 2, modes: [4, 5] },
    },
    Refused {
        name: "a delete keeps no lock on the next key",
        change: Change::Request { row: Row::Delete, side: Side::Next, own_next: None, request: Some((5, Span::Instant)) },
        told: Told { cases: 4, blame: Blame::Request { row: Row::Delete, side: Side::Next, asked: Some((5, Span::Instant)) }, changes: 2, modes: [5, 4] },
    },
    Refused {
        name: "a conversion loses what was held",
        change: Change::Convert { held: 3, requested: 2, mode: 1 },
        told: Told { cases: 18, blame: Blame::Conversion { held: 3, requested: 2 }, changes: 2, modes: [4, 5] },
    },
];

/// A change of the table with intents and updates.
#[rattlefmt::skip]
const KVL_UPDATE_ROWS: &[Refused] = &[
    Refused {
        name: "an update asks for too weak a lock",
        change: Change::Request { row: Row::Update, side: Side::Current, own_next: None, request: Some((2, Span::Commit)) },
        told: Told { cases: 12, blame: Blame::Pair { requested: 2, held: 2 }, changes: 1, modes: [0, 0] },
    },
];

/// A change of the table with ranges.
#[rattlefmt::skip]
const RANGE_KEY_ROWS: &[Refused] = &[
    Refused {
        name: "an insert asks for too weak a lock on its key, by some own modes",
        change: Change::Request { row: Row::Insert, side: Side::Current, own_next: Some(0b0000_0001_1100_0111), request: Some((2, Span::Commit)) },
        told: Told { cases: 36, blame: Blame::Request { row: Row::Insert, side: Side::Current, asked: Some((2, Span::Commit)) }, changes: 2, modes: [8, 11] },
    },
];

#[test]
fn kvl_rows(rt: HostRuntime) -> Result<(), Fail> {
    each_is_told(&rt, rt.alloc(), &Kvl, KVL_ROWS)
}

#[test]
fn kvl_update_rows(rt: HostRuntime) -> Result<(), Fail> {
    each_is_told(&rt, rt.alloc(), &KvlUpdate, KVL_UPDATE_ROWS)
}

#[test]
fn range_key_rows(rt: HostRuntime) -> Result<(), Fail> {
    each_is_told(&rt, rt.alloc(), &RangeKey, RANGE_KEY_ROWS)
}

/// A table of one mode that requests nothing.
const ASKS_NOTHING: &str = r#"format = 1
modes = ["A"]
compatible = { A = [] }
convert = { A = { A = "A" } }
rules = {}
"#;

#[test]
fn asks_nothing(rt: HostRuntime) -> Result<(), Fail> {
    let alloc = rt.alloc();
    let Ok(table) = read(alloc, ASKS_NOTHING.as_bytes()) else {
        panic!(rt; "no table");
    };
    let failed = failed(&rt, alloc, &table);
    let causes = causes(alloc, &table, &failed)?;
    let told = [
        (Row::Delete, Side::Current, 4),
        (Row::Insert, Side::Next, 6),
        (Row::FetchHit, Side::Current, 4),
        (Row::FetchMiss, Side::Next, 2),
    ];
    same!(rt; causes.len(), told.len());
    for (cause, (row, side, cases)) in causes.iter().zip(told) {
        same!(rt; cause.blame, Blame::Place { row, side });
        same!(rt; cause.cases.len(), cases);
        let mend = mends(alloc, &table, &failed, cause, false)?;
        assert!(rt; mend.accepted.is_empty() && mend.safe.is_empty() && mend.mended.is_empty());
    }
    Ok(())
}

/// A change of what a row requests, for all own modes.
fn asks(row: Row, side: Side, mode: Mode, span: Span) -> Change {
    Change::Request {
        row,
        side,
        own_next: None,
        request: Some((mode, span)),
    }
}

#[test]
fn changes_that_are_none(rt: HostRuntime) {
    let no_mode = asks(Row::Insert, Side::Current, 0, Span::Commit);
    assert!(rt; Changed::new(&Gone(Kvl), no_mode).is_none());
    let no_updates = asks(Row::Update, Side::Current, 5, Span::Commit);
    assert!(rt; Changed::new(&Gone(Kvl), no_updates).is_none());
    assert!(rt; Changed::new(&Gone(KvlUpdate), no_updates).is_some());
    let apart = Change::Compatible {
        requested: 1,
        held: 6,
        is_compatible: false,
    };
    assert!(rt; Changed::new(&Gone(Kvl), apart).is_none());
}

/// A failed case of this rule, whose lock was taken so.
fn taken(case: Rule, from: Origin) -> FailedCase {
    FailedCase {
        case,
        cover: Cover::InsertedKey,
        from,
        mode: 1,
        hole: Requester {
            row: Row::FetchHit,
            side: Side::Current,
            own: 0,
            own_next: 0,
        },
    }
}

/// An insert goes by the mode that it is said to own, and a delete by its own mode on the name where its lock is.
#[test]
fn places_and_requests_that_are_the_same(rt: HostRuntime) {
    assert!(rt; is_same_place(Row::Insert, Side::Next, Row::Insert, Side::Next));
    assert!(rt; !is_same_place(Row::Insert, Side::Next, Row::Insert, Side::Current));
    assert!(rt; !is_same_place(Row::Insert, Side::Next, Row::Delete, Side::Next));
    assert!(rt; is_same_request(None, None));
    assert!(rt; is_same_request(Some((3, Span::Commit)), Some((3, Span::Commit))));
    assert!(rt; !is_same_request(Some((3, Span::Commit)), Some((3, Span::Instant))));
    assert!(rt; !is_same_request(Some((3, Span::Commit)), Some((2, Span::Commit))));
    assert!(rt; !is_same_request(Some((3, Span::Commit)), None));
}

#[test]
fn own_modes_on_the_next_name(rt: HostRuntime) {
    let insert = Origin::Insert {
        own_next: 3,
        own: 2,
    };
    assert_eq!(rt; own_next(&taken(Rule::Insert, insert)), 3);
    assert_eq!(rt; own_next(&taken(Rule::Split, insert)), 3);
    assert_eq!(rt; own_next(&taken(Rule::Delete, Origin::Own(4))), 4);
    assert_eq!(rt; own_next(&taken(Rule::Update, Origin::Own(4))), 0);
}
