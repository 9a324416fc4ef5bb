//! Each protocol drawn in full through its bound, and compared with a drawing made by hand.
ghost use Rattle.std.specs.Prelude.{◌≡◌};
ghost use Rattle.kr_model.specs.Covers.{IsCovered};

mod drawings;

use drawings::{Drawing, IM, KVL, KVL_UPDATE, RANGE_KEY};
use kr_model::Requester;
use kr_protocol::{
    Covered, Im, Kvl, KvlUpdate, Mode, Protocol, RangeKey, Row, Side, Span, asked, converted,
    is_open, mode_after, name_or_empty,
};
use std::alloc::{AllocError, Global};
use std::process::Abort;
use std::test::Fail;

/// Modes of `Kvl`.
const IX: Mode = 2;

const S: Mode = 3;

const SIX: Mode = 4;

/// A line for each mode requested, from none on: `+` where it is compatible with the mode held.
fn drawn_compatibility<P: Protocol>(alloc: Global, protocol: &P) -> Result<String, AllocError> {
    let mut text = String::new(alloc);
    for requested in 0..protocol.count() + 1 {
        for held in 0..protocol.count() + 1 {
            text.push(if protocol.ok(requested, held) {
                '+'
            } else {
                '.'
            })?;
        }
        text.push('\n')?;
    }
    Ok(text)
}

/// A line for each mode held, from none on: the mode after each mode requested.
fn drawn_conversion<P: Protocol>(alloc: Global, protocol: &P) -> Result<String, AllocError> {
    let mut text = String::new(alloc);
    for held in 0..protocol.count() + 1 {
        for requested in 0..protocol.count() + 1 {
            let mode = protocol.convert(held, requested);
            text.push_str(if requested == 0 { "" } else { " " })?;
            if mode <= protocol.count() {
                text.push_str(protocol.name(mode))?;
            }
        }
        text.push('\n')?;
    }
    Ok(text)
}

/// The rows of both formats.
const ROWS: &[Row] = &[
    Row::FetchHit,
    Row::FetchMiss,
    Row::ScanKey,
    Row::ScanStop,
    Row::Insert,
    Row::Delete,
];

/// A line for each of these rows and each side: what is requested at each own mode on next, from
/// none on; `!` stands behind a lock for an instant, and `-` where nothing is asked.
fn drawn_rules<P: Protocol>(
    alloc: Global,
    protocol: &P,
    rows: &[Row],
) -> Result<String, AllocError> {
    let mut text = String::new(alloc);
    for row in rows {
        for side in [Side::Current, Side::Next] {
            for own in 0..protocol.count() + 1 {
                text.push_str(if own == 0 { "" } else { " " })?;
                match protocol.ask(*row, side, own) {
                    Some((mode, span)) => {
                        text.push_str(protocol.name(mode))?;
                        text.push_str(if span == Span::Instant { "!" } else { "" })?;
                    }
                    None => text.push_str("-")?,
                }
            }
            text.push('\n')?;
        }
    }
    Ok(text)
}

/// How many modes a covered protocol has.
fn covered_count<P: Covered>(protocol: &P) -> Mode
    ensures count { result ≡ (P.table protocol.now).count }
    ensures covered { IsCovered (P.table protocol.now) }
{
    protocol.count()
}

/// Compares a protocol with its drawing.
fn is_drawn<P: Covered>(
    rt: &impl Abort,
    alloc: Global,
    protocol: &P,
    drawing: Drawing,
) -> Result<(), Fail> {
    let Drawing {
        count,
        compatibility,
        conversion,
        rules,
        update,
    } = drawing;
    same!(rt; covered_count(protocol), count);
    same!(rt;
        drawn_compatibility(alloc, protocol)?.as_str(),
        compatibility
    );
    same!(rt; drawn_conversion(alloc, protocol)?.as_str(), conversion);
    same!(rt; drawn_rules(alloc, protocol, ROWS)?.as_str(), rules);
    same!(rt;
        drawn_rules(alloc, protocol, &[Row::Update])?.as_str(),
        update
    );
    Ok(())
}

#[test]
fn key_value_locking(rt: HostRuntime) -> Result<(), Fail> {
    is_drawn(&rt, rt.alloc(), &Kvl, KVL)
}

#[test]
fn key_value_locking_with_updates(rt: HostRuntime) -> Result<(), Fail> {
    is_drawn(&rt, rt.alloc(), &KvlUpdate, KVL_UPDATE)
}

#[test]
fn index_specific_locking(rt: HostRuntime) -> Result<(), Fail> {
    is_drawn(&rt, rt.alloc(), &Im, IM)
}

#[test]
fn range_key_locking(rt: HostRuntime) -> Result<(), Fail> {
    is_drawn(&rt, rt.alloc(), &RangeKey, RANGE_KEY)
}

#[test]
fn a_reference_is_its_protocol(rt: HostRuntime) -> Result<(), Fail> {
    is_drawn(&rt, rt.alloc(), &&Kvl, KVL)
}

#[test]
fn rows_of_key_value_locking(rt: HostRuntime) -> Result<(), Fail> {
    let rows: [u16; 6] = [0, 32, 56, 52, 60, 62];
    for requested in 0..6_u8 {
        same!(rt; Kvl.row(requested), rows[requested as usize]);
        same!(rt; KvlUpdate.row(requested), rows[requested as usize]);
    }
    Ok(())
}

#[test]
fn updates_are_offered_by_one(rt: HostRuntime) -> Result<(), Fail> {
    assert!(rt; KvlUpdate.updates());
    assert!(rt; (&KvlUpdate).updates());
    assert!(rt; !Kvl.updates());
    assert!(rt; !Im.updates());
    assert!(rt; !RangeKey.updates());
    Ok(())
}

#[test]
fn numbers_that_are_no_modes_ask_nothing(rt: HostRuntime) {
    assert_eq!(rt; name_or_empty(&Kvl, 0), "none");
    assert_eq!(rt; name_or_empty(&Kvl, 5), "X");
    assert_eq!(rt; name_or_empty(&Kvl, 6), "");
    assert!(rt; asked(&Kvl, Row::Insert, Side::Next, 0) == Some((IX, Span::Instant)));
    assert!(rt; asked(&Kvl, Row::Insert, Side::Next, 6).is_none());
    assert_eq!(rt; converted(&Kvl, IX, S), SIX);
    assert_eq!(rt; converted(&Kvl, IX, 6), 0);
    assert_eq!(rt; converted(&Kvl, 6, S), 0);
}

#[test]
fn requests_for_an_instant_are_not_kept(rt: HostRuntime) {
    assert_eq!(rt; mode_after(&Kvl, S, Row::Insert, Side::Next, S), S);
    assert_eq!(rt; mode_after(&Kvl, IX, Row::FetchHit, Side::Current, 0), SIX);
    assert_eq!(rt; mode_after(&Kvl, IX, Row::FetchHit, Side::Next, 0), IX);
}

#[test]
fn a_lock_lets_through_what_it_does_not_conflict_with(rt: HostRuntime) {
    let requester = Requester {
        row: Row::FetchHit,
        side: Side::Current,
        own: 0,
        own_next: 0,
    };
    assert!(rt; is_open(&Kvl, S, requester));
    assert!(rt; !is_open(&Kvl, IX, requester));
    let own = Requester {
        own: IX,
        ..requester
    };
    assert!(rt; !is_open(&Kvl, S, own));
}
