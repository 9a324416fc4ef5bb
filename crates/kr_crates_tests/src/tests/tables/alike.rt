//! Which changed tables are alike with the table that they were made from, compared with what was worked out by hand.
//!
//! Modes of key-value locking: IS is 1, IX 2, S 3, SIX 4, X 5. Those of index-specific locking: S is 1, X 2.
use kr_alike::{alike, alike_if_safe};
use kr_change::{Change, Changed, changes_of};
use kr_decide::Safe;
use kr_kinds::Gone;
use kr_model::{Row, Side, Span};
use kr_protocol::{Im, Kvl, KvlUpdate, Protocol};
use std::alloc::Global;
use std::process::Abort;
use std::test::Fail;

/// No step requests IS or comes to it by a conversion.
#[rattlefmt::skip]
const NOBODY_HOLDS: [Change; 2] = [
    Change::Compatible { requested: 1, held: 2, is_compatible: false },
    Change::Convert { held: 1, requested: 2, mode: 5 },
];

/// Who holds X or SIX on a name is alone there, so it may as well hold the other.
#[rattlefmt::skip]
const ALONE: [Change; 2] = [
    Change::Convert { held: 5, requested: 3, mode: 4 },
    Change::Convert { held: 4, requested: 2, mode: 5 },
];

/// Another reader is blocked, or a writer is let in beside a reader.
#[rattlefmt::skip]
const TOLD_APART: [Change; 3] = [
    Change::Compatible { requested: 3, held: 3, is_compatible: false },
    Change::Convert { held: 3, requested: 3, mode: 5 },
    Change::Convert { held: 3, requested: 2, mode: 2 },
];

/// An insert requests S on the next name where it holds X.
#[rattlefmt::skip]
const UNDER_X: Change = Change::Request { row: Row::Insert, side: Side::Next, own_next: Some(4), request: Some((1, Span::Instant)) };

/// An insert requests S on the next name where it holds nothing.
#[rattlefmt::skip]
const UNDER_NONE: Change = Change::Request { row: Row::Insert, side: Side::Next, own_next: Some(1), request: Some((1, Span::Instant)) };

/// Whether a protocol with one entry changed is alike with it.
fn is_alike<P: Protocol>(
    rt: &impl Abort,
    alloc: Global,
    protocol: &P,
    change: Change,
) -> Result<bool, Fail> {
    let gone = Gone(protocol);
    let Some(changed) = Changed::new(&gone, change) else {
        panic!(rt; "no change of the table");
    };
    Ok(alike(alloc, protocol, &changed)?)
}

#[test]
fn changed_tables_are_alike_or_not(rt: HostRuntime) -> Result<(), Fail> {
    for change in NOBODY_HOLDS {
        same!(rt; is_alike(&rt, rt.alloc(), &Kvl, change)?, true, change);
    }
    for change in ALONE {
        same!(rt; is_alike(&rt, rt.alloc(), &Kvl, change)?, true, change);
    }
    for change in TOLD_APART {
        same!(rt; is_alike(&rt, rt.alloc(), &Kvl, change)?, false, change);
    }
    same!(rt; is_alike(&rt, rt.alloc(), &Im, UNDER_X)?, true);
    same!(rt; is_alike(&rt, rt.alloc(), &Im, UNDER_NONE)?, false);
    Ok(())
}

#[test]
fn bundled_tables_are_alike_or_not(rt: HostRuntime) -> Result<(), Fail> {
    same!(rt; alike(rt.alloc(), &Kvl, &Kvl)?, true);
    same!(rt; alike(rt.alloc(), &Kvl, &KvlUpdate)?, false);
    Ok(())
}

/// How many changes of a safe protocol are alike with it: by all requests, and by those alone that may come.
fn counts<P: Protocol>(
    rt: &impl Abort,
    alloc: Global,
    protocol: P,
) -> Result<(usize, usize), Fail> {
    let Ok(safe) = Safe::new(alloc, protocol) else {
        panic!(rt; "not safe");
    };
    let (mut all, mut coming): (usize, usize) = (0, 0);
    let gone = Gone(&safe);
    for change in &changes_of(alloc, &safe)? {
        let Some(changed) = Changed::new(&gone, *change) else {
            panic!(rt; "no change of the table");
        };
        if alike(alloc, &safe, &changed)? {
            all = all.saturating_add(1);
        }
        if alike_if_safe(alloc, &safe, &changed)? {
            coming = coming.saturating_add(1);
        }
    }
    Ok((all, coming))
}

/// The counts leave no change undecided: scripts tell each of the others apart. examples/suites has those of the other tables that
/// come with the checker; of some of those changes the second call alone finds that they are alike.
#[test]
fn changes_that_no_schedule_tells_apart_are_alike(rt: HostRuntime) -> Result<(), Fail> {
    same!(rt; counts(&rt, rt.alloc(), Im)?, (8, 8));
    Ok(())
}
