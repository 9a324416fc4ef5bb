//! Decisions on whole protocols, compared with what was worked out by hand.
//!
//! Modes of key-value locking: IS is 1, IX 2, S 3, SIX 4, X 5.
use kr_change::{Change, Changed};
use kr_decide::{Decision, Hole, Rejected, Safe, Survey, Way, WhyRejected, decide};
use kr_kinds::Gone;
use kr_model::{Cover, GapUse, KeyUse, LockState, Row, Side, Span};
use kr_protocol::{Im, Kvl, KvlUpdate, Protocol, RangeKey, SafeProtocol};
use kr_table::read;
use std::alloc::Global;
use std::process::Abort;
use std::test::Fail;

/// SIX held and IX requested make IS: 19 of 244 cases fail, and nobody comes to them.
#[rattlefmt::skip]
const SIX_TO_IS: Change = Change::Convert { held: 4, requested: 2, mode: 1 };

/// A delete doesn't keep its lock on the next name.
#[rattlefmt::skip]
const NEXT_INSTANT: Change = Change::Request { row: Row::Delete, side: Side::Next, own_next: None, request: Some((5, Span::Instant)) };

/// A table that is safe only because no lock of M2 that has nothing to protect is on an absent key: a request of M2 conflicts
/// with every lock, and each delete requests M2, so nobody takes the key away beside such a lock.
const NO_M2_ON_ABSENT: &str = r#"
format = 2
modes = ["M1", "M2"]

[compatible]
M1 = ["M1", "M2"]
M2 = []

[convert]
M1 = { M1 = "M2", M2 = "M2" }
M2 = { M1 = "M1", M2 = "M2" }

[rules.fetch-hit]
current = [{ mode = "M2", span = "commit" }]

[rules.fetch-miss]
next = [{ mode = "M2", span = "commit" }]

[rules.scan-key]
current = [{ mode = "M2", span = "commit" }]

[rules.scan-stop]
next = [{ mode = "M2", span = "commit" }]

[rules.insert]
next = [{ mode = "M2", span = "commit" }]
current = [{ own = ["none", "M1"], mode = "M1", span = "commit" }, { mode = "M2", span = "commit" }]

[rules.delete]
next = [{ own = ["none"], mode = "M2", span = "commit" }, { mode = "M1", span = "commit" }]
current = [{ mode = "M2", span = "commit" }]

[rules.update]
current = [{ mode = "M2", span = "commit" }]
"#;

/// What a transaction has where it has requested nothing.
#[rattlefmt::skip]
const NOTHING: LockState = LockState { mode: 0, key: KeyUse::Free, gap: GapUse::Free, deleted: false };

/// What a transaction has that has deleted a key in the gap, and has no lock to protect it.
#[rattlefmt::skip]
const UNPROTECTED: LockState = LockState { mode: 0, key: KeyUse::Free, gap: GapUse::Deleted, deleted: false };

/// Key-value locking with one entry changed.
fn changed<'a>(rt: &impl Abort, kvl: &'a Gone<Kvl>, change: Change) -> Changed<'a, Gone<Kvl>> {
    let Some(changed) = Changed::new(kvl, change) else {
        panic!(rt; "no change of the table");
    };
    changed
}

/// Whether the decision calls a protocol safe.
fn is_decided_safe<P: Protocol>(alloc: Global, protocol: &P) -> Result<bool, Fail> {
    Ok(matches!(decide(alloc, protocol)?, Decision::Safe))
}

/// The mode that a safe protocol requests for an insert of a key: one that isn't known to be safe can't be asked.
fn insert_of<P: SafeProtocol>(protocol: &P) -> Option<(u8, Span)> {
    protocol.ask(Row::Insert, Side::Current, 0)
}

/// The hole of a delete that keeps no lock: a fetch that finds nothing, in the gap where a key was deleted.
fn is_unlocked_delete(rt: &impl Abort, hole: &Hole) {
    same!(rt; hole.row, Row::FetchMiss);
    same!(rt; hole.side, Side::Next);
    same!(rt; hole.own, NOTHING);
    same!(rt; hole.other, UNPROTECTED);
    same!(rt; hole.next, NOTHING);
    let Some(pair) = hole.pairs.get(hole.at) else {
        panic!(rt; "no pair there");
    };
    same!(rt; pair.own, hole.own);
    same!(rt; pair.other, hole.other);
    assert!(rt; matches!(pair.way, Way::Turned(_)));
}

#[test]
fn bundled_protocols_are_safe(rt: HostRuntime) -> Result<(), Fail> {
    let alloc = rt.alloc();
    same!(rt; is_decided_safe(alloc, &Kvl)?, true);
    same!(rt; is_decided_safe(alloc, &KvlUpdate)?, true);
    same!(rt; is_decided_safe(alloc, &Im)?, true);
    same!(rt; is_decided_safe(alloc, &RangeKey)?, true);
    Ok(())
}

#[test]
fn safe_though_cases_fail(rt: HostRuntime) -> Result<(), Fail> {
    let alloc = rt.alloc();
    let kvl = Gone(Kvl);
    let protocol = changed(&rt, &kvl, SIX_TO_IS);
    same!(rt; is_decided_safe(alloc, &protocol)?, true);
    match Safe::new(alloc, protocol) {
        Ok(safe) => {
            same!(rt; insert_of(&safe), Some((2, Span::Commit)));
            same!(rt; safe.convert(4, 2), 1);
            same!(rt; safe.ok(1, 4), true);
            same!(rt; safe.count(), 5);
            same!(rt; safe.updates(), false);
            same!(rt; safe.name(4), "SIX");
            same!(rt; safe.row(5), 62);
            same!(rt; safe.protocol().count(), 5);
            same!(rt; safe.into_inner().convert(4, 2), 1);
        }
        Err(_) => panic!(rt; "not safe"),
    }
    Ok(())
}

#[test]
fn safe_as_no_idle_lock_is_on_an_absent_key(rt: HostRuntime) -> Result<(), Fail> {
    let alloc = rt.alloc();
    let table = read(alloc, NO_M2_ON_ABSENT.as_bytes())?;
    same!(rt; is_decided_safe(alloc, &table)?, true);
    Ok(())
}

#[test]
fn unsafe_by_an_unlocked_delete(rt: HostRuntime) -> Result<(), Fail> {
    let alloc = rt.alloc();
    match decide(alloc, &changed(&rt, &Gone(Kvl), NEXT_INSTANT))? {
        Decision::Safe => panic!(rt; "safe"),
        Decision::Unsafe(hole) => is_unlocked_delete(&rt, &hole),
    }
    match Safe::new(alloc, changed(&rt, &Gone(Kvl), NEXT_INSTANT)) {
        Ok(_) => panic!(rt; "safe"),
        Err(Rejected { protocol, cause }) => {
            same!(rt; protocol.count(), 5);
            match cause {
                WhyRejected::Hole(hole) => is_unlocked_delete(&rt, &hole),
                WhyRejected::Memory => panic!(rt; "out of memory"),
            }
        }
    }
    Ok(())
}

/// With which modes a transaction can protect an inserted key and a deletion, 0 for none, and which let in what they must
/// keep out, of both.
fn told(survey: &Survey) -> [[bool; 6]; 4] {
    let mut told = [[false; 6]; 4];
    for mode in 0..6 {
        let at = mode as usize;
        told[0][at] = survey.is_held(Cover::InsertedKey, mode);
        told[1][at] = survey.has_hole(Cover::InsertedKey, mode);
        told[2][at] = survey.is_held(Cover::DeletedGap, mode);
        told[3][at] = survey.has_hole(Cover::DeletedGap, mode);
    }
    told
}

#[test]
fn surveys(rt: HostRuntime) -> Result<(), Fail> {
    let alloc = rt.alloc();
    let survey = Survey::of(alloc, &Kvl)?;
    same!(rt; survey.is_safe(), true);
    let told_kvl = told(&survey);
    same!(rt; told_kvl[0], [false, false, true, false, true, true]);
    same!(rt; told_kvl[1], [false; 6]);
    same!(rt; told_kvl[2], [false, false, false, false, false, true]);
    same!(rt; told_kvl[3], [false; 6]);
    same!(rt; survey.is_held(Cover::UpdatedKey, 5), false);
    same!(rt; survey.is_held(Cover::ReadKey, 16), false);
    same!(rt; survey.into_hole().is_none(), true);
    let survey = Survey::of(alloc, &changed(&rt, &Gone(Kvl), NEXT_INSTANT))?;
    same!(rt; survey.is_safe(), false);
    let told_instant = told(&survey);
    same!(rt; told_instant[2], [true, false, true, true, true, true]);
    same!(rt; told_instant[3], [true, false, true, true, false, false]);
    match survey.into_hole() {
        Some(hole) => is_unlocked_delete(&rt, &hole),
        None => panic!(rt; "no hole"),
    }
    Ok(())
}

/// The modes tested beside each held one, and those requested by who holds one, as bits: those of mode 0 first.
fn met(survey: &Survey) -> [[u8; 6]; 2] {
    let mut met = [[0; 6]; 2];
    for first in 0..6 {
        for second in 0..6 {
            if survey.is_tested(first, second) {
                met[0][first as usize] |= 1 << second;
            }
            if survey.is_asked(first, second) {
                met[1][first as usize] |= 1 << second;
            }
        }
    }
    met
}

/// Nobody requests IS. Who comes to SIX held IX on the key, beside which another may hold S and no more.
#[test]
fn surveys_of_two_modes(rt: HostRuntime) -> Result<(), Fail> {
    let alloc = rt.alloc();
    let survey = Survey::of(alloc, &Kvl)?;
    let of_kvl = met(&survey);
    same!(rt; of_kvl[0], [0, 0, 0b111101, 0b111101, 0b1001, 0b111101]);
    same!(rt; of_kvl[1], [0b101100, 0, 0b101100, 0b101100, 0b101100, 0b101100]);
    same!(rt; survey.is_tested(16, 0), false);
    same!(rt; survey.is_tested(0, 16), false);
    same!(rt; survey.is_asked(16, 16), false);
    Ok(())
}
