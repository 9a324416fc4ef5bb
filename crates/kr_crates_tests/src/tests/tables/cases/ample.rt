//! Checks with ample memory, none of which answers out of memory: accepted and rejected, each again and again, by reference,
//! and once more when accepted.
use super::{
    ALWAYS_IX, HOLDS_NOTHING, NEXT_INSTANT, UNDER_IX, open_gap, open_key, open_split, with_change,
};
use kr_cases::{FailedCase, Rejected, WhyRejected, check};
use kr_kinds::Gone;
use kr_model::{Cover, Row, Rule};
use kr_protocol::{Im, Kvl, KvlUpdate, Protocol, RangeKey};
use std::alloc::Global;
use std::process::Abort;

/// How many cases fail, and the first of them: none where the protocol is accepted.
fn failed<P: Protocol>(rt: &impl Abort, alloc: Global, protocol: P) -> (usize, Option<FailedCase>) {
    match check(alloc, protocol) {
        Ok(_) => (0, None),
        Err(Rejected { protocol: _, cause }) => match cause {
            WhyRejected::Failed(failed) => (failed.len(), failed.first().copied()),
            WhyRejected::Memory => panic!(rt; "out of memory"),
        },
    }
}

#[test]
fn accepted_again_and_again(rt: HostRuntime) {
    let alloc = rt.alloc();
    for _ in 0..20 {
        same!(rt; failed(&rt, alloc, &Kvl), (0, None));
        same!(rt; failed(&rt, alloc, KvlUpdate), (0, None));
        same!(rt; failed(&rt, alloc, &&Im), (0, None));
        same!(rt; failed(&rt, alloc, RangeKey), (0, None));
        match check(alloc, Kvl) {
            Ok(checked) => same!(rt; failed(&rt, alloc, checked), (0, None)),
            Err(_) => panic!(rt; "rejected"),
        }
    }
}

#[test]
fn rejected_again_and_again(rt: HostRuntime) {
    let alloc = rt.alloc();
    let split = open_split();
    let gap = open_gap(0, Row::FetchMiss);
    let key = open_key(Rule::Insert, Cover::InsertedKey, HOLDS_NOTHING);
    let (plain, updating) = (Gone(Kvl), Gone(KvlUpdate));
    for _ in 0..20 {
        let always_ix = with_change(&rt, &plain, ALWAYS_IX);
        let under_ix = with_change(&rt, &updating, UNDER_IX);
        let next_instant = with_change(&rt, &plain, NEXT_INSTANT);
        same!(rt; failed(&rt, alloc, always_ix), (15, Some(split)));
        same!(rt; failed(&rt, alloc, &under_ix), (12, Some(key)));
        same!(rt; failed(&rt, alloc, &next_instant), (4, Some(gap)));
    }
}
