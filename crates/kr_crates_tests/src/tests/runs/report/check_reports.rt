use kr_cases::FailedCase;
use kr_model::{Cover, Origin, Requester, Row, Rule, Side};
use kr_protocol::{Im, Kvl, KvlUpdate, Protocol, RangeKey};
use kr_report::report_check;
use std::alloc::{AllocError, Global};
use std::process::Abort;

const A_SPLIT: FailedCase = FailedCase {
    case: Rule::Split,
    cover: Cover::ReadGap,
    from: Origin::Insert {
        own_next: 3,
        own: 0,
    },
    mode: 2,
    hole: Requester {
        row: Row::Insert,
        side: Side::Next,
        own: 0,
        own_next: 0,
    },
};

const A_FETCHED_KEY: FailedCase = FailedCase {
    case: Rule::FetchHit,
    cover: Cover::ReadKey,
    from: Origin::Own(4),
    mode: 4,
    hole: Requester {
        row: Row::Delete,
        side: Side::Current,
        own: 1,
        own_next: 5,
    },
};

const AN_UPDATE: FailedCase = FailedCase {
    case: Rule::Update,
    cover: Cover::UpdatedKey,
    from: Origin::Own(0),
    mode: 2,
    hole: Requester {
        row: Row::Update,
        side: Side::Current,
        own: 0,
        own_next: 0,
    },
};

/// A check that found these failed cases, and its report.
#[derive(Clone, Copy)]
struct Found<'a> {
    name: &'a str,
    failed: &'a [FailedCase],
    report: &'a str,
}

#[rattlefmt::skip]
const OF_KVL: &[Found] = &[
    Found { name: "accepted",      failed: &[],              report: r#"{"accepted":true,"cases":244,"modes":5}"# },
    Found { name: "a split",       failed: &[A_SPLIT],       report: r#"{"accepted":false,"cases":244,"failed":[{"case":"G7","cover":"RG","from":["S","none"],"mode":"IX","open":["insert","next","none","none"]}],"modes":5}"# },
    Found { name: "a fetched key", failed: &[A_FETCHED_KEY], report: r#"{"accepted":false,"cases":244,"failed":[{"case":"G2","cover":"RK","from":["SIX"],"mode":"SIX","open":["delete","current","IS","X"]}],"modes":5}"# },
];

#[rattlefmt::skip]
const OF_KVL_UPDATE: &[Found] = &[
    Found { name: "accepted",  failed: &[],          report: r#"{"accepted":true,"cases":275,"modes":5}"# },
    Found { name: "an update", failed: &[AN_UPDATE], report: r#"{"accepted":false,"cases":275,"failed":[{"case":"G9","cover":"UK","from":["none"],"mode":"IX","open":["update","current","none","none"]}],"modes":5}"# },
];

#[rattlefmt::skip]
const OF_IM: &[Found] = &[
    Found { name: "accepted", failed: &[], report: r#"{"accepted":true,"cases":61,"modes":2}"# },
];

#[rattlefmt::skip]
const OF_RANGE_KEY: &[Found] = &[
    Found { name: "accepted", failed: &[], report: r#"{"accepted":true,"cases":988,"modes":11}"# },
];

/// Compares the report of each check of a protocol.
fn each_is_reported<P: Protocol>(
    rt: &impl Abort,
    alloc: Global,
    protocol: &P,
    rows: &[Found],
) -> Result<(), AllocError> {
    for row in rows {
        let report = report_check(alloc, protocol, row.failed)?;
        assert_eq!(rt; report.as_str(), row.report, "{}", row.name);
    }
    Ok(())
}

#[test]
fn checks_are_reported(rt: HostRuntime) -> Result<(), AllocError> {
    let alloc = rt.alloc();
    each_is_reported(&rt, alloc, &Kvl, OF_KVL)?;
    each_is_reported(&rt, alloc, &KvlUpdate, OF_KVL_UPDATE)?;
    each_is_reported(&rt, alloc, &Im, OF_IM)?;
    each_is_reported(&rt, alloc, &RangeKey, OF_RANGE_KEY)
}
