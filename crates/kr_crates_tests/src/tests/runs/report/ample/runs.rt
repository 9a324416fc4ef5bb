//! Reports of runs with boundary numbers: a transaction inserts a key, updates it, fetches it and scans it, another's fetch is
//! blocked, and the update is undone.
use super::numbers::{key_at, txn_at};
use kr_model::{Event, Op, Txn};
use kr_protocol::KvlUpdate;
use kr_report::report_run;
use kr_serial::{Verdict, run_any};
use std::alloc::{AllocError, Global};

/// The steps of the run.
fn events_of(txn: Txn, key: u64, value: u64) -> [Event; 6] {
    [
        Event {
            txn,
            op: Op::Insert(key, !value),
        },
        Event {
            txn,
            op: Op::Update(key, value),
        },
        Event {
            txn,
            op: Op::Fetch(key),
        },
        Event {
            txn,
            op: Op::Scan(key, key),
        },
        Event {
            txn: 8,
            op: Op::Fetch(key),
        },
        Event { txn, op: Op::Back },
    ]
}

/// The report of the run of steps on an empty index.
fn report_of(alloc: Global, events: &[Event]) -> Result<String, AllocError> {
    let ran = run_any(alloc, &KvlUpdate, &[], events)?;
    report_run(alloc, &KvlUpdate, &ran, &Verdict::Serial)
}

/// The text of the replies.
fn replies_text(alloc: Global, txn: Txn, key: u64, value: u64) -> Result<String, AllocError> {
    let before = !value;
    format!(in alloc;
        "[\"done\"],[\"updated\",{before}],[\"found\",{value}],[\"rows\",[[{key},{value}]]],[\"blocked\",[{txn}]],[\"undone\",1]"
    )
}

/// The text of the report.
fn report_text(alloc: Global, txn: Txn, key: u64, value: u64) -> Result<String, AllocError> {
    let replies = replies_text(alloc, txn, key, value)?;
    let before = !value;
    format!(in alloc;
        "{{\"index\":[[{key},{before}]],\"locks\":[[{key},{txn},\"X\"]],\"replies\":[{replies}],\"unfinished\":[{txn}],\"verdict\":[\"serial\"]}}"
    )
}

/// Whether the report of the run is this. An index below 48 is for each number with each key and each value.
pub fn is_reported(alloc: Global, i: usize) -> Result<bool, AllocError> {
    let (txn, key, value) = (txn_at(i / 16), key_at(i / 4), key_at(i));
    let report = report_of(alloc, events_of(txn, key, value).as_slice())?;
    let text = report_text(alloc, txn, key, value)?;
    Ok(report.as_str() == text.as_str())
}
