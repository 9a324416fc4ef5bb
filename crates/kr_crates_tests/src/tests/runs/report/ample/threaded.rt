//! Reports of runs in several threads, with so many steps that were done and as many that weren't.
use super::lists::{Element, list_text};
use super::numbers::{key_at, txn_at};
use super::steps::{event_at, step_text};
use kr_model::{Refusal, Reply, Txns};
use kr_protocol::Kvl;
use kr_report::{Answered, StepFault, Threaded, WhyNotDone, report_threads};
use kr_serial::{Verdict, run_any};
use std::alloc::{AllocError, Global};

/// Why the step at an index wasn't done: a deadlock of two, or a refusal.
fn cause_at(alloc: Global, i: usize) -> Result<WhyNotDone, AllocError> {
    if i % 2 == 0 {
        let txns = vec![in alloc; txn_at(i), 8]?;
        Ok(WhyNotDone::Deadlock(Txns::from_vec(txns)))
    } else {
        Ok(WhyNotDone::Refused(Reply::Refused(Refusal::Busy)))
    }
}

/// The text of that cause.
fn cause_text(alloc: Global, i: usize) -> Result<String, AllocError> {
    if i % 2 == 0 {
        let txn = txn_at(i);
        format!(in alloc; "[\"deadlock\",[{txn},8]]")
    } else {
        String::from_str(alloc, "[\"refused\",2,\"Busy\"]")
    }
}

/// The text of a step that wasn't done.
pub fn missed_text(alloc: Global, i: usize) -> Result<String, AllocError> {
    let cause = cause_text(alloc, i)?;
    let (txn, step) = (txn_at(i), key_at(i));
    format!(in alloc; "[{txn},{step},{cause}]")
}

/// The text of a step that was done, with its reply.
pub fn done_text(alloc: Global, i: usize) -> Result<String, AllocError> {
    let step = step_text(alloc, event_at(true, i))?;
    let value = key_at(i);
    format!(in alloc; "[{step},[\"found\",{value}]]")
}

/// The steps that weren't done.
fn faults(alloc: Global, count: usize) -> Result<Vec<StepFault>, AllocError> {
    let mut faults = Vec::new(alloc);
    for i in 0..count {
        let cause = cause_at(alloc, i)?;
        faults.push(StepFault {
            txn: txn_at(i),
            step: key_at(i),
            op: event_at(true, i).op,
            cause,
        })?;
    }
    Ok(faults)
}

/// The steps that were done, with their replies.
fn history(alloc: Global, count: usize) -> Result<Vec<Answered>, AllocError> {
    let mut history = Vec::new(alloc);
    for i in 0..count {
        history.push(Answered {
            event: event_at(true, i),
            reply: Reply::Found(key_at(i)),
        })?;
    }
    Ok(history)
}

/// The run.
fn threaded(alloc: Global, count: usize) -> Result<Threaded, AllocError> {
    let ran = run_any(alloc, &Kvl, &[(7, 0)], &[])?;
    let history = history(alloc, count)?;
    let faults = faults(alloc, count)?;
    Ok(Threaded {
        history,
        ran,
        faults,
    })
}

/// The text of the report.
fn report_text(alloc: Global, count: usize) -> Result<String, AllocError> {
    let faults = list_text(alloc, Element::Missed, count)?;
    let history = list_text(alloc, Element::Done, count)?;
    format!(in alloc;
        "{{\"faults\":[{faults}],\"history\":[{history}],\"index\":[[7,0]],\"unfinished\":[],\"verdict\":[\"serial\"]}}"
    )
}

/// Whether the report of the run is this.
pub fn is_reported(alloc: Global, count: usize) -> Result<bool, AllocError> {
    let report = report_threads(alloc, &threaded(alloc, count)?, &Verdict::Serial)?;
    let text = report_text(alloc, count)?;
    Ok(report.as_str() == text.as_str())
}
