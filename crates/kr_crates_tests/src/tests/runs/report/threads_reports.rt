use super::reports::{ran_between, rows, txns};
use kr_model::{Event, Op, Refusal, Reply, Txn};
use kr_report::{Answered, StepFault, Threaded, WhyNotDone, report_threads};
use kr_serial::{Ran, Replies, Verdict};
use std::alloc::{AllocError, Global};
use std::process::Abort;
use std::test::Fail;

/// A run that leaves this index, with no transaction unfinished; the report tells no more of it.
fn ran(alloc: Global, index: &str) -> Result<Ran, Fail> {
    let mut ran = ran_between(alloc, "[[1,1]]", index)?;
    ran.replies = Replies::from_vec(vec![in alloc; Reply::Absent]?);
    Ok(ran)
}

/// A step that was done, with its reply.
fn answered(txn: Txn, op: Op, reply: Reply) -> Answered {
    Answered {
        event: Event { txn, op },
        reply,
    }
}

/// An insert and its commit.
fn one_insert(alloc: Global) -> Result<Threaded, Fail> {
    let mut history = Vec::new(alloc);
    history.push(answered(1, Op::Insert(15, 5), Reply::Done))?;
    history.push(answered(1, Op::Commit, Reply::Committed))?;
    let ran = ran(alloc, "[[10,1],[15,5],[20,2],[30,3]]")?;
    Ok(Threaded {
        history,
        ran,
        faults: Vec::new(alloc),
    })
}

/// Compares the report of a run in threads.
fn reports(
    rt: &impl Abort,
    alloc: Global,
    threaded: &Threaded,
    verdict: &Verdict,
    report: &str,
) -> Result<(), AllocError> {
    let text = report_threads(alloc, threaded, verdict)?;
    assert_eq!(rt; text.as_str(), report);
    Ok(())
}

#[test]
fn reports_a_run_of_one_insert(rt: HostRuntime) -> Result<(), Fail> {
    let threaded = one_insert(rt.alloc())?;
    Ok(reports(
        &rt,
        rt.alloc(),
        &threaded,
        &Verdict::Serial,
        "{\"faults\":[],\"history\":[[[1,\"insert\",15,5],[\"done\"]],[[1,\"commit\"],[\"committed\"]]],\"index\":[[10,1],[15,5],[20,2],[30,3]],\"unfinished\":[],\"verdict\":[\"serial\"]}",
    )?)
}

/// Each step, by an index below 9.
fn event_at(i: usize) -> Event {
    match i {
        0 => Event {
            txn: 1,
            op: Op::Fetch(10),
        },
        1 => Event {
            txn: 4_294_967_295,
            op: Op::Scan(5, 18_446_744_073_709_551_615),
        },
        2 => Event {
            txn: 4_294_967_295,
            op: Op::Go,
        },
        3 => Event {
            txn: 0,
            op: Op::Insert(15, 7),
        },
        4 => Event {
            txn: 0,
            op: Op::Delete(15),
        },
        5 => Event {
            txn: 0,
            op: Op::Update(10, 18_446_744_073_709_551_615),
        },
        6 => Event {
            txn: 1,
            op: Op::Commit,
        },
        7 => Event {
            txn: 0,
            op: Op::Back,
        },
        _ => Event {
            txn: 0,
            op: Op::Abort,
        },
    }
}

/// Its reply.
fn reply_at(alloc: Global, i: usize) -> Result<Reply, AllocError> {
    match i {
        0 => Ok(Reply::Found(1)),
        1 => Ok(Reply::Going(10)),
        2 => rows(alloc, &[(10, 1)]),
        3 => Ok(Reply::Done),
        4 => Ok(Reply::Deleted(7)),
        5 => Ok(Reply::Updated(1)),
        6 => Ok(Reply::Committed),
        7 => Ok(Reply::Undone(2)),
        _ => Ok(Reply::Aborted),
    }
}

/// Each step with its reply.
fn each_step(alloc: Global) -> Result<Vec<Answered>, AllocError> {
    let mut steps = Vec::new(alloc);
    for i in 0..9 {
        let reply = reply_at(alloc, i)?;
        let event = event_at(i);
        steps.push(Answered { event, reply })?;
    }
    Ok(steps)
}

/// Each cause, by an index below 3, and two refusals.
fn cause_at(alloc: Global, i: usize) -> Result<WhyNotDone, AllocError> {
    match i {
        0 => Ok(WhyNotDone::Deadlock(txns(alloc, &[1, 3, 2])?)),
        1 => Ok(WhyNotDone::Refused(Reply::Refused(Refusal::NoScan))),
        _ => Ok(WhyNotDone::Refused(Reply::Refused(Refusal::NothingLeft))),
    }
}

/// The step that wasn't done for that cause: whose it is, its number and its operation.
fn missed_at(i: usize) -> (Txn, u64, Op) {
    match i {
        0 => (1, 2, Op::Insert(20, 2)),
        1 => (2, 18_446_744_073_709_551_615, Op::Go),
        _ => (2, 18_446_744_073_709_551_615, Op::Back),
    }
}

/// A step that wasn't done, for each cause.
fn each_cause(alloc: Global) -> Result<Vec<StepFault>, AllocError> {
    let mut faults = Vec::new(alloc);
    for i in 0..3 {
        let cause = cause_at(alloc, i)?;
        let (txn, step, op) = missed_at(i);
        faults.push(StepFault {
            txn,
            step,
            op,
            cause,
        })?;
    }
    Ok(faults)
}

/// A run of each step and each cause.
fn of_each_step(alloc: Global) -> Result<Threaded, Fail> {
    let mut ran = ran(alloc, "[[10,1]]")?;
    ran.unfinished = txns(alloc, &[2, 4_294_967_295])?;
    let history = each_step(alloc)?;
    let faults = each_cause(alloc)?;
    Ok(Threaded {
        history,
        ran,
        faults,
    })
}

const EACH_STEP: &str =
    "{\"faults\":[[1,2,[\"deadlock\",[1,3,2]]],[2,18446744073709551615,[\"refused\",3,\"NoScan\"]],[2,18446744073709551615,[\"refused\",9,\"NothingLeft\"]]],\"history\":[[[1,\"fetch\",10],[\"found\",1]],[[4294967295,\"scan\",5,18446744073709551615],[\"going\",10]],[[4294967295,\"go\"],[\"rows\",[[10,1]]]],[[0,\"insert\",15,7],[\"done\"]],[[0,\"delete\",15],[\"deleted\",7]],[[0,\"update\",10,18446744073709551615],[\"updated\",1]],[[1,\"commit\"],[\"committed\"]],[[0,\"back\"],[\"undone\",2]],[[0,\"abort\"],[\"aborted\"]]],\"index\":[[10,1]],\"unfinished\":[2,4294967295],\"verdict\":[\"not-serial\",1,1,[\"found\",1],[\"none\"]]}";

#[test]
fn reports_each_step_and_each_cause(rt: HostRuntime) -> Result<(), Fail> {
    let threaded = of_each_step(rt.alloc())?;
    let verdict = Verdict::NotSerial {
        txn: 1,
        operation: 1,
        given: Reply::Found(1),
        serial: Reply::None,
    };
    Ok(reports(&rt, rt.alloc(), &threaded, &verdict, EACH_STEP)?)
}
