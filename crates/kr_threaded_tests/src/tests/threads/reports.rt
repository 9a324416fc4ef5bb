//! Whole reports of runs whose history doesn't depend on how threads take turns.

use super::{done_by, done_with_updates, shown_by};
use kr_report::{Threaded, report_threads, report_threads_shown};
use kr_serial::{Verdict, judge};
use kr_threads::Passage;
use std::alloc::Global;
use std::test::Fail;

/// The steps of a script, by how many workers it is run, and the report.
#[derive(Clone, Copy)]
struct Run {
    steps: &'static str,
    workers: usize,
    report: &'static str,
}

/// One worker does an insert and its commit.
const AN_INSERT: Run = Run {
    steps: "[[1,\"insert\",15,5],[1,\"commit\"]]",
    workers: 1,
    report: "{\"faults\":[],\"history\":[[[1,\"insert\",15,5],[\"done\"]],[[1,\"commit\"],[\"committed\"]]],\"index\":[[10,1],[15,5],[20,2],[30,3]],\"unfinished\":[],\"verdict\":[\"serial\"]}",
};

/// A step after its transaction's end is refused, noted with its number and left out.
const A_REFUSED_STEP: Run = Run {
    steps: "[[1,\"fetch\",10],[1,\"commit\"],[1,\"fetch\",20]]",
    workers: 1,
    report: "{\"faults\":[[1,3,[\"refused\",1,\"Ended\"]]],\"history\":[[[1,\"fetch\",10],[\"found\",1]],[[1,\"commit\"],[\"committed\"]]],\"index\":[[10,1],[20,2],[30,3]],\"unfinished\":[],\"verdict\":[\"serial\"]}",
};

/// A transaction that is active after its last step is aborted, before the worker does the next.
const A_CLOSING_ABORT: Run = Run {
    steps: "[[2,\"insert\",15,5],[1,\"fetch\",15],[1,\"commit\"]]",
    workers: 1,
    report: "{\"faults\":[],\"history\":[[[2,\"insert\",15,5],[\"done\"]],[[2,\"abort\"],[\"aborted\"]],[[1,\"fetch\",15],[\"none\"]],[[1,\"commit\"],[\"committed\"]]],\"index\":[[10,1],[20,2],[30,3]],\"unfinished\":[],\"verdict\":[\"serial\"]}",
};

/// Sixty-four workers, of which one has a transaction to do.
const IDLE_WORKERS: Run = Run {
    steps: "[[7,\"delete\",20],[7,\"commit\"]]",
    workers: 64,
    report: "{\"faults\":[],\"history\":[[[7,\"delete\",20],[\"deleted\",2]],[[7,\"commit\"],[\"committed\"]]],\"index\":[[10,1],[30,3]],\"unfinished\":[],\"verdict\":[\"serial\"]}",
};

/// An empty script.
const NO_STEPS: Run = Run {
    steps: "[]",
    workers: 2,
    report: "{\"faults\":[],\"history\":[],\"index\":[[10,1],[20,2],[30,3]],\"unfinished\":[],\"verdict\":[\"serial\"]}",
};

/// Three changes are undone, the newest first. The commit between them is refused, and so is what would undo a
/// fourth; both are noted. The transaction is active still, and is aborted.
const CHANGES_TAKEN_BACK: Run = Run {
    steps: "[[1,\"update\",20,9],[1,\"insert\",25,5],[1,\"update\",25,6],[1,\"back\"],[1,\"commit\"],[1,\"back\"],[1,\"back\"],[1,\"back\"],[2,\"fetch\",25],[2,\"fetch\",20],[2,\"commit\"]]",
    workers: 1,
    report: "{\"faults\":[[1,5,[\"refused\",8,\"RollingBack\"]],[1,8,[\"refused\",9,\"NothingLeft\"]]],\"history\":[[[1,\"update\",20,9],[\"updated\",2]],[[1,\"insert\",25,5],[\"done\"]],[[1,\"update\",25,6],[\"updated\",5]],[[1,\"back\"],[\"undone\",2]],[[1,\"back\"],[\"undone\",1]],[[1,\"back\"],[\"undone\",0]],[[1,\"abort\"],[\"aborted\"]],[[2,\"fetch\",25],[\"none\"]],[[2,\"fetch\",20],[\"found\",2]],[[2,\"commit\"],[\"committed\"]]],\"index\":[[10,1],[20,2],[30,3]],\"unfinished\":[],\"verdict\":[\"serial\"]}",
};

fn report_of(alloc: Global, done: &Threaded) -> Result<String, Fail> {
    let verdict = judge(alloc, &done.ran)?;
    Ok(report_threads(alloc, done, &verdict)?)
}

#[test]
fn runs(rt: HostRuntime) -> Result<(), Fail> {
    let alloc = rt.alloc();
    for row in [
        AN_INSERT,
        A_REFUSED_STEP,
        A_CLOSING_ABORT,
        IDLE_WORKERS,
        NO_STEPS,
    ] {
        let done = done_by(&rt, alloc, row.steps, row.workers, &Passage)?;
        assert_eq!(rt; report_of(alloc, &done)?.as_str(), row.report);
    }
    Ok(())
}

#[test]
fn what_is_shown_of_runs(rt: HostRuntime) -> Result<(), Fail> {
    let alloc = rt.alloc();
    for row in [AN_INSERT, A_REFUSED_STEP, A_CLOSING_ABORT, NO_STEPS] {
        let shown = shown_by(&rt, alloc, row.steps, row.workers, &Passage)?;
        let report = report_threads_shown(alloc, &shown, &Verdict::Serial)?;
        assert_eq!(rt; report.as_str(), row.report);
    }
    Ok(())
}

#[test]
fn a_run_with_updates(rt: HostRuntime) -> Result<(), Fail> {
    let alloc = rt.alloc();
    let row = CHANGES_TAKEN_BACK;
    let done = done_with_updates(&rt, alloc, row.steps, row.workers, &Passage)?;
    assert_eq!(rt; report_of(alloc, &done)?.as_str(), row.report);
    Ok(())
}
