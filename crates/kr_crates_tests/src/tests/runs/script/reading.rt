//! Scripts that are read.
use kr_model::{Event, Op, Txn};
use kr_script::read_script;
use std::alloc::{AllocError, Global};
use std::process::Abort;
use std::test::Fail;

pub const PHANTOM: &str =
    "{\"format\":1,\"opening\":[[10,1],[20,2],[30,3]],\"steps\":[[1,\"fetch\",15],[2,\"insert\",17,5]]}";

/// Each form of a step of format 1.
const FORMS: &[(Txn, Op)] = &[
    (7, Op::Fetch(1)),
    (7, Op::Scan(2, 3)),
    (7, Op::Go),
    (7, Op::Insert(4, 5)),
    (7, Op::Delete(6)),
    (7, Op::Commit),
    (7, Op::Abort),
];

/// Each form of format 2.
const LATER_FORMS: &[(Txn, Op)] = &[
    (7, Op::Fetch(1)),
    (7, Op::Scan(2, 3)),
    (7, Op::Go),
    (7, Op::Insert(4, 5)),
    (7, Op::Delete(6)),
    (7, Op::Commit),
    (7, Op::Abort),
    (7, Op::Update(8, 9)),
    (7, Op::Back),
];

/// A script's text, the pairs of its opening, and its steps.
type Read = (&'static str, &'static [(u64, u64)], &'static [(Txn, Op)]);

/// The phantom, the greatest numbers, and each form of a step, in a script whose members stand in the plain order, and one
/// where they don't.
const SCRIPTS: &[Read] = &[
    (
        PHANTOM,
        &[(10, 1), (20, 2), (30, 3)],
        &[(1, Op::Fetch(15)), (2, Op::Insert(17, 5))],
    ),
    (
        r#"{"steps":[[4294967295,"commit"]],"opening":[[0,0],[18446744073709551615,7]],"format":1}"#,
        &[(0, 0), (u64::MAX, 7)],
        &[(u32::MAX, Op::Commit)],
    ),
    (
        r#"{"format":1,"opening":[],"steps":[[7,"fetch",1],[7,"scan",2,3],[7,"go"],[7,"insert",4,5],[7,"delete",6],[7,"commit"],[7,"abort"]]}"#,
        &[],
        FORMS,
    ),
    (
        r#"{"steps":[[7,"fetch",1],[7,"scan",2,3],[7,"go"],[7,"insert",4,5],[7,"delete",6],[7,"commit"],[7,"abort"]],"opening":[],"format":1}"#,
        &[],
        FORMS,
    ),
    (
        r#"{"format":2,"opening":[],"steps":[[7,"fetch",1],[7,"scan",2,3],[7,"go"],[7,"insert",4,5],[7,"delete",6],[7,"commit"],[7,"abort"],[7,"update",8,9],[7,"back"]]}"#,
        &[],
        LATER_FORMS,
    ),
    (
        r#"{"steps":[[7,"fetch",1],[7,"scan",2,3],[7,"go"],[7,"insert",4,5],[7,"delete",6],[7,"commit"],[7,"abort"],[7,"update",8,9],[7,"back"]],"opening":[],"format":2}"#,
        &[],
        LATER_FORMS,
    ),
];

/// Compares the steps of a script.
fn are_steps(rt: &impl Abort, events: &[Event], steps: &[(Txn, Op)]) {
    assert_eq!(rt; events.len(), steps.len());
    for (event, (txn, op)) in events.iter().zip(steps) {
        assert!(rt; event.txn == *txn && event.op == *op);
    }
}

/// Compares what is read of a script.
fn reads(
    rt: &impl Abort,
    alloc: Global,
    text: &str,
    opening: &[(u64, u64)],
    steps: &[(Txn, Op)],
) -> Result<(), Fail> {
    let script = read_script(alloc, text.as_bytes())?;
    assert_eq!(rt; script.opening(), opening);
    are_steps(rt, script.steps(), steps);
    Ok(())
}

#[test]
fn reads_scripts(rt: HostRuntime) -> Result<(), Fail> {
    for (text, opening, steps) in SCRIPTS {
        reads(&rt, rt.alloc(), *text, *opening, *steps)?;
    }
    Ok(())
}

/// The pairs of the longest opening behind its first.
fn longest_opening(alloc: Global) -> Result<String, AllocError> {
    let mut text = String::new(alloc);
    for key in 1..100_000 {
        text.push_str(format!(in alloc; ",[{key},1]")?.as_str())?;
    }
    Ok(text)
}

/// The most steps behind the first.
fn most_steps(alloc: Global) -> Result<String, AllocError> {
    let mut text = String::new(alloc);
    for txn in 1..100_000 {
        text.push_str(format!(in alloc; ",[{txn},\"insert\",{txn},2]")?.as_str())?;
    }
    Ok(text)
}

/// The longest script.
fn longest(alloc: Global) -> Result<String, AllocError> {
    let opening = longest_opening(alloc)?;
    let steps = most_steps(alloc)?;
    format!(in alloc;
        "{{\"format\":1,\"opening\":[[0,0]{opening}],\"steps\":[[1,\"commit\"]{steps}]}}"
    )
}

/// Whether the last step of a script is this.
fn ends_with(events: &[Event], txn: Txn, op: Op) -> bool {
    match events.last() {
        Some(event) => event.txn == txn && event.op == op,
        None => false,
    }
}

#[test]
fn reads_the_longest_script(rt: HostRuntime) -> Result<(), Fail> {
    let text = longest(rt.alloc())?;
    let script = read_script(rt.alloc(), text.as_bytes())?;
    assert_eq!(rt; script.opening().len(), 100_000);
    assert_eq!(rt; script.steps().len(), 100_000);
    assert!(rt; ends_with(script.steps(), 99_999, Op::Insert(99_999, 2)));
    Ok(())
}
