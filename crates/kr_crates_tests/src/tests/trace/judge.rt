//! Committed programs judged by what was observed of their answers.
use crate::tests::trace::given::Given;
use kr_model::{Op, Reply};
use kr_trace_follow::Judge;
use kr_trace_lines::Observed;
use std::alloc::{AllocError, Global};
use std::test::Fail;

/// The operations of a program, with the answers that were observed.
fn program(alloc: Global, given: &[(Op, Given)]) -> Result<Vec<(Op, Observed)>, AllocError> {
    let mut list = Vec::new(alloc);
    for &(op, given) in given {
        list.push((op, given.observed(alloc)?))?;
    }
    Ok(list)
}

#[test]
fn judges_programs_as_they_commit(rt: HostRuntime) -> Result<(), Fail> {
    let alloc = rt.alloc();
    let mut judge = Judge::new(alloc, &[(10, 1)])?;
    let first = program(
        alloc,
        &[
            (Op::Insert(20, 2), Given::Done),
            (Op::Delete(10), Given::Deleted(None)),
        ],
    )?;
    assert!(rt; judge.commit(alloc, &first)?.is_none());
    let second = program(
        alloc,
        &[
            (Op::Fetch(20), Given::Found(2)),
            (Op::Scan(0, 30), Given::Rows(&[(10, 1), (20, 2)])),
            (Op::Update(20, 3), Given::Updated(Some(2))),
        ],
    )?;
    let difference = judge.commit(alloc, &second)?;
    assert!(rt;
        matches!(&difference, Some(it) if it.operation == 2 && matches!(&it.serial, Reply::Rows(rows) if rows.as_slice() == [(20, 2)].as_slice()))
    );
    let third = program(alloc, &[(Op::Fetch(20), Given::Found(3))])?;
    assert!(rt; judge.commit(alloc, &third)?.is_none());
    Ok(())
}
