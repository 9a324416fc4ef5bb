//! Cycles of waiting transactions, each of which the call finds, and waits without one.
use kr_deadlock::{Waiting, find_cycle};
use std::alloc::{AllocError, Global};
use std::test::Fail;

fn waits_of(alloc: Global, lists: &[(u32, &[u32])]) -> Result<Vec<Waiting>, AllocError> {
    let mut waits = Vec::new(alloc);
    for &(txn, blockers) in lists {
        waits.push(Waiting {
            txn,
            blockers: Vec::from_slice(alloc, blockers)?,
        })?;
    }
    Ok(waits)
}

#[test]
fn names_the_cycle(rt: HostRuntime) -> Result<(), Fail> {
    let alloc = rt.alloc();
    let two = waits_of(alloc, &[(2, &[1]), (1, &[2])])?;
    assert_eq!(rt; find_cycle(alloc, &two, 2)?, Some(vec![in alloc; 2, 1]?));
    let alone = waits_of(alloc, &[(7, &[3, 7])])?;
    assert_eq!(rt; find_cycle(alloc, &alone, 7)?, Some(vec![in alloc; 7]?));
    let far = waits_of(alloc, &[(1, &[9]), (2, &[3]), (3, &[2, 5]), (5, &[1, 2])])?;
    assert_eq!(rt; find_cycle(alloc, &far, 5)?, Some(vec![in alloc; 5, 2, 3]?));
    Ok(())
}

#[test]
fn names_none(rt: HostRuntime) -> Result<(), Fail> {
    let alloc = rt.alloc();
    let chain = waits_of(alloc, &[(3, &[1, 2]), (2, &[1])])?;
    assert!(rt; find_cycle(alloc, &chain, 3)?.is_none());
    assert!(rt; find_cycle(alloc, &chain, 1)?.is_none());
    let beside = waits_of(alloc, &[(3, &[1]), (1, &[2]), (2, &[1])])?;
    assert!(rt; find_cycle(alloc, &beside, 3)?.is_none());
    let twice = waits_of(alloc, &[(1, &[]), (1, &[2]), (2, &[1])])?;
    assert!(rt; find_cycle(alloc, &twice, 1)?.is_none());
    Ok(())
}
