//! A log of two transactions, with answers worked out by hand.

ghost use Rattle.std.specs.Prelude.{◌≡◌};

use kr_model::{Event, Op, Pairs, Refusal, Reply, Txns};
use kr_txn::Log;
use std::alloc::Global;
use std::test::Fail;

fn event(txn: u32, op: Op) -> Event
    ensures { result ≡ record { txn = txn; op = op } }
{
    Event { txn, op }
}

/// Transaction 1 fetches 30 and scans 10 to 20 in two steps, while 2 deletes 20, updates 40 and commits, and 3 takes an
/// insert back and aborts.
fn noted(alloc: Global) -> Result<Log, Fail> {
    let mut log = Log::new(alloc);
    log.make_room(1)?;
    log.note(event(1, Op::Fetch(30)), Reply::Found(3));
    log.make_room(1)?;
    log.note(event(1, Op::Scan(10, 20)), Reply::Going(10));
    log.note(
        event(2, Op::Insert(10, 4)),
        Reply::Blocked(Txns::from_vec(vec![in alloc; 1]?)),
    );
    log.make_room(2)?;
    log.note(event(2, Op::Delete(20)), Reply::Deleted(2));
    log.make_room(3)?;
    log.note(event(3, Op::Insert(50, 1)), Reply::Done);
    log.note(event(3, Op::Back), Reply::Undone(0));
    log.make_room(2)?;
    log.note(event(2, Op::Update(40, 1)), Reply::Updated(4));
    log.make_room(2)?;
    log.note(event(2, Op::Commit), Reply::Committed);
    log.note(event(3, Op::Abort), Reply::Aborted);
    log.note(event(2, Op::Fetch(1)), Reply::Refused(Refusal::Ended));
    log.make_room(1)?;
    let rows = Pairs::from_vec(vec![in alloc; (10, 1)]?);
    log.note(event(1, Op::Go), Reply::Rows(rows));
    log.make_room(1)?;
    log.note(event(1, Op::Commit), Reply::Committed);
    log.make_room(7)?;
    log.note(event(7, Op::Commit), Reply::Committed);
    Ok(log)
}

#[test]
fn programs_stand_in_commit_order(rt: HostRuntime) -> Result<(), Fail> {
    let log = noted(rt.alloc())?;
    let programs = log.programs()?;
    let programs = programs.as_slice();
    assert_eq!(rt; programs.len(), 3);
    same!(rt; programs[0].txn, 2);
    same!(rt; programs[1].txn, 1);
    same!(rt; programs[2].txn, 7);
    let second = programs[0].operations.as_slice();
    assert_eq!(rt; second.len(), 2);
    assert!(rt; second[0].0 == Op::Delete(20));
    assert!(rt; matches!(&second[0].1, Reply::Deleted(2)));
    assert!(rt; second[1].0 == Op::Update(40, 1));
    assert!(rt; matches!(&second[1].1, Reply::Updated(4)));
    let first = programs[1].operations.as_slice();
    assert_eq!(rt; first.len(), 2);
    assert!(rt; first[0].0 == Op::Fetch(30));
    assert!(rt; first[1].0 == Op::Scan(10, 20));
    match &first[1].1 {
        Reply::Rows(rows) => same!(rt; rows.as_slice(), [(10, 1)].as_slice()),
        _ => panic!(rt; "the scan has no rows"),
    }
    assert!(rt; programs[2].operations.as_slice().is_empty());
    Ok(())
}
