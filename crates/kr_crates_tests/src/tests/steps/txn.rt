//! Each call once, with answers worked out by hand.
ghost use Rattle.kr_txn.specs.Standings.{IsInOrder};

mod ended;
mod log;

use kr_txn::{Ended, Memory, Standing, Txn, numbers, position, put_in, put_once, take_out};
use std::alloc::Global;
use std::test::Fail;

/// Puts a new transaction into a list, in the place of itself where it is there already.
fn stand(alloc: Global, list: &mut Vec<Standing>, txn: Txn) -> Result<(), Memory>
    requires { IsInOrder list.old.items }
    ensures { IsInOrder list.new.items }
{
    list.reserve(1)?;
    let _ = take_out(list, txn);
    put_in(list, Standing::new(alloc, txn));
    Ok(())
}

#[test]
fn a_new_transaction_has_done_nothing(rt: HostRuntime) {
    let standing = Standing::new(rt.alloc(), 7);
    same!(rt; standing.txn, 7);
    assert!(rt; standing.scan.is_none());
    assert!(rt; standing.changes.is_empty());
}

#[test]
fn a_list_rises_by_number(rt: HostRuntime) -> Result<(), Fail> {
    let mut list = Vec::new(rt.alloc());
    assert!(rt; take_out(&mut list, 5).is_none());
    stand(rt.alloc(), &mut list, 5)?;
    stand(rt.alloc(), &mut list, 9)?;
    stand(rt.alloc(), &mut list, 2)?;
    stand(rt.alloc(), &mut list, 7)?;
    same!(rt;
        numbers(rt.alloc(), &list)?.as_slice(),
        [2, 5, 7, 9].as_slice()
    );
    same!(rt; position(&list, 2), Some(0));
    same!(rt; position(&list, 9), Some(3));
    same!(rt; position(&list, 6), None);

    let taken = take_out(&mut list, 5);
    same!(rt; taken.map(|standing| standing.txn), Some(5));
    same!(rt;
        numbers(rt.alloc(), &list)?.as_slice(),
        [2, 7, 9].as_slice()
    );
    Ok(())
}

#[test]
fn a_rising_list_has_each_transaction_once(rt: HostRuntime) -> Result<(), Fail> {
    let mut txns = Vec::new(rt.alloc());
    for txn in [5, 9, 2, 7, 5, 2] {
        put_once(&mut txns, txn)?;
    }
    same!(rt; txns.as_slice(), [2, 5, 7, 9].as_slice());
    Ok(())
}

#[test]
fn what_has_ended_stays_so(rt: HostRuntime) -> Result<(), Fail> {
    let mut ended = Ended::new(rt.alloc());
    assert!(rt; !ended.has(4));
    for txn in [4, 900, 2, 4] {
        ended.make_room(1)?;
        ended.add(txn);
    }
    for (txn, has) in [
        (0, false),
        (2, true),
        (3, false),
        (4, true),
        (900, true),
        (901, false),
    ] {
        same!(rt; ended.has(txn), has, txn);
    }
    Ok(())
}
