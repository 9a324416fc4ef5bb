//! Numbers that end in orders other than rising, so many that the recent ones are merged several times.

use kr_txn::{Ended, Memory, Txn};
use std::test::Fail;

fn end(ended: &mut Ended, txn: Txn) -> Result<(), Memory> {
    ended.make_room(1)?;
    ended.add(txn);
    Ok(())
}

#[test]
fn falling_numbers_end(rt: HostRuntime) -> Result<(), Fail> {
    let mut ended = Ended::new(rt.alloc());
    for half in (0..500).rev() {
        end(&mut ended, 2 * half)?;
        holds!(rt; ended.has(2 * half), half);
    }
    for txn in 0..1_000 {
        same!(rt; ended.has(txn), txn % 2 == 0, txn);
    }
    Ok(())
}

#[test]
fn numbers_end_from_the_middle_to_both_ends(rt: HostRuntime) -> Result<(), Fail> {
    let mut ended = Ended::new(rt.alloc());
    for step in 0..300 {
        end(&mut ended, 1_000 - 3 * step)?;
        end(&mut ended, 1_000 + 3 * step)?;
    }
    for txn in 101..1_900 {
        same!(rt; ended.has(txn), txn % 3 == 1, txn);
    }
    assert!(rt; !ended.has(100));
    assert!(rt; !ended.has(1_900));
    Ok(())
}

#[test]
fn the_least_and_the_greatest_number_end(rt: HostRuntime) -> Result<(), Fail> {
    let mut ended = Ended::new(rt.alloc());
    end(&mut ended, Txn::MAX)?;
    assert!(rt; ended.has(Txn::MAX));
    assert!(rt; !ended.has(0));
    for txn in (0..200).rev() {
        end(&mut ended, txn)?;
        end(&mut ended, Txn::MAX)?;
    }
    assert!(rt; ended.has(0));
    assert!(rt; ended.has(199));
    assert!(rt; !ended.has(200));
    assert!(rt; !ended.has(Txn::MAX - 1));
    assert!(rt; ended.has(Txn::MAX));
    Ok(())
}
