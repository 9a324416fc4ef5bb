//! Workers that take turns, behind a gate that never waits for another's transaction.

use super::done_by;
use kr_threads::Gate;
use std::alloc::Global;
use std::fmt::Write;
use std::sync::{Mutex, Wait};
use std::test::Fail;
use std::thread;

/// Holds each of two workers at the end of each of its turns, until the other has ended as many.
#[derive(Drop)]
struct Turns {
    first: Mutex<u64>,
    second: Mutex<u64>,
    failed: Mutex<bool>,
}

impl Turns {
    fn of(&self, worker: usize) -> &Mutex<u64> {
        if worker == 0 {
            &self.first
        } else {
            &self.second
        }
    }

    fn ends<R: Wait>(&self, rt: &R, worker: usize) -> u64 {
        let mut ended = self.of(worker).lock(rt);
        *ended = ended.saturating_add(1);
        *ended
    }

    fn holds<R: Wait>(&self, rt: &R, other: usize, ended: u64) {
        for _ in 0..1_000_000u32 {
            if *self.of(other).lock(rt) >= ended {
                return;
            }
            thread::yield_now();
        }
        *self.failed.lock(rt) = true;
    }
}

/// Whether a turn ends with so many calls: turns are of 1, 2, 4 calls and so on up to 256, and then of 256 each. The turn of 32
/// calls ends amid a transaction, which commits without a turn.
fn is_end(calls: u64) -> bool {
    match calls {
        1 | 3 | 7 | 15 | 31 | 63 | 128 | 256 | 512 => true,
        _ => calls > 512 && calls % 256 == 0,
    }
}

impl Gate for Turns {
    fn before<R: Wait>(&self, _rt: &R, _worker: usize, _call: u64) {}

    fn after<R: Wait>(&self, rt: &R, worker: usize, call: u64) {
        if is_end(call.saturating_add(1)) {
            let ended = self.ends(rt, worker);
            self.holds(rt, 1usize.saturating_sub(worker), ended);
        }
    }

    fn may_wait(&self) -> bool {
        false
    }
}

/// As many transactions, each of which reads a key of its own and commits.
fn steps_of(alloc: Global, txns: u32) -> Result<String, Fail> {
    let mut steps = format!(in alloc; "[[0,\"fetch\",0],[0,\"commit\"]")?;
    for txn in 1..txns {
        write!(steps, ",[{txn},\"fetch\",{txn}],[{txn},\"commit\"]")?;
    }
    write!(steps, "]")?;
    Ok(steps)
}

/// Two workers with more calls than fit in their first turns: each ends a turn only as the other does, and so neither runs
/// after the other.
#[test]
fn turns_that_end(rt: HostRuntime) -> Result<(), Fail> {
    let alloc = rt.alloc();
    let gate = Turns {
        first: Mutex::new(0),
        second: Mutex::new(0),
        failed: Mutex::new(false),
    };
    let steps = steps_of(alloc, 800)?;
    let done = done_by(&rt, alloc, steps.as_str(), 2, &gate)?;
    assert!(rt; !*gate.failed.lock(&rt));
    assert_eq!(rt; *gate.first.lock(&rt), 10);
    assert_eq!(rt; *gate.second.lock(&rt), 10);
    assert_eq!(rt; done.history.len(), 1600);
    Ok(())
}
