//! Gates that count calls, or hold a worker's call until another worker's.

use super::done_by;
use kr_report::Threaded;
use kr_threads::Gate;
use std::sync::{Mutex, Wait};
use std::test::Fail;
use std::thread;

/// Counts the calls of two workers, and whether each comes with its number.
#[derive(Drop)]
struct Count {
    first: Mutex<u64>,
    second: Mutex<u64>,
    in_order: Mutex<bool>,
}

impl Count {
    fn of(&self, worker: usize) -> &Mutex<u64> {
        if worker == 0 {
            &self.first
        } else {
            &self.second
        }
    }

    fn expect<R: Wait>(&self, rt: &R, worker: usize, call: u64) {
        if *self.of(worker).lock(rt) != call {
            *self.in_order.lock(rt) = false;
        }
    }
}

impl Gate for Count {
    fn before<R: Wait>(&self, rt: &R, worker: usize, call: u64) {
        self.expect(rt, worker, call);
    }

    fn after<R: Wait>(&self, rt: &R, worker: usize, call: u64) {
        self.expect(rt, worker, call);
        *self.of(worker).lock(rt) = call.saturating_add(1);
    }
}

/// Whether the second step of transaction 4 alone was left out, of six that were done.
fn lacks_one_step(done: &Threaded) -> bool {
    match done.faults.as_slice() {
        [fault] => fault.txn == 4 && fault.step == 2 && done.history.len() == 6,
        _ => false,
    }
}

/// The first worker does the first and the third transaction, of which one is closed by an abort, and the second the
/// second, of which a step is refused: each call comes once, with its number.
#[test]
fn numbered_calls(rt: HostRuntime) -> Result<(), Fail> {
    let gate = Count {
        first: Mutex::new(0),
        second: Mutex::new(0),
        in_order: Mutex::new(true),
    };
    let steps =
        "[[9,\"fetch\",10],[4,\"fetch\",30],[5,\"fetch\",10],[5,\"commit\"],[4,\"go\"],[4,\"commit\"]]";
    let done = done_by(&rt, rt.alloc(), steps, 2, &gate)?;
    assert!(rt; *gate.in_order.lock(&rt));
    assert_eq!(rt; *gate.first.lock(&rt), 4);
    assert_eq!(rt; *gate.second.lock(&rt), 3);
    assert!(rt; lacks_one_step(&done));
    Ok(())
}

/// Holds each worker's call of one number until both workers have come to their first calls, or until both were answered.
#[derive(Drop)]
pub struct Meeting {
    /// The number of the calls that are held.
    held: u64,
    /// Whether the first calls count where they are answered, and not where they begin.
    answered: bool,
    count: Mutex<u64>,
    failed: Mutex<bool>,
}

impl Meeting {
    /// Holds each worker's first call until both workers are inside one.
    pub fn inside() -> Meeting {
        Meeting {
            held: 0,
            answered: false,
            count: Mutex::new(0),
            failed: Mutex::new(false),
        }
    }

    /// Holds each worker's second call until both first calls are answered.
    pub fn after_the_first() -> Meeting {
        Meeting {
            held: 1,
            answered: true,
            count: Mutex::new(0),
            failed: Mutex::new(false),
        }
    }

    /// Whether a call was let in that had waited in vain.
    pub fn has_failed<R: Wait>(&self, rt: &R) -> bool {
        *self.failed.lock(rt)
    }

    fn counts<R: Wait>(&self, rt: &R) {
        let mut count = self.count.lock(rt);
        *count = count.saturating_add(1);
    }

    fn holds<R: Wait>(&self, rt: &R) {
        for _ in 0..1_000_000u32 {
            if *self.count.lock(rt) >= 2 {
                return;
            }
            thread::yield_now();
        }
        *self.failed.lock(rt) = true;
    }
}

impl Gate for Meeting {
    fn before<R: Wait>(&self, rt: &R, _worker: usize, call: u64) {
        if call == 0 && !self.answered {
            self.counts(rt);
        }
        if call == self.held {
            self.holds(rt);
        }
    }

    fn after<R: Wait>(&self, rt: &R, _worker: usize, call: u64) {
        if call == 0 && self.answered {
            self.counts(rt);
        }
    }
}

/// Two workers are inside their calls at the same time.
#[test]
fn workers_at_once(rt: HostRuntime) -> Result<(), Fail> {
    let gate = Meeting::inside();
    let steps = "[[1,\"fetch\",10],[2,\"fetch\",20],[1,\"commit\"],[2,\"commit\"]]";
    let done = done_by(&rt, rt.alloc(), steps, 2, &gate)?;
    assert!(rt; !gate.has_failed(&rt));
    assert_eq!(rt; done.history.len(), 4);
    Ok(())
}
