//! What one worker does.
ghost use Rattle.std.specs.Prelude.{◌<◌};

use crate::hands::Hand;
use crate::kernel::{Kernel, Outcome};
use crate::name::GhostRunName;
use kr_ghost::Move;
use kr_ghost_protocol::GhostProtocol;
use kr_model::{Op, Txn, is_end};
use kr_workers::Gate;
use std::sync::{Condvar, Mutex, Wait};
use std::thread;

/// What the workers share: the machine with its history, under one lock, and where those sleep whose steps are blocked.
#[derive(Drop)]
pub(crate) struct Shared<P: GhostProtocol, K: GhostRunName> {
    pub kernel: Mutex<Kernel<P, K>>,
    pub changed: Condvar,
}

impl<P: GhostProtocol, K: GhostRunName> Shared<P, K> {
    /// A transaction's next step. It waits while others block it; then it is done or left out.
    fn step<R: Wait>(&self, rt: &R, txn: Txn, op: Op) -> Outcome {
        for _ in rt.forever() {
            let mut kernel = self.kernel.lock(rt);
            let outcome = kernel.attempt(txn, op);
            if outcome != Outcome::Blocked {
                self.wake(outcome != Outcome::Refused);
                return outcome;
            }
            let _woken = self.changed.wait(rt, kernel);
        }
        unreachable!()
    }

    /// Purges a key, if it may be.
    fn purge<R: Wait>(&self, rt: &R, key: u64) {
        let has_changed = self.kernel.lock(rt).purge(key);
        self.wake(has_changed);
    }

    /// Wakes all whose steps are blocked, where anything has changed.
    fn wake(&self, has_changed: bool) {
        if has_changed {
            self.changed.notify_all();
        }
    }
}

/// A worker: its number, from 0, and how many steps it has called for.
#[derive(Drop)]
struct Worker<'a, P: GhostProtocol, K: GhostRunName, G: Gate> {
    number: usize,
    shared: &'a Shared<P, K>,
    gate: &'a G,
    calls: u64,
}

/// Does the transactions that are dealt to a worker, one after another, and answers how many steps it called for. It gives up
/// where memory is refused, to it or to another.
pub(crate) fn work<P: GhostProtocol, K: GhostRunName, G: Gate, R: Wait>(
    rt: &R,
    hands: &[Hand],
    workers: usize,
    gate: &G,
    shared: &Shared<P, K>,
    number: usize,
) -> u64
    requires { 0 < workers }
{
    let mut worker = Worker {
        number,
        shared,
        gate,
        calls: 0,
    };
    for i in 0..hands.len() {
        if i % workers == number && !worker.transact(rt, &hands[i]) {
            break;
        }
    }
    worker.calls
}

impl<P: GhostProtocol, K: GhostRunName, G: Gate> Worker<'_, P, K, G> {
    /// Does the moves of one transaction, aborts it where it is active after them, and then purges the ghosts that it left.
    /// Answers whether the worker goes on.
    fn transact<R: Wait>(&mut self, rt: &R, hand: &Hand) -> bool {
        let Some(active) = self.do_moves(rt, hand) else {
            return false;
        };
        if active && self.call(rt, hand.txn, Op::Abort) == Outcome::Failed {
            return false;
        }
        for next in &hand.moves {
            self.purge_after(rt, *next);
        }
        true
    }

    /// Does the moves of one transaction in order. A refused step is left out; at a deadlock the rest is. Answers whether the
    /// transaction is active after them, or nothing where memory was refused.
    fn do_moves<R: Wait>(&mut self, rt: &R, hand: &Hand) -> Option<bool> {
        let mut active = false;
        for next in &hand.moves {
            match *next {
                Move::Purge(key) => self.shared.purge(rt, key),
                Move::Attempt(event) => match self.call(rt, event.txn, event.op) {
                    Outcome::Done => active = !is_end(event.op),
                    Outcome::Stuck => return Some(active),
                    Outcome::Failed => return None,
                    Outcome::Refused | Outcome::Blocked => {}
                },
            }
        }
        Some(active)
    }

    /// One step between its gates.
    fn call<R: Wait>(&mut self, rt: &R, txn: Txn, op: Op) -> Outcome {
        self.gate.before(rt, self.number, self.calls);
        let outcome = self.shared.step(rt, txn, op);
        self.gate.after(rt, self.number, self.calls);
        self.calls = self.calls.saturating_add(1);
        thread::yield_now();
        outcome
    }

    /// Purges the key of an insert or a delete, once its transaction has ended, if the key is a ghost that may be purged.
    fn purge_after<R: Wait>(&self, rt: &R, next: Move) {
        if let Move::Attempt(event) = next {
            match event.op {
                Op::Insert(key, _) | Op::Delete(key) => self.shared.purge(rt, key),
                _ => {}
            }
        }
    }
}
