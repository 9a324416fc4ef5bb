//! Where calls sleep until they are woken.
ghost use Rattle.std.specs.Prelude.{◌≡◌, length};

use kr_model::Txn;
use std::alloc::{AllocError, Global};
use std::marker::Model;
use std::sync::{Condvar, MutexGuard, Wait};

/// How many queues there are.
const QUEUES: usize = 64;

/// Queues of sleeping calls. A call sleeps in that of its transaction's number modulo their count.
#[derive(Drop)]
pub struct Queues {
    queues: Vec<Condvar>,
    ghost count_is: { length queues.items ≡ 64 },
}

/// A transaction whose queue was woken. Only a wake makes one.
#[derive(Drop)]
pub struct Woken {
    txn: Txn,
}

impl Model for Woken {
    ghost use Rattle.std.specs.Prelude.{ℕ};

    ghost Value = { ℕ };

    ghost view = { λ w. w.txn };
}

impl Queues {
    /// Queues in which nobody sleeps, or an error where a growth is refused.
    pub fn new(alloc: Global) -> Result<Queues, AllocError> {
        let mut queues = Vec::with_capacity(alloc, QUEUES)?;
        for _ in 0..QUEUES {
            queues.push(Condvar::new())?;
        }
        Ok(Queues { queues })
    }

    /// Sleeps with the lock let go until the transaction's queue is woken. It may wake without that.
    pub fn sleep<'a, R: Wait, T>(
        &self,
        rt: &R,
        txn: Txn,
        guard: MutexGuard<'a, T>,
    ) -> MutexGuard<'a, T> {
        self.queues[txn as usize % QUEUES].wait(rt, guard)
    }

    /// Wakes all that sleep in the transaction's queue.
    pub fn wake(&self, txn: Txn) -> Woken
        ensures { result ≡ txn }
    {
        self.queues[txn as usize % QUEUES].notify_all();
        Woken { txn }
    }

    /// Wakes all that sleep.
    pub fn wake_all(&self) {
        for queue in &self.queues {
            queue.notify_all();
        }
    }
}
