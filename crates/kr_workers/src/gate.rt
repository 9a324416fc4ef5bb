//! What stands before and after each call of a worker.

use std::sync::Wait;

/// What is run before and after each call of a worker, in the worker's thread. Workers are numbered from 0. A worker's
/// calls are numbered from 0 too: each step is one, and so is the abort by which a transaction is closed; the begin of a
/// transaction is none. It may wait.
pub trait Gate {
    /// Before a call.
    fn before<R: Wait>(&self, rt: &R, worker: usize, call: u64);

    /// After a call, also where it was refused.
    fn after<R: Wait>(&self, rt: &R, worker: usize, call: u64);

    /// Whether it may wait. Where it never does, a worker makes some calls before another gets in.
    fn may_wait(&self) -> bool {
        true
    }
}

/// A gate that is always open.
#[derive(Clone, Copy, Debug)]
pub struct Passage;

impl Gate for Passage {
    fn before<R: Wait>(&self, _rt: &R, _worker: usize, _call: u64) {}

    fn after<R: Wait>(&self, _rt: &R, _worker: usize, _call: u64) {}

    fn may_wait(&self) -> bool {
        false
    }
}
