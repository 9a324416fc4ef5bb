//! A run as a page tells it, and where its steps are found.

use crate::act::{Act, acts_of};
use crate::{Html, Mark, Part};
use kr_locks::Memory;
use kr_model::{Event, Op, Programs, Reply, Txn, Txns};
use kr_serial::{Ran, Verdict};
use std::alloc::{AllocError, Global};

/// How many steps are drawn.
pub const STEPS_DRAWN: usize = 200;

/// A run with what is known of it.
#[derive(Drop)]
pub struct Run<'a> {
    pub opening: &'a [(u64, u64)],
    /// Its steps with what came of them, in order.
    pub acts: Vec<Act>,
    /// What each transaction that committed did, in commit order.
    pub programs: Programs,
    pub unfinished: Txns,
    pub verdict: Verdict,
    /// Whether a deleted key stays as a ghost.
    pub has_ghosts: bool,
}

/// The first operation whose answer isn't that of a serial run.
#[derive(Clone, Copy)]
pub struct Difference<'a> {
    pub txn: Txn,
    /// Its number in the program of its transaction, from 1.
    pub operation: u64,
    pub given: &'a Reply,
    pub serial: &'a Reply,
    /// The numbers of the steps at which it was asked and answered, and at which its transaction committed; 0 where there
    /// is none.
    pub asked: u64,
    pub answered: u64,
    pub committed: u64,
}

/// Whether a granted operation counts as one of its transaction's program.
fn counts(op: Op) -> bool {
    match op {
        Op::Fetch(_) | Op::Scan(_, _) | Op::Insert(_, _) | Op::Delete(_) | Op::Update(_, _) => true,
        Op::Go | Op::Commit | Op::Abort | Op::Back => false,
    }
}

/// The operation of a step, where it is one of this transaction that was done.
fn granted_to(txn: Txn, act: &Act) -> Option<Op> {
    match act {
        Act::Attempt(_, Reply::Blocked(_) | Reply::Refused(_)) => None,
        Act::Attempt(event, _) if event.txn == txn => Some(event.op),
        _ => None,
    }
}

impl<'a> Run<'a> {
    /// The run of these steps from an opening map, which left this, with the verdict on it. The only error is that a growth was
    /// refused.
    pub fn of_steps(
        alloc: Global,
        opening: &'a [(u64, u64)],
        steps: &[Event],
        ran: Ran,
        verdict: Verdict,
    ) -> Result<Run<'a>, Memory> {
        let acts = acts_of(alloc, steps, ran.replies.into_vec())?;
        Ok(Run {
            opening,
            acts,
            programs: ran.programs,
            unfinished: ran.unfinished,
            verdict,
            has_ghosts: false,
        })
    }
}

impl Run<'_> {
    /// How many steps come before those that are drawn.
    pub fn skipped(&self) -> usize {
        self.acts.len().saturating_sub(STEPS_DRAWN)
    }

    /// The first operation whose answer isn't that of a serial run, if there is one.
    pub fn difference(&self) -> Option<Difference<'_>> {
        match &self.verdict {
            Verdict::Serial => None,
            Verdict::NotSerial {
                txn,
                operation,
                given,
                serial,
            } => Some(self.located(Difference {
                txn: *txn,
                operation: *operation,
                given,
                serial,
                asked: 0,
                answered: 0,
                committed: 0,
            })),
        }
    }

    /// A difference with the numbers of its steps.
    fn located<'a>(&self, difference: Difference<'a>) -> Difference<'a> {
        let Difference { txn, operation, .. } = difference;
        let mut found = difference;
        let mut count: u64 = 0;
        let mut number: u64 = 0;
        for act in &self.acts {
            number = number.saturating_add(1);
            if let Some(op) = granted_to(txn, act) {
                if counts(op) {
                    count = count.saturating_add(1);
                    if count == operation {
                        found.asked = number;
                    }
                }
                if count == operation && (counts(op) || op == Op::Go) {
                    found.answered = number;
                }
                if op == Op::Commit {
                    found.committed = number;
                }
            }
        }
        found
    }

    /// Writes the name of a step, with a link to its band if it is drawn.
    pub fn write_step(&self, out: &mut Html, number: u64) -> Result<(), AllocError> {
        if number > self.skipped() as u64 {
            out.put(&[
                Part::Mark(Mark::Link),
                Part::Number(number),
                Part::Mark(Mark::EndTag),
                Part::Text("step "),
                Part::Number(number),
                Part::Mark(Mark::EndLink),
            ])
        } else {
            out.put(&[
                Part::Text("step "),
                Part::Number(number),
                Part::Text(", which isn"),
                Part::Mark(Mark::Apostrophe),
                Part::Text("t drawn"),
            ])
        }
    }
}
