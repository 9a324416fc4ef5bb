//! What steps, operations and verdicts tell, as it stands in rows.

use kr_model::{Op, Pairs, Program, Reply, Txn};
use kr_serial::Verdict;
use kr_test_support::Answer;
use std::alloc::{AllocError, Global};

/// The reply that is this answer, where it is one to an operation.
pub fn reply_of(alloc: Global, answer: Answer) -> Result<Reply, AllocError> {
    Ok(match answer {
        Answer::Found(value) => Reply::Found(value),
        Answer::Rows(pairs) => Reply::Rows(Pairs::from_vec(pairs.to_vec(alloc)?)),
        Answer::Done => Reply::Done,
        Answer::Duplicate => Reply::Duplicate,
        Answer::Deleted(value) => Reply::Deleted(value),
        Answer::Absent => Reply::Absent,
        Answer::Updated(value) => Reply::Updated(value),
        _ => Reply::None,
    })
}

/// What a transaction that committed did, and what it was told.
#[derive(Clone, Copy)]
pub struct Did<'a> {
    pub txn: Txn,
    pub operations: &'a [(Op, Answer<'a>)],
}

impl Did<'_> {
    /// Whether a program tells that.
    fn is(self, program: &Program) -> bool {
        let operations = program.operations.as_slice();
        if operations.len() != self.operations.len() {
            return false;
        }
        for ((op, reply), (wanted, answer)) in operations.iter().zip(self.operations) {
            if *op != *wanted || !answer.is(reply) {
                return false;
            }
        }
        program.txn == self.txn
    }
}

/// Whether programs tell that.
pub fn are_programs(programs: &[Program], wanted: &[Did]) -> bool {
    if programs.len() != wanted.len() {
        return false;
    }
    for (program, did) in programs.iter().zip(wanted) {
        if !did.is(program) {
            return false;
        }
    }
    true
}

/// The verdict on programs that committed.
#[derive(Clone, Copy)]
pub enum Told<'a> {
    Serial,
    /// The first answer that differs: whose it is, the number of the operation in its program, the answer that was given,
    /// and the one of the commit order.
    NotSerial {
        txn: Txn,
        operation: u64,
        given: Answer<'a>,
        serial: Answer<'a>,
    },
}

impl Told<'_> {
    /// Whether this is the verdict.
    pub fn is(self, verdict: &Verdict) -> bool {
        match (self, verdict) {
            (Told::Serial, Verdict::Serial) => true,
            (
                Told::NotSerial {
                    txn,
                    operation,
                    given,
                    serial,
                },
                Verdict::NotSerial {
                    txn: whose,
                    operation: number,
                    given: first,
                    serial: second,
                },
            ) => txn == *whose && operation == *number && given.is(first) && serial.is(second),
            _ => false,
        }
    }
}
